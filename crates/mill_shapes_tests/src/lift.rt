ghost use Rattle.mill_base.specs.Ranges.{MoveInRange};

use mill_base::{LOWEST_LIFT, Move, Solid, Tool};
use mill_gouge::{has_room, least_lift};
use mill_part::SortedPart;
use mill_tables::{cutter, feed, halves, number, part_of, tool};
use std::process::Abort;
use std::test::Fail;

// One post of no width, at the origin and 300 high.
const POST: &str = "0 0 300";

// A flat cutter over the post passes it at its height, and beside the post anywhere. A ball of
// radius 100 whose axis is 60 beside it comes to lie on it with its tip at 280. A holder of radius
// 200 whose lower face is 50 over the tip passes it with the tip at 250, where its cutter is free.
// A flat cutter whose tip is 20 under the tool's has to be 20 higher than one at the tip. Of the
// last three moves the first has just room; the second would leave the range of coordinates before
// it is over the post, and the third before its low cutter is.
const MOVES: &str = "\
flat 100 on -500 0 300 to 500 0 300 => 0
flat 100 on -500 0 199 to 500 0 199 => 101
flat 100 on 0 0 1000 to 0 0 -200 => 500
flat 100 on 100 0 1000 to 100 0 -200 => 0
ball 100 on 60 0 500 to 60 0 0 => 280
flat 100 in 200 50 on 150 0 1000 to 150 0 0 => 250
flat 100 at -20 on -500 0 300 to 500 0 300 => 20
flat 100 at -20 on -500 0 320 to 500 0 320 => 0
flat 100 on 0 0 523987 to 0 0 0 => 300
flat 100 on 0 0 523988 to 0 0 0 => no room
flat 100 at -1 on 0 0 523987 to 0 0 0 => no room";

/// A tool, or a cutter alone with its tip under the tool's, as `flat 100 at -20`.
fn lifted(text: &str) -> Result<Tool, Fail> {
    match text.split_once(" at ") {
        None => tool(text),
        Some((shape, lift)) => {
            let lift = number(lift, LOWEST_LIFT, 0)?;
            Ok(Tool::bare(Solid::new(cutter(shape)?, lift)))
        }
    }
}

/// The least lift, or `no room`.
fn least(held: &Tool, shape: &SortedPart, along: &Move) -> Option<u32>
    requires { MoveInRange along.now }
{
    if !has_room(held, shape.part(), along) {
        return None;
    }
    Some(least_lift(held, shape, along))
}

/// A lift's units, or `no room`.
fn units(text: &str) -> Result<Option<u32>, Fail> {
    if text == "no room" {
        return Ok(None);
    }
    Ok(Some(text.parse()?))
}

fn look<R: Abort>(rt: &R, shape: &SortedPart, row: &str) -> Result<(), Fail> {
    let (text, wanted) = halves(row)?;
    let (held, along) = text.split_once(" on ").ok_or("a row without a move")?;
    let found = least(&lifted(held)?, shape, &feed(along)?);
    assert_eq!(rt; found, units(wanted)?, "{row}");
    Ok(())
}

fn look_at_each<R: Abort>(rt: &R, shape: &SortedPart) -> Result<(), Fail> {
    for row in MOVES.lines() {
        look(rt, shape, row)?;
    }
    Ok(())
}

#[test]
fn moves_are_lifted_over_a_post(rt: HostRuntime) -> Result<(), Fail> {
    let shape = part_of(rt.alloc(), POST)?;
    look_at_each(&rt, &shape)
}
