use mill_base::{Cutter, Solid};
use mill_gouge::{clears, first_gouge};
use mill_part::SortedPart;
use mill_tables::{feed, halves, part_of};
use std::process::Abort;
use std::test::Fail;

// Posts of no width: the first is at (0, 0) and 300 high, and the second at (1000, 0) and 200 high.
const POSTS: &str = "0 0 300; 1000 0 200";

// Over both at the height 300; under the top of one at 250, and of both at 199; and at 103 beside
// them, which is the radius and 3 away, at the height 0. A move that begins between the posts meets the
// second alone.
const MOVES: &str = "\
-500 0 300 to 1500 0 300 => none
-500 0 250 to 1500 0 250 => 0
-500 0 199 to 1500 0 199 => 0
-500 103 0 to 1500 103 0 => none
-500 -103 0 to 1500 -103 0 => none
500 0 199 to 1500 0 199 => 1";

/// A post's number, or `none`.
fn number(word: &str) -> Result<Option<u32>, Fail> {
    if word == "none" {
        return Ok(None);
    }
    Ok(Some(word.parse()?))
}

/// Looks at a move: the post that a flat cutter gouges along it, and whether it is clear.
fn look<R: Abort>(rt: &R, shape: &SortedPart, row: &str) -> Result<(), Fail> {
    let (along, wanted) = halves(row)?;
    let (along, post) = (feed(along)?, number(wanted)?);
    let flat = Solid::at_tip(Cutter::Flat { radius: 100 });
    let gouge = first_gouge(flat, shape, &along);
    let is_clear = clears(flat, shape, &along);
    let found = (gouge.map(|gouge| gouge.tri), is_clear);
    assert_eq!(rt; found, (post, post.is_none()), "{row}");
    Ok(())
}

fn look_at_each<R: Abort>(rt: &R, shape: &SortedPart, table: &str) -> Result<(), Fail> {
    for row in table.lines() {
        look(rt, shape, row)?;
    }
    Ok(())
}

#[test]
fn posts_are_passed_over_and_beside(rt: HostRuntime) -> Result<(), Fail> {
    let shape = part_of(rt.alloc(), POSTS)?;
    look_at_each(&rt, &shape, MOVES)
}
