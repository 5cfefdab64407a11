ghost use Rattle.mill_base.specs.Ranges.{IsInRange, MoveInRange, TriInRange};

use crate::tables::leaf;
use mill_base::{Box2, Cutter, Kind, LOWEST_LIFT, MAX_COORDINATE, Move, Pt3, Solid, Tri};
use mill_sweep::{
    Leaf, Sweep, first_block, first_block_point, passes_point, passes_tri, reach_box,
};
use mill_tables::{cutter, feed, halves, number, point, step, triangle};
use std::process::Abort;
use std::test::Fail;

mod leaves;

/// Where something stops the solid, by the call and by a sweep, and whether the solid passes it.
type Stop = (Option<Leaf>, Option<Leaf>, bool);

fn stop_at(solid: Solid, step: &Move, tri: &Tri) -> Stop
    requires move_ok { MoveInRange step.now }
    requires tri_ok { TriInRange tri.now }
{
    (
        first_block(solid, step, tri),
        Sweep::new(solid, step).first_block(tri),
        passes_tri(solid, step, tri),
    )
}

/// Where a point stops it, also as a triangle of three equal corners.
fn stops_at_point(solid: Solid, step: &Move, point: Pt3) -> (Stop, Stop)
    requires move_ok { MoveInRange step.now }
    requires point_ok { IsInRange point }
{
    let tri = Tri {
        a: point,
        b: point,
        c: point,
    };
    let by_point = (
        first_block_point(solid, step, point),
        Sweep::new(solid, step).first_block_point(point),
        passes_point(solid, step, point),
    );
    (by_point, stop_at(solid, step, &tri))
}

/// Where a triangle by its corners stops it, or a point, in both ways.
fn stops(solid: Solid, step: &Move, corners: &str) -> Result<(Stop, Stop), Fail>
    requires { MoveInRange step.now }
{
    if !corners.contains(',') {
        return Ok(stops_at_point(solid, step, point(corners)?));
    }
    let stop = stop_at(solid, step, &triangle(corners)?);
    Ok((stop, stop))
}

/// A cutter with its tip at the tool's, or so much over it, as `flat 200 over 50`.
fn solid(text: &str) -> Result<Solid, Fail> {
    let Some((shape, lift)) = text.split_once(" over ") else {
        return Ok(Solid::at_tip(cutter(text)?));
    };
    let lift = number(lift, LOWEST_LIFT, MAX_COORDINATE as i32)?;
    Ok(Solid::new(cutter(shape)?, lift))
}

fn look<R: Abort>(rt: &R, kind: Kind, row: &str) -> Result<(), Fail> {
    let (text, wanted) = halves(row)?;
    let (held, text) = text.split_once(" from ").ok_or("a row without a move")?;
    let (along, corners) = text.split_once(": ").ok_or("a row without a triangle")?;
    let found = stops(solid(held)?, &step(kind, along)?, corners)?;
    let leaf = leaf(wanted)?;
    let wanted = (leaf, leaf, leaf.is_none());
    assert_eq!(rt; found, (wanted, wanted), "{row}");
    Ok(())
}

/// Looks at many moves of a kind: each row has the solid, the move, a triangle or a point, and where that
/// stops it.
fn each_of<R: Abort>(rt: &R, kind: Kind, table: &str) -> Result<(), Fail> {
    for row in table.lines() {
        look(rt, kind, row)?;
    }
    Ok(())
}

/// Looks at many feeds.
fn each_move<R: Abort>(rt: &R, table: &str) -> Result<(), Fail> {
    each_of(rt, Kind::Feed, table)
}

// A flat that plunges onto a plate, or as near beside it as its radius lets it.
const PLATES: &str = "\
flat 150 from 100 100 400 to 100 100 199: 200 100 200, 500 0 200, 500 300 200 => 8 254
flat 150 from 100 100 400 to 100 100 200: 200 100 200, 500 0 200, 500 300 200 => none
flat 150 from 100 100 400 to 100 100 199: 249 100 200, 500 0 200, 500 300 200 => 8 254
flat 150 from 100 100 400 to 100 100 199: 250 100 200, 500 0 200, 500 300 200 => none";

#[test]
fn flat_stops_at_a_plate(rt: HostRuntime) -> Result<(), Fail> {
    each_move(&rt, PLATES)
}

// A plunge 60 beside the point is stopped where the ball, 20 over its tip there, comes to it. A ball runs
// into a point as high as its middle, and another one slides under it. A flat goes past a point at its
// radius, and a little nearer.
const POINTS: &str = "\
ball 100 from 60 0 500 to 60 0 280: 0 0 300 => none
ball 100 from 60 0 280 to 60 0 279: 0 0 300 => 0 0
ball 100 from 60 0 500 to 60 0 279: 0 0 300 => 8 254
ball 100 from 0 0 200 to 1000 0 200: 500 0 300 => 10 409
ball 100 from 0 0 300 to 1000 0 300: 500 0 300 => none
flat 100 from 0 100 0 to 1000 100 0: 500 0 300 => 10 497
flat 100 from 0 101 0 to 1000 101 0: 500 0 300 => none";

#[test]
fn cutters_stop_at_a_point(rt: HostRuntime) -> Result<(), Fail> {
    each_move(&rt, POINTS)
}

// A plunge at the origin, with a flat of radius 200 whose face is 50 over the tip, as a holder's may be. It
// passes a point at its radius and stops at one a unit nearer; it passes a point on its face at the end of
// the plunge, at the lift over the tip, and stops at one a unit higher. So it does with its face as much
// under the tip. A solid's tip that leaves the range upward is over everything.
const LIFTED: &str = "\
flat 200 over 50 from 0 0 1000 to 0 0 0: 200 0 500 => none
flat 200 over 50 from 0 0 1000 to 0 0 0: 199 0 500 => 10 563
flat 200 over 50 from 0 0 1000 to 0 0 0: -200 0 500 => none
flat 200 over 50 from 0 0 1000 to 0 0 0: -199 0 500 => 10 563
flat 200 over 50 from 0 0 1000 to 0 0 0: 0 0 49 => none
flat 200 over 50 from 0 0 1000 to 0 0 0: 0 0 50 => none
flat 200 over 50 from 0 0 1000 to 0 0 0: 0 0 51 => 10 1022
flat 200 over -50 from 0 0 1000 to 0 0 0: 0 0 -50 => none
flat 200 over -50 from 0 0 1000 to 0 0 0: 0 0 -49 => 10 1022
flat 200 over 50 from 0 0 1000 to 0 0 0: 200 0 60, 300 0 60, 400 0 0 => none
flat 200 over 50 from 0 0 1000 to 0 0 0: 199 0 60, 300 0 60, 400 0 0 => 10 1013
flat 200 over 50 from 0 0 1000 to 0 0 0: 199 0 50, 300 0 50, 400 0 0 => none
flat 10000 over 524287 from 0 0 524287 to 524287 0 524287: 0 0 524287 => none
flat 10000 over 524287 from 0 0 524287 to 524287 0 524287: \
    0 0 524287, 0 524287 524287, 524287 0 524287 => none";

#[test]
fn lifted_solids_stop_beside_and_under(rt: HostRuntime) -> Result<(), Fail> {
    each_move(&rt, LIFTED)
}

// A dogleg may be anywhere in the box of its two ends, and as low as the lower one. A straight move
// from one end to the other is far from the first point. Beside the box the radius counts along
// each axis, whatever the shape, also at a corner; and the lower end is that of the solid.
const DOGLEGS: &str = "\
flat 100 from 0 0 200 to 1000 500 300: 900 100 201 => 0 0
flat 100 from 0 0 200 to 1000 500 300: 900 100 200 => none
flat 100 from 1000 500 300 to 0 0 200: 900 100 201 => 0 0
flat 100 from 0 0 200 to 1000 500 300: 1100 100 300 => none
flat 100 from 0 0 200 to 1000 500 300: 1099 100 300 => 0 0
flat 100 from 0 0 200 to 1000 500 300: 500 -100 300 => none
flat 100 from 0 0 200 to 1000 500 300: 500 -99 300 => 0 0
flat 100 from 0 0 200 to 1000 500 300: 1099 599 300 => 0 0
ball 100 from 0 0 200 to 1000 500 300: 1099 100 201 => 0 0
flat 100 over 50 from 0 0 200 to 1000 500 300: 500 250 250 => none
flat 100 over 50 from 0 0 200 to 1000 500 300: 500 250 251 => 0 0
flat 100 from 0 0 200 to 1000 500 300: 1100 0 300, 1200 0 300, 1100 500 300 => none
flat 100 from 0 0 200 to 1000 500 300: 1099 0 300, 1200 0 300, 1100 500 300 => 0 0";

#[test]
fn doglegs_stop_at_what_is_near_their_box(rt: HostRuntime) -> Result<(), Fail> {
    each_of(&rt, Kind::Dogleg, DOGLEGS)?;
    each_move(
        &rt,
        "flat 100 from 0 0 200 to 1000 500 300: 900 100 201 => none",
    )
}

// The ends' box, wider by the radius and 2, and the lower end of the solid's way; no further out than
// 524,287.
#[test]
fn reach_is_the_box_of_the_ends(rt: HostRuntime) -> Result<(), Fail> {
    let flat = Cutter::Flat { radius: 150 };
    let lifted = Solid::new(flat, 70);
    let wide = Box2 {
        x0: -52,
        y0: -352,
        x1: 452,
        y1: 202,
    };
    assert_eq!(rt;
        reach_box(lifted, &feed("100 -200 400 to 300 50 20")?),
        (wide, 90)
    );
    let cut_off = Box2 {
        x0: -524_287,
        y0: -152,
        x1: 152,
        y1: 524_287,
    };
    assert_eq!(rt;
        reach_box(Solid::at_tip(flat), &feed("-524287 524287 0 to 0 0 5")?),
        (cut_off, 0)
    );
    Ok(())
}
