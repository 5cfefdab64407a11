//! How often moves are halved, and where their leaves lie.
ghost use Rattle.std.specs.Prelude.{◌≤◌, ◌<◌, ◌^◌};

use crate::tables::leaf;
use mill_base::{Kind, Move, Pt3, power_of_two};
use mill_sweep::{Span, depth, span};
use mill_tables::{feed, first_word, halves};
use std::process::Abort;
use std::test::Fail;

/// A span by its middle in x and in y, its reach and its lower end.
fn span_of(text: &str) -> Result<Span, Fail> {
    let (x, others) = first_word(text)?;
    let (y, others) = first_word(others)?;
    let (reach, zlow) = first_word(others)?;
    Ok(Span {
        x: x.parse()?,
        y: y.parse()?,
        reach: reach.parse()?,
        zlow: zlow.parse()?,
    })
}

// From 500 down to 279: the last leaf but one is at rest in x and y. Of a whole move the middle of -3 and
// 0 is -1, the half rounded up, and the lower end is at -1. Then the leaves at which a flat and a ball
// are stopped by a point at (500, 0).
const SPANS: &str = "\
60 0 500 to 60 0 279 at 8 254 => 60 0 0 279
-3 0 0 to 0 0 -1 at 0 0 => -1 0 2 -1
0 100 200 to 1000 100 200 at 10 497 => 486 100 1 200
0 100 200 to 1000 100 200 at 10 409 => 400 100 1 200";

fn look_at_span<R: Abort>(rt: &R, row: &str) -> Result<(), Fail> {
    let (text, wanted) = halves(row)?;
    let (along, part) = text.split_once(" at ").ok_or("a row without a leaf")?;
    let (along, part) = (feed(along)?, leaf(part)?.ok_or("a row without a leaf")?);
    if part.d > depth(&along) || part.k >= power_of_two(part.d) {
        return Err(Fail::from("no leaf of the move"));
    }
    assert_eq!(rt; span(&along, part), span_of(wanted)?, "{row}");
    Ok(())
}

#[test]
fn spans_of_leaves(rt: HostRuntime) -> Result<(), Fail> {
    for row in SPANS.lines() {
        look_at_span(&rt, row)?;
    }
    Ok(())
}

/// A point of any coordinates.
fn place(text: &str) -> Result<Pt3, Fail> {
    let (x, others) = first_word(text)?;
    let (y, z) = first_word(others)?;
    Ok(Pt3 {
        x: x.parse()?,
        y: y.parse()?,
        z: z.parse()?,
    })
}

// A length of a power of two, and one less and one more; and the longest that there is. By the longest
// axis; and of the longest moves that a text gives and that calls take.
const DEPTHS: &str = "\
0 7 7 to 0 7 7 => 0
0 7 7 to 1 7 7 => 0
0 7 7 to 2 7 7 => 1
3 7 7 to 0 7 7 => 2
0 7 7 to 4 7 7 => 2
5 7 7 to 0 7 7 => 3
-1000 7 7 to 0 7 7 => 10
-2147483648 7 7 to 2147483647 7 7 => 32
60 0 500 to 60 3 279 => 8
-131071 -131071 0 to 131071 131071 0 => 18
-524287 -524287 0 to 524287 524287 0 => 20";

fn look_at_depth<R: Abort>(rt: &R, row: &str) -> Result<(), Fail> {
    let (ends, wanted) = halves(row)?;
    let (from, to) = ends.split_once(" to ").ok_or("a row without an end")?;
    let step = Move {
        kind: Kind::Feed,
        from: place(from)?,
        to: place(to)?,
    };
    assert_eq!(rt; depth(&step), wanted.parse()?, "{row}");
    Ok(())
}

#[test]
fn depths_by_the_length(rt: HostRuntime) -> Result<(), Fail> {
    for row in DEPTHS.lines() {
        look_at_depth(&rt, row)?;
    }
    Ok(())
}
