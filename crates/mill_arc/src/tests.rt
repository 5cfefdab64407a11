//! The chords of arcs that can be told by hand.
ghost use Rattle.std.specs.Prelude.{◌≡◌};
ghost use Rattle.mill_arc.specs.Arcs.{IsArc};

use crate::{Arc, Chord, Vector, height, place};
use mill_base::Unit;
use std::alloc::Global;
use std::process::Abort;

fn vector(first: i64, second: i64) -> Vector
    ensures along_first { result.first ≡ first }
    ensures along_second { result.second ≡ second }
{
    Vector { first, second }
}

/// The arc has these chords, by their nodes, parts and depths.
fn has_chords<R: Abort>(rt: &R, alloc: Global, arc: Arc, want: &[(Vector, u32, u8)])
    requires { IsArc arc }
{
    let mut chords = Vec::new(alloc);
    assert!(rt; arc.is_sound());
    let whole = arc.chords(&mut chords);
    assert_eq!(rt; whole, Ok(true));
    let told: &[Chord] = &chords;
    assert_eq!(rt; told.len(), want.len());
    for (chord, wanted) in told.iter().zip(want) {
        assert_eq!(rt; (chord.node, chord.part, chord.depth), *wanted);
    }
}

#[test]
fn parts_whole_turns(rt: HostRuntime) {
    let start = vector(40_000, 0);
    let turn = Arc {
        start,
        end: start,
        counterclockwise: true,
        unit: Unit::Hundredth,
        tolerance: 1,
    };
    has_chords(
        &rt,
        rt.alloc(),
        turn,
        &[
            (vector(0, 40_000), 1, 2),
            (vector(-40_000, 0), 2, 2),
            (vector(0, -40_000), 3, 2),
            (start, 4, 2),
        ],
    );
    let back = Arc {
        counterclockwise: false,
        ..turn
    };
    has_chords(
        &rt,
        rt.alloc(),
        back,
        &[
            (vector(0, -40_000), 1, 2),
            (vector(-40_000, 0), 2, 2),
            (vector(0, 40_000), 3, 2),
            (start, 4, 2),
        ],
    );
}

#[test]
fn rounds_places_and_heights(rt: HostRuntime) {
    assert_eq!(rt;
        place(
            vector(15_000, -15_000),
            vector(40_000, 10_000),
            Unit::Hundredth
        ),
        (6, -1)
    );
    let chord = Chord {
        node: vector(0, 40_000),
        part: 1,
        depth: 2,
    };
    assert_eq!(rt; height(0, -60_000, chord, Unit::Hundredth), -2);
    assert_eq!(rt; height(0, 55_999, chord, Unit::Thousandth), 14);
}
