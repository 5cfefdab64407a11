//! Programs by hand, which read back.
ghost use Rattle.mill_base.specs.Ranges.{IsInUnitRange};

use mill_base::{Kind, Move, Pt3, Unit};
use mill_ngc::{NgcFault, Reader, Rules, Words, write_program};
use std::alloc::Global;
use std::process::Abort;
use std::test::Fail;

const HOME: Pt3 = Pt3 {
    x: 100,
    y: 100,
    z: 400,
};

// What a program is asked for that begins with the way to a place.
const ANYWHERE: Rules = Rules {
    from_anywhere: true,
    needs_spindle: false,
    words: Words::Strict,
};

const LOWEST: Pt3 = Pt3 {
    x: -131_071,
    y: -131_071,
    z: -131_071,
};

fn point(x: i32, y: i32, z: i32) -> Pt3 {
    Pt3 { x, y, z }
}

fn feed(from: Pt3, to: Pt3) -> Move {
    Move {
        kind: Kind::Feed,
        from,
        to,
    }
}

fn rapid(from: Pt3, to: Pt3) -> Move {
    Move {
        kind: Kind::Rapid,
        from,
        to,
    }
}

// The moves that a text reads as.
fn read_back(
    alloc: Global,
    text: &[u8],
    start: Pt3,
    unit: Unit,
    rules: Rules,
) -> Result<Vec<Move>, NgcFault>
    requires { IsInUnitRange unit start }
{
    let mut moves = Vec::new(alloc);
    let mut reader = Reader::new(start, unit, rules);
    reader.feed(text, &mut moves)?;
    reader.finish(&mut moves)?;
    Ok(moves)
}

fn is_written<R: Abort>(
    rt: &R,
    alloc: Global,
    begin: Option<Pt3>,
    moves: &[Move],
    unit: Unit,
    text: &[u8],
) -> Result<(), Fail> {
    let written = write_program(alloc, begin, moves, unit)?;
    assert_eq!(rt; written.as_slice(), text);
    Ok(())
}

fn is_read_back<R: Abort>(
    rt: &R,
    alloc: Global,
    text: &[u8],
    start: Pt3,
    unit: Unit,
    moves: &[Move],
) -> Result<(), Fail>
    requires { IsInUnitRange unit start }
{
    let again = read_back(alloc, text, start, unit, Rules::NONE)?;
    assert_eq!(rt; again.as_slice(), moves);
    Ok(())
}

// The moves are written as this text, and read back from it.
fn agree<R: Abort>(
    rt: &R,
    alloc: Global,
    moves: &[Move],
    unit: Unit,
    text: &[u8],
    start: Pt3,
) -> Result<(), Fail>
    requires { IsInUnitRange unit start }
{
    is_written(rt, alloc, None, moves, unit, text)?;
    is_read_back(rt, alloc, text, start, unit, moves)
}

#[test]
fn writes_moves(rt: HostRuntime) -> Result<(), Fail> {
    let near = point(0, 0, 200);
    let far = point(200, 200, 400);
    let moves = [feed(HOME, near), rapid(near, far)];
    let text: &[u8] = b"%\nG17 G21 G90\nG1 X0.00 Y0.00 Z2.00\nG0 X2.00 Y2.00 Z4.00\nM2\n%\n";
    agree(&rt, rt.alloc(), &moves, Unit::Hundredth, text, HOME)
}

#[test]
fn writes_no_move(rt: HostRuntime) -> Result<(), Fail> {
    let text: &[u8] = b"%\nG17 G21 G90\nM2\n%\n";
    agree(&rt, rt.alloc(), &[], Unit::Hundredth, text, HOME)
}

// Coordinates at both ends of their range and about 0, and a move that stays where it is.
#[test]
fn writes_extreme_coordinates(rt: HostRuntime) -> Result<(), Fail> {
    let high = point(131_071, -5, -100);
    let moves = [rapid(LOWEST, LOWEST), feed(LOWEST, high), feed(high, HOME)];
    let text: &[u8] =
        b"%\nG17 G21 G90\nG0 X-1310.71 Y-1310.71 Z-1310.71\nG1 X1310.71 Y-0.05 Z-1.00\nG1 X1.00 Y1.00 Z4.00\nM2\n%\n";
    agree(&rt, rt.alloc(), &moves, Unit::Hundredth, text, LOWEST)
}

#[test]
fn writes_thousandths(rt: HostRuntime) -> Result<(), Fail> {
    let low = point(-524_287, -5, 0);
    let high = point(524_287, 12_345, -2_000);
    let moves = [feed(HOME, low), rapid(low, high)];
    let text: &[u8] =
        b"%\nG17 G21 G90\nG1 X-524.287 Y-0.005 Z0.000\nG0 X524.287 Y12.345 Z-2.000\nM2\n%\n";
    agree(&rt, rt.alloc(), &moves, Unit::Thousandth, text, HOME)
}

// With a place to begin at, two lines lead there; they read as two moves of length 0.
#[test]
fn writes_way_to_first_place(rt: HostRuntime) -> Result<(), Fail> {
    let near = point(0, -5, 200);
    let moves = [feed(HOME, near)];
    let text: &[u8] = b"%\nG17 G21 G90\nG0 Z4.00\nG0 X1.00 Y1.00\nG1 X0.00 Y-0.05 Z2.00\nM2\n%\n";
    is_written(&rt, rt.alloc(), Some(HOME), &moves, Unit::Hundredth, text)?;
    let again = read_back(rt.alloc(), text, HOME, Unit::Hundredth, ANYWHERE)?;
    let all = [rapid(HOME, HOME), rapid(HOME, HOME), feed(HOME, near)];
    assert_eq!(&rt; again.as_slice(), all.as_slice());
    Ok(())
}

// The way alone, to the ends of the range.
#[test]
fn writes_way_alone(rt: HostRuntime) -> Result<(), Fail> {
    let text: &[u8] = b"%\nG17 G21 G90\nG0 Z-1310.71\nG0 X-1310.71 Y-1310.71\nM2\n%\n";
    is_written(&rt, rt.alloc(), Some(LOWEST), &[], Unit::Hundredth, text)?;
    let again = read_back(rt.alloc(), text, LOWEST, Unit::Hundredth, ANYWHERE)?;
    let all = [rapid(LOWEST, LOWEST), rapid(LOWEST, LOWEST)];
    assert_eq!(&rt; again.as_slice(), all.as_slice());
    Ok(())
}

// A rapid on which each axis runs at a speed of its own is written as any other, and read as one.
#[test]
fn writes_a_dogleg_as_a_rapid(rt: HostRuntime) -> Result<(), Fail> {
    let straight = rapid(HOME, point(200, 200, 400));
    let bent = straight.bent();
    assert_eq!(rt; bent.kind, Kind::Dogleg);
    let text: &[u8] = b"%\nG17 G21 G90\nG0 X2.00 Y2.00 Z4.00\nM2\n%\n";
    is_written(&rt, rt.alloc(), None, &[bent], Unit::Hundredth, text)?;
    is_read_back(&rt, rt.alloc(), text, HOME, Unit::Hundredth, &[straight])
}
