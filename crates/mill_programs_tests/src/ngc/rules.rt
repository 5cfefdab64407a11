// What is asked of a program beside what its words mean.
ghost use Rattle.mill_base.specs.Ranges.{IsInUnitRange};

use super::{HOME, point, told_fault, told_moves};
use crate::tables::same;
use mill_base::{Kind, Move, Pt3, Unit};
use mill_ngc::{NgcFault, Reader, Rules, Words};
use mill_tables::{halves, with_bytes};
use std::alloc::Global;
use std::process::Abort;
use std::test::Fail;

// The same place as `HOME`, in thousandths.
const FINE_HOME: Pt3 = Pt3 {
    x: 1000,
    y: 1000,
    z: 4000,
};

const ANYWHERE: Rules = Rules {
    from_anywhere: true,
    needs_spindle: false,
    words: Words::Strict,
};

const SPINDLE: Rules = Rules {
    from_anywhere: false,
    needs_spindle: true,
    words: Words::Strict,
};

const BOTH: Rules = Rules {
    from_anywhere: true,
    needs_spindle: true,
    words: Words::Strict,
};

// The moves of a text, which is read in one piece.
fn moves_by(
    alloc: Global,
    text: &str,
    start: Pt3,
    unit: Unit,
    rules: Rules,
) -> Result<Vec<Move>, NgcFault>
    requires { IsInUnitRange unit start }
{
    let mut moves = Vec::new(alloc);
    let mut reader = Reader::new(start, unit, rules);
    reader.feed(text.as_bytes(), &mut moves)?;
    reader.finish(&mut moves)?;
    Ok(moves)
}

// What a text comes to, from a start at 4 mm.
fn told(alloc: Global, unit: Unit, rules: Rules, text: &str) -> Result<String, Fail> {
    let moves = match unit {
        Unit::Hundredth => moves_by(alloc, text, HOME, Unit::Hundredth, rules),
        Unit::Thousandth => moves_by(alloc, text, FINE_HOME, Unit::Thousandth, rules),
    };
    match moves {
        Ok(moves) => told_moves(alloc, &moves),
        Err(fault) => told_fault(alloc, fault),
    }
}

fn each_tells<R: Abort>(
    rt: &R,
    alloc: Global,
    unit: Unit,
    rules: Rules,
    table: &str,
) -> Result<(), Fail> {
    for row in table.lines() {
        let (text, wanted) = halves(row)?;
        let text = with_bytes(alloc, text)?;
        same(rt, &told(alloc, unit, rules, &text)?, wanted, row);
    }
    Ok(())
}

// The way up and across that a program begins with.
const WAYS: &str = r"G21 G90\nG0 Z4\nG0 X1 Y1\nG1 Z2\nG0 Z4\nM2 => 4 moves
G21 G90\nG1 Z4\nG0 X1 Y1\nM2 => Start { line: 2 }
G21 G90\nG0 Z3.99\nG0 X1 Y1\nM2 => Start { line: 2 }
G21 G90\nG0 Z4.01\nG0 X1 Y1\nG1 Z2\nG0 Z4\nM2 => 4 moves
G21 G90\nG0 Z1310.71\nX1 Y1\nG1 Z2\nG0 Z4\nM2 => 4 moves
G21 G90\nG0 X1 Y1\nG0 Z4\nM2 => Start { line: 2 }
G21 G90\nG0 X1 Y1 Z4\nM2 => Start { line: 2 }
G21 G90\nG0 X1 Z4\nM2 => Start { line: 2 }
G21 G90\nG0 Z4\nG1 X1 Y1\nM2 => Start { line: 3 }
G21 G90\nG0 Z4\nG0 X1\nM2 => Start { line: 3 }
G21 G90\nG0 Z4\nG0 Y1\nM2 => Start { line: 3 }
G21 G90\nG0 Z4\nG0 X1 Y1 Z4\nM2 => Start { line: 3 }
G21 G90\nG0 Z4\nG0 Z5\nG0 X1 Y1\nM2 => Start { line: 3 }
G21 G90\nG0 Z4\nG80\nX1 Y1\nM2 => Start { line: 4 }
G21 G90\nZ4\nM2 => Start { line: 2 }
G21 G90\nM2 => 0 moves
G21 G90\nG0 Z4\nM2 => 0 moves
G21 G90\nG0 Z4\nG0 X1 Y1\nM2 => 2 moves
G21 G90\nG0 Z4\nX900 Y-900\nG0 X1 Y1\nG1 Z2\nG0 Z4\nM2 => 5 moves
G21 G90\nG0 Z4\nM8\n(c)\nX1 Y1\nG1 Z2\nG0 Z4\nM2 => 4 moves
G21 G90\nT1 M6\nG0 Z4\nG0 X1 Y1\nG1 Z2\nG0 Z4\nM2 => 4 moves
G21 G90\nG0 Z4\nT1\nG0 X1 Y1\nM2 => LateTool { line: 3 }
G21 G90\nG0 Z4.001\nX1 Y1\nM2 => OffGrid { line: 2 }
G21 G90\nG0 Z3.9999\nX1 Y1\nM2 => Start { line: 2 }
G21 G90\nG0 Z9999\nX1 Y1\nM2 => OutOfRange { line: 2 }
G21 G90\nG0 Z4\nX1.005 Y1\nM2 => OffGrid { line: 3 }
G21 G90\nG0 Z4 M2\nM2 => 0 moves
G21 G90\nG0 Z4\nG0 X1 Y1 M2\nM2 => 2 moves
G90\nG0 Z3\nM2 => Start { line: 2 }
G90\nG0 Z4\nM2 => NoUnits { line: 2 }
G21\nG0 Z4\nM2 => NoAbsolute { line: 2 }
G21 G90\nG0 G1 Z3\nM2 => Group { line: 2, group: 1 }
G21 G90\nG0 Z4\n => NoEnd { line: 3 }
%\nG21 G90\nG0 Z4\nG0 X1 Y1\nG1 Z2\nG0 Z4\n%\nx => 4 moves
%\nG21 G90\nG0 Z4\n% => 0 moves";

#[test]
fn wants_the_way_up_and_across(rt: HostRuntime) -> Result<(), Fail> {
    each_tells(&rt, rt.alloc(), Unit::Hundredth, ANYWHERE, WAYS)
}

const FINE_WAYS: &str = r"G21 G90\nG0 Z4\nX1 Y1\nG1 Z2\nG0 Z4\nM2 => 4 moves
G21 G90\nG0 Z3.999\nX1 Y1\nM2 => Start { line: 2 }
G21 G90\nG0 Z3.9999\nX1 Y1\nM2 => Start { line: 2 }
G21 G90\nG0 Z4.0001\nX1 Y1\nM2 => OffGrid { line: 2 }";

#[test]
fn wants_it_in_thousandths_too(rt: HostRuntime) -> Result<(), Fail> {
    each_tells(&rt, rt.alloc(), Unit::Thousandth, ANYWHERE, FINE_WAYS)
}

#[test]
fn begins_where_the_way_across_ends(rt: HostRuntime) -> Result<(), NgcFault> {
    let text = "G21 G90\nG0 Z5\nX2 Y-1\nG1 Z4.5\nM2\n";
    let moves = moves_by(rt.alloc(), text, HOME, Unit::Hundredth, ANYWHERE)?;
    let first = point(200, -100, 500);
    let stays = Move {
        kind: Kind::Rapid,
        from: first,
        to: first,
    };
    let down = Move {
        kind: Kind::Feed,
        from: first,
        to: point(200, -100, 450),
    };
    assert_eq!(rt; moves.as_slice(), [stays, stays, down].as_slice());
    Ok(())
}

// What a feed has to come with.
const DRIVES: &str = r"G21 G90\nM3 S1000 F100\nG1 Z2\nG0 Z4\nM2 => 2 moves
G21 G90\nM4 S1 F1\nG1 Z2\nG0 Z4\nM2 => 2 moves
G21 G90\nG1 Z2 M3 S100 F10\nG0 Z4\nM2 => 2 moves
G21 G90\nG1 Z2\nM2 => NoSpindle { line: 2 }
G21 G90\nM3 F1\nG1 Z2\nM2 => NoSpindle { line: 3 }
G21 G90\nM3 S0 F1\nG1 Z2\nM2 => NoSpindle { line: 3 }
G21 G90\nM3 S-5 F1\nG1 Z2\nM2 => NoSpindle { line: 3 }
G21 G90\nM3 S.001 F1\nG1 Z2\nG0 Z4\nM2 => 2 moves
G21 G90\nS1000 F1\nG1 Z2\nM2 => NoSpindle { line: 3 }
G21 G90\nM3 S1000 F100\nM5\nG1 Z2\nM2 => NoSpindle { line: 4 }
G21 G90\nM3 S1000 F100\nG1 Z2 M5\nM2 => NoSpindle { line: 3 }
G21 G90\nM3 S1000 F100\nM5\nM3\nG1 Z2\nG0 Z4\nM2 => 2 moves
G21 G90\nM3 S1000 F100\nM6\nG1 Z2\nM2 => NoSpindle { line: 4 }
G21 G90\nS1 F1\nM6 T1 M3\nG1 Z2\nG0 Z4\nM2 => 2 moves
G21 G90\nM3 S1 F1 M6\nG1 Z2\nG0 Z4\nM2 => 2 moves
G21 G90\nS1\nM5\nM3 F1\nG1 Z2\nG0 Z4\nM2 => 2 moves
G21 G90\nM3 S1000 F100\nG1 Z3\nS0\nG1 Z2\nM2 => NoSpindle { line: 5 }
G21 G90\nM3 S1\nG1 Z2\nM2 => NoFeed { line: 3 }
G21 G90\nM3 S1 F0\nG1 Z2\nM2 => NoFeed { line: 3 }
G21 G90\nM3 S1 F-1\nG1 Z2\nM2 => NoFeed { line: 3 }
G21 G90\nM3 S1000 F100\nF0\nG1 Z2\nM2 => NoFeed { line: 4 }
G21 G90\nM3 S1000 F100\nG1 Z2 F0\nM2 => NoFeed { line: 3 }
G21 G90\nM3 S1000 F100\nG0 Z3 F0\nG1 Z2\nM2 => NoFeed { line: 4 }
G21 G90\nM3 S1\nG1 Z2 F.5\nG0 Z4\nM2 => 2 moves
G21 G90\nS1\nG1 Z2\nM2 => NoSpindle { line: 3 }
G21 G90\nG0 Z3\nG0 Z4\nM2 => 2 moves
G21 G90\nG1 Z4\nM2 => NoSpindle { line: 2 }
G21 G90\nZ2\nM2 => NoMotion { line: 2 }
G21 G90\nG1 Z2.001\nM2 => NoSpindle { line: 2 }
G21 G90\nM3 S1\nG1 Z9999\nM2 => NoFeed { line: 3 }
G90\nG1 Z2\nM2 => NoUnits { line: 2 }
G21\nG1 Z2\nM2 => NoAbsolute { line: 2 }";

#[test]
fn wants_a_spindle_and_a_feed_rate(rt: HostRuntime) -> Result<(), Fail> {
    each_tells(&rt, rt.alloc(), Unit::Hundredth, SPINDLE, DRIVES)
}

const ALL: &str = r"G21 G90\nG1 Z4\nM2 => Start { line: 2 }
G21 G90\nG0 Z4\nX1 Y1\nG1 Z2\nM2 => NoSpindle { line: 4 }
G21 G90\nG0 Z4\nX1 Y1\nM3 S1000 F100\nG1 Z2\nG0 Z4\nM2 => 4 moves";

#[test]
fn wants_both(rt: HostRuntime) -> Result<(), Fail> {
    each_tells(&rt, rt.alloc(), Unit::Hundredth, BOTH, ALL)
}
