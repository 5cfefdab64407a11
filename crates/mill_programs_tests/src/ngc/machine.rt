// Programs in a machine's words.
ghost use Rattle.mill_base.specs.Ranges.{IsInUnitRange};

use super::{HOME, told_fault};
use crate::tables::same;
use mill_base::{Kind, Move, Unit};
use mill_ngc::{Control, NgcFault, Reader, Rules, Words};
use mill_tables::{halves, with_bytes};
use std::alloc::Global;
use std::process::Abort;
use std::test::Fail;

// A machine with a table of tool lengths, and slack enough for rounding and 0.05 mm more.
const TABLE: Control = Control {
    rounds: true,
    path_tolerance: 5,
    arc_tolerance: 2,
    arc_room: 4,
    peck_clearance: 25,
    one_length: false,
    change_raises: false,
};

// One without a table, without slack, that goes up for a change of the tool.
const EXACT: Control = Control {
    rounds: false,
    path_tolerance: 0,
    arc_tolerance: 1,
    arc_room: -3,
    peck_clearance: 10,
    one_length: true,
    change_raises: true,
};

// The moves of a text, which is read in one piece, with the safe height at 4 mm.
fn moves_for(alloc: Global, control: Control, text: &str) -> Result<Vec<Move>, NgcFault> {
    let rules = Rules {
        from_anywhere: true,
        needs_spindle: false,
        words: Words::Machine(control),
    };
    let mut moves = Vec::new(alloc);
    let mut reader = Reader::new(HOME, Unit::Hundredth, rules);
    reader.feed(text.as_bytes(), &mut moves)?;
    reader.finish(&mut moves)?;
    Ok(moves)
}

// How a move is made, and where it ends.
fn add_move(alloc: Global, line: &mut String, made: &Move) -> Result<(), Fail> {
    let word = match made.kind {
        Kind::Feed => "G1",
        _ => "G0",
    };
    let to = made.to;
    let part = format!(in alloc; "{word} {} {} {}", to.x, to.y, to.z)?;
    if !line.is_empty() {
        line.push_str(", ")?;
    }
    line.push_str(&part)?;
    Ok(())
}

// What a text comes to: all of its moves, or its fault.
fn told(alloc: Global, control: Control, text: &str) -> Result<String, Fail> {
    told_from(alloc, control, text, 0)
}

// What it comes to, but for so many moves at its beginning.
fn told_from(alloc: Global, control: Control, text: &str, first: usize) -> Result<String, Fail> {
    match moves_for(alloc, control, text) {
        Ok(moves) => {
            let mut line = String::new(alloc);
            for made in moves.as_slice().iter().skip(first) {
                add_move(alloc, &mut line, made)?;
            }
            Ok(line)
        }
        Err(fault) => told_fault(alloc, fault),
    }
}

fn each_tells<R: Abort>(rt: &R, alloc: Global, control: Control, table: &str) -> Result<(), Fail> {
    for row in table.lines() {
        let (text, wanted) = halves(row)?;
        let text = with_bytes(alloc, text)?;
        same(rt, &told(alloc, control, &text)?, wanted, row);
    }
    Ok(())
}

const WORDS: &str =
    r"G21 G90\nG0 Z4\nX1 Y1\nG1 Z2\nG0 Z4\nM2 => G0 100 100 400, G0 100 100 400, G1 100 100 200, G0 100 100 400
G21 G90\nG0\nG0 Z4\nX1 Y1\nG1\nZ2\nG0 Z4\nM2 => G0 100 100 400, G0 100 100 400, G1 100 100 200, G0 100 100 400
G90 G70\nG0 Z1\nX1 Y0.5\nM2 => G0 2540 1270 2540, G0 2540 1270 2540
G90\nG0 Z4\nX1 Y1\nM2 => NoUnits { line: 2 }
G91 G21\nG0 Z4\nM2 => NoAbsolute { line: 2 }
G21 G90 X1 G20\nM2 => Group { line: 1, group: 6 }
G21 G90\nG0 Z4\nG20\nM2 => Group { line: 3, group: 6 }
G21 G90\nG64 P0.05\nG64 P0.051\nM2 => PathControl { line: 3 }
G21 G90\nG64\nM2 => PathControl { line: 2 }
G21 G90\nG64 P0\nM2 => PathControl { line: 2 }
G20 G64 P0.002 G90\nM2 => PathControl { line: 1 }
G21 G90\nG4 P1\nG4 X1\nM2 => Group { line: 3, group: 0 }
G21 G90\nG15 G50 X1\nM2 => Group { line: 2, group: 17 }
G21 G90\nG80 G0 Z4\nX1 Y1 G80\nX2\nM2 => NoMotion { line: 3 }
G21 G90\nH1\nM2 => line 2: not H Num { mant: 1, scale: 0, neg: false }
G21 G90\nG49 H1\nM2 => line 2: not H Num { mant: 1, scale: 0, neg: false }
G21 G90\nP1\nM2 => line 2: not P Num { mant: 1, scale: 0, neg: false }
G21 G90\nG0 Z4\nX1 Y1.005\nX1.0149 Y1\nM2 => G0 100 101 400, G0 100 101 400, G0 101 100 400
G21 G90\nO2\nO3 M3\nG0 Z4 O4\nM2 => line 4: not O Num { mant: 4, scale: 0, neg: false }
G21 G90 M7 M8\nM2 => 
/G21\nM2 => line 1: not / Num { mant: 0, scale: 0, neg: false }
G21 G90\nA1\nM2 => line 2: not A Num { mant: 1, scale: 0, neg: false }
G21 G90\nG0 Z4\nX1 Y1\nG91\nX1\nM2 => NoAbsolute { line: 5 }
G21 G90\nG0 Z9999\nM2 => OutOfRange { line: 2 }
G21 G90\nG0 Z4 => NoEnd { line: 2 }";

#[test]
fn takes_words(rt: HostRuntime) -> Result<(), Fail> {
    each_tells(&rt, rt.alloc(), TABLE, WORDS)
}

// What is known of the place, and the ways up and across to the machine's.
const PLACES: &str =
    r"O1\nG90 G94 G17 G91.1 G40 G49 G80\nG21 (mm)\nG0 G53 Z0\nG54 G43 H1\nG0 Z4.5\nX1 Y1\nG1 Z2\nG0 G53 Z0\nM30 => G0 100 100 450, G0 100 100 450, G0 100 100 450, G1 100 100 200, G0 100 100 400
G21 G90\nG0 X1 Y1 Z4\nM2 => Start { line: 2 }
G21 G90\nG0 Z4\nG1 X1\nM2 => Start { line: 3 }
G21 G90\nG0 Z4\nX1\nM2 => Start { line: 3 }
G21 G90\nG0 Z4 F100\nG1 X1 Y2\nX3\nM2 => G0 100 200 400, G0 100 200 400, G1 300 200 400
G21 G90\nG0 Z3.99\nM2 => Start { line: 2 }
G21 G90\nG1 Z4\nM2 => Start { line: 2 }
G21 G90\nG28 Z0\nM2 => line 2: not G Num { mant: 28, scale: 0, neg: false }
G21 G90\nG91 G28 Z0\nG90\nG0 X1 Y1\nZ4\nG1 Z1\nM2 => G0 100 100 400, G0 100 100 400, G0 100 100 400, G1 100 100 100
G21 G90\nG91 G28 Z0\nG90\nG0 X1 Y1\nG1 Z1\nM2 => Start { line: 5 }
G21 G90\nG91 G28 Z0\nG90\nG0 X1 Y1 Z1\nM2 => Start { line: 4 }
G21 G90\nG91 G30 Z1\nM2 => line 2: not G Num { mant: 30, scale: 0, neg: false }
G21 G90\nG53 G1 Z0\nM2 => line 2: not G Num { mant: 53, scale: 0, neg: false }
G21 G90\nG53 G0 X1 R2 Z1\nM2 => line 2: not R Num { mant: 2, scale: 0, neg: false }
G21 G90\nG0 G53 X0 Y0\nM2 => Start { line: 2 }
G21 G90\nG0 Z4\nX1 Y1\nG53 X0 Y0\nX2\nM2 => Start { line: 5 }
G21 G90\nG0 Z4\nX1 Y1\nG53 X0 Y0\nX2 Y2\nG1 Z3\nM2 => G0 100 100 400, G0 100 100 400, G0 200 200 400, G1 200 200 300
G21 G90\nG0 Z4\nX1 Y1\nG1 Z2\nG0 G53 X0\nM2 => Start { line: 5 }
G21 G90\nG0 Z4\nX1 Y1\nG1 Z2\nG0 G53 Z0\nX5 Y5\nZ2\nM2 => G0 100 100 400, G0 100 100 400, G1 100 100 200, G0 100 100 400, G0 500 500 400, G0 500 500 200
G21 G90\nG0 G1 Z4\nM2 => Group { line: 2, group: 1 }
G21 G90\nG0 Z4\nG2 X1 Y1 I0.04\nM2 => Start { line: 3 }
G21 G90\nG0 Z4\nM0\nM1 X1 Y1\nM2 => G0 100 100 400, G0 100 100 400";

#[test]
fn knows_the_place(rt: HostRuntime) -> Result<(), Fail> {
    each_tells(&rt, rt.alloc(), TABLE, PLACES)
}

const OFFSETS: &str = r"G21 G90\nG0 Z4\nX1 Y1\nG43 H2\nX2\nM2 => Start { line: 5 }
G21 G90\nG0 Z4\nX1 Y1\nG43 H2\nZ4\nM2 => LateOffset { line: 5 }
G21 G90\nG43 H2\nG0 Z4\nX1 Y1\nG43 H02.0\nZ5\nG43 H3\nZ6\nM2 => LateOffset { line: 8 }
G21 G90\nG54\nG0 Z4\nX1 Y1\nG55\nX2 Y2\nM2 => Start { line: 6 }
G21 G90\nG54\nG0 Z4\nX1 Y1\nG54\nX2 Y2\nM2 => G0 100 100 400, G0 100 100 400, G0 200 200 400
G21 G90\nG59.1\nG0 Z4\nX1 Y1\nG59.4\nM2 => line 5: not G Num { mant: 594, scale: 1, neg: false }
G21 G90\nT1 M6\nG0 Z4\nX1 Y1\nT2\nZ2\nM2 => LateTool { line: 6 }
G21 G90\nG0 Z4\nT1 M6\nG43 H1\nZ5\nM2 => LateOffset { line: 5 }
G21 G90\nG0 Z4\nT1 M6\nG43 H1 Z3\nM2 => Start { line: 4 }";

#[test]
fn keeps_to_the_first_offsets(rt: HostRuntime) -> Result<(), Fail> {
    each_tells(&rt, rt.alloc(), TABLE, OFFSETS)
}

const HOLES: &str =
    r"G21 G90\nG0 Z4\nX1 Y1\nG81 G98 X2 Y1 R3 Z1\nX3\nG80\nG0 Z4\nM2 => G0 100 100 400, G0 100 100 400, G0 200 100 400, G0 200 100 300, G1 200 100 100, G0 200 100 400, G0 300 100 400, G0 300 100 300, G1 300 100 100, G0 300 100 400, G0 300 100 400
G21 G90\nG0 Z4\nX1 Y1\nG81 G99 X2 Y1 R3 Z1\nX3\nG80\nG0 Z4\nM2 => G0 100 100 400, G0 100 100 400, G0 200 100 400, G0 200 100 300, G1 200 100 100, G0 200 100 300, G0 300 100 300, G1 300 100 100, G0 300 100 300, G0 300 100 400
G21 G90\nG0 Z4\nX1 Y1\nG83 G99 X2 R3 Z1 Q0.75\nG80\nM2 => G0 100 100 400, G0 100 100 400, G0 200 100 400, G0 200 100 300, G1 200 100 225, G0 200 100 300, G0 200 100 250, G1 200 100 150, G0 200 100 300, G0 200 100 175, G1 200 100 100, G0 200 100 300
G21 G90\nG0 Z4\nX1 Y1\nG73 G99 X2 R3 Z1 Q1\nG80\nM2 => G0 100 100 400, G0 100 100 400, G0 200 100 400, G0 200 100 300, G1 200 100 200, G1 200 100 100, G0 200 100 300
G21 G90\nG0 Z4\nX1 Y1\nG82 G99 X2 R3 Z1 P0.5\nP1 X3\nG80\nM2 => G0 100 100 400, G0 100 100 400, G0 200 100 400, G0 200 100 300, G1 200 100 100, G0 200 100 300, G0 300 100 300, G1 300 100 100, G0 300 100 300
G21 G90\nG0 Z4\nX1 Y1\nG81 X2 R3 Z1\nM2 => Cycle { line: 4 }
G21 G90\nG0 Z4\nX1 Y1\nG81 G99 X2 R1 Z2\nM2 => Cycle { line: 4 }
G21 G90\nG0 Z4\nX1 Y1\nG81 G99 X2 Z2\nM2 => Cycle { line: 4 }
G21 G90\nG0 Z4\nX1 Y1\nG83 G99 X2 R2 Z1\nM2 => Cycle { line: 4 }
G21 G90\nG0 Z4\nX1 Y1\nG83 G99 X2 R2 Z1 Q0\nM2 => Cycle { line: 4 }
G21 G90\nG0 Z4\nX1 Y1\nG1 Z1\nG81 G99 X2 R2 Z0\nM2 => Cycle { line: 5 }
G21 G90\nG0 Z4\nX1 Y1\nG1 Z1\nG81 G99 R2 Z0\nM2 => G0 100 100 400, G0 100 100 400, G1 100 100 100, G0 100 100 200, G0 100 100 200, G1 100 100 0, G0 100 100 200
G21 G90\nG0 Z4\nX1 Y1\nG81 G99 X2 R3 Z1\nG98 X3\nM2 => Cycle { line: 5 }
G21 G90\nG0 Z4\nX1 Y1\nG81 G99\nM2 => Cycle { line: 4 }
G21 G90\nG0 Z4\nX1 Y1\nR3\nM2 => line 4: not R Num { mant: 3, scale: 0, neg: false }";

#[test]
fn drills_holes(rt: HostRuntime) -> Result<(), Fail> {
    each_tells(&rt, rt.alloc(), TABLE, HOLES)
}

// They go on behind this way to X1 Y1 at Z4, and their moves are those behind it.
const WAY: &str = "G21 G90\nG0 Z4\nX1 Y1\n";

const ARCS: &str =
    r"G3 X1 Y1 I0.04\nM2 => G1 104 96 400, G1 108 100 400, G1 104 104 400, G1 100 100 400
G2 X1.08 I0.04\nM2 => G1 104 104 400, G1 108 100 400
G3 X1.08 I0.04\nX1 I-0.04\nM2 => G1 104 96 400, G1 108 100 400, G1 104 104 400, G1 100 100 400
G2\nI0.04\nM2 => G1 104 104 400, G1 108 100 400, G1 104 96 400, G1 100 100 400
G18\nG3 I0.04\nM2 => G1 104 100 404, G1 108 100 400, G1 104 100 396, G1 100 100 400
G18\nG3 K0.04\nM2 => G1 96 100 404, G1 100 100 408, G1 104 100 404, G1 100 100 400
G19\nG2 K-0.04 Z3.92\nM2 => G1 100 104 396, G1 100 100 392
G2 I0.04 Z3.9\nM2 => G1 104 104 398, G1 108 100 395, G1 104 96 393, G1 100 100 390
G2 X1.08\nM2 => Arc { line: 4 }
G2 X1.08 R0.04\nM2 => Arc { line: 4 }
G2 X1.08 I0.04 K0\nM2 => G1 104 104 400, G1 108 100 400
G2 X1.08 I0.04 K0.00001\nM2 => Arc { line: 4 }
G2 X1.08 I0.0400001\nM2 => Arc { line: 4 }
G2 X1.0800001 I0.04\nM2 => Arc { line: 4 }
G2 X1.08 I0.055\nM2 => Arc { line: 4 }
G2 X1.08 I0.045\nM2 => G1 102 103 400, G1 105 104 400, G1 108 100 400
G2 X1.001 I0.0005\nM2 => Arc { line: 4 }
G2 X1.0003 I0.04\nM2 => Arc { line: 4 }
G2 X1.08 I2000\nM2 => Arc { line: 4 }
G2 X1.08 I1310\nM2 => Arc { line: 4 }
G2 X1.08 I0.04 J0\nM2 => G1 104 104 400, G1 108 100 400
G64 P0.05\nG2 X1.08 I0.04\nM2 => PathControl { line: 5 }
G64 P0.05\nG61\nG2 X1 I-0.04\nM2 => G1 96 96 400, G1 92 100 400, G1 96 104 400, G1 100 100 400
G1 I1\nM2 => line 4: not I Num { mant: 1, scale: 0, neg: false }
G2 G28 X0\nM2 => line 4: not G Num { mant: 28, scale: 0, neg: false }
G91 G2 I1 G28 Z0\nM2 => line 4: not G Num { mant: 28, scale: 0, neg: false }
G91 G2 G28 Z0\nM2 => G0 100 100 400
G2 G80 X2 I1\nM2 => Group { line: 4, group: 1 }
G18\nG81 G99 X2 Y1 R3 Z1\nM2 => Cycle { line: 5 }
X1.004\nG2 X1.08 I0.036\nM2 => G0 100 100 400, G1 104 104 400, G1 107 103 400, G1 108 100 400
G2 P1 X1.08 I0.04\nM2 => line 4: not P Num { mant: 1, scale: 0, neg: false }";

#[test]
fn goes_round_arcs(rt: HostRuntime) -> Result<(), Fail> {
    let alloc = rt.alloc();
    for row in ARCS.lines() {
        let (behind, wanted) = halves(row)?;
        let behind = with_bytes(alloc, behind)?;
        let text = format!(in alloc; "{WAY}{behind}")?;
        same(&rt, &told_from(alloc, TABLE, &text, 2)?, wanted, row);
    }
    Ok(())
}

const ONE_LENGTH: &str =
    r"G21 G90\nG0 Z4\nX1 Y1\nG43 H2\nX2\nM2 => G0 100 100 400, G0 100 100 400, G0 200 100 400
G21 G90\nG0 Z4\nX1 Y1.005\nM2 => OffGrid { line: 3 }
G21 G90\nT1 M6\nG0 X1 Y1\nZ4\nG1 Z2\nM2 => G0 100 100 400, G0 100 100 400, G1 100 100 200
G21 G90\nG64 P0.01\nM2 => PathControl { line: 2 }
G21 G90\nG0 Z4\nX1 Y1\nG83 G99 X2 R3 Z1 Q0.75\nG80\nM2 => G0 100 100 400, G0 100 100 400, G0 200 100 400, G0 200 100 300, G1 200 100 225, G0 200 100 300, G0 200 100 235, G1 200 100 150, G0 200 100 300, G0 200 100 160, G1 200 100 100, G0 200 100 300
G21 G90\nG0 Z4\nX1 Y1\nG83 G99 X2 R3 Z1 Q0.755\nM2 => OffGrid { line: 4 }
G21 G90\nG0 Z4\nX1 Y1\nG2 X1.08 I0.04\nM2 => Arc { line: 4 }";

#[test]
fn goes_by_the_control(rt: HostRuntime) -> Result<(), Fail> {
    each_tells(&rt, rt.alloc(), EXACT, ONE_LENGTH)
}
