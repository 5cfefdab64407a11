//! Programs and what they mean, by hand.
ghost use Rattle.mill_base.specs.Ranges.{IsInUnitRange};
ghost use Rattle.mill_base.specs.declared.unit.Unit.TheVariants.{Hundredth};

mod machine;
mod pieces;
mod rules;

use crate::tables::{same, with_blanks};
use mill_base::{Kind, Move, Pt3, Unit};
use mill_ngc::{NgcFault, Reader, Rules};
use mill_tables::{halves, with_bytes};
use std::alloc::Global;
use std::process::Abort;
use std::test::Fail;

const ORIGIN: Pt3 = Pt3 { x: 0, y: 0, z: 0 };

const HOME: Pt3 = Pt3 {
    x: 100,
    y: 100,
    z: 400,
};

fn point(x: i32, y: i32, z: i32) -> Pt3 {
    Pt3 { x, y, z }
}

// The moves of a text in hundredths.
fn moves_of(alloc: Global, text: &str, start: Pt3) -> Result<Vec<Move>, NgcFault>
    requires { IsInUnitRange Hundredth start }
{
    moves_in(alloc, text, start, Unit::Hundredth)
}

// The moves of a text, which is read in one piece.
fn moves_in(alloc: Global, text: &str, start: Pt3, unit: Unit) -> Result<Vec<Move>, NgcFault>
    requires { IsInUnitRange unit start }
{
    let mut moves = Vec::new(alloc);
    let mut reader = Reader::new(start, unit, Rules::NONE);
    reader.feed(text.as_bytes(), &mut moves)?;
    reader.finish(&mut moves)?;
    Ok(moves)
}

// Where the text stands in a program whose second line it is.
const LINE: &str = "G21 G90\n@\nM2\n";

// What a text comes to: where its one move ends, how many moves it makes, or its fault.
fn told(alloc: Global, unit: Unit, text: &str) -> Result<String, Fail> {
    let moves = match unit {
        Unit::Hundredth => moves_in(alloc, text, ORIGIN, Unit::Hundredth),
        Unit::Thousandth => moves_in(alloc, text, ORIGIN, Unit::Thousandth),
    };
    match moves {
        Ok(moves) => told_moves(alloc, &moves),
        Err(fault) => told_fault(alloc, fault),
    }
}

fn told_moves(alloc: Global, moves: &[Move]) -> Result<String, Fail> {
    match moves {
        [Move { to, .. }] => Ok(format!(in alloc; "1 move to {}, {}, {}", to.x, to.y, to.z)?),
        _ => Ok(format!(in alloc; "{} moves", moves.len())?),
    }
}

// A fault by its fields, with letters as such.
fn told_fault(alloc: Global, fault: NgcFault) -> Result<String, Fail> {
    match fault {
        NgcFault::Twice { .. } => Ok(format!(in alloc; "{fault}")?),
        NgcFault::NotInProfile {
            line,
            letter,
            number,
        } => {
            let letter = char::from(letter);
            Ok(format!(in alloc; "line {line}: not {letter} {number:?}")?)
        }
        _ => Ok(format!(in alloc; "{fault:?}")?),
    }
}

// A row has a text, which is put into a frame, and behind `=>` what that comes to.
fn tells<R: Abort>(rt: &R, alloc: Global, unit: Unit, frame: &str, row: &str) -> Result<(), Fail> {
    let (text, wanted) = halves(row)?;
    let text = framed(alloc, frame, text)?;
    same(rt, &told(alloc, unit, &text)?, wanted, row);
    Ok(())
}

fn framed(alloc: Global, frame: &str, text: &str) -> Result<String, Fail> {
    let text = with_bytes(alloc, text)?;
    Ok(frame.replace(alloc, '@', &text)?)
}

// The table is one text: a test's proof then costs the same however many rows there are.
fn each_tells<R: Abort>(
    rt: &R,
    alloc: Global,
    unit: Unit,
    frame: &str,
    table: &str,
) -> Result<(), Fail> {
    for row in table.lines() {
        tells(rt, alloc, unit, frame, row)?;
    }
    Ok(())
}

#[test]
fn reads_a_framed_program(rt: HostRuntime) -> Result<(), NgcFault> {
    let text =
        " (job 1)\r\n%\r\nG21 G90 G17 G40 G49 G54 G61 G94 G80\r\nT1 M6 S8000 M3 M8 M7\nG1 Z2 F300\n\ng0 (up) z4;over the part\nX-0.05 Y+10.\nG80\nN9 M5 M9\n%\nnot read";
    let moves = moves_of(rt.alloc(), text, HOME)?;
    let want = [
        Move {
            kind: Kind::Feed,
            from: HOME,
            to: point(100, 100, 200),
        },
        Move {
            kind: Kind::Rapid,
            from: point(100, 100, 200),
            to: point(100, 100, 400),
        },
        Move {
            kind: Kind::Rapid,
            from: point(100, 100, 400),
            to: point(-5, 1000, 400),
        },
    ];
    assert_eq!(rt; moves.as_slice(), want.as_slice());
    Ok(())
}

// Each word in three spellings, and lines that make no move.
#[test]
fn reads_each_word(rt: HostRuntime) -> Result<(), NgcFault> {
    let text = "\
G21\ng21\nG 2 1 . 0\nG90\ng90.\nG+90\nG17\ng017\nG17.00\nG94\ng94\nG94.0\nG40\ng40.\nG 40
G49\ng49\nG049\nG54\ng54.0\nG+54\nG61\ng61.\nG061\nG80\ng80\nG080.
M6\nm06\nM6.0\nM3\nm3\nM03.\nM4\nm4\nM+4\nM5\nm05\nM5.0\nM7 M8 M9\nm9 m8 m7\nM7 M7 M07\nM8 M3 M8\nM9 M9
F0\nf100.5\nF-1\nS0\ns12000\nS.5\nT0\nt12\nT3.5\nT1 M6\n(a)\nN1\n ;b\n
G0 X1\nG00 X2\nG-0 X3\nG1 Y1\ng01 Y2\nG1.0 Y3\nX4\nx5\nX+6.\nY-1\ny-2\nY 3 1\nZ1\nz-.5\nZ0.25 M30 ; end";
    let moves = moves_of(rt.alloc(), text, ORIGIN)?;
    assert_eq!(rt; moves.len(), 15);
    let found = (moves[2].kind, moves[3].kind, moves[14].to);
    assert_eq!(rt; found, (Kind::Rapid, Kind::Feed, point(600, 3100, 25)));
    Ok(())
}

// Lines behind `G21 G90`, from 0, 0, 0, and where their move ends.
const MOVES: &str = r"g1 x+0. 12 y 7 => 1 move to 12, 700, 0
G1 X12.3400 => 1 move to 1234, 0, 0
X12.34 G1 => 1 move to 1234, 0, 0
Z-2 G01 Y.5 X-0 => 1 move to 0, 50, -200
G0 X1310.71 Y-1310.71 => 1 move to 131071, -131071, 0
G1 Z000000000001.000000 => 1 move to 0, 0, 100
G1 X0 M3 M8 F1 S1 T1 M6 => 1 move to 0, 0, 0";

#[test]
fn makes_moves(rt: HostRuntime) -> Result<(), Fail> {
    each_tells(&rt, rt.alloc(), Unit::Hundredth, LINE, MOVES)
}

// The same in thousandths.
const FINE_MOVES: &str = r"G1 X12.345 => 1 move to 12345, 0, 0
X12.3450 G1 => 1 move to 12345, 0, 0
Z-2 G01 Y.5 X-0 => 1 move to 0, 500, -2000
G0 X524.287 Y-524.287 => 1 move to 524287, -524287, 0";

#[test]
fn makes_moves_in_thousandths(rt: HostRuntime) -> Result<(), Fail> {
    each_tells(&rt, rt.alloc(), Unit::Thousandth, LINE, FINE_MOVES)
}

const NOT_FINE: &str = r"G1 X12.3455 => OffGrid { line: 2 }
G1 X524.288 => OutOfRange { line: 2 }
G1 X524.2875 => OffGrid { line: 2 }
G1 X600 Y0.0001 => OutOfRange { line: 2 }";

#[test]
fn refuses_numbers_in_thousandths(rt: HostRuntime) -> Result<(), Fail> {
    each_tells(&rt, rt.alloc(), Unit::Thousandth, LINE, NOT_FINE)
}

const SECOND_WORDS: &str = r"G1 G0 X1 => Group { line: 2, group: 1 }
G80 G1 X1 => Group { line: 2, group: 1 }
X1 G01 G1.0 => Group { line: 2, group: 1 }
G17 G17 => Group { line: 2, group: 2 }
G17 X1 g017 => Group { line: 2, group: 2 }
G40 G17 G49 G17 => Group { line: 2, group: 2 }
G90 G90 => Group { line: 2, group: 3 }
G90 M3 G90 => Group { line: 2, group: 3 }
g90 G 9 0 => Group { line: 2, group: 3 }
G94 G94 => Group { line: 2, group: 5 }
G94 F1 G94. => Group { line: 2, group: 5 }
G094 G94 => Group { line: 2, group: 5 }
G21 G21 => Group { line: 2, group: 6 }
G21 M6 G21 => Group { line: 2, group: 6 }
G21 G021 X1 => Group { line: 2, group: 6 }
G40 G40 => Group { line: 2, group: 7 }
G40 M5 G40 => Group { line: 2, group: 7 }
G40 G40.0 => Group { line: 2, group: 7 }
G49 G49 => Group { line: 2, group: 8 }
M8 M9 G49 G49 => Group { line: 2, group: 8 }
G49 G049 => Group { line: 2, group: 8 }
G54 G54 => Group { line: 2, group: 12 }
G54 T1 G54 => Group { line: 2, group: 12 }
G54 G54.0 => Group { line: 2, group: 12 }
G61 G61 => Group { line: 2, group: 13 }
G61 S1 G61 => Group { line: 2, group: 13 }
G061 G61 => Group { line: 2, group: 13 }
M2 M30 => Group { line: 2, group: 4 }
M2 M2 => Group { line: 2, group: 4 }
M30 G1 M02 => Group { line: 2, group: 4 }
M6 M6 => Group { line: 2, group: 6 }
G21 M6 M06 => Group { line: 2, group: 6 }
M6 T1 M6. => Group { line: 2, group: 6 }
M3 M5 => Group { line: 2, group: 7 }
M4 G40 M3 => Group { line: 2, group: 7 }
M8 M5 M7 M4 => Group { line: 2, group: 7 }";

#[test]
fn refuses_a_second_word_of_a_group(rt: HostRuntime) -> Result<(), Fail> {
    each_tells(&rt, rt.alloc(), Unit::Hundredth, LINE, SECOND_WORDS)
}

const TWICE: &str = r"X1 X2 => line 2: `X` twice
G1 x1 X1 => line 2: `X` twice
X1 Y1 X1 => line 2: `X` twice
Y1 Y1 => line 2: `Y` twice
G0 Y1 Z1 y1 => line 2: `Y` twice
Y1 Y1 G64 => line 2: `Y` twice
Z1 Z1 => line 2: `Z` twice
Z1 M2 Z0 => line 2: `Z` twice
Z1.005 Z1 => line 2: `Z` twice
F1 F1 => line 2: `F` twice
f1 M3 F2 => line 2: `F` twice
F1 X1 F1 => line 2: `F` twice
S1 S1 => line 2: `S` twice
S1 M3 s2 => line 2: `S` twice
S0 G1 S0 => line 2: `S` twice
T1 T1 => line 2: `T` twice
T1 M6 T2 => line 2: `T` twice
t1 X1 T1 => line 2: `T` twice";

#[test]
fn refuses_a_letter_twice(rt: HostRuntime) -> Result<(), Fail> {
    each_tells(&rt, rt.alloc(), Unit::Hundredth, LINE, TWICE)
}

const OUTSIDE: &str = r"G64 => line 2: not G Num { mant: 64, scale: 0, neg: false }
G20 => line 2: not G Num { mant: 20, scale: 0, neg: false }
G0 X1 G61.1 => line 2: not G Num { mant: 611, scale: 1, neg: false }
G0.5 => line 2: not G Num { mant: 5, scale: 1, neg: false }
M1 => line 2: not M Num { mant: 1, scale: 0, neg: false }
M98 => line 2: not M Num { mant: 98, scale: 0, neg: false }
M3.2 => line 2: not M Num { mant: 32, scale: 1, neg: false }
A1 => line 2: not A Num { mant: 1, scale: 0, neg: false }
G1 X1 i.5 => line 2: not I Num { mant: 5, scale: 1, neg: false }
O100 => line 2: not O Num { mant: 100, scale: 0, neg: false }
/ => line 2: not / Num { mant: 0, scale: 0, neg: false }
/G1 X1 => line 2: not / Num { mant: 0, scale: 0, neg: false }
(a)/N1 G64 => line 2: not / Num { mant: 0, scale: 0, neg: false }";

#[test]
fn refuses_words_outside_the_profile(rt: HostRuntime) -> Result<(), Fail> {
    each_tells(&rt, rt.alloc(), Unit::Hundredth, LINE, OUTSIDE)
}

// The order of the checks on a line.
const LINE_FAULTS: &str = r"G1 X => Word { line: 2, fault: NoNumber(3) }
G64 X1% => Word { line: 2, fault: BadByte(6) }
% => Word { line: 2, fault: BadByte(0) }
G80 X1 => NoMotion { line: 2 }
X1 => NoMotion { line: 2 }
M30 Z1.001 => NoMotion { line: 2 }
G1 => NoAxis { line: 2 }
M3 G00 F1 => NoAxis { line: 2 }
G0 M2 => NoAxis { line: 2 }
G1 X12.345 => OffGrid { line: 2 }
G1 Y1.00000001 => OffGrid { line: 2 }
G1 X9999.001 => OffGrid { line: 2 }
G0 Z1310.72 X.001 => OffGrid { line: 2 }
G1 X1310.72 => OutOfRange { line: 2 }
G1 Y-1310.72 Z.001 => OutOfRange { line: 2 }
G1 Z999999999999999999 => OutOfRange { line: 2 }";

#[test]
fn tells_the_first_fault_of_a_line(rt: HostRuntime) -> Result<(), Fail> {
    each_tells(&rt, rt.alloc(), Unit::Hundredth, LINE, LINE_FAULTS)
}

const TEXT_FAULTS: &str = r"G1 X1 => NoUnits { line: 1 }
N1\nG90 G0 Z1 => NoUnits { line: 2 }
X1 => NoUnits { line: 1 }
G21 G1 X1 => NoAbsolute { line: 1 }
\nG21\nX1 => NoAbsolute { line: 3 }
G21 X.001 => NoAbsolute { line: 1 }
G21 G90 G0 X1\nT1 => LateTool { line: 2 }
G21 G90 T1 M6\nT2 G0 X1\n\nM6 => LateTool { line: 4 }
G21 G90 G0 X1\nX2\nX3 T1 T1 => LateTool { line: 3 }
 => NoEnd { line: 1 }
G21 G90\nG1 X1\n => NoEnd { line: 3 }
%\nG21 G90\n(M2) => NoEnd { line: 3 }
(c) %\nM2 => Word { line: 1, fault: BadByte(4) }
%\nG17 %\n% => Word { line: 2, fault: BadByte(4) }
N1\n%\nM2 => Word { line: 2, fault: BadByte(0) }";

#[test]
fn tells_the_first_fault_of_a_text(rt: HostRuntime) -> Result<(), Fail> {
    each_tells(&rt, rt.alloc(), Unit::Hundredth, "@", TEXT_FAULTS)
}

// A line of 256 bytes with its CR, and one of 257.
const LONG_LINES: &str = r"___G17            \r\n_M2 => 0 moves
N1\n(a)\n___*             \r\r => Word { line: 3, fault: BadByte(240) }
N1\n(a)\n___*              \r\r => LongLine { line: 3 }";

fn long_line_tells<R: Abort>(rt: &R, alloc: Global, row: &str) -> Result<(), Fail> {
    let (text, wanted) = halves(row)?;
    let text = with_blanks(alloc, text)?;
    same(rt, &told(alloc, Unit::Hundredth, &text)?, wanted, row);
    Ok(())
}

#[test]
fn reads_lines_up_to_256_bytes(rt: HostRuntime) -> Result<(), Fail> {
    for row in LONG_LINES.lines() {
        long_line_tells(&rt, rt.alloc(), row)?;
    }
    Ok(())
}
