// Programs in pieces, against the same programs whole.
ghost use Rattle.std.specs.Prelude.{◌<◌};

use super::HOME;
use crate::tables::{same, with_blanks};
use mill_base::{Move, Unit};
use mill_ngc::{NgcFault, Reader, Rules};
use mill_tables::{halves, with_bytes};
use std::alloc::{AllocError, Global};
use std::process::Abort;
use std::test::Fail;

// What a text comes to.
#[derive(Drop)]
struct Told {
    moves: Vec<Move>,
    fault: Option<NgcFault>,
}

fn is_same(told: &Told, other: &Told) -> bool {
    told.fault == other.fault && told.moves.as_slice() == other.moves.as_slice()
}

// Numbers that look like random ones.
#[derive(Drop)]
struct Dice {
    state: u64,
}

impl Dice {
    fn roll(&mut self, sides: usize) -> usize
        requires { 0 < sides }
        ensures { result < sides }
    {
        self.state = self
            .state
            .wrapping_mul(6_364_136_223_846_793_005)
            .wrapping_add(1_442_695_040_888_963_407);
        (self.state >> 33) as usize % sides
    }
}

// Reads a text in two pieces, the first of `cut` bytes.
fn read_halves(alloc: Global, text: &[u8], cut: usize) -> Told {
    let mut moves = Vec::new(alloc);
    let mut reader = Reader::new(HOME, Unit::Hundredth, Rules::NONE);
    let (head, tail) = text.split_at(cut.min(text.len()));
    let first = reader.feed(head, &mut moves).err();
    let second = reader.feed(tail, &mut moves).err();
    let last = reader.finish(&mut moves).err();
    Told {
        moves,
        fault: first.or(second).or(last),
    }
}

// Looks at a call behind a fault, which has to answer it again, and to add nothing.
fn look_behind<R: Abort>(
    rt: &R,
    fault: Option<NgcFault>,
    told: Option<NgcFault>,
    before: usize,
    behind: usize,
) {
    if fault.is_some() {
        assert_eq!(rt; (told, behind), (fault, before));
    }
}

// Reads a text in pieces of at most this many bytes.
fn read_pieces<R: Abort>(rt: &R, alloc: Global, text: &[u8], most: usize, dice: &mut Dice) -> Told
    requires { 0 < most }
{
    let mut moves = Vec::new(alloc);
    let mut reader = Reader::new(HOME, Unit::Hundredth, Rules::NONE);
    let mut fault = None;
    let mut rest = text;
    while !rest.is_empty() {
        let count = (1 + dice.roll(most)).min(rest.len());
        let (piece, more) = rest.split_at(count);
        let before = moves.len();
        let told = reader.feed(piece, &mut moves).err();
        look_behind(rt, fault, told, before, moves.len());
        fault = told;
        rest = more;
    }
    let before = moves.len();
    let told = reader.finish(&mut moves).err();
    look_behind(rt, fault, told, before, moves.len());
    Told { moves, fault: told }
}

// A cut of a text into two reads the same as the whole.
fn cut_agrees<R: Abort>(rt: &R, alloc: Global, text: &str, cut: usize, whole: &Told) {
    let told = read_halves(alloc, text.as_bytes(), cut);
    assert!(rt; is_same(&told, whole), "{text} cut at {cut}");
}

fn cuts_agree<R: Abort>(rt: &R, alloc: Global, text: &str, whole: &Told) {
    for cut in 0..text.len() {
        cut_agrees(rt, alloc, text, cut + 1, whole);
    }
}

// How many moves a text makes, and its fault, however it is cut into two.
fn every_cut_tells<R: Abort>(rt: &R, alloc: Global, text: &str, wanted: &str) -> Result<(), Fail> {
    let whole = read_halves(alloc, text.as_bytes(), 0);
    cuts_agree(rt, alloc, text, &whole);
    let told = format!(in alloc; "{} {:?}", whole.moves.len(), whole.fault)?;
    same(rt, &told, wanted, text);
    Ok(())
}

// Small programs, how many moves they make, and their fault: each cut into two.
const PROGRAMS: &str = r"G21 G90\nG1 Z2\nG0 Z4\nM2 => 2 None
G21 G90\nG1 Z2\nG0 Z4\nM2\n?\n => 2 None
 \r\n%\r\nG21 G90\n(a\tb) g1 x 1 . 2 5;c\nY1\n% \nG64 => 2 None
G21 G90 G1 X1\nX2\nX.001\nX3\nM2 => 2 Some(OffGrid { line: 3 })
G21 G90 G1 X1\n\n %\nM2 => 1 Some(Word { line: 3, fault: BadByte(1) })
G21 G90\nG1 X1\n => 1 Some(NoEnd { line: 3 })
G21 G90\nG1 X1 M2 G1 => 0 Some(Group { line: 2, group: 1 })
 => 0 Some(NoEnd { line: 1 })";

fn row_tells<R: Abort>(rt: &R, alloc: Global, row: &str) -> Result<(), Fail> {
    let (text, wanted) = halves(row)?;
    let text = with_bytes(alloc, text)?;
    every_cut_tells(rt, alloc, &text, wanted)
}

#[test]
fn every_cut_reads_the_same(rt: HostRuntime) -> Result<(), Fail> {
    for row in PROGRAMS.lines() {
        row_tells(&rt, rt.alloc(), row)?;
    }
    Ok(())
}

// Long lines: the last byte that a line may have, and one more, in each piece.
const LONG_LINES: &str = r"___G17            \r\nM2 => 0 None
___G17            \r\r\nM2 => 0 Some(LongLine { line: 1 })
M6\n___G17               => 0 Some(LongLine { line: 2 })";

fn long_row_tells<R: Abort>(rt: &R, alloc: Global, row: &str) -> Result<(), Fail> {
    let (text, wanted) = halves(row)?;
    let text = with_blanks(alloc, text)?;
    every_cut_tells(rt, alloc, &text, wanted)
}

#[test]
fn long_lines_are_cut(rt: HostRuntime) -> Result<(), Fail> {
    for row in LONG_LINES.lines() {
        long_row_tells(&rt, rt.alloc(), row)?;
    }
    Ok(())
}

// Lines that a program may have behind `G21 G90`, and lines that are a fault behind an axis word.
const SOUND: [&str; 12] = [
    "G1 X1.25 Y-3 Z.5",
    "g0 z 4",
    "G1Y+10.X-0",
    "(a; b) G0 X2 ; (c",
    "N12 G1 X0 Y0 Z0",
    " \t\r",
    "",
    "(nothing)",
    "M3 S8000 F300",
    "G17 G40 G49 G54 G61 G94",
    "G80 M8\nG0 X7",
    "N9 G1 X1310.71 Y-1310.71 (1234567890 1234567890 1234567890 1234567890 1234567890)",
];

const FAULTY: [&str; 15] = [
    "?",
    "G1 X",
    "(a (b) G1 X1",
    "N1.5 X1",
    "X1234567890123456789",
    "M9%",
    "/G1 X1",
    "G64",
    "T2",
    "X1 Y1 G1 G0",
    "G1 X1 X2",
    "G80\nX1",
    "Y.001",
    "Z1310.72",
    "G1",
];

fn any_line(dice: &mut Dice, is_sound: bool) -> &'static str {
    if is_sound {
        SOUND[dice.roll(SOUND.len())]
    } else {
        FAULTY[dice.roll(FAULTY.len())]
    }
}

fn add_line(text: &mut String, line: &str) -> Result<(), AllocError> {
    text.push_str(line)?;
    text.push('\n')
}

// A program of such lines, most of them sound.
fn program(alloc: Global, dice: &mut Dice) -> Result<String, AllocError> {
    let mut text = String::from_str(alloc, "%\nG21 G90\nG0 X0\n")?;
    let bad = dice.roll(80);
    for number in 0..dice.roll(60) {
        add_line(&mut text, any_line(dice, number != bad))?;
    }
    text.push_str("M5\n%\nnot read")?;
    Ok(text)
}

fn pieces_agree<R: Abort>(
    rt: &R,
    alloc: Global,
    text: &[u8],
    whole: &Told,
    most: usize,
    dice: &mut Dice,
)
    requires { 0 < most }
{
    let told = read_pieces(rt, alloc, text, most, dice);
    assert!(rt; is_same(&told, whole), "pieces of {most}");
}

// Pieces of several sizes.
fn sizes_agree<R: Abort>(rt: &R, alloc: Global, text: &[u8], whole: &Told, dice: &mut Dice) {
    for most in [1, 7, 40, 400] {
        pieces_agree(rt, alloc, text, whole, most, dice);
    }
}

// Reads a long program in pieces of several sizes. It may have a fault.
fn has_fault<R: Abort>(rt: &R, alloc: Global, dice: &mut Dice) -> Result<bool, AllocError> {
    let text = program(alloc, dice)?;
    let whole = read_halves(alloc, text.as_bytes(), 0);
    sizes_agree(rt, alloc, text.as_bytes(), &whole, dice);
    Ok(whole.fault.is_some())
}

// How many of 60 programs have a fault.
fn fault_count<R: Abort>(rt: &R, alloc: Global) -> Result<u32, AllocError> {
    let mut dice = Dice { state: 1 };
    let mut faults: u32 = 0;
    for _ in 0..60 {
        if has_fault(rt, alloc, &mut dice)? {
            faults = faults.saturating_add(1);
        }
    }
    Ok(faults)
}

#[test]
fn random_cuts_read_the_same(rt: HostRuntime) -> Result<(), AllocError> {
    let faults = fault_count(&rt, rt.alloc())?;
    assert!(rt; faults > 9 && faults < 50, "{faults} faults");
    Ok(())
}
