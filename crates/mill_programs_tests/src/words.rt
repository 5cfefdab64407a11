//! Lines and what they say, by hand.
use crate::tables::same;
use mill_tables::halves;
use mill_words::{LineWords, read_line, read_line_into};
use std::alloc::Global;
use std::process::Abort;
use std::test::Fail;

fn words_of(line: &str) -> Result<LineWords, Fail> {
    if line.len() > 256 {
        return Err(Fail::from("a long line"));
    }
    Ok(read_line(line.as_bytes())?)
}

// How many words a line has, and the last of them.
fn told(alloc: Global, line: &str) -> Result<String, Fail> {
    let read = words_of(line)?;
    let last = read.words().last().ok_or("a line without words")?;
    let letter = char::from(last.letter);
    Ok(format!(in alloc; "{} {letter} {:?}", read.words().len(), last.num)?)
}

fn tells<R: Abort>(rt: &R, alloc: Global, row: &str) -> Result<(), Fail> {
    let (line, wanted) = halves(row)?;
    same(rt, &told(alloc, line)?, wanted, row);
    Ok(())
}

const WORDS: &str = "\
X1 => 1 X Num { mant: 1, scale: 0, neg: false }
x1. => 1 X Num { mant: 1, scale: 0, neg: false }
z+01.50 => 1 Z Num { mant: 150, scale: 2, neg: false }
X-.5 => 1 X Num { mant: 5, scale: 1, neg: true }
X-0 => 1 X Num { mant: 0, scale: 0, neg: true }
X000000000000000001 => 1 X Num { mant: 1, scale: 0, neg: false }
X.000000000000000001 => 1 X Num { mant: 1, scale: 18, neg: false }
X- 1 2\t. 5\r => 1 X Num { mant: 125, scale: 1, neg: true }
g1 x+0. 12 y 7 => 3 Y Num { mant: 7, scale: 0, neg: false }
G1X2A3 => 3 A Num { mant: 3, scale: 0, neg: false }
G1 (c;d) X2 ;(e => 2 X Num { mant: 2, scale: 0, neg: false }
(\u{e4}%) X1 (b)(c) => 1 X Num { mant: 1, scale: 0, neg: false }
(a) N12 G01(b)x-.5;c => 2 X Num { mant: 5, scale: 1, neg: true }
n 123 456 789 X1 => 1 X Num { mant: 1, scale: 0, neg: false }
/ X1 => 1 X Num { mant: 1, scale: 0, neg: false }
(a)/(b)N1(c)M2 => 1 M Num { mant: 2, scale: 0, neg: false }
A1B1C1D1F1G1H1I1J1K1L1M1P1Q1R1S1T1X1Y1Z1X1X1X1X1X1X1X1X1X1X1X1X5 => 32 X Num { mant: 5, scale: 0, neg: false }";

#[test]
fn reads_words(rt: HostRuntime) -> Result<(), Fail> {
    for row in WORDS.lines() {
        tells(&rt, rt.alloc(), row)?;
    }
    Ok(())
}

// Whether a line has a slash, a line number, and nothing at all, by words into which others were read
// before.
fn told_into(alloc: Global, line: &str, read: &mut LineWords) -> Result<String, Fail> {
    if line.len() > 256 {
        return Err(Fail::from("a long line"));
    }
    read_line_into(line.as_bytes(), read)?;
    let (slash, number) = (read.has_slash(), read.is_numbered());
    Ok(format!(in alloc; "{slash} {number} {}", read.is_blank())?)
}

fn tells_into<R: Abort>(
    rt: &R,
    alloc: Global,
    row: &str,
    read: &mut LineWords,
) -> Result<(), Fail> {
    let (line, wanted) = halves(row)?;
    same(rt, &told_into(alloc, line, read)?, wanted, row);
    Ok(())
}

const BEFORE_WORDS: &str = " => false false true
 \t\r => false false true
(a) ;(b => false false true
N1 => false true false
(a) n 000 000 000 => false true false
/ => true false false
 /N2 X1 => true true false
X1 => false false false";

#[test]
fn reads_what_stands_before_the_words(rt: HostRuntime) -> Result<(), Fail> {
    let mut read = LineWords::new();
    for row in BEFORE_WORDS.lines() {
        tells_into(&rt, rt.alloc(), row, &mut read)?;
    }
    Ok(())
}

fn told_fault(alloc: Global, line: &str) -> Result<String, Fail> {
    if line.len() > 256 {
        return Err(Fail::from("a long line"));
    }
    let fault = read_line(line.as_bytes())
        .err()
        .ok_or("a line without a fault")?;
    Ok(format!(in alloc; "{fault:?}")?)
}

// Looks at the fault of a row's line, which stands behind some words.
fn has_fault<R: Abort>(rt: &R, alloc: Global, words: &str, row: &str) -> Result<(), Fail> {
    let (line, wanted) = halves(row)?;
    let line = format!(in alloc; "{words}{line}")?;
    same(rt, &told_fault(alloc, &line)?, wanted, row);
    Ok(())
}

const FAULTS: &str = "\
G1% => BadByte(2)
%(a => BadByte(0)
1 => BadByte(0)
// => BadByte(1)
N1/ => BadByte(2)
X1.2.3 => BadByte(4)
X1-2 => BadByte(2)
X1(c)2 => BadByte(5)
N1(c)2 => BadByte(5)
X1) => BadByte(2)
X => NoNumber(0)
X- => NoNumber(0)
G1 X.; => NoNumber(3)
X(c)1 => NoNumber(0)
XY1 => NoNumber(0)
X( => NoNumber(0)
X1234567890123456789% => LongNumber(0)
G1Y0000000000000000001 => LongNumber(2)
 X.0000000000000000001 => LongNumber(1)
( => Comment(0)
G1(a => Comment(2)
G1(a(b) => Comment(2)
N => LineNumber(0)
N1. => LineNumber(0)
N1+ => LineNumber(0)
N1-2 => LineNumber(0)
N-1 => LineNumber(0)
N(c)1 => LineNumber(0)
/N1234567890 => LineNumber(1)
G1 N2 => LineNumber(3)
N1 N2 => LineNumber(3)";

#[test]
fn tells_the_first_fault(rt: HostRuntime) -> Result<(), Fail> {
    for row in FAULTS.lines() {
        has_fault(&rt, rt.alloc(), "", row)?;
    }
    Ok(())
}

const WORDS_32: &str = "X1X1X1X1X1X1X1X1X1X1X1X1X1X1X1X1X1X1X1X1X1X1X1X1X1X1X1X1X1X1X1X1";

const FAULTS_BEHIND: &str = "\
X1 => TooManyWords
 g => TooManyWords
(c)Y% => TooManyWords
.5N => LineNumber(66)
n1 => LineNumber(64)
% => BadByte(64)";

#[test]
fn tells_the_first_fault_behind_32_words(rt: HostRuntime) -> Result<(), Fail> {
    for row in FAULTS_BEHIND.lines() {
        has_fault(&rt, rt.alloc(), WORDS_32, row)?;
    }
    Ok(())
}
