// Words that are taken, that ask for help, and that aren't taken.
//
// Each table is one text: the proof of a test then costs the same however many rows there are. A
// row is a line with words, where `''` is an empty one, and behind `=>` what their answer says.
use mill_command::{Refusal, read_words};
use mill_tables::with_lines;
use std::alloc::Global;
use std::process::Abort;
use std::test::Fail;

// Adds a word of a row, where `''` is an empty one.
fn add(alloc: Global, all: &mut Vec<String>, word: &str) -> Result<(), Fail> {
    let word = if word == "''" { "" } else { word };
    all.push(String::from_str(alloc, word)?)?;
    Ok(())
}

fn owned(alloc: Global, words: &str) -> Result<Vec<String>, Fail> {
    let mut all = Vec::new(alloc);
    for word in words.split_whitespace() {
        add(alloc, &mut all, word)?;
    }
    Ok(all)
}

// What kind of answer the words get, and its text.
fn answer(alloc: Global, words: &[String]) -> Result<(&'static str, String), Fail> {
    match read_words(alloc, words) {
        Ok(command) => Ok(("a command", format!(in alloc; "{command:?}")?)),
        Err(Refusal::Help { text }) => Ok(("help", text)),
        Err(Refusal::NotTaken { text }) => Ok(("a mistake", text)),
        Err(Refusal::WantOfMemory) => Err("want of memory".into()),
    }
}

fn answer_to(alloc: Global, words: &str) -> Result<(&'static str, String), Fail> {
    let words = owned(alloc, words)?;
    answer(alloc, &words)
}

// Whether a text has this part, in which `\n` is a line's end.
fn says(alloc: Global, text: &str, part: &str) -> Result<bool, Fail> {
    let part = with_lines(alloc, part)?;
    Ok(text.contains(part.as_str()))
}

// Whether a row's words get an answer of this kind that says what stands behind `=>`.
fn holds(alloc: Global, line: &str, kind: &str) -> Result<bool, Fail> {
    let (words, part) = line.split_once("=> ").ok_or("a row without =>")?;
    let (told, text) = answer_to(alloc, words)?;
    Ok(told == kind && says(alloc, &text, part)?)
}

fn look<R: Abort>(rt: &R, alloc: Global, line: &str, kind: &str) -> Result<(), Fail> {
    assert!(rt; holds(alloc, line, kind)?, "{line}");
    Ok(())
}

fn each_holds<R: Abort>(rt: &R, alloc: Global, table: &str, kind: &str) -> Result<(), Fail> {
    for line in table.lines() {
        look(rt, alloc, line, kind)?;
    }
    Ok(())
}

const TAKEN: &str = r#"verify a b c => Verify { job: "a", part: "b", file: "c", workers: 1 }
verify -- a b c => Verify { job: "a", part: "b", file: "c", workers: 1 }
verify -- -a --help verify => Verify { job: "-a", part: "--help", file: "verify", workers: 1 }
verify a b '' => Verify { job: "a", part: "b", file: "", workers: 1 }
verify a b c --workers=1 => Verify { job: "a", part: "b", file: "c", workers: 1 }
verify --workers=64 a b c => Verify { job: "a", part: "b", file: "c", workers: 64 }
verify a --workers 64 b c => Verify { job: "a", part: "b", file: "c", workers: 64 }
verify a b --workers=+064 c => Verify { job: "a", part: "b", file: "c", workers: 64 }
rest a b c => Rest { job: "a", part: "b", list: "c", workers: 1 }
rest a --workers=64 b -- c => Rest { job: "a", part: "b", list: "c", workers: 64 }
plan a b c => Plan { job: "a", part: "b", out: "c", workers: 1 }
plan a b --workers 1 -- c => Plan { job: "a", part: "b", out: "c", workers: 1 }
plan --workers=8 a b c => Plan { job: "a", part: "b", out: "c", workers: 8 }
drop a b --x=-1 --y=2.5 => Drop { job: "a", part: "b", x: "-1", y: "2.5" }
drop --y 2.5 a --x=-1 b => Drop { job: "a", part: "b", x: "-1", y: "2.5" }
drop --y=2.5 --x=-1 a b => Drop { job: "a", part: "b", x: "-1", y: "2.5" }
drop --y=2.5 --x=-1 -- a b => Drop { job: "a", part: "b", x: "-1", y: "2.5" }
drop a b --x= --y=--x=1 => Drop { job: "a", part: "b", x: "", y: "--x=1" }
drop a b --x=-1 --y=2.5 --workers=1 => Drop { job: "a", part: "b", x: "-1", y: "2.5" }
drop --workers=64 a b --x=-1 --y=2.5 => Drop { job: "a", part: "b", x: "-1", y: "2.5" }
level a b --z=-1.5 => Level { job: "a", part: "b", z: "-1.5" }
level --z=-1.5 a -- b => Level { job: "a", part: "b", z: "-1.5" }
level a b --workers=64 --z=-1.5 => Level { job: "a", part: "b", z: "-1.5" }
stock a b c => Stock { job: "a", file: "b", out: "c" }
stock a --workers=64 b -- c => Stock { job: "a", file: "b", out: "c" }
sample 100 => Sample { size: 100, workers: 1 }
sample -- 0100 => Sample { size: 100, workers: 1 }
sample 1 --workers=8 => Sample { size: 1, workers: 8 }
sample --workers 8 +1 => Sample { size: 1, workers: 8 }"#;

#[test]
fn takes_commands(rt: HostRuntime) -> Result<(), Fail> {
    each_holds(&rt, rt.alloc(), TAKEN, "a command")
}

const HELPED: &str = r"--help => Usage: camtool <COMMAND>
-h => Usage: camtool <COMMAND>
help => Usage: camtool <COMMAND>
help verify => Verifies a program
verify --help => Usage: camtool verify [OPTIONS] <JOB> <PART> <FILE>
verify a -h => Usage: camtool verify [OPTIONS] <JOB> <PART> <FILE>
rest -h => Usage: camtool rest [OPTIONS] <JOB> <PART> <LIST>
plan -h => Usage: camtool plan [OPTIONS] <JOB> <PART> <OUT>
drop -h => Usage: camtool drop [OPTIONS] --x <X> --y <Y> <JOB> <PART>
level -h => Usage: camtool level [OPTIONS] --z <Z> <JOB> <PART>
level -h => as in --z=-1.5
stock -h => Usage: camtool stock [OPTIONS] <JOB> <FILE> <OUT>
sample -h => Usage: camtool sample [OPTIONS] <N>
--version => camtool 0.2.0\n
-V => camtool 0.2.0\n
-V verify => camtool 0.2.0\n";

#[test]
fn shows_help_and_version(rt: HostRuntime) -> Result<(), Fail> {
    each_holds(&rt, rt.alloc(), HELPED, "help")
}

const NOT_TAKEN: &str = r"=> requires a subcommand
-- => requires a subcommand
verify => <JOB>\n  <PART>\n  <FILE>\n
verify a b => not provided:\n  <FILE>\n
verify a b c d => unexpected argument 'd'
verify a b c --x=1 => unexpected argument '--x'
verify a b c -V => unexpected argument '-V'
verify a b -c => unexpected argument '-c'
mill a b c => unrecognized subcommand 'mill'
Verify a b c => unrecognized subcommand 'Verify'
camtool verify a b c => unrecognized subcommand 'camtool'
help mill => unrecognized subcommand 'mill'
--workers=2 verify a b c => unexpected argument '--workers'
verify a b c --workers=0 => 0 is not in 1..=64
verify a b c --workers=65 => 65 is not in 1..=64
verify a b c --workers=-1 => -1 is not in 1..=64
verify a b c --workers=1.5 => invalid value '1.5'
verify a b c --workers= => '--workers <W>'
verify a b c --workers => a value is required for '--workers <W>'
verify a b c --workers=2 --workers=2 => multiple times
verify --workers=2 a b => not provided:\n  <FILE>\n
rest a b => not provided:\n  <LIST>\n
rest a b c d => unexpected argument 'd'
rest a b c --workers=0 => 0 is not in 1..=64
rest a b c --workers=65 => 65 is not in 1..=64
drop a b --x=1 --y=2 --workers=65 => 65 is not in 1..=64
plan a b => not provided:\n  <OUT>\n
plan a b c d => unexpected argument 'd'
plan a b c --workers=65 => 65 is not in 1..=64
drop a b => not provided:\n  --x <X>\n  --y <Y>\n
drop a b --x=1 => not provided:\n  --y <Y>\n
drop a --x=1 --y=2 => not provided:\n  <PART>\n
drop a b --x -1 --y=2 => unexpected argument '-1'
drop a b --x=1 --x=2 --y=2 => multiple times
drop a b --x=1 --y => a value is required for '--y <Y>'
drop a b c --x=1 --y=2 => unexpected argument 'c'
drop a b --x=1 --y=2 --z=3 => unexpected argument '--z'
level a b => not provided:\n  --z <Z>\n
level a --z=1 => not provided:\n  <PART>\n
level a b --z -1 => unexpected argument '-1'
level a b --z=1 --x=1 => unexpected argument '--x'
stock a b => not provided:\n  <OUT>\n
stock a b c d => unexpected argument 'd'
stock a b c --workers=65 => 65 is not in 1..=64
sample => not provided:\n  <N>\n
sample 0 => 0 is not in 1..=100
sample 101 => 101 is not in 1..=100
sample ten => invalid value 'ten'
sample 1 2 => unexpected argument '2'
sample 1 --workers=65 => 65 is not in 1..=64";

#[test]
fn refuses_words(rt: HostRuntime) -> Result<(), Fail> {
    each_holds(&rt, rt.alloc(), NOT_TAKEN, "a mistake")
}
