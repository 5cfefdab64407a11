// Words that aren't taken as a command. Clap's text isn't part of any promise: a row has only a piece
// of it.
use crate::tests::{answer, same};
use mill_tables::with_lines;
use std::alloc::Global;
use std::process::Abort;
use std::test::Fail;
use std::thread::Threads;

const UNTAKEN: &str = r"--help => 0 Usage: camtool <COMMAND>
-h => 0 Usage: camtool <COMMAND>
help drop => 0 --x <X>
drop --help => 0 --x <X>
verify job --help => 0 Usage: camtool
--version => 0 camtool 0.2.0\n
-V => 0 camtool 0.2.0\n
=> 2 requires a subcommand
Verify job part program => 2 unrecognized
verify job => 2 <PART>
verify job part => 2 <FILE>
verify job part program more => 2 unexpected argument 'more'
verify job part program --z=1 => 2 unexpected argument '--z'
verify job part program --workers=0 => 2 0 is not in 1..=64
verify job part program --workers=65 => 2 65 is not in 1..=64
verify job part program --workers= => 2 '--workers <W>'
verify job part program --workers=1.5 => 2 '--workers <W>'
verify --workers=2 job --workers=2 part program => 2 multiple times
--workers=2 verify job part program => 2 unexpected argument '--workers'
plan job part => 2 <OUT>
plan job part out more => 2 unexpected argument 'more'
plan job part out --workers=65 => 2 65 is not in 1..=64
drop job --x=1 --y=2 => 2 <PART>
drop job part --y=2 => 2 --x <X>
drop job part --x -1 --y=2 => 2 unexpected argument '-1'
drop job part --x=1 --x=1 --y=2 => 2 multiple times
drop job part --x=1 --y=2 --z=3 => 2 unexpected argument '--z'
level --help => 0 --z <Z>
level job part => 2 --z <Z>
level job part --z=1 --z=1 => 2 multiple times
sample --help => 0 <N>
sample => 2 <N>
sample 0 => 2 0 is not in 1..=100
sample 101 => 2 101 is not in 1..=100";

// Looks at a row. Every read would fail: no file is read.
fn look<R: Threads + Sync + Abort>(rt: &R, alloc: Global, row: &str) -> Result<(), Fail> {
    let (command, says) = row.split_once("=> ").ok_or("a row without =>")?;
    let (code, piece) = says.split_once(' ').ok_or("a row without a status")?;
    let piece = with_lines(alloc, piece)?;
    let ended = answer(rt, alloc, command, "out 1000 0 1 2 3 4 5, 2000")?;
    let (told, text) = ended.told.split_once(' ').ok_or("no status")?;
    same(rt, told, code, row);
    holds(rt, text, &piece, row);
    Ok(())
}

fn holds<R: Abort>(rt: &R, text: &str, piece: &str, row: &str) {
    assert!(rt; text.contains(piece), "{row}: {text}");
}

#[test]
fn answers_untaken_words(rt: HostRuntime) -> Result<(), Fail> {
    for row in UNTAKEN.lines() {
        look(&rt, rt.alloc(), row)?;
    }
    Ok(())
}
