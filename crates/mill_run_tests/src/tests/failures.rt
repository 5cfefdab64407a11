// Each call on the outside that a command makes, refused in turn.
//
// A row has a command and what the outside allows, as in SOUND; the status and what is printed; and
// what OUT holds then. A name is the text of that file.
use crate::tests::{answer, same, text_of, told_and_left};
use mill_tables::with_lines;
use std::alloc::Global;
use std::process::Abort;
use std::test::Fail;
use std::thread::Threads;

// The text between `<` and `>`, or that of a file.
fn text(alloc: Global, word: &str) -> Result<String, Fail> {
    match word.strip_prefix('<') {
        Some(text) => Ok(with_lines(alloc, text.trim_end_matches('>'))?),
        None => Ok(String::from_str(alloc, text_of(word)?)?),
    }
}

// Looks at a row.
fn look<R: Threads + Sync + Abort>(rt: &R, alloc: Global, row: &str) -> Result<(), Fail> {
    let (given, wanted) = row.split_once(" => ").ok_or("a row without =>")?;
    let (command, allowed) = given.split_once(", ").ok_or("a row without limits")?;
    let mut ended = answer(rt, alloc, command, allowed)?;
    let told = told_and_left(alloc, &mut ended, "out")?;
    same(rt, &told, &wanted_of(alloc, wanted)?, row);
    Ok(())
}

// What a row wants to be told, and to be left in OUT.
fn wanted_of(alloc: Global, wanted: &str) -> Result<String, Fail> {
    let (says, leaves) = wanted.split_once(" => ").ok_or("a row with one =>")?;
    let (code, printed) = says.split_once(' ').ok_or("a row without a status")?;
    let (printed, leaves) = (text(alloc, printed)?, text(alloc, leaves)?);
    Ok(format!(in alloc; "{code} {printed}|{leaves}")?)
}

fn each_ends<R: Threads + Sync + Abort>(rt: &R, alloc: Global, table: &str) -> Result<(), Fail> {
    for row in table.lines() {
        look(rt, alloc, row)?;
    }
    Ok(())
}

// Looks at a row without what OUT holds, which may not be read.
fn look_at_told<R: Threads + Sync + Abort>(rt: &R, alloc: Global, row: &str) -> Result<(), Fail> {
    let (given, says) = row.split_once(" => ").ok_or("a row without =>")?;
    let (command, allowed) = given.split_once(", ").ok_or("a row without limits")?;
    let ended = answer(rt, alloc, command, allowed)?;
    same(rt, &ended.told, &format!(in alloc; "{says}\n")?, row);
    Ok(())
}

pub(crate) fn each_tells<R: Threads + Sync + Abort>(
    rt: &R,
    alloc: Global,
    table: &str,
) -> Result<(), Fail> {
    for row in table.lines() {
        look_at_told(rt, alloc, row)?;
    }
    Ok(())
}

// The store's reads are two a file; where the sink fails too, that is what is blamed.
const READS: &str = r"verify job plate <M2>, out 1000 0, 200 => 6 <read fault job\n> => out
verify job plate <M2>, out 1000 0, 200 0 => 7 <> => out
verify job plate <M2>, out 1000 1, 200 => 6 <read fault job\n> => out
verify job plate <M2>, out 1000 1, 200 0 => 7 <> => out
verify job plate <M2>, out 1000 2, 200 => 6 <read fault part\n> => out
verify job plate <M2>, out 1000 2, 200 0 => 7 <> => out
verify job plate <M2>, out 1000 3, 200 => 6 <read fault part\n> => out
verify job plate <M2>, out 1000 3, 200 0 => 7 <> => out
verify job plate <M2>, out 1000 4, 200 => 6 <read fault program\n> => out
verify job plate <M2>, out 1000 4, 200 0 => 7 <> => out
verify job plate <M2>, out 1000 5, 200 => 6 <read fault program\n> => out
verify job plate <M2>, out 1000 5, 200 0 => 7 <> => out
plan job plate out, out 1000 0, 200 => 6 <read fault job\n> => out
plan job plate out, out 1000 0, 200 0 => 7 <> => out
plan job plate out, out 1000 1, 200 => 6 <read fault job\n> => out
plan job plate out, out 1000 1, 200 0 => 7 <> => out
plan job plate out, out 1000 2, 200 => 6 <read fault part\n> => out
plan job plate out, out 1000 2, 200 0 => 7 <> => out
plan job plate out, out 1000 3, 200 => 6 <read fault part\n> => out
plan job plate out, out 1000 3, 200 0 => 7 <> => out
plan groove-job groove out, out 1000 1, 200 => 6 <read fault job\n> => out
plan groove-job groove out, out 1000 3, 200 => 6 <read fault part\n> => out
drop job plate --x=1 --y=1, out 1000 1, 200 => 6 <read fault job\n> => out
drop job plate --x=1 --y=1, out 1000 1, 200 0 => 7 <> => out
drop job plate --x=1 --y=1, out 1000 3, 200 => 6 <read fault part\n> => out
drop job plate --x=1 --y=1, out 1000 3, 200 0 => 7 <> => out
level job plate --z=0, out 1000 1, 200 => 6 <read fault job\n> => out
level job plate --z=0, out 1000 1, 200 0 => 7 <> => out
level job plate --z=0, out 1000 3, 200 => 6 <read fault part\n> => out
level job plate --z=0, out 1000 3, 200 0 => 7 <> => out
stock job down out, out 1000 1, 200 => 6 <read fault job\n> => out
stock job down out, out 1000 1, 200 0 => 7 <> => out
stock job down out, out 1000 3, 200 => 6 <read fault program\n> => out
stock job down out, out 1000 3, 200 0 => 7 <> => out
rest job plate two, out 1000 5, 200 => 6 <read fault list\n> => out
rest job plate two, out 1000 5, 200 0 => 7 <> => out
rest job plate two, out 1000 7, 200 => 6 <read fault program 0\n> => out
rest job plate two, out 1000 9, 200 => 6 <read fault program 1\n> => out
rest job plate two, out 1000 9, 200 0 => 7 <> => out";

#[test]
fn blames_each_failed_read(rt: HostRuntime) -> Result<(), Fail> {
    each_ends(&rt, rt.alloc(), READS)
}

// A program of three pieces, whose first line is refused, is read to its end behind its fault, by
// reads 4 to 7.
const READ_ON: &str = r"verify job plate <?\n + 139998 *  >, out 1000 4, 200 => 6 read fault program
verify job plate <?\n + 139998 *  >, out 1000 5, 200 => 6 read fault program
verify job plate <?\n + 139998 *  >, out 1000 6, 200 => 6 read fault program
verify job plate <?\n + 139998 *  >, out 1000 7, 200 => 6 read fault program
verify job plate <?\n + 139998 *  >, out 1000 8, 200 => 4 refused program line 1 word";

#[test]
fn reads_on_behind_a_fault(rt: HostRuntime) -> Result<(), Fail> {
    each_tells(&rt, rt.alloc(), READ_ON)
}

// Of `plan` and `stock`, the store's call 4 creates OUT, and call 5 is the first append. A failed write
// leaves a prefix of the text, or what was there, and then nothing is printed. The groove has no
// program: OUT isn't written, so it needn't be a file that can be.
const WRITES: &str = r"plan job plate out, out 1000 4, 200 => 7 <> => out
plan job plate out, out 1000 5, 200 => 7 <> => <>
plan job plate out, out 5, 200 => 7 <> => <%\nG17>
plan job plate out, out 100, 200 => 7 <> => <%\nG17 G21 G90\nG1 X0.00 Y0.00 Z2.00\nG1 X1.00 Y0.00 Z2.00\nG1 X2.00 Y0.00 Z2.00\nG1 X2.00 Y1.00 Z2.00\nG1>
plan job plate out, out 1000, 200 0 => 7 <> => planned
plan job plate out, out 1000, 8 => 7 <planned > => planned
plan groove-job groove out, planned 1000, 200 => 8 <uncut row 0 column 5 top 2.00\n> => out
plan groove-job groove out, out 1000, 200 0 => 7 <> => out
plan groove-job groove out, out 1000, 6 => 7 <uncut > => out
stock job down out, out 1000 4, 200 => 7 <> => out
stock job down out, out 1000 5, 200 => 7 <> => <>
stock job down out, out 9, 200 => 7 <> => <solid sto>
stock job down out, out 1000, 200 0 => 7 <> => stocked
stock job down out, out 1000, 6 => 7 <stock > => stocked
verify job plate <M2>, out 1000, 200 0 => 7 <> => out
verify job plate <M2>, out 1000, 9 => 7 <rejected > => out
drop job plate --x=1 --y=1, out 1000, 200 0 => 7 <> => out
drop job plate --x=1 --y=1, out 1000, 5 => 7 <drop > => out
level job plate --z=0, out 1000, 200 0 => 7 <> => out
level job plate --z=0, out 1000, 7 => 7 <chains > => out
rest job plate two, out 1000, 200 0 => 7 <> => out
rest job plate two, out 1000, 9 => 7 <accepted > => out
sample 1, out 1000, 200 0 => 7 <> => out
sample 1, out 1000, 7 => 7 <sample > => out";

#[test]
fn blames_each_failed_write(rt: HostRuntime) -> Result<(), Fail> {
    each_ends(&rt, rt.alloc(), WRITES)
}
