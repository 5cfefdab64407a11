ghost use Rattle.std.specs.Prelude.{◌≤◌, All, IfOk};
ghost use Rattle.mill_base.specs.Sizes.{IsCutter};
ghost use Rattle.mill_verify.specs.Files.{IsFileOf};

use crate::samples::{FLAT_BLOCK, PLATE, job_of, program, same};
use mill_base::Cutter;
use mill_crew::Threaded;
use mill_job::Job;
use mill_tables::{halves, part_under};
use mill_verify::{CutFile, verify_list};
use std::alloc::Global;
use std::process::Abort;
use std::test::Fail;
use std::thread::Threads;

/// A ball by its word; any other is flat.
fn cutter(word: &str) -> Cutter
    ensures { IsCutter result }
{
    if word == "ball" {
        Cutter::Ball { radius: 150 }
    } else {
        Cutter::Flat { radius: 150 }
    }
}

/// A file by its cutter and its moves.
fn file(alloc: Global, job: &Job, text: &str) -> Result<CutFile, Fail>
    ensures { IfOk result (IsFileOf job.now.fields) }
{
    let (word, moves) = text.split_once(": ").ok_or("a file without a cutter")?;
    let cutter = cutter(word);
    if job.cutter_fault(&cutter).is_some() {
        return Err(Fail::from("a cutter that doesn't fit the job"));
    }
    let moves = program(alloc, job, moves)?;
    Ok(CutFile { cutter, moves })
}

/// Files with a bar between them.
fn files_of(alloc: Global, job: &Job, text: &str) -> Result<Vec<CutFile>, Fail>
    ensures { IfOk result (λ files. All (IsFileOf job.now.fields) files.items) }
{
    let mut files = Vec::new(alloc);
    for each in text.split(" | ") {
        files.push(file(alloc, job, each)?)?;
    }
    Ok(files)
}

/// The verdict on files in turn.
fn told_of<R: Threads + Sync + AllocGlobal>(
    rt: &R,
    text: &str,
    workers: u32,
) -> Result<String, Fail>
    requires some { 1 ≤ workers }
    requires few { workers ≤ 64 }
{
    let alloc = rt.alloc();
    let job = job_of(alloc, FLAT_BLOCK, "")?;
    let part = part_under(alloc, job.fields.top, PLATE)?;
    let files = files_of(alloc, &job, text)?;
    if files.len() > 16 {
        return Err(Fail::from("too many files"));
    }
    let verdict = verify_list(&Threaded { rt, workers }, alloc, &job, &part, &files)?;
    Ok(format!(in alloc; "{verdict:?}")?)
}

fn look<R: Threads + Sync + AllocGlobal + Abort>(
    rt: &R,
    row: &str,
    workers: u32,
) -> Result<(), Fail>
    requires some { 1 ≤ workers }
    requires few { workers ≤ 64 }
{
    let (text, wanted) = halves(row)?;
    same(rt, &told_of(rt, text, workers)?, wanted, row);
    Ok(())
}

fn each_list<R: Threads + Sync + AllocGlobal + Abort>(
    rt: &R,
    table: &str,
    workers: u32,
) -> Result<(), Fail>
    requires some { 1 ≤ workers }
    requires few { workers ≤ 64 }
{
    for row in table.lines() {
        look(rt, row, workers)?;
    }
    Ok(())
}

// The ball leaves up to 100 over the plate, which the flat takes off; a rapid under the plate's top is
// the second file's failure, by the first of its tests.
const LISTS: &str = "\
ball: feed 100 100 200; rapid 100 100 400 | flat: feed 100 100 200; rapid 100 100 400 => \
    Accept { files: 2, moves: 4, columns: 9, most_left: 0 }
ball: feed 100 100 200; rapid 100 100 400 | flat: rapid 100 100 199; rapid 100 100 400 => \
    Reject { file: 1, reason: Gouge { at: 0, tri: 0, leaf: Leaf { d: 8, k: 254 } } }
ball: feed 100 100 200; rapid 100 100 400 => Left { row: 0, col: 0, top: 300 }";

#[test]
fn goes_on_where_the_file_before_left_off(rt: HostRuntime) -> Result<(), Fail> {
    each_list(&rt, LISTS, 1)?;
    each_list(&rt, LISTS, 4)?;
    each_list(&rt, LISTS, 64)
}
