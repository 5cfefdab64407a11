ghost use Rattle.std.specs.Prelude.{◌≡◌, ℕ, ◌≤◌, ℤ, All, length, Ok, IfOk, MatchResult};
ghost use Rattle.mill_base.specs.Covers.{IsUnder};
ghost use Rattle.mill_verify.specs.Files.{IsFileOf, file_at, job_of, stock_before};
ghost use Rattle.mill_verify.specs.ListClaims.{FilesCutSafely};
ghost use Rattle.mill_verify.specs.Lists.{IsListVerdict};
ghost use Rattle.mill_verify.specs.Verdicts.{NamesLeaf};
ghost use Rattle.mill_verify.specs.inner.Listed.{AreFilesPassed, IsFileStopped};
ghost use Rattle.mill_verify.specs.declared.list.TheConstants.{MAX_FILES};
ghost use Rattle.mill_verify.specs.declared.verdict.Reason.{Reason as Why};

use crate::crew::TestCrew;
use crate::file::{CutFile, job_with, moves_of};
use crate::left::Uncut;
use crate::moves::rows_after;
use crate::start::{Start, rows_of_start};
use crate::verdict::Reason;
use mill_base::WantOfMemory;
use mill_dexel::Row;
use mill_job::Job;
use mill_part::SortedPart;
use std::alloc::Global;

/// How many files a list may have.
pub const MAX_FILES: usize = 16;

/// What is said of files in turn on one stock. Files, moves, rows and columns are counted from 0.
#[derive(Clone, Copy, Debug, PartialEq, Eq)]
pub enum ListVerdict {
    /// Every test passes. `moves` are those of all files, and `most_left` is the most that any column's
    /// top stands over its greatest covered height, in units.
    Accept {
        files: u32,
        moves: u64,
        columns: u64,
        most_left: i32,
    },
    /// A move of this file fails one of tests (i) to (iii h), and this is the first. The reason counts
    /// the moves of its file.
    Reject {
        file: u32,
        reason: Reason,
    },
    /// After all files the column's top, in units, is more than the allowance over what covers it.
    Left {
        row: u32,
        col: u32,
        top: i32,
    },
}

/// The verdict on up to 16 files in turn on one stock, each with its own cutter: the first failing test, or
/// acceptance.
///
/// The tests (i) to (iii h) of [`verify`](crate::verify) are made for each file in turn, with the job's
/// cutter replaced by the file's, and with the tops that the file before left; after the last file comes
/// test (iv), once. So a later file may go where an earlier one has cut, and nothing has to be cut to the
/// allowance before the end. A file that fails ends the work. Accepted files cut safely, at every fraction
/// of every move.
///
/// Job, part and crew are as `verify` takes them; each file is as it asks of a program, from the job's
/// home on, and its cutter as the job asks of its own: the band is at most its radius, and the job's holder,
/// if it has one, is wider. How the machine comes home between two files, and its cutter is changed, isn't
/// tested. For one file the verdict is that of `verify`; where there is none, only test (iv) is made, of
/// the uncut stock.
///
/// The only error is want of memory, for the bands of the moves and the rows of the stock.
pub fn verify_list<C: TestCrew>(
    crew: &C,
    alloc: Global,
    job: &Job,
    part: &SortedPart,
    files: &[CutFile],
) -> Result<ListVerdict, WantOfMemory>
    requires crew_ok { C.ready }
    requires under { IsUnder part.now job.now.fields.top }
    requires files_ok { All (IsFileOf job.now.fields) files.now }
    requires few { length files.now ≤ MAX_FILES }
    ensures verdict { IfOk result (IsListVerdict job.now.fields part.now files.now) }
    ensures safe { (count moves columns : ℕ) (left : ℤ)
        → result ≡ Ok (ListVerdict.Accept count moves columns left)
        → FilesCutSafely job.now.fields part.now files.now }
    ensures blocked { (file : ℕ) (reason : Why)
        → result ≡ Ok (ListVerdict.Reject file reason)
        → NamesLeaf (job_of job.now.fields (file_at files.now file)) part.now (stock_before job.now.fields files.now file) (file_at files.now file).moves reason }
{
    match rows_after_files(crew, alloc, job, part, files)? {
        Ok(rows) => Ok(last_verdict(crew, job, part, files, &rows)),
        Err(stop) => Ok(ListVerdict::Reject {
            file: stop.file,
            reason: stop.reason,
        }),
    }
}

/// Which file is rejected, and why.
#[derive(Clone, Copy)]
pub struct Stop {
    pub file: u32,
    pub reason: Reason,
}

/// Tests (i) to (iii h) of the files in turn: the rows of the stock that all of them leave, or the first
/// test that fails.
fn rows_after_files<C: TestCrew>(
    crew: &C,
    alloc: Global,
    job: &Job,
    part: &SortedPart,
    files: &[CutFile],
) -> Result<Result<Vec<Row>, Stop>, WantOfMemory>
    requires crew_ok { C.ready }
    requires files_ok { All (IsFileOf job.now.fields) files.now }
    requires few { length files.now ≤ MAX_FILES }
    ensures { IfOk result (λ told. MatchResult
        told
        (λ rows. AreFilesPassed job.now.fields part.now files.now rows.items)
        (λ stop. IsFileStopped job.now.fields part.now files.now stop.file stop.reason)) }
{
    let mut start = Start::Uncut;
    for number in 0..files.len() {
        let file = &files[number];
        let job = job_with(job, file);
        let moves = file.moves();
        match rows_after(crew, alloc, &job, part, &start, moves)? {
            Ok(rows) => start = Start::Rows(rows),
            Err(reason) => {
                return Ok(Err(Stop {
                    file: number as u32,
                    reason,
                }));
            }
        }
    }
    Ok(Ok(rows_of_start(alloc, job, start)?))
}

/// The verdict after the last file, all files being good.
fn last_verdict<C: TestCrew>(
    crew: &C,
    job: &Job,
    part: &SortedPart,
    files: &[CutFile],
    rows: &[Row],
) -> ListVerdict
    requires crew_ok { C.ready }
    requires files_ok { All (IsFileOf job.now.fields) files.now }
    requires few { length files.now ≤ MAX_FILES }
    requires passed { AreFilesPassed job.now.fields part.now files.now rows.now }
    ensures verdict { IsListVerdict job.now.fields part.now files.now result }
    ensures not_rejected { (file : ℕ) (reason : Why) → ¬ (result ≡ ListVerdict.Reject file reason) }
{
    match crew.stock_left(job, part, rows) {
        Ok(most_left) => ListVerdict::Accept {
            files: files.len() as u32,
            moves: moves_of(files),
            columns: job.column_total(),
            most_left,
        },
        Err(Uncut { row, col, top }) => ListVerdict::Left { row, col, top },
    }
}
