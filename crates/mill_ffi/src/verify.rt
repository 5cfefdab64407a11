ghost use Rattle.std.specs.Prelude.{◌≡◌, ◌≢◌, pos, IfOk, IfErr};
ghost use Rattle.mill_ffi.specs.Asked.{IsToldFor};
ghost use Rattle.mill_ffi.specs.Judged.{IsJudged, IsVerdictCause, IsVerdictFor, told_of_column, told_of_fixture, told_of_reason, told_of_triangle, told_of_verdict};

use crate::setup::{Stop, moves_for, nothing, setup_from};
use mill_crew::Alone;
use mill_ffi_data::RawVerdict;
use mill_part::SortedPart;
use mill_sweep::Leaf;
use mill_verify::{Reason, Verdict, verify};
use std::alloc::Global;

/// The verdict on a program for a job and a part, each by its text: the first test that fails, or
/// that the program is accepted.
///
/// The job's text is a TOML document, the part's an ASCII STL, which is read in the job's unit and
/// by its snap, and the program's a G-code, which is read from the job's home and by its start and
/// spindle. With status 0 `told` has the verdict; with any other it has the line of a text's fault,
/// or the height of a part that is too high. It has nothing else then, and is written with every
/// status.
#[unsafe(no_mangle)]
pub extern "C" fn camtool_verify(
    alloc: Global,
    job: &[u8],
    part: &[u8],
    program: &[u8],
    told: &mut RawVerdict,
) -> i32
    ensures done { result ≡ pos 0 → IsJudged job.now part.now program.now told.new }
    ensures cause { result ≢ pos 0
        → IsToldFor (IsVerdictCause job.now part.now program.now told.new) result }
{
    match verdict_from(alloc, job, part, program) {
        Ok(verdict) => {
            *told = raw_verdict(verdict);
            0
        }
        Err(stop) => {
            *told = stop.told;
            stop.fault.code()
        }
    }
}

/// The verdict, or why there is none.
fn verdict_from(alloc: Global, job: &[u8], part: &[u8], program: &[u8]) -> Result<Verdict, Stop>
    ensures is { IfOk result (IsVerdictFor job.now part.now program.now) }
    ensures cause { IfErr result
        (λ stop. IsVerdictCause job.now part.now program.now stop.told stop.fault) }
{
    let setup = setup_from(alloc, job, part)?;
    let moves = moves_for(alloc, &setup.job, program)?;
    let sorted = SortedPart::new(alloc, setup.part)?;
    let verdict = verify(&Alone, alloc, &setup.job, &sorted, &moves)?;
    Ok(verdict)
}

/// A verdict in numbers.
fn raw_verdict(verdict: Verdict) -> RawVerdict
    ensures { result ≡ told_of_verdict verdict }
{
    match verdict {
        Verdict::Accept {
            moves,
            columns,
            most_left,
        } => RawVerdict {
            moves,
            columns,
            most_left,
            ..nothing()
        },
        Verdict::Reject(reason) => raw_reason(reason),
    }
}

fn raw_reason(reason: Reason) -> RawVerdict
    ensures { result ≡ told_of_reason reason }
{
    match reason {
        Reason::Floor { at } => RawVerdict {
            test: 1,
            at,
            ..nothing()
        },
        Reason::Gouge { at, tri, leaf } => at_triangle(2, at, tri, leaf),
        Reason::Holder { at, tri, leaf } => at_triangle(3, at, tri, leaf),
        Reason::Fixture { at, fixture, leaf } => at_fixture(8, at, fixture, leaf),
        Reason::HolderFixture { at, fixture, leaf } => at_fixture(9, at, fixture, leaf),
        Reason::Rapid { at, row, col, leaf } => at_column(4, at, row, col, leaf),
        Reason::Cut { at, row, col, leaf } => at_column(5, at, row, col, leaf),
        Reason::HolderStock { at, row, col, leaf } => at_column(6, at, row, col, leaf),
        Reason::Left { row, col, top } => RawVerdict {
            test: 7,
            row,
            column: col,
            top,
            ..nothing()
        },
    }
}

fn at_triangle(test: i32, at: u64, triangle: u32, leaf: Leaf) -> RawVerdict
    ensures { result ≡ told_of_triangle test at triangle leaf }
{
    RawVerdict {
        test,
        at,
        triangle,
        depth: leaf.d,
        leaf: leaf.k,
        ..nothing()
    }
}

fn at_fixture(test: i32, at: u64, fixture: u32, leaf: Leaf) -> RawVerdict
    ensures { result ≡ told_of_fixture test at fixture leaf }
{
    RawVerdict {
        test,
        at,
        fixture,
        depth: leaf.d,
        leaf: leaf.k,
        ..nothing()
    }
}

fn at_column(test: i32, at: u64, row: u32, column: u32, leaf: Leaf) -> RawVerdict
    ensures { result ≡ told_of_column test at row column leaf }
{
    RawVerdict {
        test,
        at,
        row,
        column,
        depth: leaf.d,
        leaf: leaf.k,
        ..nothing()
    }
}
