//! The block of stock of the tests, and what stands in their rows: jobs and programs.
ghost use Rattle.std.specs.Prelude.{◌≡◌, ◌≤◌, length, IfOk};
ghost use Rattle.mill_base.specs.Ranges.{IsInRange, MoveInRange, MovesInRange};
ghost use Rattle.mill_base.specs.declared.limits.TheConstants.{MAX_MOVES};
ghost use Rattle.mill_verify.specs.Files.{GoOn};

use mill_base::{Move, Pt3};
use mill_job::Job;
use mill_tables::{first_word, job_by, kind, point};
use std::alloc::Global;
use std::process::Abort;
use std::test::Fail;

/// Looks that what is told of a row is what it wants.
pub(crate) fn same<R: Abort>(rt: &R, told: &str, wanted: &str, row: &str) {
    assert_eq!(rt; told, wanted, "{row}");
}

/// A job's keys: those of its stock and its columns, and those of its cutter.
pub(crate) type Keys<'a> = (&'a str, &'a str);

/// A block of stock from 0 to 300 over a square of 200, and nine columns in it.
const BLOCK: &str =
    "floor = 0; top = 300; clear = 400; area = [0, 0, 200, 200]; home = [100, 100]; \
    pitch = 100; sample = 50";

/// The block, of whose cutter a row says what it is.
pub(crate) const ANY_BLOCK: Keys<'static> = (BLOCK, "");

/// The block under a flat cutter, with no band, on which nothing may be left.
pub(crate) const FLAT_BLOCK: Keys<'static> = (
    BLOCK,
    "cutter = 'flat'; radius = 150; band = 0; allowance = 0",
);

/// The block under a narrow cutter in a wide holder, 50 over the tip.
pub(crate) const NARROW_BLOCK: Keys<'static> = (
    BLOCK,
    "cutter = 'flat'; radius = 90; holder_radius = 200; stickout = 50; band = 0; allowance = 0",
);

/// A job by these keys and some more.
pub(crate) fn job_of(alloc: Global, keys: Keys<'_>, more: &str) -> Result<Job, Fail> {
    let (stock, cutter) = keys;
    let more = format!(in alloc; "{cutter}; {more}")?;
    job_by(alloc, stock, &more)
}

/// A plate at the height 200 over the whole square.
pub(crate) const PLATE: &str = "0 0 200, 200 0 200, 200 200 200; 0 0 200, 200 200 200, 0 200 200";

/// A plate that is the line x = 0, beside the narrow cutter.
pub(crate) const LINE: &str = "0 0 200, 0 0 200, 0 200 200; 0 0 200, 0 200 200, 0 200 200";

/// A move from a place, by its kind and its end.
pub(crate) fn step_from(from: Pt3, text: &str) -> Result<Move, Fail>
    requires { IsInRange from }
    ensures range { IfOk result (λ step. MoveInRange step) }
    ensures start { IfOk result (λ step. step.from ≡ from) }
{
    let (word, end) = first_word(text)?;
    let to = point(end)?;
    Ok(Move {
        kind: kind(word),
        from,
        to,
    })
}

/// A program from the job's home on, by the kind and the end of each move.
pub(crate) fn program(alloc: Global, job: &Job, text: &str) -> Result<Vec<Move>, Fail>
    ensures range { IfOk result (λ moves. MovesInRange moves.items) }
    ensures follow { IfOk result (λ moves. GoOn job.now.fields moves.items) }
    ensures few { IfOk result (λ moves. length moves.items ≤ MAX_MOVES) }
{
    let mut at = job.home();
    let mut moves = Vec::new(alloc);
    for each in text.split("; ") {
        let step = step_from(at, each)?;
        at = step.to;
        moves.push(step)?;
    }
    if moves.len() > 1000 {
        return Err(Fail::from("too many moves"));
    }
    Ok(moves)
}
