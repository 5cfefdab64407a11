//! The line of an answer, as the commands print it, without its line feed.
ghost use Rattle.std.specs.Prelude.{◌≡◌, ℕ, List, [], ◌∷◌, ◌++◌, IfOk};
ghost use Rattle.mill_answer.specs.Faults.{fault_line};
ghost use Rattle.mill_answer.specs.Verify.{NamesVerdictMove, verdict_line};

use mill_answer::{line_of_fault, line_of_verdict};
use mill_base::{Move, WantOfMemory};
use mill_job::Job;
use mill_load::LoadFault;
use mill_verify::Verdict;
use std::alloc::Global;

/// The line of a verdict, without its line feed.
pub(crate) fn verdict_words(
    alloc: Global,
    job: &Job,
    moves: &[Move],
    verdict: Verdict,
) -> Result<Vec<u8>, WantOfMemory>
    requires { NamesVerdictMove moves.now verdict }
    ensures { IfOk result (λ made.
        verdict_line job.now.fields moves.now verdict ≡ made.items ++ 10 ∷ []) }
{
    let mut line = line_of_verdict(alloc, job, moves, verdict)?;
    drop_feed(&mut line);
    Ok(line)
}

/// The line of what keeps a report from its files, without its line feed.
pub(crate) fn fault_words(alloc: Global, fault: &LoadFault) -> Result<Vec<u8>, WantOfMemory>
    ensures { IfOk result (λ made. fault_line fault.now ≡ made.items ++ 10 ∷ []) }
{
    let mut line = line_of_fault(alloc, fault)?;
    drop_feed(&mut line);
    Ok(line)
}

/// Takes the line feed off the end of a line.
fn drop_feed(line: &mut Vec<u8>)
    ensures { (start : List ℕ) → line.old.items ≡ start ++ 10 ∷ [] → line.new.items ≡ start }
{
    line.pop();
}
