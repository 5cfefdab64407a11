ghost use Rattle.std.specs.Prelude.{◌≡◌, ◌≤◌, [], ◌∷◌, ◌++◌, All, length, IfOk, MatchOption, OnOk};
ghost use Rattle.mill_base.specs.declared.limits.TheConstants.{MAX_MOVES};
ghost use Rattle.mill_base.specs.Ranges.{MovesInRange};
ghost use Rattle.mill_dexel.specs.Tops.{uncut};
ghost use Rattle.mill_verify.specs.Verdicts.{NamesLeaf};
ghost use Rattle.mill_report.specs.Findings.{AreFindings};
ghost use Rattle.mill_report.specs.inner.Stops.{AreTold};

use crate::pass::Stop;
use crate::step::finding_of;
use mill_base::{Move, WantOfMemory};
use mill_job::Job;
use mill_part::SortedPart;
use mill_verify::Reason;
use std::alloc::Global;

/// The findings on these moves, by where the stock stops each of them. The only error is want of memory, for the
/// findings.
pub fn failing_moves(
    alloc: Global,
    job: &Job,
    part: &SortedPart,
    moves: &[Move],
    stops: &[Option<Stop>],
) -> Result<Vec<Reason>, WantOfMemory>
    requires moves_ok { MovesInRange moves.now }
    requires few { length moves.now ≤ MAX_MOVES }
    requires told { AreTold job.now.fields moves.now stops.now }
    ensures found { IfOk result (λ found. AreFindings job.now.fields part.now moves.now found.items) }
    ensures blocked { IfOk result (λ found. All (NamesLeaf job.now.fields part.now (uncut job.now.fields) moves.now) found.items) }
{
    let mut found = Vec::new(alloc);
    for number in 0..moves.len() {
        let step = &moves[number];
        let finding = finding_of(job, part, step, number as u64, stops[number]);
        note(&mut found, finding)?;
    }
    Ok(found)
}

/// Adds what was found, if anything was.
fn note(found: &mut Vec<Reason>, finding: Option<Reason>) -> Result<(), WantOfMemory>
    ensures { OnOk result (MatchOption
        finding
        (found.new.items ≡ found.old.items)
        (λ reason. found.new.items ≡ found.old.items ++ reason ∷ [])) }
{
    if let Some(reason) = finding {
        found.push(reason)?;
    }
    Ok(())
}
