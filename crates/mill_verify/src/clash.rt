ghost use Rattle.std.specs.Prelude.{MatchOption};
ghost use Rattle.mill_base.specs.Ranges.{MoveInRange};
ghost use Rattle.mill_gouge.specs.Gouges.{ToolPassesPart};
ghost use Rattle.mill_job.specs.Jobs.{part_tool_of};
ghost use Rattle.mill_verify.specs.Clashes.{IsClash, IsClear};

use crate::fixture::{FixtureHit, first_hit};
use mill_base::Move;
use mill_gouge::{Gouge, first_gouge};
use mill_job::Job;
use mill_part::SortedPart;

/// How a move fails the tests of what stands still, the part and the fixtures: the first triangle
/// that the cutter doesn't pass, or else the first that its holder doesn't pass, or else the first
/// fixture that the one or the other doesn't pass, with the leaf at which that test failed.
#[derive(Clone, Copy)]
pub enum Clash {
    /// The cutter's with the part.
    Cutter(Gouge),
    /// The holder's with the part.
    Holder(Gouge),
    /// The cutter's with a fixture.
    Fixture(FixtureHit),
    /// The holder's with a fixture.
    HolderFixture(FixtureHit),
}

/// Tests (ii) to (ii hf) of one move: how it fails them first, those of the part before those of
/// the fixtures, and each of the cutter before that of the holder; none where it passes all.
///
/// The fixtures are tested with all that the cutter may touch, so without the job's overcut.
pub fn first_clash(job: &Job, part: &SortedPart, step: &Move) -> Option<Clash>
    requires move_ok { MoveInRange step.now }
    ensures { MatchOption
        result
        (IsClear job.now.fields part.now step.now)
        (IsClash job.now.fields part.now step.now) }
{
    if let Some(clash) = part_clash(job, part, step) {
        return Some(clash);
    }
    let fixtures = job.fixtures();
    if let Some(hit) = first_hit(job.outer(), fixtures, step) {
        return Some(Clash::Fixture(hit));
    }
    let holder = job.holder_solid()?;
    let hit = first_hit(holder, fixtures, step)?;
    Some(Clash::HolderFixture(hit))
}

/// Tests (ii) and (ii h) of one move: how it fails the tests of the part, the cutter's before the
/// holder's; none where it passes both.
fn part_clash(job: &Job, part: &SortedPart, step: &Move) -> Option<Clash>
    requires move_ok { MoveInRange step.now }
    ensures { MatchOption
        result
        (ToolPassesPart (part_tool_of job.now.fields) step.now part.now)
        (IsClash job.now.fields part.now step.now) }
{
    if let Some(gouge) = first_gouge(job.part_solid(), part, step) {
        return Some(Clash::Cutter(gouge));
    }
    let holder = job.holder_solid()?;
    let gouge = first_gouge(holder, part, step)?;
    Some(Clash::Holder(gouge))
}
