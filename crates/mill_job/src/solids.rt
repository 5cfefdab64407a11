ghost use Rattle.std.specs.Prelude.{◌≡◌, ◌+ℤ◌, ◌-ℤ◌, ◌<ℤ◌, ◌≤ℤ◌, pos, IfSome};
ghost use Rattle.mill_base.specs.Sizes.{IsCutter, radius_of};
ghost use Rattle.mill_base.specs.declared.limits.TheConstants.{MAX_RADIUS};
ghost use Rattle.mill_job.specs.Jobs.{IsFrom, IsHeldOff, IsJob};
ghost use Rattle.mill_job.specs.Solids.{deeper_in as what_is_deeper, held_with, solids_of};
ghost use Rattle.mill_job.specs.declared.limits.TheConstants.{MAX_SLACK};
ghost use Rattle.mill_margin.specs.Margins.{IsMargin, offset_of};

use crate::fields::JobFields;
use crate::slack::graze;
use mill_base::{Cutter, Solid};
use mill_margin::{grown, shrunk};

/// The solids of a job's tool, each with the slack in it. Without a slack, an overcut and a graze
/// all but the holder's are the cutter with its tip at the tool's.
#[derive(Clone, Copy, Debug, PartialEq, Eq)]
pub struct Solids {
    /// What the cutter may touch.
    pub outer: Solid,
    /// What it cuts for sure.
    pub inner: Solid,
    /// What is tested against the part: what may lie deeper in the cutter than the overcut.
    pub part: Solid,
    /// What is tested against the stock: what may lie deeper in the cutter than the graze.
    pub stock: Solid,
    /// What the holder may touch, if there is one.
    pub holder: Option<Solid>,
}

/// The solids of a job with these numbers.
#[tactic(auto, unfolding(crate::specs::Solids::solids_of))]
pub fn solids_by(job: &JobFields) -> Solids
    requires { IsJob job.now }
    ensures { result ≡ solids_of job.now }
{
    let tip = Solid::at_tip(job.cutter);
    Solids {
        outer: grown(tip, job.slack),
        inner: shrunk(tip, job.slack),
        part: deeper_in(job.cutter, job.overcut, job.slack),
        stock: deeper_in(job.cutter, graze(job), job.slack),
        holder: with_slack(job.holder, job.slack),
    }
}

/// What may lie deeper in a cutter than `depth`, wherever within the slack its tip is.
fn deeper_in(cutter: Cutter, depth: i32, slack: i32) -> Solid
    requires cutter_ok { IsCutter cutter }
    requires depth_ok { IsMargin depth }
    requires inside { depth <ℤ radius_of cutter }
    requires slack_ok { IsFrom (pos 0) MAX_SLACK slack }
    requires around { (radius_of cutter +ℤ slack) ≤ℤ MAX_RADIUS }
    ensures { result ≡ what_is_deeper cutter depth slack }
{
    grown(shrunk(Solid::at_tip(cutter), depth), slack)
}

/// A holder with the slack around it, if there is one.
fn with_slack(holder: Option<Solid>, slack: i32) -> Option<Solid>
    requires slack_ok { IsFrom (pos 0) MAX_SLACK slack }
    requires held_off { IfSome holder (IsHeldOff slack) }
    ensures { result ≡ held_with slack holder }
{
    match holder {
        Some(holder) => Some(grown(holder, slack)),
        None => None,
    }
}
