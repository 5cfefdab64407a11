ghost use Rattle.std.specs.Prelude.{◌≡◌, ◌+ℤ◌, ◌≤ℤ◌, int_le, pos, true, false, All};
ghost use Rattle.std.specs.Prelude.{IfSome, None};
ghost use Rattle.std.specs.List.{list_all};
ghost use Rattle.mill_base.specs.Numbers.{Within};
ghost use Rattle.mill_base.specs.Sizes.{IsCutter};
ghost use Rattle.mill_base.specs.Units.{greatest_of};
ghost use Rattle.mill_job.specs.Documents.{are_under, slack_faults};
ghost use Rattle.mill_job.specs.Fixtures.{IsUnder};
ghost use Rattle.mill_job.specs.Jobs.{HolderHasRoom, IsFrom, IsRoomy};
ghost use Rattle.mill_job.specs.Slack.{are_arcs_tight, graze_of, is_holder_close, is_low};
ghost use Rattle.mill_job.specs.Slack.{is_shallow, is_tight};
ghost use Rattle.mill_job.specs.Tables.{first};
ghost use Rattle.mill_job.specs.declared.limits.TheConstants.{MAX_ARC_TOL, MAX_GRAZE, MAX_SLACK};
ghost use Rattle.mill_job.specs.declared.limits.TheConstants.{SPARE_ARC};
ghost use Rattle.mill_margin.specs.Margins.{offset_of, IsMargin};

use crate::fault::JobFault;
use crate::fields::JobFields;
use crate::fixtures::Fixture;
use crate::key::Key;
use crate::limits::{SPARE_ARC, SPARE_GRAZE};
use mill_base::{Cutter, MAX_RADIUS, Solid};
use mill_margin::offset;

/// The graze of a job: as it is given, else 0 without a slack, and a little over twice the slack
/// with one.
#[tactic(auto, unfolding(crate::specs::Slack::graze_of))]
pub fn graze(job: &JobFields) -> i32
    requires slack_ok { IsFrom (pos 0) MAX_SLACK job.now.slack }
    requires graze_ok { IfSome job.now.graze (IsFrom (pos 0) MAX_GRAZE) }
    ensures value { result ≡ graze_of job.now }
    ensures in_range { IsMargin result }
{
    match job.graze {
        Some(graze) => graze,
        None if 0 < job.slack => 2 * job.slack + SPARE_GRAZE,
        None => 0,
    }
}

/// Whether a radius isn't over a slack, or is over the greatest with it.
fn has_no_room(radius: i32, slack: i32) -> bool
    requires radius_ok { IsFrom (pos 1) MAX_RADIUS radius }
    requires slack_ok { IsFrom (pos 0) MAX_SLACK slack }
    ensures { result ≡ is_tight radius slack }
{
    radius <= slack || MAX_RADIUS < radius + slack
}

/// Whether a graze is less than twice a slack, or its offset less than twice the slack's.
fn is_too_shallow(cutter: Cutter, slack: i32, graze: i32) -> bool
    requires cutter_ok { IsCutter cutter }
    requires slack_ok { IsMargin slack }
    requires graze_ok { IsMargin graze }
    ensures { result ≡ is_shallow cutter slack graze }
{
    graze < 2 * slack || offset(cutter, graze) < 2 * offset(cutter, slack)
}

/// The first relation that fails between a job's slack, its overcut or its graze and a cutter.
pub fn slack_fault(job: &JobFields, cutter: &Cutter) -> Option<JobFault>
    requires cutter_ok { IsCutter cutter.now }
    requires slack_ok { IsFrom (pos 0) MAX_SLACK job.now.slack }
    requires graze_ok { IfSome job.now.graze (IsFrom (pos 0) MAX_GRAZE) }
    ensures value { result ≡ first (slack_faults job.now cutter.now) }
    ensures none { result ≡ None → IsRoomy job.now.slack job.now.overcut (graze_of job.now) cutter.now }
{
    let radius = cutter.radius();
    let graze = graze(job);
    if has_no_room(radius, job.slack) {
        return Some(JobFault::Relation(Key::Slack, Key::Radius));
    }
    if radius <= job.overcut {
        return Some(JobFault::Relation(Key::Overcut, Key::Radius));
    }
    if radius <= graze {
        return Some(JobFault::Relation(Key::Graze, Key::Radius));
    }
    if is_too_shallow(*cutter, job.slack, graze) {
        return Some(JobFault::Relation(Key::Graze, Key::Slack));
    }
    None
}

/// Whether a holder with a slack around it isn't over the tip.
fn reaches_tip(holder: Solid, slack: i32) -> bool
    requires { IsFrom (pos 0) MAX_SLACK slack }
    ensures { result ≡ int_le holder.lift (offset_of holder.cutter slack) }
{
    holder.lift() <= offset(holder.cutter(), slack)
}

/// Whether the job has a holder that isn't over the tip with the slack around it, or whose radius
/// is over the greatest with it.
#[tactic(auto, unfolding(crate::specs::Jobs::HolderHasRoom))]
pub fn has_close_holder(job: &JobFields) -> bool
    requires { IsFrom (pos 0) MAX_SLACK job.now.slack }
    ensures value { result ≡ is_holder_close job.now.slack job.now.holder }
    ensures no { result ≡ false → HolderHasRoom job.now }
{
    match &job.holder {
        Some(holder) => reaches_tip(*holder, job.slack)
            || MAX_RADIUS < holder.cutter().radius() + job.slack,
        None => false,
    }
}

/// Whether a cutter with the slack around it reaches into the uncut stock from the job's clear
/// height.
pub fn has_low_clear(job: &JobFields, cutter: &Cutter) -> bool
    requires cutter_ok { IsCutter cutter.now }
    requires slack_ok { IsFrom (pos 0) MAX_SLACK job.now.slack }
    requires top_ok { Within (greatest_of job.now.unit) job.now.top }
    ensures value { result ≡ is_low job.now cutter.now }
    ensures no { result ≡ false → (job.now.top +ℤ offset_of cutter.now job.now.slack) ≤ℤ job.now.clear }
{
    job.clear < job.top + offset(*cutter, job.slack)
}

/// Whether each fixture is at most this high.
fn are_low(fixtures: &[Fixture], most: i32) -> bool
    ensures { result ≡ list_all (λ fixture. int_le fixture.height most) fixtures.now }
{
    fixtures.iter().all(|fixture| fixture.height <= most)
}

/// Whether a cutter with the slack around it passes over each of the job's fixtures at its clear
/// height.
pub fn clears_fixtures(job: &JobFields, cutter: &Cutter) -> bool
    requires cutter_ok { IsCutter cutter.now }
    requires slack_ok { IsFrom (pos 0) MAX_SLACK job.now.slack }
    requires clear_ok { Within (greatest_of job.now.unit) job.now.clear }
    ensures value { result ≡ are_under job.now cutter.now }
    ensures yes { result ≡ true →
        All (IsUnder job.now.clear (offset_of cutter.now job.now.slack)) job.now.keep_out }
{
    are_low(
        job.keep_out.as_slice(),
        job.clear - offset(*cutter, job.slack),
    )
}

/// Whether the job has a tolerance of arcs for which its slack has no room.
pub fn has_tight_arcs(job: &JobFields) -> bool
    requires slack_ok { IsFrom (pos 0) MAX_SLACK job.now.slack }
    requires arc_tol_ok { IfSome job.now.arc_tol (IsFrom (pos 1) MAX_ARC_TOL) }
    ensures value { result ≡ are_arcs_tight job.now.slack job.now.arc_tol }
    ensures no { result ≡ false →
        IfSome job.now.arc_tol (λ tolerance. (tolerance +ℤ SPARE_ARC) ≤ℤ job.now.slack) }
{
    match job.arc_tol {
        Some(tolerance) => job.slack < tolerance + SPARE_ARC,
        None => false,
    }
}
