ghost use Rattle.std.specs.Prelude.{◌≡◌, ◌*◌, pos, false, All, IsTrue, None};
ghost use Rattle.std.specs.List.{list_all};
ghost use Rattle.mill_base.specs.Numbers.{Within};
ghost use Rattle.mill_base.specs.Units.{greatest_of};
ghost use Rattle.mill_job.specs.Columns.{row_count, column_count};
ghost use Rattle.mill_job.specs.Documents.{has_many_layers as many_layers_in, is_level, relation_faults};
ghost use Rattle.mill_job.specs.Habits.{starts_at_home as starts_at_home_in};
ghost use Rattle.mill_job.specs.Jobs.{HasFewLayers, IsFrom, IsLevel};
ghost use Rattle.mill_job.specs.Tables.{first};
ghost use Rattle.mill_job.specs.inner.Relations.{IsCut, IsRelated, IsSlackened, IsStock};
ghost use Rattle.mill_job.specs.inner.Relations.{cut_faults, room_faults, stock_faults};
ghost use Rattle.mill_job.specs.inner.Ranged.{IsRanged};

use crate::fault::JobFault;
use crate::fields::JobFields;
use crate::fitting::has_narrow_holder;
use crate::key::Key;
use crate::limits::MAX_LAYERS;
use crate::positions::count;
use crate::slack::{clears_fixtures, has_close_holder, has_low_clear, has_tight_arcs, slack_fault};
use mill_base::MAX_COLUMNS;

/// Whether roughing takes off more layers than it may.
fn has_many_layers(job: &JobFields) -> bool
    requires floor_ok { Within (greatest_of job.now.unit) job.now.floor }
    requires top_ok { Within (greatest_of job.now.unit) job.now.top }
    requires layer_ok { IsFrom (pos 0) (pos (greatest_of job.now.unit)) job.now.layer }
    ensures value { result ≡ many_layers_in job.now }
    ensures no { result ≡ false → HasFewLayers job.now }
{
    0 < job.layer && MAX_LAYERS * job.layer < job.top - job.floor
}

/// Whether each level is from the floor on and under the top.
fn has_levels_in_stock(job: &JobFields) -> bool
    ensures value { result ≡ list_all (is_level job.now.floor job.now.top) job.now.levels }
    ensures yes { IsTrue result → All (IsLevel job.now.floor job.now.top) job.now.levels }
{
    job.levels
        .as_slice()
        .iter()
        .all(|level| job.floor <= *level && *level < job.top)
}

/// How many columns stand over the job's area.
fn column_total(job: &JobFields) -> u64
    requires { IsRanged job.now }
    ensures { result ≡ row_count job.now * column_count job.now }
{
    let rows = count(job.area.y0, job.area.y1, job.pitch);
    let columns = count(job.area.x0, job.area.x1, job.pitch);
    u64::from(rows) * u64::from(columns)
}

/// The first relation that fails between a job's heights, or of its area and its pitch.
fn stock_fault(job: &JobFields) -> Option<JobFault>
    requires { IsRanged job.now }
    ensures value { result ≡ first (stock_faults job.now) }
    ensures none { result ≡ None → IsStock job.now }
{
    if job.top < job.floor {
        return Some(JobFault::Relation(Key::Floor, Key::Top));
    }
    if job.clear < job.top {
        return Some(JobFault::Relation(Key::Top, Key::Clear));
    }
    if MAX_COLUMNS < column_total(job) {
        return Some(JobFault::Relation(Key::Area, Key::Pitch));
    }
    None
}

/// The first relation that fails between how a job's stock is cut and its cutter, its stock or its
/// holder.
fn cut_fault(job: &JobFields) -> Option<JobFault>
    requires { IsRanged job.now }
    ensures value { result ≡ first (cut_faults job.now) }
    ensures none { result ≡ None → IsCut job.now }
{
    if job.cutter.radius() < job.band {
        return Some(JobFault::Relation(Key::Band, Key::Radius));
    }
    if has_many_layers(job) {
        return Some(JobFault::Relation(Key::Layer, Key::Top));
    }
    if !has_levels_in_stock(job) {
        return Some(JobFault::Relation(Key::Levels, Key::Top));
    }
    if has_narrow_holder(job, &job.cutter) {
        return Some(JobFault::Relation(Key::Radius, Key::HolderRadius));
    }
    None
}

/// Whether programs have a machine's words, and yet start over home.
fn starts_at_home(job: &JobFields) -> bool
    ensures { result ≡ starts_at_home_in job.now }
{
    job.words.are_for_machine() && !job.start.is_elsewhere()
}

/// The first relation that fails between a job's slack, its overcut or its graze and its cutter,
/// its holder, its heights, its fixtures or its tolerance of arcs, or between its words and its
/// start.
fn room_fault(job: &JobFields) -> Option<JobFault>
    requires { IsRanged job.now }
    ensures value { result ≡ first (room_faults job.now) }
    ensures none { result ≡ None → IsSlackened job.now }
{
    if let Some(fault) = slack_fault(job, &job.cutter) {
        return Some(fault);
    }
    if has_close_holder(job) {
        return Some(JobFault::Relation(Key::Slack, Key::Stickout));
    }
    if has_low_clear(job, &job.cutter) {
        return Some(JobFault::Relation(Key::Slack, Key::Clear));
    }
    if !clears_fixtures(job, &job.cutter) {
        return Some(JobFault::Relation(Key::KeepOut, Key::Clear));
    }
    if starts_at_home(job) {
        return Some(JobFault::Relation(Key::Words, Key::Start));
    }
    if has_tight_arcs(job) {
        return Some(JobFault::Relation(Key::ArcTol, Key::Slack));
    }
    None
}

/// The first relation between the values of a job that fails.
pub fn relation_fault(job: &JobFields) -> Option<JobFault>
    requires { IsRanged job.now }
    ensures value { result ≡ first (relation_faults job.now) }
    ensures none { result ≡ None → IsRelated job.now }
{
    if let Some(fault) = stock_fault(job) {
        return Some(fault);
    }
    if let Some(fault) = cut_fault(job) {
        return Some(fault);
    }
    room_fault(job)
}
