//! What a job asks of its programs beside what their words mean, and which words they have.
ghost use Rattle.std.specs.Prelude.{◌≡◌, nat_abs};
ghost use Rattle.mill_job.specs.Habits.{arc_tolerance_of, clearance_of};
ghost use Rattle.mill_load.specs.Programs.{are_one, change_raises, control_of, dialect_of};
ghost use Rattle.mill_load.specs.Programs.{machine_slack as machine_slack_of, rounds_text};
ghost use Rattle.mill_load.specs.Programs.{rules_of};

use mill_job::{Job, Start, ToolLengths, Words};
use mill_said::{Control, Rules, Words as Dialect};

/// So many units of the slack are the text's, where there are as many: its numbers are rounded to
/// the grid then.
const TEXT_SLACK: i32 = 3;

/// What a job asks of its programs beside what their words mean, and which words they have.
#[tactic(auto, unfolding(crate::specs::Programs::rules_of))]
pub fn rules_for(job: &Job) -> Rules
    ensures { result ≡ rules_of job.now.fields }
{
    Rules {
        from_anywhere: job.fields.start.is_elsewhere(),
        needs_spindle: job.fields.spindle,
        words: dialect(job),
    }
}

fn dialect(job: &Job) -> Dialect
    ensures { result ≡ dialect_of job.now.fields.words job.now.fields }
{
    match job.fields.words {
        Words::Strict => Dialect::Strict,
        Words::Machine => Dialect::Machine(control(job)),
    }
}

// What the job says of its machine's control.
fn control(job: &Job) -> Control
    ensures { result ≡ control_of job.now.fields }
{
    let slack = job.fields.slack;
    Control {
        rounds: slack >= TEXT_SLACK,
        path_tolerance: machine_slack(slack),
        arc_tolerance: arc_tolerance(job),
        arc_room: job.arc_room(),
        peck_clearance: peck_clearance(job),
        one_length: matches!(job.fields.lengths, ToolLengths::One),
        change_raises: matches!(job.fields.start, Start::Change),
    }
}

// The peck clearance, which is 0 to 10,000.
fn peck_clearance(job: &Job) -> u16
    ensures { result ≡ nat_abs (clearance_of job.now.fields) }
{
    job.peck_clearance().unsigned_abs() as u16
}

// The tolerance of arcs, which is 1 to 100.
fn arc_tolerance(job: &Job) -> u8
    ensures { result ≡ nat_abs (arc_tolerance_of job.now.fields) }
{
    job.arc_tolerance().unsigned_abs() as u8
}

// What is left of the slack for the machine.
fn machine_slack(slack: i32) -> i32
    ensures { result ≡ machine_slack_of slack }
{
    if slack >= TEXT_SLACK {
        return slack - TEXT_SLACK;
    }
    slack
}
