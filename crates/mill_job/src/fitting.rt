ghost use Rattle.std.specs.Prelude.{◌≡◌, ◌<ℤ◌, false, IfSome, None};
ghost use Rattle.mill_base.specs.Sizes.{IsCutter, radius_of};
ghost use Rattle.mill_job.specs.Documents.{fit_faults};
ghost use Rattle.mill_job.specs.Holders.{is_narrow};
ghost use Rattle.mill_job.specs.Jobs.{FitsJob};
ghost use Rattle.mill_job.specs.Tables.{first};

use crate::fault::JobFault;
use crate::fields::JobFields;
use crate::job::Job;
use crate::key::Key;
use crate::slack::{clears_fixtures, has_low_clear, slack_fault};
use mill_base::Cutter;

/// Whether the job has a holder that isn't wider than a cutter.
pub fn has_narrow_holder(job: &JobFields, cutter: &Cutter) -> bool
    ensures value { result ≡ is_narrow (radius_of cutter.now) job.now.holder }
    ensures no { result ≡ false →
        IfSome job.now.holder (λ holder. radius_of cutter.now <ℤ radius_of holder.cutter) }
{
    match &job.holder {
        Some(holder) => holder.cutter().radius() <= cutter.radius(),
        None => false,
    }
}

impl Job {
    /// The first of the job's relations that fails with another cutter: its band is over the
    /// radius, its holder isn't wider, the cutter has no room for its slack, its overcut or its
    /// graze, or it doesn't pass over its stock or its fixtures at the clear height.
    pub fn cutter_fault(&self, cutter: &Cutter) -> Option<JobFault>
        requires { IsCutter cutter.now }
        ensures value { result ≡ first (fit_faults self.now.fields cutter.now) }
        ensures none { result ≡ None → FitsJob self.now.fields cutter.now }
    {
        if cutter.radius() < self.fields.band {
            return Some(JobFault::Relation(Key::Band, Key::Radius));
        }
        if has_narrow_holder(&self.fields, cutter) {
            return Some(JobFault::Relation(Key::Radius, Key::HolderRadius));
        }
        if let Some(fault) = slack_fault(&self.fields, cutter) {
            return Some(fault);
        }
        if has_low_clear(&self.fields, cutter) {
            return Some(JobFault::Relation(Key::Slack, Key::Clear));
        }
        if !clears_fixtures(&self.fields, cutter) {
            return Some(JobFault::Relation(Key::KeepOut, Key::Clear));
        }
        None
    }

    /// The same job with another cutter. It needs no memory.
    pub fn with_cutter(&self, cutter: Cutter) -> Job
        requires { FitsJob self.now.fields cutter }
        ensures { result.fields ≡ record self.now.fields { cutter = cutter } }
    {
        Job::new(JobFields {
            cutter,
            ..self.fields
        })
    }
}
