ghost use Rattle.std.specs.Prelude.{◌≡◌};
ghost use Rattle.mill_job.specs.declared.fault.JobFault.TheVariants as job_fault;

use crate::key::Key;
use crate::name::Name;
use std::alloc::AllocError;
use thiserror::Error;

/// Why a text is no job, or no list of steps for one.
#[derive(Debug, Drop, Error)]
pub enum JobFault {
    /// The text is no TOML document, or isn't UTF-8.
    #[error("syntax")]
    Syntax,
    /// The document has this key, which none has, or a step of a list; of several the first by its bytes.
    #[error("unknown {0}")]
    Unknown(Name),
    /// The document lacks this key.
    #[error("missing {0}")]
    Missing(Key),
    /// The value at this key, or a member of its array, is of another TOML type.
    #[error("wrong kind of {0}")]
    WrongKind(Key),
    /// The value at this key is out of its range.
    #[error("{0} out of range")]
    Range(Key),
    /// The values at these two keys don't fit together.
    #[error("{0} doesn't fit {1}")]
    Relation(Key, Key),
    /// There was not enough memory.
    #[error("want of memory")]
    WantOfMemory,
}

impl From<AllocError> for JobFault {
    ghost from_gives = { λ _ fault. fault ≡ job_fault.WantOfMemory };

    fn from(_: AllocError) -> Self {
        JobFault::WantOfMemory
    }
}
