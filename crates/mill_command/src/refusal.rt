ghost use Rattle.std.specs.Prelude.{◌≡◌};
ghost use Rattle.mill_command.specs.declared.refusal.Refusal.TheVariants as refusal;

use std::alloc::AllocError;
use thiserror::Error;

/// Why the words give no command.
#[derive(Debug, Drop, Error)]
pub enum Refusal {
    /// The words ask for help or the version, and this is clap's text of it. The exit status is 0.
    #[error("{text}")]
    Help { text: String },
    /// The words aren't taken, and this is clap's text on why. The exit status is 2.
    #[error("{text}")]
    NotTaken { text: String },
    /// There was not enough memory.
    #[error("want of memory")]
    WantOfMemory,
}

impl From<AllocError> for Refusal {
    ghost from_gives = { λ _ r. r ≡ refusal.WantOfMemory };

    fn from(_: AllocError) -> Self {
        Refusal::WantOfMemory
    }
}
