//! Why there is no waterline.
ghost use Rattle.std.specs.Prelude.{◌≡◌};
ghost use Rattle.mill_level.specs.declared.fault.LevelFault.TheVariants.{WantOfMemory};

use std::alloc::{AllocError, AllocFailed};
use thiserror::Error;

/// Why there is no waterline.
#[derive(Clone, Copy, Debug, PartialEq, Eq, Error)]
pub enum LevelFault {
    /// The lattice has more than 4,000,000 nodes.
    #[error("a lattice of {nodes} nodes: more than 4,000,000")]
    TooManyNodes {
        /// How many it has.
        nodes: u64,
    },
    /// There was not enough memory.
    #[error("not enough memory")]
    WantOfMemory,
}

impl From<AllocError> for LevelFault {
    ghost from_gives = { λ _ e. e ≡ WantOfMemory };

    fn from(_: AllocError) -> Self {
        LevelFault::WantOfMemory
    }
}

impl<T: Drop> From<AllocFailed<T>> for LevelFault {
    ghost from_gives = { λ _ e. e ≡ WantOfMemory };

    fn from(_: AllocFailed<T>) -> Self {
        LevelFault::WantOfMemory
    }
}

impl From<mill_base::WantOfMemory> for LevelFault {
    ghost from_gives = { λ _ e. e ≡ WantOfMemory };

    fn from(_: mill_base::WantOfMemory) -> Self {
        LevelFault::WantOfMemory
    }
}
