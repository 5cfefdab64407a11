//! Why the visits of a plan aren't listed.
ghost use Rattle.std.specs.Prelude.{◌≡◌};
ghost use Rattle.mill_paths.specs.declared.fault.PathFault.TheVariants.{WantOfMemory};

use std::alloc::{AllocError, AllocFailed};
use thiserror::Error;

/// Why there is no list of visits.
#[derive(Clone, Copy, Debug, PartialEq, Eq, Error)]
pub enum PathFault {
    /// The lattice that the paths go over has more than 4,000,000 nodes.
    #[error("a lattice of {nodes} nodes: more than 4,000,000")]
    TooManyNodes {
        /// How many it has.
        nodes: u64,
    },
    /// More than 1,000,000 visits differ from the one before them.
    #[error("more than 1,000,000 moves")]
    TooManyVisits,
    /// There was not enough memory.
    #[error("not enough memory")]
    WantOfMemory,
}

impl From<AllocError> for PathFault {
    ghost from_gives = { λ _ e. e ≡ WantOfMemory };

    fn from(_: AllocError) -> Self {
        PathFault::WantOfMemory
    }
}

impl<T: Drop> From<AllocFailed<T>> for PathFault {
    ghost from_gives = { λ _ e. e ≡ WantOfMemory };

    fn from(_: AllocFailed<T>) -> Self {
        PathFault::WantOfMemory
    }
}

impl From<mill_base::WantOfMemory> for PathFault {
    ghost from_gives = { λ _ e. e ≡ WantOfMemory };

    fn from(_: mill_base::WantOfMemory) -> Self {
        PathFault::WantOfMemory
    }
}
