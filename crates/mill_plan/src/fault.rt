//! Why there is no plan.
ghost use Rattle.std.specs.Prelude.{◌≡◌};
ghost use Rattle.mill_plan.specs.Faults.{plan_fault_of};
ghost use Rattle.mill_plan.specs.declared.fault.PlanFault.TheVariants.{WantOfMemory};

use mill_paths::PathFault;
use std::alloc::AllocError;
use thiserror::Error;

/// Why there is no program. Moves, rows and columns are counted from 0.
#[derive(Clone, Copy, Debug, PartialEq, Eq, Error)]
pub enum PlanFault {
    /// A lattice that the paths go over has more than 4,000,000 nodes.
    #[error("a lattice of {nodes} nodes: more than 4,000,000")]
    TooManyNodes {
        /// How many it has.
        nodes: u64,
    },
    /// The plan has more than 1,000,000 moves.
    #[error("more than 1,000,000 moves")]
    TooManyMoves,
    /// The plan leaves a column's top, in units, more than the allowance over what covers it.
    #[error("row {row}, column {col} stays uncut")]
    Uncut {
        row: u32,
        col: u32,
        top: i32,
    },
    /// On move `at` of the plan the holder would touch what the moves before it left of this column.
    #[error("move {at}: the holder would touch row {row}, column {col}")]
    Held {
        at: u64,
        row: u32,
        col: u32,
    },
    /// There was not enough memory.
    #[error("not enough memory")]
    WantOfMemory,
}

impl From<PathFault> for PlanFault {
    ghost from_gives = { λ fault e. e ≡ plan_fault_of fault };

    fn from(fault: PathFault) -> Self {
        match fault {
            PathFault::TooManyNodes { nodes } => PlanFault::TooManyNodes { nodes },
            PathFault::TooManyVisits => PlanFault::TooManyMoves,
            PathFault::WantOfMemory => PlanFault::WantOfMemory,
        }
    }
}

impl From<AllocError> for PlanFault {
    ghost from_gives = { λ _ e. e ≡ WantOfMemory };

    fn from(_: AllocError) -> Self {
        PlanFault::WantOfMemory
    }
}

impl From<mill_base::WantOfMemory> for PlanFault {
    ghost from_gives = { λ _ e. e ≡ WantOfMemory };

    fn from(_: mill_base::WantOfMemory) -> Self {
        PlanFault::WantOfMemory
    }
}
