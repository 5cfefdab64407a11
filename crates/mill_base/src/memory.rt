use std::alloc::{AllocError, AllocFailed};

/// There was not enough memory.
#[derive(Clone, Copy, Debug, PartialEq, Eq)]
pub struct WantOfMemory;

impl From<AllocError> for WantOfMemory {
    fn from(_: AllocError) -> Self {
        WantOfMemory
    }
}

impl<T: Drop> From<AllocFailed<T>> for WantOfMemory {
    fn from(_: AllocFailed<T>) -> Self {
        WantOfMemory
    }
}
