//! The limits of a list.

/// The most steps that a list may have.
pub const MAX_STEPS: usize = 16;
