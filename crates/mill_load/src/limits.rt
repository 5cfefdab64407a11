//! How many bytes a job and a list may have.

/// The most bytes of a job and of a list. Their text is read as a TOML document, which takes some two
/// hundred times its size in memory.
pub const MAX_JOB_BYTES: u64 = 1 << 20;
