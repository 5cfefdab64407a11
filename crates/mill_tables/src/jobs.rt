//! Jobs.
use mill_job::{Job, read_job};
use std::alloc::Global;
use std::test::Fail;

/// A job by the keys of its document and more of them, with a semicolon between any two. What
/// `read_job` doesn't take is refused.
pub fn job_by(alloc: Global, keys: &str, more: &str) -> Result<Job, Fail> {
    let text = format!(in alloc; "{keys}; {more}")?;
    let lines = text.replace(alloc, "; ", "\n")?;
    Ok(read_job(alloc, lines.as_bytes())?)
}
