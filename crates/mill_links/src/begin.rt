ghost use Rattle.std.specs.Prelude.{◌≡◌, ◌++◌, OnErr, OnOk};
ghost use Rattle.mill_links.specs.Links.{head as head_of};

use crate::links::rapid_to;
use mill_base::{Move, WantOfMemory};
use mill_job::Job;

/// Adds the moves with which a program of the job begins.
///
/// There are none where it starts over home. Where it may start from elsewhere they are two rapids
/// that stay at home: in a text they stand for the lines that bring the tool there, up to the clear
/// height first and then across.
///
/// # Errors
///
/// Only want of memory. The moves are as they were then.
pub fn head(job: &Job, out: &mut Vec<Move>) -> Result<(), WantOfMemory>
    ensures ok { OnOk result (out.new.items ≡ out.old.items ++ head_of job.now.fields) }
    ensures err { OnErr result (out.new.items ≡ out.old.items) }
{
    if !job.fields.start.is_elsewhere() {
        return Ok(());
    }
    let stay = rapid_to(job.home(), job.home());
    out.extend_from_slice(&[stay, stay])?;
    Ok(())
}
