//! Keeps `plan` and `stock` from storing their text over a file that it is made of, or over the
//! file that their line goes to.
//!
//! A contract speaks of a store of named files, in which two names are two files. Two names of real
//! files can mean one, by another spelling or a link. So, before anything is read, the names are
//! compared, and the device and the number that the system has for each file. The clauses say what
//! comes of equal names, whatever the files. What real files there are stands in no clause, and is
//! tested.
ghost use Rattle.std.specs.Prelude.{◌≡◌, false, map, string_bytes, IfOk, IsTrue};
ghost use Rattle.camtool.specs.inner.Own.{AreOverOwn};

use mill_base::WantOfMemory;
use mill_command::{Command, Refusal, read_words};
use std::alloc::Global;
use std::fs;
use std::fs::Metadata;
use std::os::unix::fs::MetadataExt;
use std::rt::Files;

/// Whether the command that these words ask for may store its text where they say: not over a file
/// that it is made of, nor over the one that standard output goes to. If not, standard error says
/// why. Words that ask for no command, or for one that stores nothing, are `run`'s.
///
/// The only error is that there was no memory to read the words.
pub fn may_store<R: Files + Eprint>(
    rt: &R,
    alloc: Global,
    words: &[String],
) -> Result<bool, WantOfMemory>
    // Where OUT has the name of a file that the text is made of, the answer is no.
    ensures own { AreOverOwn (map string_bytes words.now) → IfOk result (λ may. may ≡ false) }
{
    match read_words(alloc, words) {
        Ok(Command::Plan { job, part, out, .. }) => {
            Ok(
                !is_printed_over(rt, "plan", out)
                    && !is_stored_over(rt, "plan", out, "JOB", job)
                    && !is_stored_over(rt, "plan", out, "PART", part),
            )
        }
        Ok(Command::Stock { job, file, out }) => {
            Ok(
                !is_printed_over(rt, "stock", out)
                    && !is_stored_over(rt, "stock", out, "JOB", job)
                    && !is_stored_over(rt, "stock", out, "FILE", file),
            )
        }
        Err(Refusal::WantOfMemory) => Err(WantOfMemory),
        _ => Ok(true),
    }
}

/// Whether OUT is the file that standard output goes to. If so, standard error says that, unless it
/// takes no line.
fn is_printed_over<R: Files + Eprint>(rt: &R, made: &str, out: &str) -> bool {
    if !is_output(rt, out) {
        return false;
    }
    let _ = eprint!(rt; "camtool: OUT ({out}) is standard output, ");
    let _ = eprintln!(rt; "and its line would be written over the {made}");
    true
}

/// Whether OUT is the file of this name, which the words call so. If so, standard error says that,
/// unless it takes no line.
fn is_stored_over<R: Files + Eprint>(rt: &R, made: &str, out: &str, word: &str, name: &str) -> bool
    ensures { out.now ≡ name.now → IsTrue result }
{
    if !is_same(rt, out, name) {
        return false;
    }
    let _ = eprint!(rt; "camtool: OUT ({out}) is the same file as {word} ({name}), ");
    let _ = eprintln!(rt; "which the {made} would replace");
    true
}

/// Whether the name is that of a file, and no device or pipe, that standard output goes to.
fn is_output<R: Files>(rt: &R, name: &str) -> bool {
    match (fs::metadata(rt, name), fs::metadata(rt, "/dev/stdout")) {
        (Ok(file), Ok(output)) => file.is_file() && is_one(&file, &output),
        _ => false,
    }
}

/// Whether two names are equal or mean the same file.
fn is_same<R: Files>(rt: &R, name: &str, other: &str) -> bool
    ensures { name.now ≡ other.now → IsTrue result }
{
    if name == other {
        return true;
    }
    match (fs::metadata(rt, name), fs::metadata(rt, other)) {
        (Ok(file), Ok(other)) => is_one(&file, &other),
        _ => false,
    }
}

/// Whether two files have the same device and number.
fn is_one(file: &Metadata, other: &Metadata) -> bool {
    file.dev() == other.dev() && file.ino() == other.ino()
}
