//! `camreport JOB PART FILE [--workers=W]` judges a program for a three-axis mill against a part, a tool
//! and a stock, and tells all that is wrong with it as one JSON document.
//!
//! All that it does is `mill_report_run::end`, called on the words, the files and the standard output.
#![tactic(auto)]

use mill_base::WantOfMemory;
use mill_io::{FileShelf, StdSink};
use mill_report_run::end;
use std::env;
use std::env::Env;
use std::io::ErrorKind;
use std::process::ExitCode;

fn main(rt: HostRuntime) -> ExitCode {
    let alloc = rt.alloc();
    let words = words_of(&rt);
    let mut shelf = FileShelf::new(alloc, &rt);
    let mut sink = StdSink::new(&rt);
    end(&rt, alloc, words, &mut shelf, &mut sink)
}

// The words after the program's name; none where they aren't UTF-8, so that they are refused.
fn words_of<R: Env + AllocGlobal>(rt: &R) -> Result<Vec<String>, WantOfMemory> {
    let mut words = Vec::new(rt.alloc());
    match env::args(rt) {
        Ok(args) => {
            for word in args.skip(1) {
                words.push(word)?;
            }
        }
        Err(error) if error.kind() == ErrorKind::OutOfMemory => return Err(WantOfMemory),
        Err(_) => {}
    }
    Ok(words)
}
