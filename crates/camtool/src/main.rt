//! `camtool verify JOB PART FILE [--workers=W]` verifies a program for a three-axis mill against a
//! part, a tool and a stock. `camtool plan JOB PART OUT [--workers=W]` plans a program that it
//! accepts, and stores it. `camtool drop JOB PART --x=X --y=Y` tells how low the tool comes at one
//! place. `camtool level JOB PART --z=Z` prints the lines along which the tool goes round the part
//! at one height. `camtool stock JOB FILE OUT` stores what a program leaves of the stock, as a surface.
//! `camtool rest JOB PART LIST [--workers=W]` verifies the programs that a list names, in turn on one
//! stock, each with its own cutter. `camtool sample N [--workers=W]` plans and verifies a sample part.
//!
//! All that it does is `mill_run::end`, called on the words, the files and the standard output.
//! Before that it ends with status 2 where a text would be stored over a file that it is made of.
#![tactic(auto)]

ghost use Rattle.std.specs.Prelude.{map, string_bytes, IfOk, IfSome};
ghost use Rattle.camtool.specs.inner.Own.{AreOverOwn};

mod own_files;

use mill_base::WantOfMemory;
use mill_io::{FileShelf, StdSink};
use mill_run::end;
use own_files::may_store;
use std::env;
use std::env::Env;
use std::io::ErrorKind;
use std::process::ExitCode;
use std::rt::Files;

fn main(rt: HostRuntime) -> ExitCode {
    let alloc = rt.alloc();
    let words = match words_to_run(&rt) {
        Ok(None) => return ExitCode::from(2),
        Ok(Some(words)) => Ok(words),
        Err(short) => Err(short),
    };
    let mut shelf = FileShelf::new(alloc, &rt);
    let mut sink = StdSink::new(&rt);
    end(&rt, alloc, words, &mut shelf, &mut sink)
}

// The words of the call; none where they would store a text over a file that it is made of.
fn words_to_run<R: Env + AllocGlobal + Files + Eprint>(
    rt: &R,
) -> Result<Option<Vec<String>>, WantOfMemory>
    ensures { IfOk result (λ found.
        IfSome found (λ words. ¬ AreOverOwn (map string_bytes words.items))) }
{
    let words = words_of(rt)?;
    if may_store(rt, rt.alloc(), &words)? {
        Ok(Some(words))
    } else {
        Ok(None)
    }
}

// The words after the program's name; none where they aren't UTF-8, so that they are refused.
fn words_of<R: Env + AllocGlobal>(rt: &R) -> Result<Vec<String>, WantOfMemory> {
    let mut words = Vec::new(rt.alloc());
    match env::args(rt) {
        Ok(args) => {
            for word in args.skip(1) {
                words.push(word)?;
            }
        }
        Err(error) if error.kind() == ErrorKind::OutOfMemory => return Err(WantOfMemory),
        Err(_) => {}
    }
    Ok(words)
}
