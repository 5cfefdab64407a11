// What is said of a file where a later one is missing: there is no file `absent`.
use crate::tests::{SOUND, call, each_says, same};
use mill_tables::owned_words;
use std::alloc::Global;
use std::process::Abort;
use std::test::Fail;
use std::thread::Threads;

const MISSING: &str = r"verify garbled plate absent => 4 refused job syntax
verify job cut-short absent => 4 refused part line 2 cut-short
verify job high absent => 4 refused part-top 3.01 top 3.00
verify job plate absent => 6 read fault program
verify garbled absent absent => 4 refused job syntax
verify job absent absent => 6 read fault part
plan garbled absent out => 4 refused job syntax
plan turning absent out => 4 refused job missing feed
plan job absent out => 6 read fault part
drop garbled absent --x=0 --y=0 => 4 refused job syntax
drop job absent --x=0 --y=0.005 => 4 refused word y off-grid
drop absent absent --x=0 --y=0.005 => 6 read fault job
stock garbled absent out => 4 refused job syntax
level garbled absent --z=0 => 4 refused job syntax
level job absent --z=0 => 6 read fault part
rest garbled absent absent => 4 refused job syntax
rest job high absent => 4 refused part-top 3.01 top 3.00
rest job absent absent => 6 read fault part
level job absent --z=0.001 => 4 refused word z off-grid";

#[test]
fn refuses_before_a_missing_file(rt: HostRuntime) -> Result<(), Fail> {
    each_says(&rt, rt.alloc(), MISSING)
}

fn look_at_long<R: Threads + Sync + Abort>(
    rt: &R,
    alloc: Global,
    long: &[u8],
    command: &str,
    says: &str,
) -> Result<(), Fail> {
    let ended = call(rt, alloc, &owned_words(alloc, command)?, long, SOUND)?;
    same(rt, &ended.told, says, command);
    Ok(())
}

// A file of one byte more than the greatest size is refused for that, and not for its text; a part also where
// the program is missing.
#[test]
fn refuses_a_long_file(rt: HostRuntime) -> Result<(), Fail> {
    let alloc = rt.alloc();
    let long = vec![in alloc; b'?'; 67_108_865]?;
    look_at_long(
        &rt,
        alloc,
        &long,
        "verify job plate program",
        "4 refused too-long program\n",
    )?;
    look_at_long(
        &rt,
        alloc,
        &long,
        "verify job program absent",
        "4 refused too-long part\n",
    )
}

// A job or a list may have 1,048,576 bytes: one byte more is refused for that.
#[test]
fn refuses_a_long_job(rt: HostRuntime) -> Result<(), Fail> {
    let alloc = rt.alloc();
    let long = vec![in alloc; b'?'; 1_048_577]?;
    look_at_long(
        &rt,
        alloc,
        &long,
        "verify program plate absent",
        "4 refused too-long job\n",
    )?;
    look_at_long(
        &rt,
        alloc,
        &long,
        "rest job plate program",
        "4 refused too-long list\n",
    )?;
    look_at_long(
        &rt,
        alloc,
        &long[1..],
        "verify program plate absent",
        "4 refused job syntax\n",
    )
}
