//! Works that threads share.
use crate::runs::{Run, Runs, TURNS, Watch, told_closed};
use mill_board::{Closed, run_all};
use mill_tables::{halves, numbers};
use std::alloc::Global;
use std::process::Abort;
use std::sync::atomic::Ordering::SeqCst;
use std::test::Fail;
use std::thread::Threads;

/// Whether each turn that was done has failed.
fn each_has_failed(watch: &Watch, closed: &Closed<Run>) -> bool {
    let mut failed: u64 = 0;
    for held in closed.pieces.iter() {
        failed = failed.saturating_add(u64::from(held.failed));
    }
    watch.turns.load(SeqCst) == failed
}

/// What a work of a few pieces comes to, up to its turn 6, by so many workers, where its pieces go over so many
/// turns at once.
fn told<R: Threads + Sync>(
    rt: &R,
    alloc: Global,
    work: Runs<'_>,
    workers: u32,
) -> Result<String, Fail> {
    if work.fails.len() > 3 {
        return Err(Fail::from("too many pieces"));
    }
    let closed = run_all(rt, alloc, work, work.fails.len() as u64, TURNS, workers)?;
    let pieces = told_closed(alloc, work.watch, &closed, 6)?;
    let turns = if each_has_failed(work.watch, &closed) {
        "all"
    } else {
        "some"
    };
    Ok(format!(in alloc; "{pieces}, {turns} failed")?)
}

fn told_row<R: Threads + Sync>(rt: &R, alloc: Global, given: &str) -> Result<String, Fail> {
    let (leap, rest) = given
        .split_once(" at once, ")
        .ok_or("a row without a leap")?;
    let (workers, fails) = rest.split_once(" workers:").ok_or("a row without workers")?;
    let fails = numbers(alloc, fails)?;
    let watch = Watch::new(false);
    let work = Runs {
        fails: &fails,
        watch: &watch,
        leap: leap.parse()?,
    };
    told(rt, alloc, work, workers.parse()?)
}

fn look<R: Threads + Sync + AllocGlobal + Abort>(rt: &R, row: &str) -> Result<(), Fail> {
    let (given, wanted) = halves(row)?;
    let told = told_row(rt, rt.alloc(), given)?;
    assert_eq!(rt; told.as_str(), wanted, "{row}");
    Ok(())
}

// Pieces 0 and 2 fail at turn 5, and piece 1 at turn 9, which it may come to or not. No piece is made anew. Where
// turns that are known to pass are gone over, each that is done fails. The last row has no piece.
const ROWS: &str = "\
0 at once, 0 workers: 5 9 5 => made 3, least 5, 5 failed, 6 going, 5 failed, some failed
0 at once, 1 workers: 5 9 5 => made 3, least 5, 5 failed, 6 going, 5 failed, some failed
0 at once, 2 workers: 5 9 5 => made 3, least 5, 5 failed, 6 going, 5 failed, some failed
0 at once, 4 workers: 5 9 5 => made 3, least 5, 5 failed, 6 going, 5 failed, some failed
0 at once, 8 workers: 5 9 5 => made 3, least 5, 5 failed, 6 going, 5 failed, some failed
1 at once, 1 workers: 5 9 5 => made 3, least 5, 5 failed, 6 going, 5 failed, all failed
4 at once, 1 workers: 5 9 5 => made 3, least 5, 5 failed, 6 going, 5 failed, all failed
10 at once, 1 workers: 5 9 5 => made 3, least 5, 5 failed, 6 going, 5 failed, all failed
1 at once, 4 workers: 5 9 5 => made 3, least 5, 5 failed, 6 going, 5 failed, all failed
4 at once, 4 workers: 5 9 5 => made 3, least 5, 5 failed, 6 going, 5 failed, all failed
10 at once, 4 workers: 5 9 5 => made 3, least 5, 5 failed, 6 going, 5 failed, all failed
0 at once, 3 workers: => made 0, least 10, all failed";

#[test]
fn one_answer_for_all_workers(rt: HostRuntime) -> Result<(), Fail> {
    for row in ROWS.lines() {
        look(&rt, row)?;
    }
    Ok(())
}

/// Looks that each piece began once, none was held up for too long, and number 1 didn't come to turn 6.
fn look_at_meeting<R: Abort>(rt: &R, watch: &Watch) {
    for begun in watch.begun.iter() {
        assert_eq!(rt; begun.load(SeqCst), 1);
    }
    assert_eq!(rt;
        (watch.past_least.load(SeqCst), watch.gave_up.load(SeqCst)),
        (0, false)
    );
}

// Two threads meet at turn 0; the later turns of number 1 aren't done, since number 0 has failed; and no
// piece is made anew, so that none begins twice.
#[test]
fn two_threads_meet(rt: HostRuntime) -> Result<(), Fail> {
    let watch = Watch::new(true);
    let work = Runs {
        fails: &[5, 9, 5],
        watch: &watch,
        leap: 0,
    };
    let told = told(&rt, rt.alloc(), work, 2)?;
    assert_eq!(rt;
        told.as_str(),
        "made 3, least 5, 5 failed, 6 going, 5 failed, some failed"
    );
    look_at_meeting(&rt, &watch);
    Ok(())
}
