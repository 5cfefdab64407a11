//! Programs over all rows of a stock, by threads, and which moves a row goes over.
ghost use Rattle.std.specs.Prelude.{◌≤◌};
ghost use Rattle.mill_base.specs.Ranges.{MovesInRange};

use crate::row::{told_of_last, told_row};
use crate::tables::{job, same};
use mill_base::Move;
use mill_dexel::{Bands, Row, rows_static, uncut_rows};
use mill_job::Job;
use mill_tables::{add, first_word, halves, moves_of};
use std::alloc::Global;
use std::process::Abort;
use std::test::Fail;
use std::thread::Threads;

fn told_rows(alloc: Global, rows: &[Row]) -> Result<String, Fail> {
    let mut told = String::new(alloc);
    for row in rows {
        add(&mut told, &told_row(alloc, row)?)?;
    }
    Ok(told)
}

/// All rows after a program, by so many workers; a second time changes nothing.
fn told_by_workers<R: Threads + Sync>(
    rt: &R,
    alloc: Global,
    job: &Job,
    moves: &[Move],
    workers: u32,
) -> Result<String, Fail>
    requires moves_ok { MovesInRange moves.now }
    requires some { 1 ≤ workers }
    requires few { workers ≤ 64 }
{
    let rows = uncut_rows(alloc, job)?;
    let rows = rows_static(rt, job, rows, moves, workers);
    let rows = rows_static(rt, job, rows, moves, workers);
    told_rows(alloc, &rows)
}

fn look_by_workers<R: Threads + Sync + Abort + AllocGlobal>(
    rt: &R,
    job: &Job,
    moves: &[Move],
    workers: u32,
    wanted: &str,
) -> Result<(), Fail>
    requires moves_ok { MovesInRange moves.now }
    requires some { 1 ≤ workers }
    requires few { workers ≤ 64 }
{
    let told = told_by_workers(rt, rt.alloc(), job, moves, workers)?;
    same(rt, &told, wanted, "rows by workers");
    Ok(())
}

/// What the last row comes to by itself.
fn last_by_itself(alloc: Global, job: &Job, program: &str) -> Result<String, Fail> {
    let acts = format!(in alloc; "run {program}")?;
    told_of_last(alloc, job, &acts)
}

/// Runs the program of a table's row over an uncut stock by one worker, by four and by 64, and over its last row
/// alone.
fn look<R: Threads + Sync + Abort + AllocGlobal>(rt: &R, row: &str) -> Result<(), Fail> {
    let (given, wanted) = halves(row)?;
    let (keys, program) = given.split_once(" | ").ok_or("a row without a program")?;
    let job = job(rt.alloc(), keys)?;
    let moves = moves_of(rt.alloc(), program)?;
    look_by_workers(rt, &job, &moves, 1, wanted)?;
    look_by_workers(rt, &job, &moves, 4, wanted)?;
    look_by_workers(rt, &job, &moves, 64, wanted)?;
    let (_, last) = wanted.rsplit_once("; ").unwrap_or(("", wanted));
    same(rt, &last_by_itself(rt.alloc(), &job, program)?, last, row);
    Ok(())
}

// The limit is for feeds: a rapid stops at the top, with a limit and without one. Each cut of 50 is as
// deep as may be, since what the ones before it cut is no more there; then one of 51 is stopped, and
// cuts nothing. Of a rapid the cutter's test comes before the holder's.
//
// Over five rows: a pocket to 200 over the first three rows and a rapid out of it. Then a rapid at 250 that comes
// too near to the fourth row, and a cut to 100 of two columns of the fifth.
const PROGRAMS: &str = "\
three max_cut = 0 | feed 0 0 400 to 0 0 0 => [0, 0, 300] after 1
three max_cut = 50 | feed 0 0 400 to 0 0 250 => [250, 250, 300] after 1
three max_cut = 50 | feed 0 0 400 to 0 0 249 => [300, 300, 300] after 0, Cut in 0 by column 0 at 8 \
    254
three max_cut = 0 | rapid 0 0 400 to 0 0 300 => [300, 300, 300] after 1
three max_cut = 0 | rapid 0 0 400 to 0 0 299 => [300, 300, 300] after 0, Cut in 0 by column 0 at 7 \
    126
three max_cut = 50 | rapid 0 0 400 to 0 0 300 => [300, 300, 300] after 1
three max_cut = 50 | rapid 0 0 400 to 0 0 299 => [300, 300, 300] after 0, Cut in 0 by column 0 at \
    7 126
three max_cut = 50 | feed 0 0 400 to 0 0 250 then feed 0 0 400 to 0 0 200 => [200, 200, 300] after \
    2
three max_cut = 50 | feed 0 0 400 to 0 0 250 then feed 0 0 400 to 0 0 200 then feed 0 0 400 to 0 0 \
    149 => [200, 200, 300] after 2, Cut in 2 by column 0 at 8 254
three holder_radius = 200; stickout = 50 | rapid 0 0 400 to 0 0 249 => [300, 300, 300] after 0, \
    Cut in 0 by column 0 at 8 169
three holder_radius = 200; stickout = 50 | feed 0 0 400 to 0 0 249 => [300, 300, 300] after 0, \
    Holder in 0 by column 0 at 8 254
five | feed 100 100 400 to 100 100 200 then rapid 100 100 200 to 100 100 400 then rapid 100 100 \
    250 to 100 200 250 then feed 0 400 400 to 0 400 100 => [200, 200, 200] after 4; [200, 200, \
    200] after 4; [200, 200, 200] after 4; [300, 300, 300] after 2, Cut in 2 by column 0 at 7 111; \
    [100, 100, 300] after 4";

#[test]
fn runs_by_workers_and_alone(rt: HostRuntime) -> Result<(), Fail> {
    for row in PROGRAMS.lines() {
        look(&rt, row)?;
    }
    Ok(())
}

/// Moves along y = 0, 150 of them, and then ten along y = 200.
fn two_lines(alloc: Global) -> Result<String, Fail> {
    let first = "feed 0 0 400 to 100 0 400 then ".repeat(alloc, 150)?;
    let second = "feed 0 200 400 to 100 200 400 then ".repeat(alloc, 9)?;
    Ok(format!(in alloc; "{first}{second}feed 0 200 400 to 100 200 400")?)
}

/// Up to which move an uncut row goes over the first moves of a program.
fn gone_over(alloc: Global, job: &Job, moves: &[Move], number: u64, count: u64) -> Result<u64, Fail>
    requires { MovesInRange moves.now }
{
    if number >= u64::from(job.rows()) || count == 0 || count > moves.len() as u64 {
        return Err(Fail::from("out of range"));
    }
    let bands = Bands::new(alloc, moves, count)?;
    let mut row = Row::new(alloc, job, number)?;
    Ok(row.go_over(job, &bands, 0))
}

fn look_at_far<R: Abort + AllocGlobal>(rt: &R, moves: &[Move], row: &str) -> Result<(), Fail>
    requires { MovesInRange moves.now }
{
    let (of, wanted) = halves(row)?;
    let (number, count) = first_word(of)?;
    let (number, count, wanted): (u64, u64, u64) = (
        number.parse()?,
        count.parse()?,
        wanted.parse()?,
    );
    let job = job(rt.alloc(), "five")?;
    let gone = gone_over(rt.alloc(), &job, moves, number, count)?;
    assert_eq!(rt; gone, wanted, "{row}");
    Ok(())
}

// A row, of how many moves, and up to which one it goes over them. The cutter's radius is 150, so a row
// at least 152 away from a whole band goes over it: the first two bands of 64 are along y = 0, and the
// third has moves along y = 200, too.
const GOES_OVER: &str = "\
0 160 => 0
1 160 => 0
2 160 => 128
3 160 => 128
4 160 => 160
3 150 => 150
3 64 => 64";

#[test]
fn goes_over_what_is_far_away(rt: HostRuntime) -> Result<(), Fail> {
    let program = two_lines(rt.alloc())?;
    let moves = moves_of(rt.alloc(), &program)?;
    for row in GOES_OVER.lines() {
        look_at_far(&rt, &moves, row)?;
    }
    Ok(())
}
