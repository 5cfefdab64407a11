//! Cuts, tests and programs of one row, the last of its job's.
ghost use Rattle.std.specs.Prelude.{◌≡◌, IfOk, None};
ghost use Rattle.mill_base.specs.Ranges.{MovesInRange};
ghost use Rattle.mill_dexel.specs.Rows.{IsRowOf};

use crate::tables::{job, same, told_stop};
use mill_base::{Kind, Move};
use mill_dexel::Row;
use mill_job::Job;
use mill_sweep::Leaf;
use mill_tables::{add, first_word, halves, kind, moves_of, step};
use std::alloc::Global;
use std::process::Abort;
use std::test::Fail;

/// A row by its tops, the number of its moves, and what stopped it.
pub(crate) fn told_row(alloc: Global, row: &Row) -> Result<String, Fail> {
    let (tops, done) = (row.tops(), row.done());
    let Some(stop) = row.failed() else {
        return Ok(format!(in alloc; "{tops:?} after {done}")?);
    };
    let place = told_stop(alloc, Some((stop.col, stop.leaf)))?;
    let (at, test) = (stop.at, stop.test);
    Ok(format!(in alloc; "{tops:?} after {done}, {test:?} in {at} by {place}")?)
}

/// The tops of a row's columns; of a long row those of the last three.
fn told_tops(alloc: Global, tops: &[i32]) -> Result<String, Fail> {
    match tops {
        [.., a, b, c] if tops.len() > 41 => Ok(format!(in alloc; ".. {a}, {b}, {c}")?),
        _ => Ok(format!(in alloc; "{tops:?}")?),
    }
}

/// Where the test of a rapid, of a feed or of a holder fails over a row.
fn stop(job: &Job, row: &Row, word: &str, ends: &str) -> Result<Option<(u32, Leaf)>, Fail>
    requires row { IsRowOf job.now.fields row.now }
{
    let along = step(kind(word), ends)?;
    match word {
        "rapid" | "dogleg" => Ok(row.rapid_turn(job, &along)),
        "feed" => Ok(row.cut_test(job, &along)),
        "hold" => Ok(row.holder_test(job, &along)),
        _ => Err(Fail::from("no such act")),
    }
}

/// Lets a row go on from move 0 by `turn`, to the end or to the first move that fails.
fn turned(row: &mut Row, job: &Job, moves: &[Move])
    requires moves_ok { MovesInRange moves.now }
    requires row { IsRowOf job.now.fields row.old }
    requires unfailed { row.old.failed ≡ None }
    requires fresh { row.old.done ≡ 0 }
{
    for t in 0..moves.len() as u64 {
        if !row.turn(job, moves, t) {
            return;
        }
    }
}

/// The same by `turn_on`.
fn turned_on(row: &mut Row, job: &Job, moves: &[Move])
    requires moves_ok { MovesInRange moves.now }
    requires row { IsRowOf job.now.fields row.old }
    requires unfailed { row.old.failed ≡ None }
    requires fresh { row.old.done ≡ 0 }
    ensures { IsRowOf job.now.fields row.new }
{
    for t in 0..moves.len() as u64 {
        if !row.turn_on(job, moves, t) {
            return;
        }
    }
}

/// Runs a program over a row that is before its first move, by `turn_on`; by `turn` it comes to the same.
fn run(alloc: Global, job: &Job, row: &mut Row, program: &str) -> Result<String, Fail>
    requires row { IsRowOf job.now.fields row.old }
    ensures { IsRowOf job.now.fields row.new }
{
    let None = row.failed() else {
        return Err(Fail::from("a row that has failed"));
    };
    if row.done() != 0 {
        return Err(Fail::from("a row after a program"));
    }
    let moves = moves_of(alloc, program)?;
    let mut other = row.again(alloc)?;
    turned(&mut other, job, &moves);
    turned_on(row, job, &moves);
    let (told, by_turn) = (told_row(alloc, row)?, told_row(alloc, &other)?);
    if told != by_turn {
        return Err(Fail::from("a row that comes to something else by the other call"));
    }
    Ok(told)
}

/// Does one act on a row: a cut by a feed or by a dogleg, which tells the tops then; a program;
/// taking it again, before the first move; or a test, which tells the column that fails.
fn act(alloc: Global, job: &Job, row: &mut Row, text: &str) -> Result<String, Fail>
    requires row { IsRowOf job.now.fields row.old }
    ensures { IsRowOf job.now.fields row.new }
{
    let (word, rest) = text.split_once(' ').unwrap_or((text, ""));
    match word {
        "cut" => {
            row.cut_turn(job, &step(Kind::Feed, rest)?);
            told_tops(alloc, row.tops())
        }
        "bend" => {
            row.cut_turn(job, &step(Kind::Dogleg, rest)?);
            told_tops(alloc, row.tops())
        }
        "run" => run(alloc, job, row, rest),
        "again" => {
            *row = row.again(alloc)?;
            told_row(alloc, row)
        }
        _ => told_stop(alloc, stop(job, row, word, rest)?),
    }
}

/// Does several acts on a row.
fn told_acts(alloc: Global, job: &Job, row: &mut Row, acts: &str) -> Result<String, Fail>
    requires row { IsRowOf job.now.fields row.old }
{
    let mut told = String::new(alloc);
    for text in acts.split("; ") {
        add(&mut told, &act(alloc, job, row, text)?)?;
    }
    Ok(told)
}

/// Does the acts on the last row of an uncut stock.
pub(crate) fn told_of_last(alloc: Global, job: &Job, acts: &str) -> Result<String, Fail> {
    let mut row = Row::new(alloc, job, u64::from(job.rows() - 1))?;
    told_acts(alloc, job, &mut row, acts)
}

fn look<R: Abort + AllocGlobal>(rt: &R, row: &str) -> Result<(), Fail> {
    let (given, wanted) = halves(row)?;
    let (keys, acts) = given.split_once(" | ").ok_or("a row without acts")?;
    let told = told_of_last(rt.alloc(), &job(rt.alloc(), keys)?, acts)?;
    same(rt, &told, wanted, row);
    Ok(())
}

fn each_row<R: Abort + AllocGlobal>(rt: &R, table: &str) -> Result<(), Fail> {
    for row in table.lines() {
        look(rt, row)?;
    }
    Ok(())
}

// Cuts go down to the floor and no deeper. A feed may go down by the limit on the depth of cut, and to
// the floor where the limit is greater than what is left. A holder's face is at 300 where it may still
// be; from x = 400 on the holder is beside the last column.
//
// In the last three a feed may cut 50 deep. The second program cuts what the first one left, also where that one
// failed, and the move that fails in it is counted from its own first one.
const CUTS_AND_TESTS: &str = "\
three | cut 0 0 400 to 0 0 200; rapid 100 0 400 to 100 0 250; rapid 0 0 400 to 0 0 250; rapid 0 0 \
    400 to 0 0 199 => [200, 200, 300]; column 2 at 8 170; none; column 0 at 8 254
three | cut 350 0 400 to 350 0 0; cut 200 0 400 to 200 0 -5 => [300, 300, 300]; [300, 0, 0]
three max_cut = 0 | feed 0 0 400 to 0 0 0 => none
three max_cut = 50 | feed 0 0 400 to 0 0 250; feed 0 0 400 to 0 0 249 => none; column 0 at 8 254
three max_cut = 50 | feed 200 0 400 to 200 0 249; feed 350 0 400 to 350 0 0 => column 1 at 8 254; \
    none
three max_cut = 300 | feed 0 0 400 to 0 0 0; feed 0 0 400 to 0 0 -1 => none; column 0 at 9 510
three max_cut = 400 | feed 0 0 400 to 0 0 0; feed 0 0 400 to 0 0 -1 => none; column 0 at 9 510
three holder_radius = 200; stickout = 50 | hold 0 0 400 to 0 0 250; hold 0 0 400 to 0 0 249 => \
    none; column 0 at 8 254
three holder_radius = 200; stickout = 51 | hold 0 0 400 to 0 0 249 => none
three holder_radius = 200; stickout = 50 | hold 200 0 400 to 200 0 249; hold 399 0 400 to 399 0 \
    249 => column 1 at 8 254; column 2 at 8 254
three holder_radius = 200; stickout = 50 | hold 400 0 400 to 400 0 249 => none
three max_cut = 50 | run feed 0 0 400 to 0 0 250 then feed 0 0 400 to 0 0 200; again; run feed 200 \
    0 400 to 200 0 250 => [200, 200, 300] after 2; [200, 200, 300] after 0; [200, 200, 250] after \
    1
three max_cut = 50 | run feed 0 0 400 to 0 0 250 then feed 0 0 400 to 0 0 199; again; run feed 0 0 \
    400 to 0 0 200 then feed 200 0 400 to 200 0 250 => [250, 250, 300] after 1, Cut in 1 by column \
    0 at 8 254; [250, 250, 300] after 0; [200, 200, 250] after 2
three max_cut = 50 | run feed 0 0 400 to 0 0 250; again; run feed 0 0 400 to 0 0 200 then feed 0 0 \
    400 to 0 0 149 then feed 200 0 400 to 200 0 250 => [250, 250, 300] after 1; [250, 250, 300] \
    after 0; [200, 200, 300] after 1, Cut in 1 by column 0 at 8 254";

#[test]
fn cuts_tests_and_programs(rt: HostRuntime) -> Result<(), Fail> {
    each_row(&rt, CUTS_AND_TESTS)
}

// The samples stand at x = 0, 25.25, 50.5, 75.75 and 101: at 0 and 101 the cutter itself cuts, and at
// 25, 51 and 76 the narrower one. Then a climb from 0 to 3 in two parts: its middle is at 1.5, and so at
// 2, rounded up.
const SAMPLES: &str = "\
long cutter = 'flat'; radius = 10 | cut 0 0 200 to 101 0 200 => [200, 200, 300, 300, 200, 200, \
    200, 300, 300, 200, 200, 200, 300, 300, 200, 200, 200, 300, 300, 200, 200, 200, 200, 300, 300, \
    300, 300, 300, 300, 300, 300, 300, 300, 300, 300, 300, 300, 300, 300, 300, 300]
long cutter = 'ball'; radius = 10 | cut 0 0 200 to 101 0 200 => [200, 201, 300, 300, 202, 201, \
    202, 300, 300, 203, 201, 201, 300, 300, 203, 201, 201, 300, 300, 202, 200, 200, 205, 300, 300, \
    300, 300, 300, 300, 300, 300, 300, 300, 300, 300, 300, 300, 300, 300, 300, 300]
long cutter = 'cone'; radius = 10; rise = 3; run = 2 | cut 0 0 200 to 101 0 200 => [200, 207, 300, \
    300, 209, 202, 209, 300, 300, 211, 203, 208, 300, 300, 211, 203, 208, 300, 300, 209, 201, 206, \
    213, 300, 300, 300, 300, 300, 300, 300, 300, 300, 300, 300, 300, 300, 300, 300, 300, 300, 300]
long cutter = 'flat'; radius = 1 | cut 0 0 200 to 101 0 200 => [200, 300, 300, 300, 300, 300, 300, \
    300, 300, 300, 300, 300, 300, 300, 300, 300, 300, 300, 300, 300, 300, 300, 300, 300, 300, 300, \
    300, 300, 300, 300, 300, 300, 300, 300, 300, 300, 300, 300, 300, 300, 300]
long cutter = 'flat'; radius = 3 | cut 0 0 0 to 100 0 3 => [0, 300, 300, 300, 300, 300, 300, 300, \
    300, 300, 2, 300, 300, 300, 300, 300, 300, 300, 300, 300, 3, 300, 300, 300, 300, 300, 300, \
    300, 300, 300, 300, 300, 300, 300, 300, 300, 300, 300, 300, 300, 300]";

#[test]
fn samples(rt: HostRuntime) -> Result<(), Fail> {
    each_row(&rt, SAMPLES)
}

// A dogleg is tested by the box of its two ends, and cuts for sure at these alone.
const BENDS: &str = "\
three | dogleg 350 -50 400 to 600 50 0; dogleg 349 -50 400 to 600 50 0 => none; column 2 at 0 0
three | run dogleg -500 -500 400 to 500 500 300; again; run dogleg -500 -500 400 to 500 500 299 \
    => [300, 300, 300] after 1; [300, 300, 300] after 0; [300, 300, 300] after 0, Cut in 0 by \
    column 0 at 0 0
long cutter = 'flat'; radius = 10 | bend 0 0 200 to 100 5 200 => [200, 200, 300, 300, 300, 300, \
    300, 300, 300, 300, 300, 300, 300, 300, 300, 300, 300, 300, 300, 200, 200, 200, 300, 300, 300, \
    300, 300, 300, 300, 300, 300, 300, 300, 300, 300, 300, 300, 300, 300, 300, 300]";

#[test]
fn doglegs_are_tested_by_their_box_and_cut_at_their_ends(rt: HostRuntime) -> Result<(), Fail> {
    each_row(&rt, BENDS)
}

// Moves from corner to corner over the last row, which stands at y = 515,713. Its last columns stand at
// x = 505,713 and x = 515,713. Of the samples, which stand 8,191.98 apart in x and in y, four are near
// them.
const OVER_THE_WHOLE_RANGE: &str = "\
whole cutter = 'flat'; radius = 10000 | rapid -524287 -524287 524287 to 524287 524287 524287; \
    rapid -524287 -524287 524287 to 524287 524287 524286; cut -524287 -524287 524287 to 524287 \
    524287 -524287 => none; column 103 at 20 1030000; .. 524287, -511999, -520191
whole cutter = 'ball'; radius = 10000 | rapid -524287 -524287 524287 to 524287 524287 524287; \
    rapid -524287 -524287 524287 to 524287 524287 524286; cut -524287 -524287 524287 to 524287 \
    524287 -524287 => none; column 104 at 20 1039828; .. 524287, -508831, -517929
whole cutter = 'cone'; radius = 10000; rise = 3; run = 2 | rapid -524287 -524287 524287 to 524287 \
    524287 524287; rapid -524287 -524287 524287 to 524287 524287 524286; cut -524287 -524287 \
    524287 to 524287 524287 -524287 => none; column 104 at 20 1040000; .. 524287, -501046, -515283";

#[test]
fn stops_and_cuts_over_the_whole_range(rt: HostRuntime) -> Result<(), Fail> {
    each_row(&rt, OVER_THE_WHOLE_RANGE)
}
