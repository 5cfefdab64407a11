ghost use Rattle.std.specs.Prelude.{◌≤◌, IfOk};

use crate::samples::{
    ANY_BLOCK, FLAT_BLOCK, Keys, LINE, NARROW_BLOCK, PLATE, job_of, program, same,
};
use mill_crew::Threaded;
use mill_job::Job;
use mill_tables::{add, first_word, halves, part_under};
use mill_verify::verify;
use std::alloc::Global;
use std::process::Abort;
use std::test::Fail;
use std::thread::Threads;

/// Stock over the whole range in thousandths, and 105 rows of 105 columns in it, 10,000 apart.
const WHOLE_RANGE: Keys<'static> = (
    "unit = 'thousandth'; floor = -524287; top = 524287; clear = 524287; \
    area = [-524287, -524287, 524287, 524287]; home = [-524287, -524287]; pitch = 10000; \
    sample = 10000; allowance = 10000; band = 0",
    "",
);

/// A block of stock from 0 to 300 over a square of 100, and four columns in it, on which all may be
/// left.
const FENCED_BLOCK: &str =
    "floor = 0; top = 300; clear = 400; area = [0, 0, 100, 100]; home = [0, 0]; pitch = 100; \
    sample = 50; radius = 100; allowance = 300; band = 0";

/// The block under each kind of cutter. A row says which fixtures stand about it.
const FENCED: Keys<'static> = (FENCED_BLOCK, "cutter = 'flat'");

const FENCED_BALL: Keys<'static> = (FENCED_BLOCK, "cutter = 'ball'");

const FENCED_CONE: Keys<'static> = (FENCED_BLOCK, "cutter = 'cone'; rise = 1; run = 1");

/// A job by its name and more keys.
fn job_named(alloc: Global, text: &str) -> Result<Job, Fail> {
    let (name, more) = text.split_once(' ').unwrap_or((text, ""));
    match name {
        "flat" => job_of(alloc, FLAT_BLOCK, more),
        "any" => job_of(alloc, ANY_BLOCK, more),
        "narrow" => job_of(alloc, NARROW_BLOCK, more),
        "whole" => job_of(alloc, WHOLE_RANGE, more),
        "fenced" => job_of(alloc, FENCED, more),
        "fenced-ball" => job_of(alloc, FENCED_BALL, more),
        "fenced-cone" => job_of(alloc, FENCED_CONE, more),
        _ => Err(Fail::from("no such job")),
    }
}

/// A plate that ends 50 before the last columns.
const SHORT_PLATE: &str = "0 0 200, 150 0 200, 150 200 200; 0 0 200, 150 200 200, 0 200 200";

/// Two triangles at the height 200, the first of them to the east of the other.
const EAST_AND_WEST: &str = "150 0 200, 200 0 200, 200 200 200; 0 0 200, 50 0 200, 50 200 200";

/// A plate over the whole range of places, at its top.
const TOP: &str = "-524287 -524287 524287, 524287 -524287 524287, 524287 524287 524287; \
    -524287 -524287 524287, 524287 524287 524287, -524287 524287 524287";

/// The same as far under the top as the allowance.
const ALLOWANCE: &str = "-524287 -524287 514287, 524287 -524287 514287, 524287 524287 514287; \
    -524287 -524287 514287, 524287 524287 514287, -524287 524287 514287";

/// The same one lower.
const UNDER_ALLOWANCE: &str =
    "-524287 -524287 514286, 524287 -524287 514286, 524287 524287 514286; \
    -524287 -524287 514286, 524287 524287 514286, -524287 524287 514286";

/// The same at the floor.
const FLOOR: &str = "-524287 -524287 -524287, 524287 -524287 -524287, 524287 524287 -524287; \
    -524287 -524287 -524287, 524287 524287 -524287, -524287 524287 -524287";

/// A point at the floor, which stops no move.
const SPECK: &str = "0 0 0, 0 0 0, 0 0 0";

/// A plate at the height 250 under home.
const HIGH: &str = "-50 -50 250, 50 -50 250, 50 50 250; -50 -50 250, 50 50 250, -50 50 250";

/// A line at the stock's top, beside the cutter at home and under its holder.
const EDGE: &str = "150 -300 300, 150 300 300, 150 300 300";

/// The triangles of a part by its name.
fn corners_of(name: &str) -> Result<&'static str, Fail> {
    match name {
        "plate" => Ok(PLATE),
        "line" => Ok(LINE),
        "short" => Ok(SHORT_PLATE),
        "east-west" => Ok(EAST_AND_WEST),
        "top" => Ok(TOP),
        "allowance" => Ok(ALLOWANCE),
        "under-allowance" => Ok(UNDER_ALLOWANCE),
        "floor" => Ok(FLOOR),
        "speck" => Ok(SPECK),
        "high" => Ok(HIGH),
        "edge" => Ok(EDGE),
        _ => Err(Fail::from("no such part")),
    }
}

/// Down in the middle and up again, 150 times: 300 moves, which go down to the plate, and in these two
/// turns to 199 under it.
fn downs_and_ups(alloc: Global, first: u32, second: u32) -> Result<String, Fail> {
    let mut moves = String::new(alloc);
    for turn in 0..150 {
        let down_and_up = if turn == first || turn == second {
            "feed 100 100 199; feed 100 100 400"
        } else {
            "feed 100 100 200; feed 100 100 400"
        };
        add(&mut moves, down_and_up)?;
    }
    Ok(moves)
}

/// The moves of a row: those that it has, or the 300 of which those in two turns scrape the plate.
fn moves_by(alloc: Global, text: &str) -> Result<String, Fail> {
    let Some(turns) = text.strip_prefix("turns ") else {
        return Ok(String::from_str(alloc, text)?);
    };
    let (first, second) = first_word(turns)?;
    downs_and_ups(alloc, first.parse()?, second.parse()?)
}

/// The verdict on a row's job, part and program.
fn told_of<R: Threads + Sync + AllocGlobal>(
    rt: &R,
    given: &str,
    workers: u32,
) -> Result<String, Fail>
    requires some { 1 ≤ workers }
    requires few { workers ≤ 64 }
{
    let alloc = rt.alloc();
    let (keys, rest) = given.split_once(" | ").ok_or("a row without a part")?;
    let (name, text) = rest.split_once(" | ").ok_or("a row without moves")?;
    let (corners, text) = (corners_of(name)?, moves_by(alloc, text)?);
    let job = job_named(alloc, keys)?;
    let part = part_under(alloc, job.fields.top, corners)?;
    let moves = program(alloc, &job, &text)?;
    let crew = Threaded { rt, workers };
    let verdict = verify(&crew, alloc, &job, &part, &moves)?;
    Ok(format!(in alloc; "{verdict:?}")?)
}

fn look<R: Threads + Sync + AllocGlobal + Abort>(
    rt: &R,
    row: &str,
    workers: u32,
) -> Result<(), Fail>
    requires some { 1 ≤ workers }
    requires few { workers ≤ 64 }
{
    let (given, wanted) = halves(row)?;
    same(rt, &told_of(rt, given, workers)?, wanted, row);
    Ok(())
}

/// Looks at the verdicts of a table.
fn each_verdict<R: Threads + Sync + AllocGlobal + Abort>(
    rt: &R,
    table: &str,
    workers: u32,
) -> Result<(), Fail>
    requires some { 1 ≤ workers }
    requires few { workers ≤ 64 }
{
    for row in table.lines() {
        look(rt, row, workers)?;
    }
    Ok(())
}

// A row has a job, a part and moves, and the verdict on them. The first five name the first failing test, or accept.
//
// The short plate doesn't cover the last columns within a band of 50, and within one of 51 it does. A slanted move
// whose lower end is under the plate passes where it comes down beyond the plate's edge; a steeper one is stopped
// where it first comes under the plate, still over its edge. Of two triangles the cells give the one in the west
// before the one in the east, which is the part's first.
//
// A ball leaves 100 at the corners of what it cuts, and the rapid out of the cut passes the stock. The lowest rapid
// that only touches the uncut stock passes, and cuts nothing. Down to 199 as a rapid the plate and the stock both stop
// the move, and the plate comes first. A feed down to the plate cuts exactly 100 deep. Down to 199 as a feed that cuts
// too deep the plate comes first. A rapid may cut nothing, however deep a feed may. Of two feeds the first leaves 260 of
// the stock, and the second cuts 60 of that.
//
// With a holder: down on the plate its face is so far over it, and the stock is 100 over it. A rapid that would cut
// the stock in the middle comes before the holder over the stock about it, and the holder over the plate before both.
//
// Of 300 moves move 124, the last but three of its block of 64, scrapes the plate, and so does one near the start of
// a later block, which a worker may come to earlier. The last program scrapes nowhere.
const VERDICTS: &str = "\
flat | plate | feed 100 100 200; rapid 100 100 400 => Accept { moves: 2, columns: 9, most_left: 0 \
    }
flat | plate | feed 100 100 201; rapid 100 100 400 => Reject(Left { row: 0, col: 0, top: 201 })
flat | plate | feed 100 100 199; rapid 100 100 400 => Reject(Gouge { at: 0, tri: 0, leaf: Leaf { \
    d: 8, k: 254 } })
flat | plate | rapid 100 100 299; rapid 100 100 400 => Reject(Rapid { at: 0, row: 0, col: 0, leaf: \
    Leaf { d: 7, k: 126 } })
flat | plate | feed 100 100 -1; rapid 100 100 400 => Reject(Floor { at: 0 })
any cutter = 'flat'; radius = 150; band = 50; allowance = 0 | short | feed 100 100 200; rapid 100 \
    100 400 => Reject(Left { row: 0, col: 2, top: 200 })
any cutter = 'flat'; radius = 150; band = 51; allowance = 0 | short | feed 100 100 200; rapid 100 \
    100 400 => Accept { moves: 2, columns: 9, most_left: 0 }
flat | plate | feed 500 100 100; feed 100 100 400 => Reject(Left { row: 0, col: 0, top: 300 })
flat | plate | feed 500 100 0; feed 100 100 400 => Reject(Gouge { at: 0, tri: 0, leaf: Leaf { d: \
    9, k: 256 } })
flat | east-west | feed 100 100 199; rapid 100 100 400 => Reject(Gouge { at: 0, tri: 0, leaf: Leaf \
    { d: 8, k: 254 } })
any cutter = 'ball'; radius = 150; band = 0; allowance = 100 | plate | feed 100 100 200; rapid 100 \
    100 400 => Accept { moves: 2, columns: 9, most_left: 100 }
flat | plate | rapid 100 100 299; rapid 100 100 400 => Reject(Rapid { at: 0, row: 0, col: 0, leaf: \
    Leaf { d: 7, k: 126 } })
flat | plate | rapid 100 100 300; rapid 100 100 400 => Reject(Left { row: 0, col: 0, top: 300 })
flat | plate | rapid 100 100 199; rapid 100 100 400 => Reject(Gouge { at: 0, tri: 0, leaf: Leaf { \
    d: 8, k: 254 } })
flat max_cut = 100 | plate | feed 100 100 200; rapid 100 100 400 => Accept { moves: 2, columns: 9, \
    most_left: 0 }
flat max_cut = 99 | plate | feed 100 100 200; rapid 100 100 400 => Reject(Cut { at: 0, row: 0, \
    col: 0, leaf: Leaf { d: 8, k: 254 } })
flat max_cut = 99 | plate | feed 100 100 199; rapid 100 100 400 => Reject(Gouge { at: 0, tri: 0, \
    leaf: Leaf { d: 8, k: 254 } })
flat max_cut = 99 | plate | rapid 100 100 299; rapid 100 100 400 => Reject(Rapid { at: 0, row: 0, \
    col: 0, leaf: Leaf { d: 7, k: 126 } })
flat max_cut = 60 | plate | feed 100 100 260; feed 100 100 200; rapid 100 100 400 => Accept { \
    moves: 3, columns: 9, most_left: 0 }
flat max_cut = 50 | plate | feed 100 100 260; feed 100 100 200; rapid 100 100 400 => Reject(Cut { \
    at: 1, row: 0, col: 0, leaf: Leaf { d: 6, k: 53 } })
flat holder_radius = 200; stickout = 50 | plate | feed 100 100 200; rapid 100 100 400 => \
    Reject(HolderStock { at: 0, row: 0, col: 0, leaf: Leaf { d: 8, k: 192 } })
flat holder_radius = 200; stickout = 100 | plate | feed 100 100 200; rapid 100 100 400 => Accept { \
    moves: 2, columns: 9, most_left: 0 }
narrow | line | rapid 100 100 100; rapid 100 100 400 => Reject(Holder { at: 0, tri: 0, leaf: Leaf \
    { d: 9, k: 426 } })
narrow | line | rapid 100 100 200; rapid 100 100 400 => Reject(Rapid { at: 0, row: 1, col: 1, \
    leaf: Leaf { d: 8, k: 128 } })
narrow | line | feed 100 100 200; rapid 100 100 400 => Reject(HolderStock { at: 0, row: 0, col: 0, \
    leaf: Leaf { d: 8, k: 192 } })
flat | plate | turns 62 65 => Reject(Gouge { at: 124, tri: 0, leaf: Leaf { d: 8, k: 254 } })
flat | plate | turns 62 100 => Reject(Gouge { at: 124, tri: 0, leaf: Leaf { d: 8, k: 254 } })
flat | plate | turns 62 130 => Reject(Gouge { at: 124, tri: 0, leaf: Leaf { d: 8, k: 254 } })
flat | plate | turns 150 150 => Accept { moves: 300, columns: 9, most_left: 0 }";

#[test]
fn names_the_first_failing_test_or_accepts(rt: HostRuntime) -> Result<(), Fail> {
    each_verdict(&rt, VERDICTS, 1)?;
    each_verdict(&rt, VERDICTS, 2)?;
    each_verdict(&rt, VERDICTS, 3)?;
    each_verdict(&rt, VERDICTS, 4)?;
    each_verdict(&rt, VERDICTS, 64)
}

// Moves over the area from corner to corner, over a plate at the top of the range; over one that is the allowance under
// the top, and over one that is one lower; and down to the floor and to a plate there. The first of the samples that
// come down into the stock leaves the first column as high as this.
const OVER_THE_WHOLE_RANGE: &str = "\
whole cutter = 'flat'; radius = 10000 | top | rapid 524287 524287 524287; rapid -524287 -524287 \
    524287 => Accept { moves: 2, columns: 11025, most_left: 0 }
whole cutter = 'ball'; radius = 10000 | top | rapid 524287 524287 524287; rapid -524287 -524287 \
    524287 => Accept { moves: 2, columns: 11025, most_left: 0 }
whole cutter = 'cone'; radius = 10000; rise = 3; run = 2 | top | rapid 524287 524287 524287; rapid \
    -524287 -524287 524287 => Accept { moves: 2, columns: 11025, most_left: 0 }
whole cutter = 'flat'; radius = 10000 | top | feed 524287 524287 524286; feed -524287 -524287 \
    524287 => Reject(Gouge { at: 0, tri: 0, leaf: Leaf { d: 20, k: 0 } })
whole cutter = 'ball'; radius = 10000 | top | feed 524287 524287 524286; feed -524287 -524287 \
    524287 => Reject(Gouge { at: 0, tri: 0, leaf: Leaf { d: 20, k: 0 } })
whole cutter = 'cone'; radius = 10000; rise = 3; run = 2 | top | feed 524287 524287 524286; feed \
    -524287 -524287 524287 => Reject(Gouge { at: 0, tri: 0, leaf: Leaf { d: 20, k: 0 } })
whole cutter = 'flat'; radius = 10000 | allowance | rapid 524287 524287 524287; rapid -524287 \
    -524287 524287 => Accept { moves: 2, columns: 11025, most_left: 10000 }
whole cutter = 'ball'; radius = 10000 | allowance | rapid 524287 524287 524287; rapid -524287 \
    -524287 524287 => Accept { moves: 2, columns: 11025, most_left: 10000 }
whole cutter = 'cone'; radius = 10000; rise = 3; run = 2 | allowance | rapid 524287 524287 524287; \
    rapid -524287 -524287 524287 => Accept { moves: 2, columns: 11025, most_left: 10000 }
whole cutter = 'flat'; radius = 10000 | allowance | rapid 524287 524287 524286; rapid -524287 \
    -524287 524287 => Reject(Rapid { at: 0, row: 0, col: 0, leaf: Leaf { d: 20, k: 0 } })
whole cutter = 'ball'; radius = 10000 | allowance | rapid 524287 524287 524286; rapid -524287 \
    -524287 524287 => Reject(Rapid { at: 0, row: 0, col: 0, leaf: Leaf { d: 20, k: 0 } })
whole cutter = 'cone'; radius = 10000; rise = 3; run = 2 | allowance | rapid 524287 524287 524286; \
    rapid -524287 -524287 524287 => Reject(Rapid { at: 0, row: 0, col: 0, leaf: Leaf { d: 20, k: 0 \
    } })
whole cutter = 'flat'; radius = 10000 | under-allowance | rapid 524287 524287 524287; rapid \
    -524287 -524287 524287 => Reject(Left { row: 0, col: 0, top: 524287 })
whole cutter = 'ball'; radius = 10000 | under-allowance | rapid 524287 524287 524287; rapid \
    -524287 -524287 524287 => Reject(Left { row: 0, col: 0, top: 524287 })
whole cutter = 'cone'; radius = 10000; rise = 3; run = 2 | under-allowance | rapid 524287 524287 \
    524287; rapid -524287 -524287 524287 => Reject(Left { row: 0, col: 0, top: 524287 })
whole cutter = 'flat'; radius = 10000 | floor | feed 524287 524287 -524287; feed -524287 -524287 \
    524287 => Reject(Left { row: 0, col: 0, top: 520192 })
whole cutter = 'ball'; radius = 10000 | floor | feed 524287 524287 -524287; feed -524287 -524287 \
    524287 => Reject(Left { row: 0, col: 0, top: 522041 })
whole cutter = 'cone'; radius = 10000; rise = 3; run = 2 | floor | feed 524287 524287 -524287; \
    feed -524287 -524287 524287 => Reject(Left { row: 0, col: 0, top: 524287 })";

#[test]
fn judges_over_the_whole_range(rt: HostRuntime) -> Result<(), Fail> {
    each_verdict(&rt, OVER_THE_WHOLE_RANGE, 2)
}

// Down at home beside a box that is a radius away, and one nearer; over a box at the tip, and one
// higher; beside one whose corner is at the radius, and one nearer. A box may be a line. Then boxes
// in the way of a move along x: the least that stops it counts, and the first move that any stops.
// Of the two triangles of a face the one to the left alone stops the first of two moves, and the
// one to the right that of the other.
//
// Then the order of the tests, with and without a holder. Neither overcut nor graze is taken off at
// a box.
const FIXTURES: &str = "\
fenced keep_out = [[100, -50, 200, 50, 300]] | speck | feed 0 0 200; rapid 0 0 400 => Accept { \
    moves: 2, columns: 4, most_left: 300 }
fenced keep_out = [[99, -50, 200, 50, 300]] | speck | feed 0 0 200; rapid 0 0 400 => \
    Reject(Fixture { at: 0, fixture: 0, leaf: Leaf { d: 8, k: 128 } })
fenced keep_out = [[-50, -50, 50, 50, 200]] | speck | feed 0 0 200; rapid 0 0 400 => Accept { \
    moves: 2, columns: 4, most_left: 300 }
fenced keep_out = [[-50, -50, 50, 50, 201]] | speck | feed 0 0 200; rapid 0 0 400 => \
    Reject(Fixture { at: 0, fixture: 0, leaf: Leaf { d: 8, k: 254 } })
fenced keep_out = [[60, 80, 200, 200, 300]] | speck | feed 0 0 200; rapid 0 0 400 => Accept { \
    moves: 2, columns: 4, most_left: 300 }
fenced keep_out = [[60, 79, 200, 200, 300]] | speck | feed 0 0 200; rapid 0 0 400 => \
    Reject(Fixture { at: 0, fixture: 0, leaf: Leaf { d: 8, k: 128 } })
fenced keep_out = [[99, -300, 99, 300, 400]] | speck | feed 0 0 200; rapid 0 0 400 => \
    Reject(Fixture { at: 0, fixture: 0, leaf: Leaf { d: 8, k: 0 } })
fenced-ball keep_out = [[99, -300, 99, 300, 400]] | speck | feed 0 0 200; rapid 0 0 400 => \
    Reject(Fixture { at: 0, fixture: 0, leaf: Leaf { d: 8, k: 108 } })
fenced-cone keep_out = [[99, -300, 99, 300, 400]] | speck | feed 0 0 200; rapid 0 0 400 => \
    Reject(Fixture { at: 0, fixture: 0, leaf: Leaf { d: 8, k: 126 } })
fenced keep_out = [[250, 0, 300, 1, 300], [150, 0, 300, 1, 300]] | speck | feed 0 0 200; feed 200 \
    0 200; rapid 200 0 400 => Reject(Fixture { at: 1, fixture: 0, leaf: Leaf { d: 8, k: 192 } })
fenced keep_out = [[150, 0, 300, 1, 300], [150, 0, 300, 1, 300]] | speck | feed 0 0 200; feed 200 \
    0 200; rapid 200 0 400 => Reject(Fixture { at: 1, fixture: 0, leaf: Leaf { d: 8, k: 64 } })
fenced keep_out = [[250, 0, 300, 1, 300], [-300, 0, -250, 1, 300]] | speck | feed 0 0 200; feed \
    -200 0 200; feed 200 0 200; rapid 200 0 400 => Reject(Fixture { at: 1, fixture: 1, leaf: Leaf \
    { d: 8, k: 192 } })
fenced keep_out = [[100, -400, 300, 100, 300]] | speck | feed 0 0 200; feed 0 150 200; feed 20 \
    150 200; rapid 20 150 400 => Reject(Fixture { at: 1, fixture: 0, leaf: Leaf { d: 8, k: 0 } })
fenced keep_out = [[-150, -400, 100, -50, 300]] | speck | feed 0 0 400; feed 100 0 400; feed 100 \
    10 200; feed 100 0 200; rapid 100 0 400 => Reject(Fixture { at: 2, fixture: 0, leaf: Leaf { \
    d: 8, k: 128 } })
fenced keep_out = [[-50, -50, 50, 50, 400]] | speck | rapid 0 0 399 => Reject(Fixture { at: 0, \
    fixture: 0, leaf: Leaf { d: 0, k: 0 } })
fenced keep_out = [[-50, -50, 50, 50, 300]] | speck | feed 0 0 -100 => Reject(Floor { at: 0 })
fenced keep_out = [[-50, -50, 50, 50, 300]] | high | feed 0 0 200 => Reject(Gouge { at: 0, tri: \
    0, leaf: Leaf { d: 8, k: 192 } })
fenced keep_out = [[-50, -50, 50, 50, 300]] | high | feed 0 0 250; feed 0 0 100 => Reject(Fixture \
    { at: 0, fixture: 0, leaf: Leaf { d: 8, k: 170 } })
fenced holder_radius = 200; stickout = 50; keep_out = [[-50, -50, 50, 50, 300]] | edge | feed 0 0 \
    200 => Reject(Holder { at: 0, tri: 0, leaf: Leaf { d: 8, k: 192 } })
fenced holder_radius = 200; stickout = 50; keep_out = [[150, -50, 200, 50, 300], [-50, -50, 50, \
    50, 300]] | speck | feed 0 0 200 => Reject(Fixture { at: 0, fixture: 1, leaf: Leaf { d: 8, k: \
    128 } })
fenced holder_radius = 200; stickout = 50; keep_out = [[300, 0, 400, 50, 400], [150, -50, 200, \
    50, 300]] | speck | feed 0 0 200 => Reject(HolderFixture { at: 0, fixture: 1, leaf: Leaf { d: \
    8, k: 192 } })
fenced max_cut = 10; holder_radius = 200; stickout = 50; keep_out = [[150, -50, 200, 50, 300]] | \
    speck | feed 0 0 200 => Reject(HolderFixture { at: 0, fixture: 0, leaf: Leaf { d: 8, k: 192 } \
    })
fenced holder_radius = 200; stickout = 50; keep_out = [[150, -50, 200, 50, 300]] | speck | rapid \
    0 0 200 => Reject(HolderFixture { at: 0, fixture: 0, leaf: Leaf { d: 8, k: 192 } })
fenced keep_out = [[-50, -50, 50, 50, 300]] | speck | rapid 0 0 200 => Reject(Fixture { at: 0, \
    fixture: 0, leaf: Leaf { d: 8, k: 128 } })
fenced max_cut = 10; keep_out = [[-50, -50, 50, 50, 300]] | speck | feed 0 0 200 => \
    Reject(Fixture { at: 0, fixture: 0, leaf: Leaf { d: 8, k: 128 } })
fenced keep_out = [[-50, -50, 50, 50, 200]] | speck | rapid 0 0 200 => Reject(Rapid { at: 0, row: \
    0, col: 0, leaf: Leaf { d: 8, k: 128 } })
fenced holder_radius = 200; stickout = 50; keep_out = [[150, -50, 200, 50, 250]] | speck | feed 0 \
    0 200 => Reject(HolderStock { at: 0, row: 0, col: 0, leaf: Leaf { d: 8, k: 192 } })
fenced overcut = 50; keep_out = [[-50, -50, 50, 50, 201]] | speck | feed 0 0 200 => \
    Reject(Fixture { at: 0, fixture: 0, leaf: Leaf { d: 8, k: 254 } })
fenced graze = 50; keep_out = [[-50, -50, 50, 50, 201]] | speck | feed 0 0 200 => Reject(Fixture \
    { at: 0, fixture: 0, leaf: Leaf { d: 8, k: 254 } })
fenced overcut = 90; holder_radius = 200; stickout = 50; keep_out = [[150, -50, 200, 50, 300]] | \
    speck | feed 0 0 200 => Reject(HolderFixture { at: 0, fixture: 0, leaf: Leaf { d: 8, k: 192 } \
    })";

#[test]
fn keeps_out_of_fixtures(rt: HostRuntime) -> Result<(), Fail> {
    each_verdict(&rt, FIXTURES, 1)?;
    each_verdict(&rt, FIXTURES, 4)
}

// Past a box on a slant: straight, and as a dogleg, whose tip may come as near to the box as its
// own box is. So it is with a holder. Then out over the stock's edge and down beside it, and over a
// plate to a place beside it that is one lower: straight, the tip is high enough as long as it is
// over them.
const DOGLEGS: &str = "\
fenced keep_out = [[290, -300, 300, -99, 400]] | speck | feed 0 0 300; rapid 300 300 300; feed 300 \
    300 400 => Accept { moves: 3, columns: 4, most_left: 300 }
fenced keep_out = [[290, -300, 300, -99, 400]] | speck | feed 0 0 300; dogleg 300 300 300; feed \
    300 300 400 => Reject(Fixture { at: 1, fixture: 0, leaf: Leaf { d: 0, k: 0 } })
fenced keep_out = [[290, -300, 300, -100, 400]] | speck | feed 0 0 300; dogleg 300 300 300; feed \
    300 300 400 => Accept { moves: 3, columns: 4, most_left: 300 }
fenced holder_radius = 200; stickout = 50; keep_out = [[290, -300, 300, -199, 400]] | speck | feed \
    0 0 300; dogleg 300 300 300 => Reject(HolderFixture { at: 1, fixture: 0, leaf: Leaf { d: 0, k: \
    0 } })
fenced holder_radius = 200; stickout = 50; keep_out = [[290, -300, 300, -200, 400]] | speck | feed \
    0 0 300; dogleg 300 300 300 => Accept { moves: 2, columns: 4, most_left: 300 }
fenced | speck | rapid 1000 1000 200 => Accept { moves: 1, columns: 4, most_left: 300 }
fenced | speck | dogleg 1000 1000 200 => Reject(Rapid { at: 0, row: 0, col: 0, leaf: Leaf { d: 0, \
    k: 0 } })
fenced | speck | dogleg 1000 1000 300 => Accept { moves: 1, columns: 4, most_left: 300 }
fenced | high | rapid 1000 0 249 => Accept { moves: 1, columns: 4, most_left: 300 }
fenced | high | dogleg 1000 0 249 => Reject(Gouge { at: 0, tri: 0, leaf: Leaf { d: 0, k: 0 } })
fenced | high | dogleg 1000 0 250 => Reject(Rapid { at: 0, row: 0, col: 0, leaf: Leaf { d: 0, k: 0 \
    } })";

#[test]
fn judges_doglegs_by_their_box(rt: HostRuntime) -> Result<(), Fail> {
    each_verdict(&rt, DOGLEGS, 1)?;
    each_verdict(&rt, DOGLEGS, 4)
}
