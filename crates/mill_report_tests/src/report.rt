ghost use Rattle.std.specs.Prelude.{◌≤◌, pos, length};
ghost use Rattle.mill_base.specs.declared.limits.TheConstants.{MAX_MOVES};
ghost use Rattle.mill_base.specs.Motion.{Follow};
ghost use Rattle.mill_base.specs.Points.{point_at};
ghost use Rattle.mill_base.specs.Ranges.{MovesInRange};

use crate::samples::{block_job, down, edge, plate, up};
use mill_base::{Cutter, Kind, Move, Solid};
use mill_crew::Threaded;
use mill_job::Job;
use mill_part::SortedPart;
use mill_report::all_findings;
use mill_verify::verify;
use std::alloc::Global;
use std::test::Fail;

/// The failing moves of a program.
fn failing(alloc: Global, job: &Job, part: &SortedPart, moves: &[Move]) -> Result<String, Fail>
    requires moves_ok { MovesInRange moves.now }
    requires few { length moves.now ≤ MAX_MOVES }
{
    let found = all_findings(alloc, job, part, moves)?;
    let failing = found.failing.as_slice();
    Ok(format!(in alloc; "{failing:?}")?)
}

/// The columns that it leaves too high.
fn left(alloc: Global, job: &Job, part: &SortedPart, moves: &[Move]) -> Result<String, Fail>
    requires moves_ok { MovesInRange moves.now }
    requires few { length moves.now ≤ MAX_MOVES }
{
    let found = all_findings(alloc, job, part, moves)?;
    let shown = found.left.shown.as_slice();
    let total = found.left.total;
    Ok(format!(in alloc; "{total}: {shown:?}")?)
}

// The first move is good. The second is a rapid into the uncut block, and it cuts it: so the third,
// the same again, is good. The fourth goes into the plate, by its second triangle alone. The fifth
// ends under the floor, and the last goes into the plate, as a rapid into the uncut block: each is
// told of once, by its first test.
fn mixed() -> [Move; 6]
    ensures { MovesInRange result }
{
    [
        down(Kind::Feed, 0, 0, 250),
        down(Kind::Rapid, 100, 0, 250),
        down(Kind::Rapid, 100, 0, 250),
        down(Kind::Feed, 0, 100, 199),
        down(Kind::Feed, 200, 200, -1),
        down(Kind::Rapid, 100, 100, 199),
    ]
}

// Of 256 parts of a way of 150 part 170 is the first that comes under 100 less than its start, and
// of a way of 201 part 254 the first that comes under 200 less.
const MIXED_FAILING: &str = "[\
    Rapid { at: 1, row: 0, col: 1, leaf: Leaf { d: 8, k: 170 } }, \
    Gouge { at: 3, tri: 1, leaf: Leaf { d: 8, k: 254 } }, \
    Floor { at: 4 }, \
    Gouge { at: 5, tri: 0, leaf: Leaf { d: 8, k: 254 } }]";

#[test]
fn tells_of_each_failing_move_once(rt: HostRuntime) -> Result<(), Fail> {
    let alloc = rt.alloc();
    let told = failing(alloc, &block_job(0, None), &plate(alloc)?, &mixed())?;
    assert_eq!(rt; told.as_str(), MIXED_FAILING);
    Ok(())
}

const MIXED_LEFT: &str = "6: [\
    LeftColumn { row: 0, col: 0, top: 250 }, \
    LeftColumn { row: 0, col: 1, top: 250 }, \
    LeftColumn { row: 0, col: 2, top: 300 }, \
    LeftColumn { row: 1, col: 2, top: 300 }, \
    LeftColumn { row: 2, col: 0, top: 300 }, \
    LeftColumn { row: 2, col: 1, top: 300 }]";

#[test]
fn tells_of_the_columns_left(rt: HostRuntime) -> Result<(), Fail> {
    let alloc = rt.alloc();
    let told = left(alloc, &block_job(0, None), &plate(alloc)?, &mixed())?;
    assert_eq!(rt; told.as_str(), MIXED_LEFT);
    Ok(())
}

// Each column is cut to the plate.
fn clean() -> [Move; 9]
    ensures { MovesInRange result }
{
    [
        down(Kind::Feed, 0, 0, 200),
        down(Kind::Feed, 100, 0, 200),
        down(Kind::Feed, 200, 0, 200),
        down(Kind::Feed, 0, 100, 200),
        down(Kind::Feed, 100, 100, 200),
        down(Kind::Feed, 200, 100, 200),
        down(Kind::Feed, 0, 200, 200),
        down(Kind::Feed, 100, 200, 200),
        down(Kind::Feed, 200, 200, 200),
    ]
}

#[test]
fn finds_nothing_where_nothing_fails(rt: HostRuntime) -> Result<(), Fail> {
    let alloc = rt.alloc();
    let told = failing(alloc, &block_job(0, None), &plate(alloc)?, &clean())?;
    assert_eq!(rt; told.as_str(), "[]");
    Ok(())
}

#[test]
fn finds_no_column_where_none_is_left(rt: HostRuntime) -> Result<(), Fail> {
    let alloc = rt.alloc();
    let told = left(alloc, &block_job(0, None), &plate(alloc)?, &clean())?;
    assert_eq!(rt; told.as_str(), "0: []");
    Ok(())
}

// Down to 230 at once is more than 60, so that the point at 240 is in the way, and then down to 200
// isn't.
fn deep() -> [Move; 2]
    ensures { MovesInRange result }
{
    [
        down(Kind::Feed, 100, 100, 230),
        down(Kind::Feed, 100, 100, 200),
    ]
}

const DEEP_FAILING: &str = "[Cut { at: 0, row: 1, col: 1, leaf: Leaf { d: 8, k: 240 } }]";

#[test]
fn tells_of_a_feed_that_cuts_too_deep(rt: HostRuntime) -> Result<(), Fail> {
    let alloc = rt.alloc();
    let told = failing(alloc, &block_job(60, None), &plate(alloc)?, &deep())?;
    assert_eq!(rt; told.as_str(), DEEP_FAILING);
    Ok(())
}

// A holder that is 60 over the tip comes down to 260, and is wide enough for the column of the
// first row beside its own. The rapid fails by the cutter, in the second row, though its holder
// fails in the first. The feed, which only the holder stops, fails there.
fn held() -> [Move; 2]
    ensures { MovesInRange result }
{
    [
        down(Kind::Rapid, 100, 100, 200),
        down(Kind::Feed, 100, 100, 200),
    ]
}

const HELD_FAILING: &str = "[\
    Rapid { at: 0, row: 1, col: 1, leaf: Leaf { d: 8, k: 128 } }, \
    HolderStock { at: 1, row: 0, col: 1, leaf: Leaf { d: 8, k: 204 } }]";

#[test]
fn tells_of_the_cutter_before_the_holder(rt: HostRuntime) -> Result<(), Fail> {
    let alloc = rt.alloc();
    let holder = Solid::new(Cutter::Flat { radius: 120 }, 60);
    let told = failing(alloc, &block_job(0, Some(holder)), &plate(alloc)?, &held())?;
    assert_eq!(rt; told.as_str(), HELD_FAILING);
    Ok(())
}

// The cutter stays 10 away from the edge. Its holder, 40 over the tip, comes over the edge, once to
// 190 and then to 200.
fn beside() -> [Move; 2]
    ensures { MovesInRange result }
{
    [
        down(Kind::Feed, 100, 100, 150),
        down(Kind::Feed, 100, 100, 160),
    ]
}

const BESIDE_FAILING: &str = "[Holder { at: 0, tri: 0, leaf: Leaf { d: 8, k: 245 } }]";

#[test]
fn tells_of_a_holder_in_the_part(rt: HostRuntime) -> Result<(), Fail> {
    let alloc = rt.alloc();
    let holder = Solid::new(Cutter::Flat { radius: 80 }, 40);
    let told = failing(alloc, &block_job(0, Some(holder)), &edge(alloc)?, &beside())?;
    assert_eq!(rt; told.as_str(), BESIDE_FAILING);
    Ok(())
}

// A program that can be verified: a rapid into the block and up again, and a feed into the plate
// and up again.
fn twice() -> [Move; 4]
    ensures range { MovesInRange result }
    ensures follow { Follow (point_at (pos 100) (pos 100) (pos 400)) result }
{
    [
        down(Kind::Rapid, 100, 100, 250),
        up(100, 100, 250),
        down(Kind::Feed, 100, 100, 199),
        up(100, 100, 199),
    ]
}

const TWICE_FAILING: &str = "[\
    Rapid { at: 0, row: 1, col: 1, leaf: Leaf { d: 8, k: 170 } }, \
    Gouge { at: 2, tri: 0, leaf: Leaf { d: 8, k: 254 } }, \
    Gouge { at: 3, tri: 0, leaf: Leaf { d: 8, k: 0 } }]";

#[test]
fn goes_on_behind_the_first(rt: HostRuntime) -> Result<(), Fail> {
    let alloc = rt.alloc();
    let told = failing(alloc, &block_job(0, None), &plate(alloc)?, &twice())?;
    assert_eq!(rt; told.as_str(), TWICE_FAILING);
    Ok(())
}

const TWICE_VERDICT: &str =
    "Ok(Reject(Rapid { at: 0, row: 1, col: 1, leaf: Leaf { d: 8, k: 170 } }))";

#[test]
fn begins_with_the_verdict(rt: HostRuntime) -> Result<(), Fail> {
    let alloc = rt.alloc();
    let job = block_job(0, None);
    let part = plate(alloc)?;
    let crew = Threaded {
        rt: &rt,
        workers: 2,
    };
    let verdict = verify(&crew, alloc, &job, &part, &twice());
    let told = format!(in alloc; "{verdict:?}")?;
    assert_eq!(rt; told.as_str(), TWICE_VERDICT);
    Ok(())
}
