//! The moves between visits, and the way home.
ghost use Rattle.std.specs.Prelude.{All, IfOk};
ghost use Rattle.mill_base.specs.Ranges.{IsInRange};
ghost use Rattle.mill_dexel.specs.Rows.{IsRowOf};
ghost use Rattle.mill_job.specs.Jobs.{IsJob};

use crate::parts::corners_of;
use crate::tables::{job, same};
use mill_base::{Kind, Move, Pt3, WantOfMemory};
use mill_dexel::{Row, uncut_rows};
use mill_job::Job;
use mill_links::{Visit, home, link};
use mill_part::SortedPart;
use mill_tables::{add_with_comma, halves, part_of, point};
use std::alloc::Global;
use std::process::Abort;
use std::test::Fail;

/// A visit by its place and its step.
fn visit(word: &str) -> Result<Visit, Fail>
    ensures { IfOk result (λ visit. IsInRange visit.at) }
{
    let (place, step) = word.split_once(" by ").ok_or("a visit without a step")?;
    let at = point(place)?;
    Ok(Visit {
        at,
        step: step.parse()?,
    })
}

/// Adds the moves to a visit, or home, and says where the cutter is then.
fn leg(
    alloc: Global,
    job: &Job,
    part: &SortedPart,
    rows: &mut [Row],
    from: Pt3,
    word: &str,
    moves: &mut Vec<Move>,
) -> Result<Pt3, Fail>
    requires rows_ok { All (IsRowOf job.now.fields) rows.old }
    requires from_ok { IsInRange from }
    ensures rows_ok { All (IsRowOf job.now.fields) rows.new }
    ensures at_ok { IfOk result IsInRange }
{
    if word == "home" {
        home(job, from, moves)?;
        return Ok(job.home());
    }
    let to = visit(word)?;
    link(job, part, rows, from, to, moves)?;
    Ok(to.at)
}

/// The moves from a place to visits, one after the other.
fn legs(
    alloc: Global,
    job: &Job,
    part: &SortedPart,
    rows: &mut [Row],
    from: Pt3,
    words: &str,
) -> Result<Vec<Move>, Fail>
    requires rows_ok { All (IsRowOf job.now.fields) rows.old }
    requires from_ok { IsInRange from }
{
    let mut moves = Vec::new(alloc);
    let mut at = from;
    for word in words.split("; ") {
        at = leg(alloc, job, part, rows, at, word, &mut moves)?;
    }
    Ok(moves)
}

fn told_move(alloc: Global, step: &Move) -> Result<String, Fail> {
    let kind = match step.kind {
        Kind::Rapid => "rapid",
        Kind::Feed => "feed",
        Kind::Dogleg => "dogleg",
    };
    let Move { kind: _, from, to } = step;
    Ok(format!(in alloc;
        "{kind} {} {} {} to {} {} {}",
        from.x, from.y, from.z, to.x, to.y, to.z
    )?)
}

fn told_moves(alloc: Global, moves: &[Move]) -> Result<String, Fail> {
    let mut told = String::new(alloc);
    for step in moves {
        add_with_comma(&mut told, &told_move(alloc, step)?)?;
    }
    Ok(told)
}

/// The moves from a place on, and the tops of the middle row of the stock after them.
fn told_way(alloc: Global, job: &Job, part: &SortedPart, way: &str) -> Result<String, Fail> {
    let (from, words) = way.split_once(": ").ok_or("a way without a start")?;
    let from = point(from)?;
    let mut rows = uncut_rows(alloc, job)?;
    let moves = legs(alloc, job, part, &mut rows, from, words)?;
    let told = told_moves(alloc, &moves)?;
    let middle = rows.get(3).ok_or("too few rows")?;
    Ok(format!(in alloc; "{told}, tops {:?}", middle.tops())?)
}

fn told(alloc: Global, job: &Job, way: &str) -> Result<String, Fail> {
    let part = part_of(alloc, corners_of("corner-peak")?)?;
    told_way(alloc, job, &part, way)
}

fn look<R: Abort + AllocGlobal>(rt: &R, row: &str) -> Result<(), Fail> {
    let (given, wanted) = halves(row)?;
    let (keys, way) = given.split_once(" | ").ok_or("a row without a way")?;
    let told = told(rt.alloc(), &job(rt.alloc(), keys)?, way)?;
    same(rt, &told, wanted, row);
    Ok(())
}

// A row has a job, a place and the visits to which the cutter goes from there, each by its place and its step; then
// the moves, and the tops of the row of the stock at y = 0. A post of no width stands at the origin, 300 high.
//
// The first visit is near the start and is fed to straight; at the second time the cutter is there. The post stands
// between the ends of the second way; those of the third are three steps apart, with nothing between them.
//
// With a holder: the feed ends 200 beside the post, where the holder's face is the stickout over 200.
//
// With a depth of cut the cutter goes down by pecks. Straight to the first visit of the last but one, which is near,
// it would cut 200 deep, and so it goes round; the stock is lowered there then, and to the second visit, 50 under the
// first, it may feed straight. From home the way home is nowhere.
//
// Where the axes run apart, the way across is a dogleg along x and y, and a rapid along x alone.
const WAYS: &str = "\
post | -300 0 500: -200 0 200 by 100; -200 0 200 by 100 => \
    feed -300 0 500 to -200 0 200, tops [400, 400, 400, 400, 400, 400, 400]
post | -200 0 200: 200 0 200 by 200 => \
    rapid -200 0 200 to -200 0 500, rapid -200 0 500 to 200 0 500, rapid 200 0 500 to 200 0 400, \
    feed 200 0 400 to 200 0 200, tops [400, 400, 400, 400, 400, 400, 400]
post | -200 -300 200: 200 -300 200 by 100 => \
    rapid -200 -300 200 to -200 -300 500, rapid -200 -300 500 to 200 -300 500, \
    rapid 200 -300 500 to 200 -300 400, feed 200 -300 400 to 200 -300 200, \
    tops [400, 400, 400, 400, 400, 400, 400]
post holder_radius = 250; stickout = 100 | -300 0 500: -200 0 200 by 100 => \
    feed -300 0 500 to -200 0 200, tops [400, 400, 400, 400, 400, 400, 400]
post holder_radius = 250; stickout = 99 | -300 0 500: -200 0 200 by 100 => \
    rapid -300 0 500 to -200 0 500, rapid -200 0 500 to -200 0 400, feed -200 0 400 to -200 0 200, \
    tops [400, 400, 400, 400, 400, 400, 400]
post holder_radius = 198; stickout = 50 | -300 0 500: -200 0 200 by 100 => \
    feed -300 0 500 to -200 0 200, tops [400, 400, 400, 400, 400, 400, 400]
post max_cut = 50 | -300 0 500: 200 0 200 by 100 => \
    rapid -300 0 500 to 200 0 500, rapid 200 0 500 to 200 0 400, feed 200 0 400 to 200 0 350, \
    feed 200 0 350 to 200 0 300, feed 200 0 300 to 200 0 250, feed 200 0 250 to 200 0 200, \
    tops [400, 400, 400, 400, 400, 200, 400]
post max_cut = 150 | -300 0 500: 200 0 200 by 100 => \
    rapid -300 0 500 to 200 0 500, rapid 200 0 500 to 200 0 400, feed 200 0 400 to 200 0 250, \
    feed 200 0 250 to 200 0 200, tops [400, 400, 400, 400, 400, 200, 400]
post max_cut = 50 | -300 0 500: -200 0 200 by 100; -200 0 150 by 100 => \
    rapid -300 0 500 to -200 0 500, rapid -200 0 500 to -200 0 400, feed -200 0 400 to -200 0 350, \
    feed -200 0 350 to -200 0 300, feed -200 0 300 to -200 0 250, feed -200 0 250 to -200 0 200, \
    feed -200 0 200 to -200 0 150, tops [400, 150, 400, 400, 400, 400, 400]
post | 200 100 200: home; home => \
    rapid 200 100 200 to 200 100 500, rapid 200 100 500 to -300 0 500, \
    tops [400, 400, 400, 400, 400, 400, 400]
post rapids = 'axes' | 200 100 200: home; home => \
    rapid 200 100 200 to 200 100 500, dogleg 200 100 500 to -300 0 500, \
    tops [400, 400, 400, 400, 400, 400, 400]
post rapids = 'axes' | -200 0 200: 200 0 200 by 200 => \
    rapid -200 0 200 to -200 0 500, rapid -200 0 500 to 200 0 500, rapid 200 0 500 to 200 0 400, \
    feed 200 0 400 to 200 0 200, tops [400, 400, 400, 400, 400, 400, 400]";

#[test]
fn goes_from_visit_to_visit_and_home(rt: HostRuntime) -> Result<(), Fail> {
    for row in WAYS.lines() {
        look(&rt, row)?;
    }
    Ok(())
}
