//! Plans, with threads and without.
ghost use Rattle.mill_base.specs.Covers.{IsUnder};

use crate::parts::corners_of;
use crate::tables::{job, same};
use mill_base::Move;
use mill_crew::{Alone, Threaded};
use mill_job::Job;
use mill_ngc::{NgcFault, Reader, Rules};
use mill_part::SortedPart;
use mill_plan::{PlanFault, Planned, plan};
use mill_tables::{halves, part_under};
use std::alloc::Global;
use std::process::Abort;
use std::test::Fail;
use std::thread::Threads;

/// What a plan is: the numbers of its moves and of the job's columns, the most that it leaves, and
/// its program; or why there is none.
fn told_plan(alloc: Global, planned: Result<Planned, PlanFault>) -> Result<String, Fail> {
    match planned {
        Ok(planned) => told_planned(alloc, &planned),
        Err(fault) => Ok(format!(in alloc; "{fault:?}")?),
    }
}

fn told_planned(alloc: Global, planned: &Planned) -> Result<String, Fail> {
    let text = str::from_utf8(&planned.program)?.replace(alloc, "\n", "\\n")?;
    let (moves, columns, left) = (planned.moves, planned.columns, planned.most_left);
    Ok(format!(in alloc; "{moves} moves, {columns} columns, {left} left: {text}")?)
}

/// The plan of two workers, and that of the calling thread alone.
fn plans<R: Threads + Sync>(
    rt: &R,
    alloc: Global,
    job: &Job,
    part: &SortedPart,
) -> (Result<Planned, PlanFault>, Result<Planned, PlanFault>)
    requires under { IsUnder part.now job.now.fields.top }
{
    let crew = Threaded { rt, workers: 2 };
    (
        plan(&crew, alloc, job, part),
        plan(&Alone, alloc, job, part),
    )
}

/// The plans of a row's job and part.
fn plans_of<R: Threads + Sync>(
    rt: &R,
    alloc: Global,
    given: &str,
) -> Result<(Result<Planned, PlanFault>, Result<Planned, PlanFault>), Fail> {
    let (keys, name) = given.split_once(" | ").ok_or("a row without a part")?;
    let job = job(alloc, keys)?;
    let part = part_under(alloc, job.fields.top, corners_of(name)?)?;
    Ok(plans(rt, alloc, &job, &part))
}

fn look<R: Threads + Sync + AllocGlobal + Abort>(rt: &R, row: &str) -> Result<(), Fail> {
    let (given, wanted) = halves(row)?;
    let (shared, alone) = plans_of(rt, rt.alloc(), given)?;
    let (shared, alone) = (
        told_plan(rt.alloc(), shared)?,
        told_plan(rt.alloc(), alone)?,
    );
    same(rt, &shared, wanted, row);
    same(rt, &alone, &shared, row);
    Ok(())
}

// A row has a job and a part, and what is planned for them: in a program `\n` is a line's end, and ` .. ` stands in
// the place of what isn't told of it.
//
// The square: straight down from home, fifteen feeds from node to node, and two rapids home; each roughing layer has
// as many feeds, and the way round from the end of one path to the start of the next four moves.
//
// The shallow block: nine feeds and two rapids home. With a depth of cut the cutter goes down by pecks, and goes round
// to the first node and to the three others at which it reaches columns that aren't cut yet. Layers as deep as that
// need no way round, and layers twice as deep need the four on each of them. With a tolerance the cutter comes to both
// ends of each of the three rows alone. Where the axes run apart on a rapid the text is the same.
//
// With a holder: at the first node its face is the stickout over the plate, and the stock 100 over it. Where the
// cutter goes down by pecks of 50, and round to each column that it hasn't cut yet, 50 is enough.
//
// Far out: straight down from home, along the four nodes, and two rapids home.
//
// The wide block: at the level of the floor four places lie round the point, and no straight feed leads from one to
// the next: two moves to the first, three to each other and to the first again, and three on to the finishing path,
// whose own first move is one down from home where there is no level.
//
// Stock that stays: the finishing path runs 10 over the plate where nothing may be left; or the cutter doesn't get
// into the gap between two triangles, in which the second column stands. Of two lattices that are too large the
// finishing one is named.
const PLANS: &str =
    r"square | plate => 18 moves, 16 columns, 0 left: %\nG17 G21 G90\nG1 X0.00 Y0.00 Z2.00\nG1 X1.00 Y0.00 Z2.00\n .. \nG1 X0.00 Y3.00 Z2.00\nG0 X0.00 Y3.00 Z4.00\nG0 X0.00 Y0.00 Z4.00\nM2\n%\n
square layer = 50 | plate => 56 moves, 16 columns, 0 left: %\nG17 G21 G90\nG1 X0.00 Y0.00 Z2.50\nG1 X1.00 Y0.00 Z2.50\n .. \nG1 X0.00 Y3.00 Z2.00\nG0 X0.00 Y3.00 Z4.00\nG0 X0.00 Y0.00 Z4.00\nM2\n%\n
shallow | plate => 11 moves, 9 columns, 0 left: %\nG17 G21 G90\nG1 X0.00 Y0.00 Z2.00\nG1 X1.00 Y0.00 Z2.00\n .. M2\n%\n
shallow max_cut = 50 | plate => 26 moves, 9 columns, 0 left: %\nG17 G21 G90\nG0 X0.00 Y0.00 Z4.00\nG0 X0.00 Y0.00 Z3.00\nG1 X0.00 Y0.00 Z2.50\nG1 X0.00 Y0.00 Z2.00\n .. M2\n%\n
shallow layer = 50; max_cut = 50 | plate => 29 moves, 9 columns, 0 left: %\nG17 G21 G90\nG1 X0.00 Y0.00 Z2.50\nG1 X1.00 Y0.00 Z2.50\n .. M2\n%\n
shallow layer = 50; max_cut = 25 | plate => 68 moves, 9 columns, 0 left: %\nG17 G21 G90\nG0 X0.00 Y0.00 Z4.00\nG0 X0.00 Y0.00 Z3.00\nG1 X0.00 Y0.00 Z2.75\nG1 X0.00 Y0.00 Z2.50\n .. M2\n%\n
shallow layer = 50 | plate => 29 moves, 9 columns, 0 left: %\n .. M2\n%\n
shallow path_tol = 0 | plate => 8 moves, 9 columns, 0 left: %\nG17 G21 G90\nG1 X0.00 Y0.00 Z2.00\nG1 X2.00 Y0.00 Z2.00\nG1 X2.00 Y1.00 Z2.00\nG1 X0.00 Y1.00 Z2.00\nG1 X0.00 Y2.00 Z2.00\nG1 X2.00 Y2.00 Z2.00\nG0 X2.00 Y2.00 Z4.00\nG0 X1.00 Y1.00 Z4.00\nM2\n%\n
shallow path_tol = 0; rapids = 'axes' | plate => 8 moves, 9 columns, 0 left: %\nG17 G21 G90\nG1 X0.00 Y0.00 Z2.00\nG1 X2.00 Y0.00 Z2.00\nG1 X2.00 Y1.00 Z2.00\nG1 X0.00 Y1.00 Z2.00\nG1 X0.00 Y2.00 Z2.00\nG1 X2.00 Y2.00 Z2.00\nG0 X2.00 Y2.00 Z4.00\nG0 X1.00 Y1.00 Z4.00\nM2\n%\n
shallow holder_radius = 190; stickout = 50 | plate => Held { at: 0, row: 0, col: 0 }
shallow holder_radius = 190; stickout = 99 | plate => Held { at: 0, row: 0, col: 0 }
shallow max_cut = 50; holder_radius = 190; stickout = 49 | plate => Held { at: 2, row: 0, col: 0 }
shallow holder_radius = 190; stickout = 100 | plate => 11 moves, 9 columns, 0 left: %\nG17 G21 G90\n .. M2\n%\n
shallow max_cut = 50; holder_radius = 190; stickout = 50 | plate => 26 moves, 9 columns, 0 left: %\nG17 G21 G90\n .. M2\n%\n
far | far-plate => 6 moves, 4 columns, 0 left: %\nG17 G21 G90\nG1 X200.000 Y0.000 Z0.201\nG1 X200.005 Y0.000 Z0.201\nG1 X200.005 Y0.005 Z0.201\nG1 X200.000 Y0.005 Z0.201\nG0 X200.000 Y0.005 Z0.405\nG0 X200.000 Y0.000 Z0.405\nM2\n%\n
wide levels = [0] | peak => 151 moves, 121 columns, 0 left: %\nG17 G21 G90\nG0 X4.00 Y5.00 Z4.00\nG1 X4.00 Y5.00 Z0.00\n .. M2\n%\n
wide | peak => 135 moves, 121 columns, 0 left: %\nG17 G21 G90\nG1 X0.00 Y0.00 Z0.00\nG1 X1.00 Y0.00 Z0.00\n .. M2\n%\n
square lift = 10 | plate => Uncut { row: 0, col: 0, top: 210 }
square | parted => Uncut { row: 0, col: 1, top: 200 }
fine raster = 1; rough_raster = 2; layer = 100 | plate => TooManyNodes { nodes: 16008001 }
fine raster = 2; rough_raster = 1; layer = 100 | plate => TooManyNodes { nodes: 4004001 }
fine raster = 100; rough_raster = 2; layer = 100 | plate => TooManyNodes { nodes: 4004001 }";

#[test]
fn plans_alike_with_threads_and_alone(rt: HostRuntime) -> Result<(), Fail> {
    for row in PLANS.lines() {
        look(&rt, row)?;
    }
    Ok(())
}

// The strip with a fixture: beside it, where the cutter doesn't come to it, and from anywhere, so
// that two lines lead home first; over its corner, where the cutter goes round four places at
// each level, and leaves the nodes that are too near; the same with a point of the part, which no
// overcut brings nearer; and in its middle, where the stock beside it is to be cut, too.
const FIXTURES: &str =
    "strip allowance = 300; start = 'anywhere'; keep_out = [[260, 0, 300, 100, 330]] | nothing => \
    19 moves, 15 columns, 0 left: %\\nG17 G21 G90\\nG0 Z4.00\\nG0 X0.00 Y0.00\\n\
    G1 X0.00 Y0.00 Z0.00\\nG1 X0.50 Y0.00 Z0.00\\n .. \\nG1 X2.00 Y1.00 Z0.00\\n\
    G0 X2.00 Y1.00 Z4.00\\nG0 X0.00 Y0.00 Z4.00\\nM2\\n%\\n
strip allowance = 300; levels = [250, 120]; keep_out = [[170, -20, 230, 60, 330]] | nothing => \
    50 moves, 15 columns, 300 left: %\\nG17 G21 G90\\nG0 X2.00 Y1.00 Z4.00\\n\
    G0 X2.00 Y1.00 Z3.00\\nG1 X2.00 Y1.00 Z2.50\\nG0 X2.00 Y1.00 Z4.00\\n\
    G0 X1.50 Y0.95 Z4.00\\n .. \\nG0 X2.00 Y1.00 Z3.00\\nG1 X2.00 Y1.00 Z0.00\\n\
    G0 X2.00 Y1.00 Z4.00\\nG0 X0.00 Y0.00 Z4.00\\nM2\\n%\\n
strip allowance = 300; overcut = 20; keep_out = [[170, -20, 230, 60, 330]] | strip-peak => \
    25 moves, 15 columns, 300 left: %\\nG17 G21 G90\\nG1 X0.00 Y0.00 Z0.00\\n\
    G1 X0.50 Y0.00 Z0.00\\nG1 X1.00 Y0.00 Z0.00\\nG0 X1.00 Y0.00 Z4.00\\n\
    G0 X1.00 Y0.50 Z4.00\\n .. \\nG0 X2.00 Y1.00 Z4.00\\nG0 X0.00 Y0.00 Z4.00\\nM2\\n%\\n
strip allowance = 0; keep_out = [[90, 40, 110, 60, 300]] | nothing => \
    Uncut { row: 1, col: 2, top: 300 }";

#[test]
fn keeps_off_fixtures(rt: HostRuntime) -> Result<(), Fail> {
    for row in FIXTURES.lines() {
        look(&rt, row)?;
    }
    Ok(())
}

/// The moves that a program's text reads as, from home.
fn read_back(alloc: Global, job: &Job, text: &[u8]) -> Result<Vec<Move>, NgcFault> {
    let mut moves = Vec::new(alloc);
    let mut reader = Reader::new(job.home(), job.fields.unit, Rules::NONE);
    reader.feed(text, &mut moves)?;
    reader.finish(&mut moves)?;
    Ok(moves)
}

const THOUSANDTHS: &[u8] =
    b"%\nG17 G21 G90\nG1 X200.000 Y0.000 Z0.201\nG1 X200.005 Y0.000 Z0.201\nG1 X200.005 Y0.005 Z0.201\nG1 X200.000 Y0.005 Z0.201\nG0 X200.000 Y0.005 Z0.405\nG0 X200.000 Y0.000 Z0.405\nM2\n%\n";

/// The first and the last of six moves: straight down from home, and home.
const ENDS: &str = "6: \
    Move { kind: Feed, from: Pt3 { x: 200000, y: 0, z: 405 }, to: Pt3 { x: 200000, y: 0, z: 201 } }, \
    Move { kind: Rapid, from: Pt3 { x: 200000, y: 5, z: 405 }, to: Pt3 { x: 200000, y: 0, z: 405 } }";

#[test]
fn reads_thousandths_back(rt: HostRuntime) -> Result<(), Fail> {
    look_at_ends(&rt)
}

fn look_at_ends<R: Abort + AllocGlobal>(rt: &R) -> Result<(), Fail> {
    let moves = read_back(rt.alloc(), &job(rt.alloc(), "far")?, THOUSANDTHS)?;
    let (Some(first), Some(last)) = (moves.first(), moves.last()) else {
        return Err(Fail::from("no moves"));
    };
    let told = format!(in rt.alloc(); "{}: {first:?}, {last:?}", moves.len())?;
    same(rt, &told, ENDS, "far");
    Ok(())
}
