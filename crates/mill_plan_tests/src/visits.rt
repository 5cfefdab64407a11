//! The visits of paths.

use crate::parts::corners_of;
use crate::tables::{job, same};
use mill_crew::Threaded;
use mill_job::Job;
use mill_part::SortedPart;
use mill_paths::{PathFault, Visit, finish_visits, level_visits, rough_visits};
use mill_tables::{first_word, halves, part_of};
use std::alloc::Global;
use std::process::Abort;
use std::test::Fail;
use std::thread::Threads;

/// The visits of a path by its word.
fn visits_of<R: Threads + Sync>(
    rt: &R,
    alloc: Global,
    path: &str,
    job: &Job,
    part: &SortedPart,
) -> Result<Vec<Visit>, PathFault> {
    let crew = Threaded { rt, workers: 1 };
    match path {
        "rough" => rough_visits(&crew, alloc, job, part),
        "level" => level_visits(&crew, alloc, job, part),
        _ => finish_visits(&crew, alloc, job, part),
    }
}

/// A visit by its number, with a comma before it.
fn told_visit(alloc: Global, visits: &[Visit], number: usize) -> Result<String, Fail> {
    let Visit { at, step } = visits.get(number).ok_or("too few visits")?;
    let (x, y, z) = (at.x, at.y, at.z);
    Ok(format!(in alloc; ", {number}: {x} {y} {z} by {step}")?)
}

fn number_of(word: &str) -> Result<usize, Fail> {
    let (number, _) = word.split_once(':').ok_or("a visit without a number")?;
    Ok(number.parse()?)
}

/// How many visits there are, and those of them whose numbers are wanted.
fn told_visits(alloc: Global, visits: &[Visit], wanted: &str) -> Result<String, Fail> {
    let mut told = format!(in alloc; "{} visits", visits.len())?;
    let Some((_, words)) = wanted.split_once(", ") else {
        return Ok(told);
    };
    for word in words.split(", ") {
        told.push_str(&told_visit(alloc, visits, number_of(word)?)?)?;
    }
    Ok(told)
}

/// What the visits of a row come to.
fn told<R: Threads + Sync>(rt: &R, alloc: Global, row: &str, wanted: &str) -> Result<String, Fail> {
    let (path, given) = first_word(row)?;
    let (keys, part) = given.split_once(" | ").ok_or("a row without a part")?;
    let (job, part) = (job(alloc, keys)?, part_of(alloc, corners_of(part)?)?);
    match visits_of(rt, alloc, path, &job, &part) {
        Ok(visits) => told_visits(alloc, &visits, wanted),
        Err(fault) => Ok(format!(in alloc; "{fault:?}")?),
    }
}

fn look<R: Threads + Sync + AllocGlobal + Abort>(rt: &R, row: &str) -> Result<(), Fail> {
    let (given, wanted) = halves(row)?;
    let told = told(rt, rt.alloc(), given, wanted)?;
    same(rt, &told, wanted, row);
    Ok(())
}

// A row has a path, a job and a part; then how many visits there are, and some of them, or all, by their numbers:
// each by its place and its step.
//
// A lift of 100 comes up to the top of the block. In the wide block the cutter stands on the point at one node,
// and beside it at its neighbours; by a tolerance the row over the point descends in x, and has 21 places, the
// others two each. A step is at least the raster, also after places under which the lift comes up to the top.
// Without a layer the roughing lattice doesn't count; of layers as thick as the block none ends over the floor,
// but the lattice counts.
const PATHS: &str = "\
rough shallow layer = 50 | plate => 18 visits, 0: 0 0 250 by 100, 1: 100 0 250 by 100, \
    2: 200 0 250 by 100, 3: 200 100 250 by 100, 4: 100 100 250 by 100, 5: 0 100 250 by 100, \
    6: 0 200 250 by 100, 7: 100 200 250 by 100, 8: 200 200 250 by 100, 9: 0 0 200 by 100, \
    10: 100 0 200 by 100, 11: 200 0 200 by 100, 12: 200 100 200 by 100, 13: 100 100 200 by 100, \
    14: 0 100 200 by 100, 15: 0 200 200 by 100, 16: 100 200 200 by 100, 17: 200 200 200 by 100
rough shallow lift = 100 | plate => 0 visits
finish shallow layer = 50 | plate => 9 visits, 0: 0 0 200 by 100, 1: 100 0 200 by 100, \
    2: 200 0 200 by 100, 3: 200 100 200 by 100, 4: 100 100 200 by 100, 5: 0 100 200 by 100, \
    6: 0 200 200 by 100, 7: 100 200 200 by 100, 8: 200 200 200 by 100
finish shallow lift = 99 | plate => 9 visits, 0: 0 0 299 by 100, 1: 100 0 299 by 100, \
    2: 200 0 299 by 100, 3: 200 100 299 by 100, 4: 100 100 299 by 100, 5: 0 100 299 by 100, \
    6: 0 200 299 by 100, 7: 100 200 299 by 100, 8: 200 200 299 by 100
finish shallow lift = 100 | plate => 0 visits
finish sample | sample => 9 visits, 0: 0 0 102 by 50, 1: 50 0 106 by 50, 2: 100 0 109 by 50, \
    3: 100 50 118 by 50, 4: 50 50 115 by 50, 5: 0 50 109 by 50, 6: 0 100 114 by 50, \
    7: 50 100 120 by 50, 8: 100 100 125 by 50
finish wide | peak => 121 visits, 10: 1000 0 0 by 100, 11: 1000 100 0 by 100, \
    59: 600 500 0 by 100, 60: 500 500 300 by 100, 61: 400 500 0 by 100, 120: 1000 1000 0 by 100
finish wide path_tol = 0 | peak => 41 visits, 9: 1000 400 0 by 1000, 10: 1000 500 0 by 100, \
    11: 750 500 0 by 250, 16: 599 500 300 by 100, 30: 0 500 0 by 250
finish wide lift = 100; path_tol = 0 | peak => 32 visits, 15: 600 500 100 by 100, \
    16: 400 500 100 by 100
rough fine raster = 2 | plate => 0 visits
finish fine raster = 2 | plate => TooManyNodes { nodes: 4004001 }
rough fine raster = 4; rough_raster = 2; layer = 300 | plate => TooManyNodes { nodes: 4004001 }
finish fine raster = 4; rough_raster = 2; layer = 300 | plate => TooManyVisits";

#[test]
fn roughs_and_finishes(rt: HostRuntime) -> Result<(), Fail> {
    for row in PATHS.lines() {
        look(&rt, row)?;
    }
    Ok(())
}

// The cutter touches the point from its four neighbour nodes, and gouges it from the node there: the way round is
// closed, on the higher level first. At a corner the way is open. There is none without levels, on a fine lattice
// too; over the point; where all nodes are blocked; and round nothing. A fine lattice counts where there is a
// level.
const LEVELS: &str = "\
level level radius = 100; levels = [100, 0] | peak => 10 visits, 0: 400 500 100 by 100, \
    1: 500 400 100 by 100, 2: 600 500 100 by 100, 3: 500 600 100 by 100, 4: 400 500 100 by 100, \
    5: 400 500 0 by 100, 6: 500 400 0 by 100, 7: 600 500 0 by 100, 8: 500 600 0 by 100, \
    9: 400 500 0 by 100
level level radius = 100; levels = [0] | corner-peak => 2 visits, 0: 100 0 0 by 100, \
    1: 0 100 0 by 100
level level radius = 100 | middle-peak => 0 visits
level level radius = 100; raster = 1 | middle-peak => 0 visits
level level radius = 100; levels = [300] | middle-peak => 0 visits
level level radius = 1500; levels = [0] | middle-peak => 0 visits
level level radius = 1500; levels = [0] | nothing => 0 visits
level level radius = 100; raster = 1; levels = [0] | middle-peak => \
    TooManyNodes { nodes: 4004001 }";

#[test]
fn goes_round(rt: HostRuntime) -> Result<(), Fail> {
    for row in LEVELS.lines() {
        look(&rt, row)?;
    }
    Ok(())
}
