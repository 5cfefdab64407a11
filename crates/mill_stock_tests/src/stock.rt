//! Cuts of all rows of a stock, the limit on the depth of cut, and surfaces.
ghost use Rattle.std.specs.Prelude.{All};
ghost use Rattle.mill_dexel.specs.Rows.{IsRowOf};

use crate::tables::{job, same};
use mill_base::{Kind, Tri};
use mill_dexel::{Row, cut_rows, keeps_depth, uncut_rows};
use mill_job::Job;
use mill_surface::surface;
use mill_tables::{add, first_word, halves, step};
use std::alloc::Global;
use std::process::Abort;
use std::test::Fail;

/// A triangle by its corners.
fn told_tri(alloc: Global, tri: &Tri) -> Result<String, Fail> {
    let Tri { a, b, c } = tri;
    Ok(format!(in alloc;
        "{} {} {}, {} {} {}, {} {} {}",
        a.x, a.y, a.z, b.x, b.y, b.z, c.x, c.y, c.z
    )?)
}

/// Triangles by their corners, or `none`.
fn told_tris(alloc: Global, tris: &[Tri]) -> Result<String, Fail> {
    let mut told = String::new(alloc);
    for tri in tris {
        add(&mut told, &told_tri(alloc, tri)?)?;
    }
    if told.is_empty() {
        told.push_str("none")?;
    }
    Ok(told)
}

/// Up to eight triangles, or the number of more.
fn told(alloc: Global, tris: &[Tri]) -> Result<String, Fail> {
    if tris.len() > 8 {
        return Ok(format!(in alloc; "{} triangles", tris.len())?);
    }
    told_tris(alloc, tris)
}

/// The surface of a stock of which all rows are there.
fn told_surface(alloc: Global, job: &Job, rows: &[Row]) -> Result<String, Fail>
    requires rows_ok { All (IsRowOf job.now.fields) rows.now }
{
    if rows.len() != job.rows() as usize {
        return Err(Fail::from("a stock that isn't whole"));
    }
    match surface(alloc, job, rows) {
        Ok(tris) => told(alloc, &tris),
        Err(fault) => Ok(format!(in alloc; "{fault:?}")?),
    }
}

fn told_tops(alloc: Global, row: &Row) -> Result<String, Fail> {
    Ok(format!(in alloc; "{:?}", row.tops())?)
}

fn told_rows(alloc: Global, rows: &[Row]) -> Result<String, Fail> {
    let mut told = String::new(alloc);
    for row in rows {
        add(&mut told, &told_tops(alloc, row)?)?;
    }
    Ok(told)
}

/// Does a cut in all rows, or looks whether a feed keeps the limit on the depth of cut.
fn moved(job: &Job, rows: &mut [Row], word: &str, ends: &str) -> Result<&'static str, Fail>
    requires rows_ok { All (IsRowOf job.now.fields) rows.old }
    ensures { All (IsRowOf job.now.fields) rows.new }
{
    let along = step(Kind::Feed, ends)?;
    if word == "cut" {
        cut_rows(job, rows, &along);
        return Ok("cut");
    }
    Ok(if keeps_depth(job, rows, &along) {
        "kept"
    } else {
        "too deep"
    })
}

/// Does one act on all rows: tells their tops or their surface, or a cut or a look.
fn act(alloc: Global, job: &Job, rows: &mut [Row], text: &str) -> Result<String, Fail>
    requires rows_ok { All (IsRowOf job.now.fields) rows.old }
    ensures { All (IsRowOf job.now.fields) rows.new }
{
    match text {
        "tops" => return told_rows(alloc, rows),
        "surface" => return told_surface(alloc, job, rows),
        _ => {}
    }
    let (word, ends) = first_word(text)?;
    Ok(String::from_str(alloc, moved(job, rows, word, ends)?)?)
}

/// Does several acts on all rows.
fn told_acts(alloc: Global, job: &Job, rows: &mut [Row], acts: &str) -> Result<String, Fail>
    requires rows_ok { All (IsRowOf job.now.fields) rows.old }
{
    let mut told = String::new(alloc);
    for text in acts.split("; ") {
        add(&mut told, &act(alloc, job, rows, text)?)?;
    }
    Ok(told)
}

/// Does several acts on all rows of an uncut stock.
fn told_of(alloc: Global, job: &Job, acts: &str) -> Result<String, Fail> {
    let mut rows = uncut_rows(alloc, job)?;
    told_acts(alloc, job, &mut rows, acts)
}

fn look<R: Abort + AllocGlobal>(rt: &R, row: &str) -> Result<(), Fail> {
    let (given, wanted) = halves(row)?;
    let (keys, acts) = given.split_once(" | ").ok_or("a row without acts")?;
    let told = told_of(rt.alloc(), &job(rt.alloc(), keys)?, acts)?;
    same(rt, &told, wanted, row);
    Ok(())
}

fn each_row<R: Abort + AllocGlobal>(rt: &R, table: &str) -> Result<(), Fail> {
    for row in table.lines() {
        look(rt, row)?;
    }
    Ok(())
}

// The cutter's radius is 150, so from y = -150 or 750 it cuts no row, and from -149 or 749 the outermost.
//
// In the last row but one a cut to 250 at y = 300 lowers the rows at 200, 300 and 400, and the next may go to 200
// there. At 351 it cuts the one at 500 too. In the last row are a cut straight down, and one along y = 600, at 120,
// up to 140 before the last column.
const DEPTHS: &str = "\
seven max_cut = 50 | feed 100 300 400 to 100 300 250; feed 100 300 400 to 100 300 249 => kept; too \
    deep
seven max_cut = 50 | feed 100 -200 400 to 100 -200 0; feed 100 -150 400 to 100 -150 0 => kept; \
    kept
seven max_cut = 50 | feed 100 -149 400 to 100 -149 250; feed 100 -149 400 to 100 -149 249 => kept; \
    too deep
seven max_cut = 50 | feed 100 749 400 to 100 749 250; feed 100 749 400 to 100 749 249 => kept; too \
    deep
seven max_cut = 50 | feed 100 750 400 to 100 750 0 => kept
seven max_cut = 0 | feed 100 300 400 to 100 300 0 => kept
seven max_cut = 400 | feed 100 300 400 to 100 300 0; feed 100 300 400 to 100 300 -1 => kept; too \
    deep
seven max_cut = 50 | cut 100 300 400 to 100 300 250; feed 100 300 400 to 100 300 200; feed 100 300 \
    400 to 100 300 199; feed 100 350 400 to 100 350 200; feed 100 351 400 to 100 351 200; feed 100 \
    351 400 to 100 351 250 => cut; kept; too deep; kept; too deep; kept
seven | cut 100 300 400 to 100 300 200; cut -100 600 120 to 60 600 120; tops => cut; cut; [300, \
    300, 300]; [300, 300, 300]; [200, 200, 200]; [200, 200, 200]; [200, 200, 200]; [120, 120, \
    300]; [120, 120, 120]";

#[test]
fn cuts_and_keeps_the_depth_of_cut(rt: HostRuntime) -> Result<(), Fail> {
    each_row(&rt, DEPTHS)
}

// Nine columns, of which the cutter, with a radius of 150, reaches all from the middle one. Six columns,
// of which it reaches four from (0, 0). One row or one column has no surface. Then 317 by 317 squares,
// which are too many, and 400 by 250, which are the most that there may be.
const SURFACES: &str = "\
block area = [0, 0, 200, 200]; pitch = 100 | cut 100 100 400 to 100 100 200; surface => cut; 0 0 \
    200, 100 0 200, 100 100 200; 0 0 200, 100 100 200, 0 100 200; 100 0 200, 200 0 200, 200 100 \
    200; 100 0 200, 200 100 200, 100 100 200; 0 100 200, 100 100 200, 100 200 200; 0 100 200, 100 \
    200 200, 0 200 200; 100 100 200, 200 100 200, 200 200 200; 100 100 200, 200 200 200, 100 200 \
    200
block area = [0, 0, 200, 100]; pitch = 100 | cut 0 0 400 to 0 0 200; surface => cut; 0 0 200, 100 \
    0 200, 100 100 200; 0 0 200, 100 100 200, 0 100 200; 100 0 200, 200 0 300, 200 100 300; 100 0 \
    200, 200 100 300, 100 100 200
block area = [0, 0, 200, 0]; pitch = 100 | cut 0 0 400 to 0 0 200; surface => cut; none
block area = [0, 0, 0, 200]; pitch = 100 | cut 0 0 400 to 0 0 200; surface => cut; none
block area = [0, 0, 317, 317]; pitch = 1 | cut 0 0 400 to 0 0 200; surface => cut; \
    TooManyTriangles { count: 200978 }
block area = [0, 0, 400, 250]; pitch = 1 | cut 0 0 400 to 0 0 200; surface => cut; 200000 \
    triangles";

#[test]
fn surfaces(rt: HostRuntime) -> Result<(), Fail> {
    each_row(&rt, SURFACES)
}
