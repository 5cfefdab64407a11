//! The sample part of a size, and the job that it is planned with.
ghost use Rattle.std.specs.Prelude.{◌≡◌, ◌<◌, ◌≤◌, ◌++◌, IfOk, OnOk};
ghost use Rattle.mill_run.specs.SamplePart.{IsSample, IsSize, sample_job as job_of, sample_node, sample_part as part_of, sample_row, sample_square};

use mill_base::{Box2, Cutter, Pt3, Tri, Unit, WantOfMemory};
use mill_decimal::Snap;
use mill_job::{Fixtures, Job, JobFields, Levels, Place, Rapids, Start, ToolLengths, Words};
use mill_load::Setup;
use mill_part::Part;
use std::alloc::Global;

/// The job and the part of a size from 1 to 100: a part of as many rows of as many squares, and a job over
/// it, in hundredths of a millimetre, which the part isn't over the top of.
///
/// Only want of memory keeps it from them.
pub fn sample_setup(alloc: Global, size: u32) -> Result<Setup, WantOfMemory>
    requires { IsSize size }
    ensures { IfOk result (λ setup. IsSample size setup.job.fields setup.part) }
{
    Ok(Setup {
        job: sample_job(size),
        part: sample_part(alloc, size)?,
    })
}

/// The job over the sample part of a size.
#[tactic(auto, unfolding(mill_job::specs::Fixtures::AreFixtures, mill_job::specs::Jobs::HasRoom, mill_job::specs::Jobs::HolderHasRoom, mill_job::specs::Slack::graze_of))]
fn sample_job(size: u32) -> Job
    requires { IsSize size }
    ensures { result.fields ≡ job_of size }
{
    Job::new(sample_fields(size))
}

/// Its numbers.
fn sample_fields(size: u32) -> JobFields
    requires { IsSize size }
    ensures { result ≡ job_of size }
{
    let side = (100 * size) as i32;
    JobFields {
        unit: Unit::Hundredth,
        cutter: Cutter::Ball { radius: 100 },
        floor: 0,
        top: 200,
        clear: 300,
        area: Box2 {
            x0: 0,
            y0: 0,
            x1: side,
            y1: side,
        },
        home: Place { x: 0, y: 0 },
        pitch: 50,
        sample: 50,
        allowance: 40,
        band: 0,
        lift: 0,
        raster: 50,
        rough_raster: 100,
        layer: 50,
        rough_stock: 0,
        levels: Levels::NONE,
        snap: Snap::Nearest,
        max_cut: 0,
        holder: None,
        path_tol: None,
        slack: 0,
        overcut: 0,
        graze: None,
        keep_out: Fixtures::NONE,
        rapids: Rapids::Straight,
        start: Start::Home,
        spindle: false,
        words: Words::Strict,
        peck_clearance: None,
        lengths: ToolLengths::Table,
        arc_tol: None,
    }
}

/// The sample part of a size: as many rows of as many squares.
fn sample_part(alloc: Global, size: u32) -> Result<Part, WantOfMemory>
    requires { IsSize size }
    ensures { IfOk result (λ part. part ≡ part_of size) }
{
    let mut tris = Vec::new(alloc);
    for row in 0..size {
        add_row(&mut tris, size, row)?;
    }
    Ok(Part::new(tris))
}

fn add_row(tris: &mut Vec<Tri>, size: u32, row: u32) -> Result<(), WantOfMemory>
    requires size_ok { IsSize size }
    requires row_ok { row < size }
    ensures { OnOk result (tris.new.items ≡ tris.old.items ++ sample_row size row) }
{
    for column in 0..size {
        add_square(tris, row, column)?;
    }
    Ok(())
}

fn add_square(tris: &mut Vec<Tri>, row: u32, column: u32) -> Result<(), WantOfMemory>
    requires row_ok { row < 100 }
    requires column_ok { column < 100 }
    ensures { OnOk result (tris.new.items ≡ tris.old.items ++ sample_square row column) }
{
    let least = node(column, row);
    let greatest = node(column + 1, row + 1);
    tris.push(Tri {
        a: least,
        b: node(column + 1, row),
        c: greatest,
    })?;
    tris.push(Tri {
        a: least,
        b: greatest,
        c: node(column, row + 1),
    })?;
    Ok(())
}

/// The node of the part at this column and row.
fn node(column: u32, row: u32) -> Pt3
    requires column_ok { column ≤ 100 }
    requires row_ok { row ≤ 100 }
    ensures { result ≡ sample_node column row }
{
    let rise = (7 * column * column + 13 * row * row + 5 * column * row) % 40;
    Pt3 {
        x: (100 * column) as i32,
        y: (100 * row) as i32,
        z: (100 + rise) as i32,
    }
}
