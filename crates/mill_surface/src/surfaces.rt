ghost use Rattle.std.specs.Prelude.{◌≡◌, ◌↔◌, ◌≤◌, ◌<◌, ◌+◌, ◌-◌, ◌*◌, ◌++◌, ℕ, List, length, All, IfOk, OnOk, IsErrOf};
ghost use Rattle.mill_base.specs.declared.limits.TheConstants.{MAX_COLUMNS, MAX_TRIANGLES};
ghost use Rattle.mill_base.specs.declared.motion.Move.{Move};
ghost use Rattle.mill_base.specs.Ranges.{IsInUnitRange, TrisInUnitRange};
ghost use Rattle.mill_job.specs.Columns.{row_count, column_count};
ghost use Rattle.mill_job.specs.Jobs.{IsJob};
ghost use Rattle.mill_dexel.specs.Rows.{IsRowOf};
ghost use Rattle.mill_dexel.specs.Stocks.{IsStock};
ghost use Rattle.mill_dexel.specs.Tops.{top_point};
ghost use Rattle.mill_surface.specs.declared.fault.SurfaceFault.TheVariants.{TooManyTriangles};
ghost use Rattle.mill_surface.specs.Surfaces.{square_tris, strip_tris, surface_of, triangle_count as triangle_count_of, HasManyTriangles, point_in};

use crate::fault::SurfaceFault;
use mill_base::{MAX_TRIANGLES, Pt3, Tri, WantOfMemory};
use mill_dexel::Row;
use mill_job::Job;
use std::alloc::Global;

/// The surface of the stock by its rows' tops: for each two neighbouring rows and each two neighbouring
/// columns the two triangles that join the points at the four columns' tops. With (j, i) for the point
/// of column i of row j they are (j, i), (j, i+1), (j+1, i+1) and (j, i), (j+1, i+1), (j+1, i), for j in
/// ascending order, and for i along each row. One row or one column has no triangles.
///
/// `rows` are all of the job's, in their order. Lengths are in units of the job.
///
/// # Errors
///
/// `TooManyTriangles` exactly where there are more than 200,000. The only other one is want of memory.
pub fn surface(alloc: Global, job: &Job, rows: &[Row]) -> Result<Vec<Tri>, SurfaceFault>
    requires every { length rows.now ≡ row_count job.now.fields }
    requires rows_ok { All (IsRowOf job.now.fields) rows.now }
    ensures tris { IfOk result (λ tris. tris.items ≡ surface_of job.now.fields (point_in job.now.fields rows.now)) }
    ensures after { IfOk result (λ tris. (moves : List Move) → IsStock job.now.fields moves rows.now
        → tris.items ≡ surface_of job.now.fields (top_point job.now.fields moves)) }
    ensures in_range { IfOk result (λ tris. TrisInUnitRange job.now.fields.unit tris.items) }
    ensures count { IfOk result (λ tris. length tris.items ≡ triangle_count_of job.now.fields) }
    ensures few { IfOk result (λ tris. length tris.items ≤ MAX_TRIANGLES) }
    ensures many { (count : ℕ) → IsErrOf result (TooManyTriangles count) ↔ HasManyTriangles job.now.fields count }
{
    let count = triangle_count(job);
    if count > MAX_TRIANGLES as u64 {
        return Err(SurfaceFault::TooManyTriangles { count });
    }
    Ok(all_tris(alloc, job, rows, count)?)
}

/// How many triangles the surface of a job's stock has: two for each square of four neighbouring columns.
pub fn triangle_count(job: &Job) -> u64
    ensures { result ≡ triangle_count_of job.now.fields }
{
    2 * square_count(job)
}

// How many squares of four neighbouring columns there are.
fn square_count(job: &Job) -> u64
    ensures value { result ≡ (row_count job.now.fields - 1) * (column_count job.now.fields - 1) }
    ensures bound { result ≤ MAX_COLUMNS }
{
    u64::from(job.rows() - 1) * u64::from(job.columns() - 1)
}

// The triangles of all strips, of which there are `count`.
fn all_tris(alloc: Global, job: &Job, rows: &[Row], count: u64) -> Result<Vec<Tri>, WantOfMemory>
    requires every { length rows.now ≡ row_count job.now.fields }
    requires rows_ok { All (IsRowOf job.now.fields) rows.now }
    ensures tris { IfOk result (λ tris. tris.items ≡ surface_of job.now.fields (point_in job.now.fields rows.now)) }
    ensures in_range { IfOk result (λ tris. TrisInUnitRange job.now.fields.unit tris.items) }
{
    let mut tris = Vec::with_capacity(alloc, count as usize)?;
    for row in 0..job.rows() - 1 {
        add_strip(&mut tris, job, rows, row)?;
    }
    Ok(tris)
}

// Adds the triangles between a row and the next.
fn add_strip(tris: &mut Vec<Tri>, job: &Job, rows: &[Row], row: u32) -> Result<(), WantOfMemory>
    requires every { length rows.now ≡ row_count job.now.fields }
    requires rows_ok { All (IsRowOf job.now.fields) rows.now }
    requires row { row + 1 < row_count job.now.fields }
    requires in_range { TrisInUnitRange job.now.fields.unit tris.old.items }
    ensures tris { OnOk result (tris.new.items ≡ tris.old.items ++ strip_tris (column_count job.now.fields) (point_in job.now.fields rows.now) row) }
    ensures in_range { OnOk result (TrisInUnitRange job.now.fields.unit tris.new.items) }
{
    for column in 0..job.columns() - 1 {
        add_square(tris, job, rows, row, column)?;
    }
    Ok(())
}

// Adds the two triangles between a column, its neighbour, and those of the next row.
fn add_square(
    tris: &mut Vec<Tri>,
    job: &Job,
    rows: &[Row],
    row: u32,
    column: u32,
) -> Result<(), WantOfMemory>
    requires every { length rows.now ≡ row_count job.now.fields }
    requires rows_ok { All (IsRowOf job.now.fields) rows.now }
    requires row { row + 1 < row_count job.now.fields }
    requires column { column + 1 < column_count job.now.fields }
    requires in_range { TrisInUnitRange job.now.fields.unit tris.old.items }
    ensures tris { OnOk result (tris.new.items ≡ tris.old.items ++ square_tris (point_in job.now.fields rows.now) row column) }
    ensures in_range { OnOk result (TrisInUnitRange job.now.fields.unit tris.new.items) }
{
    let here = top_point_of(job, rows, row, column);
    let along = top_point_of(job, rows, row, column + 1);
    let beyond = top_point_of(job, rows, row + 1, column + 1);
    let above = top_point_of(job, rows, row + 1, column);
    tris.push(Tri {
        a: here,
        b: along,
        c: beyond,
    })?;
    tris.push(Tri {
        a: here,
        b: beyond,
        c: above,
    })?;
    Ok(())
}

// The point at the top of a column.
fn top_point_of(job: &Job, rows: &[Row], row: u32, column: u32) -> Pt3
    requires every { length rows.now ≡ row_count job.now.fields }
    requires rows_ok { All (IsRowOf job.now.fields) rows.now }
    requires row { row < row_count job.now.fields }
    requires column { column < column_count job.now.fields }
    ensures value { result ≡ point_in job.now.fields rows.now row column }
    ensures in_range { IsInUnitRange job.now.fields.unit result }
{
    Pt3 {
        x: job.column_x(column),
        y: job.row_y(row),
        z: rows[row as usize].tops()[column as usize],
    }
}
