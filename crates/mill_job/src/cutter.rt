ghost use Rattle.std.specs.Prelude.{◌≡◌, ◌++◌, pos, IfOk, IfErr, IfSome, IsSome, None, Some};
ghost use Rattle.mill_base.specs.Sizes.{IsCutter};
ghost use Rattle.toml.specs.View.{table_view};
ghost use Rattle.mill_job.specs.Cutters.{cutter_faults, cutter_key_faults, cutter_of, cutter_with, shape_fault, shape_of, slope_fault, slope_faults};
ghost use Rattle.mill_job.specs.Jobs.{IsFrom};
ghost use Rattle.mill_job.specs.Tables.{checked, first, number_given};
ghost use Rattle.mill_job.specs.inner.Groups.{outline_of};
ghost use Rattle.mill_job.specs.inner.Ranged.{IsOutline};

use crate::fault::JobFault;
use crate::key::Key;
use crate::values::{find, number, whole_number};
use mill_base::{Cutter, MAX_RADIUS};
use toml::Table;

/// How many times its run a cone may rise.
const STEEPEST: i32 = 16;

/// The shape of a cutter.
#[derive(Clone, Copy)]
pub enum Shape {
    Flat,
    Ball,
    Cone,
}

/// The shape that the document names.
#[tactic(auto, unfolding(crate::specs::Cutters::shape_fault, crate::specs::Cutters::shape_of, crate::specs::Tables::text_fault))]
pub fn named_shape(table: &Table) -> Result<Shape, JobFault>
    ensures ok { IfOk result (λ shape. (shape_fault (table_view table.now) ≡ None) × (shape ≡ shape_of (table_view table.now))) }
    ensures err { IfErr result (λ fault. shape_fault (table_view table.now) ≡ Some fault) }
{
    let value = find(table, Key::Cutter).ok_or(JobFault::Missing(Key::Cutter))?;
    match value.as_str() {
        None => Err(JobFault::WrongKind(Key::Cutter)),
        Some("flat") => Ok(Shape::Flat),
        Some("ball") => Ok(Shape::Ball),
        Some("cone") => Ok(Shape::Cone),
        Some(_) => Err(JobFault::Range(Key::Cutter)),
    }
}

/// The rise or the run at a key, which only a cone must have.
#[tactic(auto, unfolding(crate::specs::Cutters::slope_fault, crate::specs::Tables::number_given))]
pub fn slope(table: &Table, key: Key, shape: Shape) -> Result<Option<i32>, JobFault>
    requires { shape ≡ shape_of (table_view table.now) }
    ensures ok { IfOk result (λ given. (slope_fault key (table_view table.now) ≡ None) × (given ≡ number_given key (table_view table.now))) }
    ensures err { IfErr result (λ fault. slope_fault key (table_view table.now) ≡ Some fault) }
    ensures in_range { IfOk result (λ given. IfSome given (IsFrom (pos 1) (pos 100))) }
    ensures of_cone { IfOk result (λ given. shape ≡ Shape.Cone → IsSome given) }
{
    match (find(table, key), shape) {
        (Some(value), _) => Ok(Some(whole_number(value, key, 1, 100)?)),
        (None, Shape::Cone) => Err(JobFault::Missing(key)),
        (None, _) => Ok(None),
    }
}

/// What a document says of its cutter, as long as nothing is wrong with a key of it alone.
#[derive(Clone, Copy)]
pub struct Outline {
    pub shape: Shape,
    pub radius: i32,
    pub rise: Option<i32>,
    pub run: Option<i32>,
}

/// What the document says of its cutter.
pub fn outline_in(table: &Table) -> Result<Outline, JobFault>
    ensures ok { IfOk result (λ outline. (first (cutter_key_faults (table_view table.now)) ≡ None) × (outline ≡ outline_of (table_view table.now))) }
    ensures err { IfErr result (λ fault. first (cutter_key_faults (table_view table.now)) ≡ Some fault) }
    ensures in_range { IfOk result IsOutline }
{
    let shape = named_shape(table)?;
    Ok(Outline {
        shape,
        radius: number(table, Key::Radius, 1, MAX_RADIUS)?,
        rise: slope(table, Key::Rise, shape)?,
        run: slope(table, Key::Run, shape)?,
    })
}

/// The cutter of this outline; only a cone may have a rise and a run, and must have both.
pub fn cutter(outline: Outline) -> Result<Cutter, JobFault>
    requires { IsOutline outline }
    ensures ok { IfOk result (λ cutter. (first (slope_faults outline.shape outline.rise outline.run) ≡ None) × (cutter ≡ cutter_with outline.shape outline.radius outline.rise outline.run)) }
    ensures err { IfErr result (λ fault. first (slope_faults outline.shape outline.rise outline.run) ≡ Some fault) }
    ensures in_range { IfOk result IsCutter }
{
    let radius = outline.radius;
    match (outline.shape, outline.rise, outline.run) {
        (Shape::Cone, Some(rise), Some(run)) if rise <= STEEPEST * run => {
            Ok(Cutter::Cone { radius, rise, run })
        }
        (Shape::Cone, _, _) => Err(JobFault::Relation(Key::Rise, Key::Run)),
        (_, Some(_), _) => Err(JobFault::Relation(Key::Cutter, Key::Rise)),
        (_, None, Some(_)) => Err(JobFault::Relation(Key::Cutter, Key::Run)),
        (Shape::Flat, None, None) => Ok(Cutter::Flat { radius }),
        (Shape::Ball, None, None) => Ok(Cutter::Ball { radius }),
    }
}

/// Reads a cutter from four keys of a table: `cutter`, `radius`, `rise` and `run`, as [`read_job`] reads
/// them, whatever else the table has.
///
/// # Errors
///
/// The first in this order: for each of the keys, that it is missing, of a wrong kind or out of range;
/// only a cone has a rise, only a cone has a run, and rise is at most 16 times run.
///
/// [`read_job`]: crate::read_job
pub fn read_cutter(table: &Table) -> Result<Cutter, JobFault>
    ensures value { result ≡ checked (first (cutter_key_faults (table_view table.now) ++ cutter_faults (table_view table.now))) (cutter_of (table_view table.now)) }
    ensures in_range { IfOk result IsCutter }
{
    cutter(outline_in(table)?)
}
