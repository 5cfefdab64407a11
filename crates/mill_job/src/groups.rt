ghost use Rattle.std.specs.Prelude.{◌≡◌, pos, IfOk, IfErr, None, Some};
ghost use Rattle.toml.specs.View.{table_view};
ghost use Rattle.mill_job.specs.Jobs.{IsFrom};
ghost use Rattle.mill_job.specs.Tables.{first};
ghost use Rattle.mill_job.specs.declared.limits.TheConstants.{MAX_DISTANCE};
ghost use Rattle.mill_job.specs.inner.Groups.{extras_faults, extras_of, measure_faults, measure_of, paths_faults, paths_of, space_faults, space_of};
ghost use Rattle.mill_job.specs.inner.Ranged.{AreExtras, ArePaths, IsMeasure, IsSpace};

use crate::arrays::{area, home, levels};
use crate::fault::JobFault;
use crate::fields::Place;
use crate::fixtures::Fixtures;
use crate::habits::{Rapids, Start, ToolLengths, Words};
use crate::holder::holder;
use crate::keep_out::keep_out;
use crate::key::Key;
use crate::levels::Levels;
use crate::limits::{MAX_ARC_TOL, MAX_DISTANCE, MAX_GRAZE, MAX_OVERCUT, MAX_SLACK};
use crate::values::{
    coordinate, depth, flag, lengths, number, number_if_there, number_or, rapids, snap, start,
    words,
};
use mill_base::{Box2, Solid, Unit};
use mill_decimal::Snap;
use toml::Table;

/// Where a job's stock stands, and from where its programs start, as in `JobFields`.
#[derive(Clone, Copy)]
pub struct Space {
    pub floor: i32,
    pub top: i32,
    pub clear: i32,
    pub area: Box2,
    pub home: Place,
}

/// How finely a job's stock and moves are looked at, and how exactly is cut, as in `JobFields`.
#[derive(Clone, Copy)]
pub struct Measure {
    pub pitch: i32,
    pub sample: i32,
    pub allowance: i32,
    pub band: i32,
}

/// By which paths a job's plans go, as in `JobFields`.
#[derive(Clone, Copy)]
pub struct Paths {
    pub lift: i32,
    pub raster: i32,
    pub rough_raster: i32,
    pub layer: i32,
    pub rough_stock: i32,
    pub levels: Levels,
}

/// What a document may say beside how is cut, as in `JobFields`.
#[derive(Clone, Copy)]
pub struct Extras {
    pub snap: Snap,
    pub max_cut: i32,
    pub holder: Option<Solid>,
    pub path_tol: Option<i32>,
    pub slack: i32,
    pub overcut: i32,
    pub graze: Option<i32>,
    pub keep_out: Fixtures,
    pub rapids: Rapids,
    pub start: Start,
    pub spindle: bool,
    pub words: Words,
    pub peck_clearance: Option<i32>,
    pub lengths: ToolLengths,
    pub arc_tol: Option<i32>,
}

/// Where the document's stock stands, and from where programs start.
pub fn space_in(table: &Table, unit: Unit) -> Result<Space, JobFault>
    ensures ok { IfOk result (λ space. (first (space_faults unit (table_view table.now)) ≡ None) × (space ≡ space_of (table_view table.now))) }
    ensures err { IfErr result (λ fault. first (space_faults unit (table_view table.now)) ≡ Some fault) }
    ensures in_range { IfOk result (IsSpace unit) }
{
    Ok(Space {
        floor: coordinate(table, Key::Floor, unit)?,
        top: coordinate(table, Key::Top, unit)?,
        clear: coordinate(table, Key::Clear, unit)?,
        area: area(table, unit)?,
        home: home(table, unit)?,
    })
}

/// How finely the document's stock and moves are looked at, and how exactly is cut.
pub fn measure_in(table: &Table) -> Result<Measure, JobFault>
    ensures ok { IfOk result (λ measure. (first (measure_faults (table_view table.now)) ≡ None) × (measure ≡ measure_of (table_view table.now))) }
    ensures err { IfErr result (λ fault. first (measure_faults (table_view table.now)) ≡ Some fault) }
    ensures in_range { IfOk result IsMeasure }
{
    Ok(Measure {
        pitch: number(table, Key::Pitch, 1, MAX_DISTANCE)?,
        sample: number(table, Key::Sample, 1, MAX_DISTANCE)?,
        allowance: number(table, Key::Allowance, 0, MAX_DISTANCE)?,
        band: number(table, Key::Band, 0, MAX_DISTANCE)?,
    })
}

/// By which paths the document's plans go; the raster is the pitch where the document doesn't say.
pub fn paths_in(table: &Table, unit: Unit, pitch: i32) -> Result<Paths, JobFault>
    requires { IsFrom (pos 1) MAX_DISTANCE pitch }
    ensures ok { IfOk result (λ paths. (first (paths_faults unit (table_view table.now)) ≡ None) × (paths ≡ paths_of pitch (table_view table.now))) }
    ensures err { IfErr result (λ fault. first (paths_faults unit (table_view table.now)) ≡ Some fault) }
    ensures in_range { IfOk result (ArePaths unit) }
{
    let lift = number_or(table, Key::Lift, 0, MAX_DISTANCE, 0)?;
    let raster = number_or(table, Key::Raster, 1, MAX_DISTANCE, pitch)?;
    Ok(Paths {
        lift,
        raster,
        rough_raster: number_or(table, Key::RoughRaster, 1, MAX_DISTANCE, raster)?,
        layer: depth(table, Key::Layer, unit)?,
        rough_stock: number_or(table, Key::RoughStock, 0, MAX_DISTANCE, 0)?,
        levels: levels(table, unit)?,
    })
}

/// What the document says beside how is cut.
pub fn extras_in(table: &Table, unit: Unit) -> Result<Extras, JobFault>
    ensures ok { IfOk result (λ extras. (first (extras_faults unit (table_view table.now)) ≡ None) × (extras ≡ extras_of (table_view table.now))) }
    ensures err { IfErr result (λ fault. first (extras_faults unit (table_view table.now)) ≡ Some fault) }
    ensures in_range { IfOk result (AreExtras unit) }
{
    Ok(Extras {
        snap: snap(table)?,
        max_cut: depth(table, Key::MaxCut, unit)?,
        holder: holder(table, unit)?,
        path_tol: number_if_there(table, Key::PathTol, 0, MAX_DISTANCE)?,
        slack: number_or(table, Key::Slack, 0, MAX_SLACK, 0)?,
        overcut: number_or(table, Key::Overcut, 0, MAX_OVERCUT, 0)?,
        graze: number_if_there(table, Key::Graze, 0, MAX_GRAZE)?,
        keep_out: keep_out(table, unit)?,
        rapids: rapids(table)?,
        start: start(table)?,
        spindle: flag(table, Key::Spindle)?,
        words: words(table)?,
        peck_clearance: number_if_there(table, Key::PeckClearance, 0, MAX_DISTANCE)?,
        lengths: lengths(table)?,
        arc_tol: number_if_there(table, Key::ArcTol, 1, MAX_ARC_TOL)?,
    })
}
