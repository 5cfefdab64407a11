ghost use Rattle.std.specs.Prelude.{◌≡◌, ◌++◌, IfOk};
ghost use Rattle.toml.specs.View.{table_view};
ghost use Rattle.mill_job.specs.Answered.{fields_of};
ghost use Rattle.mill_job.specs.Cutters.{cutter_faults};
ghost use Rattle.mill_job.specs.Documents.{GivesJob, job_with, key_faults_in, relation_faults};
ghost use Rattle.mill_job.specs.Jobs.{IsJob};
ghost use Rattle.mill_job.specs.Tables.{checked, first};
ghost use Rattle.mill_job.specs.inner.Groups.{job_of_groups};
ghost use Rattle.mill_job.specs.inner.Ranged.{AreExtras, ArePaths, IsMeasure, IsSpace};

use crate::cutter::{cutter, outline_in};
use crate::document::{first_unknown, read_document};
use crate::fault::JobFault;
use crate::fields::JobFields;
use crate::groups::{Extras, Measure, Paths, Space, extras_in, measure_in, paths_in, space_in};
use crate::job::Job;
use crate::key::JOB_KEYS;
use crate::name::Name;
use crate::relations::relation_fault;
use crate::values::unit;
use mill_base::{Cutter, Unit};
use std::alloc::Global;
use toml::Table;

/// The numbers of a job of these values.
fn assembled(
    unit: Unit,
    cutter: Cutter,
    space: Space,
    measure: Measure,
    paths: Paths,
    extras: Extras,
) -> JobFields
    requires space_ok { IsSpace unit space }
    requires measure_ok { IsMeasure measure }
    requires paths_ok { ArePaths unit paths }
    requires extras_ok { AreExtras unit extras }
    ensures { result ≡ job_of_groups unit cutter space measure paths extras }
{
    JobFields {
        unit,
        cutter,
        floor: space.floor,
        top: space.top,
        clear: space.clear,
        area: space.area,
        home: space.home,
        pitch: measure.pitch,
        sample: measure.sample,
        allowance: measure.allowance,
        band: measure.band,
        lift: paths.lift,
        raster: paths.raster,
        rough_raster: paths.rough_raster,
        layer: paths.layer,
        rough_stock: paths.rough_stock,
        levels: paths.levels,
        snap: extras.snap,
        max_cut: extras.max_cut,
        holder: extras.holder,
        path_tol: extras.path_tol,
        slack: extras.slack,
        overcut: extras.overcut,
        graze: extras.graze,
        keep_out: extras.keep_out,
        rapids: extras.rapids,
        start: extras.start,
        spindle: extras.spindle,
        words: extras.words,
        peck_clearance: extras.peck_clearance,
        lengths: extras.lengths,
        arc_tol: extras.arc_tol,
    }
}

/// The numbers, or the fault if there is one.
fn unless(fault: Option<JobFault>, job: JobFields) -> Result<JobFields, JobFault>
    ensures { result ≡ checked fault job }
{
    match fault {
        Some(fault) => Err(fault),
        None => Ok(job),
    }
}

/// The numbers of the job of a document that has no unknown key, in a unit, whatever the document
/// says of it.
fn fields_in(table: &Table, unit: Unit) -> Result<JobFields, JobFault>
    ensures value { result ≡ checked (first (key_faults_in unit (table_view table.now) ++ cutter_faults (table_view table.now) ++ relation_faults (job_with unit (table_view table.now)))) (job_with unit (table_view table.now)) }
    ensures in_range { IfOk result IsJob }
{
    let outline = outline_in(table)?;
    let space = space_in(table, unit)?;
    let measure = measure_in(table)?;
    let paths = paths_in(table, unit, measure.pitch)?;
    let extras = extras_in(table, unit)?;
    let cutter = cutter(outline)?;
    let fields = assembled(unit, cutter, space, measure, paths, extras);
    unless(relation_fault(&fields), fields)
}

/// The numbers of the job that a text is, as [`read_job`] reads it.
fn read_fields(alloc: Global, text: &[u8]) -> Result<JobFields, JobFault>
    ensures gives { GivesJob text.now result }
    ensures in_range { IfOk result IsJob }
{
    let table = read_document(alloc, text)?;
    match first_unknown(&table, &JOB_KEYS) {
        Some(key) => Err(JobFault::Unknown(Name::copied(alloc, key.as_str())?)),
        None => fields_in(&table, unit(&table)?),
    }
}

/// Reads a job: a TOML 1.0 document with each key of [`Key`] and no other; `unit`, `snap`, `lift`,
/// `raster`, `rough_raster`, `layer`, `rough_stock`, `levels`, `max_cut`, `path_tol`, `slack`,
/// `overcut`, `graze`, `keep_out`, `rapids`, `start`, `spindle`, `words`, `peck_clearance`,
/// `lengths` and `arc_tol` may be left out, `rise` and `run` where the cutter is no cone, and
/// `holder_radius` and `stickout` both or neither.
///
/// `unit` is a text, `hundredth` for 0.01 mm or `thousandth` for 0.001 mm; numbers are whole, in
/// that unit. `cutter` is a text, `flat`, `ball` or `cone`. `radius`, `pitch`, `sample`, `raster`,
/// `rough_raster` and `holder_radius` are from 1 to 10,000, `rise`, `run` and `arc_tol` from 1 to
/// 100, `allowance`, `band`, `lift`, `rough_stock`, `path_tol` and `peck_clearance` from 0 to
/// 10,000, `slack` from 0 to 200, `overcut` and `graze` from 0 to 500; `layer` and `max_cut` from
/// 0, and `stickout` from 1, to the unit's greatest coordinate, which is 131,071 or 524,287.
/// `floor`, `top`, `clear` and the members of `area`, `home` and `levels` are coordinates, of a
/// magnitude of at most that. `area` has x0, y0, x1, y1, with x0 at most x1 and y0 at most y1;
/// `home` has x, y; `levels` has at most 64 members, each less than the one before it. `snap` is a
/// text, `nearest` or `exact`. `keep_out` has at most 64 members, each an array of five coordinates
/// x0, y0, x1, y1, z, with x0 at most x1 and y0 at most y1. `rapids` is a text, `straight` or
/// `axes`, and `start` one, `home`, `anywhere` or `change`. `spindle` is a truth value. `words` is
/// a text, `strict` or `machine`, and `lengths` one, `table` or `one`.
///
/// In a document without them `unit` is `hundredth`, `lift`, `layer`, `rough_stock`, `max_cut`,
/// `slack` and `overcut` are 0, `raster` is the pitch, `rough_raster` the raster, `levels` and
/// `keep_out` have no member, `snap` is `nearest`, there is no holder and no tolerance of paths,
/// `graze` is as [`Job::graze`] says, `rapids` is `straight`, `start` is `home`, `spindle` is false,
/// `words` is `strict`, `peck_clearance` a quarter of a millimetre, `lengths` is `table`, and
/// `arc_tol` is as [`Job::arc_tolerance`] says.
///
/// The relations are: only a cone has a rise, only a cone has a run, rise is at most 16 times run,
/// floor at most top, top at most clear, there are at most 4,000,000 columns, band is at most
/// radius, where layer isn't 0, top is at most 1,000 layers over floor, each of the levels is at
/// least floor and less than top, a holder's radius is over the cutter's, slack, overcut and graze
/// are less than radius, and radius and slack together at most 10,000, graze is at least twice
/// slack, and its offset at least twice the slack's, a holder's stickout is over slack, and its
/// radius and slack together at most 10,000, top and the slack's offset together are at most clear,
/// and so are z of each of `keep_out` and that offset, words is `strict` or start isn't `home`, and
/// an arc_tol that is there is at least two less than slack.
///
/// A fault is the first in this order: the document's syntax; an unknown key, the first by its
/// bytes; for each key in the order of [`Key`], that it is missing, of a wrong kind or out of
/// range; a relation that fails. An array with a member of another kind is of a wrong kind, even
/// where another of its members is out of range. Of `holder_radius` and `stickout` one is missing
/// where the other is there.
pub fn read_job(alloc: Global, text: &[u8]) -> Result<Job, JobFault>
    ensures { GivesJob text.now (fields_of result) }
{
    let fields = read_fields(alloc, text)?;
    Ok(Job::new(fields))
}
