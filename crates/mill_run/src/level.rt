//! The command `level`: the chains of points along which the tool goes round part and fixtures at
//! one height.
ghost use Rattle.std.specs.Prelude.{◌≡◌, ◌++◌, ◌-◌, ◌^◌, ◌<◌, ◌≤◌, ℕ, IfOk, IsErrOf, OnOk, map as map_list};
ghost use Rattle.mill_base.specs.Numbers.{Within};
ghost use Rattle.mill_base.specs.declared.limits.TheConstants.{MAX_COORDINATE, MAX_NODES};
ghost use Rattle.mill_base.specs.Lattices.{node_count};
ghost use Rattle.mill_command.specs.Requests.{level as asks_level};
ghost use Rattle.mill_job.specs.Jobs.{tool_of};
ghost use Rattle.mill_level.specs.Waterlines.{HasManyNodes, IsWaterline, seen};
ghost use Rattle.mill_level.specs.declared.fault.LevelFault.TheVariants.{TooManyNodes};
ghost use Rattle.mill_obstacles.specs.Faces.{obstacles_of};
ghost use Rattle.mill_paths.specs.Lattices.{finish_lattice as finish_lattice_of};
ghost use Rattle.mill_answer.specs.Calls.{CanCount, call_of};
ghost use Rattle.mill_run.specs.Level.{closed_word, outline_text, outlines_text, point_line};
ghost use Rattle.mill_load.specs.Loads.{IsSetup};
ghost use Rattle.mill_run.specs.Outcomes.{Serves};
ghost use Rattle.mill_run.specs.inner.Prints.{TriesLevel};
ghost use Rattle.mill_answer.specs.Statuses.{status_code};

use crate::keeping::kept_off;
use mill_answer::Word::{Length, Number, Text};
use mill_answer::{
    Status, add_line, line_of_nodes, line_of_word_fault, tell_fault, tell_made, tell_memory,
};
use mill_base::{Pt3, Unit, WantOfMemory};
use mill_io::{Shelf, Sink};
use mill_level::{Chain, LevelFault, waterline};
use mill_load::{Setup, load_job, load_under, read_height};
use mill_part::SortedPart;
use mill_paths::finish_lattice;
use std::alloc::Global;

/// The work of `level`: reads the job, then the height in the job's unit, then the part, and prints
/// the chains along which the tool goes round the part there, or what keeps it from them.
pub fn level_part<S: Shelf, O: Sink>(
    alloc: Global,
    shelf: &mut S,
    job: &str,
    part: &str,
    z: &str,
    out: &mut O,
) -> Status
    requires { CanCount (S.shows shelf.old) (O.shows out.old) }
    ensures { Serves (asks_level job.now part.now z.now)
        (call_of result (S.shows shelf.old) (S.shows shelf.new) (O.shows out.old) (O.shows out.new)) }
{
    let job = match load_job(alloc, shelf, job) {
        Ok(job) => job,
        Err(fault) => return tell_fault(alloc, fault, out),
    };
    let height = match read_height(z, job.fields.unit) {
        Ok(height) => height,
        Err(fault) => return tell_made(line_of_word_fault(alloc, fault), Status::Refused, out),
    };
    match load_under(alloc, shelf, job, part) {
        Ok(setup) => tell_level(alloc, setup, height, out),
        Err(fault) => tell_fault(alloc, fault, out),
    }
}

/// Prints the chains at a height, or why there are none.
fn tell_level<O: Sink>(alloc: Global, setup: Setup, height: i32, out: &mut O) -> Status
    requires ready { IsSetup setup }
    requires height_ok { Within MAX_COORDINATE height }
    requires prints { (O.shows out.old).faults < 2 ^ 64 - 1 }
    ensures { TriesLevel setup height (status_code result) (O.shows out.old) (O.shows out.new) }
{
    let unit = setup.job.fields.unit;
    match chains_at(alloc, setup, height) {
        Ok(chains) => tell_made(text_of_chains(alloc, &chains, unit), Status::Done, out),
        Err(LevelFault::TooManyNodes { nodes }) => {
            tell_made(line_of_nodes(alloc, nodes), Status::TooLarge, out)
        }
        Err(LevelFault::WantOfMemory) => tell_memory(out),
    }
}

/// The chains round part and fixtures at a height, over the job's area by steps of its raster.
fn chains_at(alloc: Global, setup: Setup, height: i32) -> Result<Vec<Chain>, LevelFault>
    requires ready { IsSetup setup }
    requires height_ok { Within MAX_COORDINATE height }
    ensures chains { IfOk result (λ chains. IsWaterline (tool_of setup.job.fields)
        (obstacles_of setup.job.fields setup.part) height
        (finish_lattice_of setup.job.fields) (map_list seen chains.items)) }
    ensures few { IfOk result (λ _. node_count (finish_lattice_of setup.job.fields) ≤ MAX_NODES) }
    ensures nodes { (nodes : ℕ) → IsErrOf result (TooManyNodes nodes)
        → HasManyNodes (finish_lattice_of setup.job.fields) nodes }
{
    let job = setup.job;
    let all = kept_off(alloc, &job, setup.part)?;
    let part = SortedPart::new(alloc, all)?;
    let lattice = finish_lattice(&job);
    let tool = job.tool();
    waterline(alloc, &part, &tool, height, &lattice)
}

/// The text of all chains.
fn text_of_chains(alloc: Global, chains: &[Chain], unit: Unit) -> Result<Vec<u8>, WantOfMemory>
    ensures { IfOk result (λ text. text.items ≡ outlines_text unit (map_list seen chains.now)) }
{
    let mut text = Vec::new(alloc);
    for chain in chains {
        add_chain(&mut text, chain, unit)?;
    }
    add_line(
        &mut text,
        &[Text(b"chains")],
        &[Number(chains.len() as u64)],
    )?;
    Ok(text)
}

// One chain: whether it is closed, how many points it has, and the points.
fn add_chain(text: &mut Vec<u8>, chain: &Chain, unit: Unit) -> Result<(), WantOfMemory>
    ensures { OnOk result (text.new.items ≡ text.old.items ++ outline_text unit (seen chain.now)) }
{
    add_line(
        text,
        &[Text(word_of_closed(chain.closed))],
        &[Number(chain.points.len() as u64)],
    )?;
    for point in &chain.points {
        add_point(text, *point, unit)?;
    }
    Ok(())
}

fn word_of_closed(closed: bool) -> &'static [u8]
    ensures { result.now ≡ closed_word closed }
{
    if closed { b"closed" } else { b"open" }
}

fn add_point(text: &mut Vec<u8>, point: Pt3, unit: Unit) -> Result<(), WantOfMemory>
    ensures { OnOk result (text.new.items ≡ text.old.items ++ point_line unit point) }
{
    add_line(text, &[Length(point.x, unit)], &[Length(point.y, unit)])
}
