ghost use Rattle.std.specs.Prelude.{◌≡◌, ◌≢◌, ◌<◌, ◌++◌, pos, false, length, map, All, IsTrue, IfOk, OnOk, IfErr, OnErr, IsSomeAnd};
ghost use Rattle.mill_ffi.specs.Asked.{IsToldFor};
ghost use Rattle.mill_ffi.specs.Fibers.{AreRunsAt, AreSoundFibers, IsAxis, IsFiberCause, IsLine, IsSoundFiber, IsStretch, fiber_of, run_of};
ghost use Rattle.mill_ffi.specs.inner.Testing.{IsCauseBesideFibers};
ghost use Rattle.mill_ffi_data.specs.declared.fault.Fault.TheVariants as fault;
ghost use Rattle.mill_ffi_data.specs.Faults.{fault_code};
ghost use Rattle.mill_ffi_data.specs.Raw.{IsSoundTool, tool_of, tris_of};
ghost use Rattle.mill_push.specs.Runs.{AreRuns};

use mill_base::{Steps, Tool, WantOfMemory};
use mill_ffi_data::{
    Fault, RawFiber, RawRun, RawTool, RawTriangle, check_triangles, is_coordinate, part_from,
    tool_from,
};
use mill_part::{Part, SortedPart};
use mill_push::{Axis, Fiber, Run, push};
use std::alloc::Global;
use std::marker::Brand;
use std::sync::ledger::{Blank, Ledger};

/// Runs along fibers: for each fiber the maximal runs of whole positions from its first to its
/// last at which the tool, with its tip there, gouges the part of these triangles, ascending.
///
/// With status 0 `counts` has how many runs each fiber has, in the order of the fibers, and `runs`
/// has all of them, fiber after fiber. `counts` is as long as `fibers`, and `runs` as the runs are
/// many: with another length of `runs` the status is that of the room. With these two statuses
/// `told` has their number, and with any other it is 0. With any status but 0 both arrays are as
/// they were.
#[unsafe(no_mangle)]
pub extern "C" fn camtool_runs(
    alloc: Global,
    triangles: &[RawTriangle],
    tool: &RawTool,
    fibers: &[RawFiber],
    counts: &mut [u64],
    runs: &mut [RawRun],
    told: &mut u64,
) -> i32
    ensures done { result ≡ pos 0 → IsSomeAnd (tool_of tool.now)
        (λ t. AreRunsAt t (tris_of triangles.now) fibers.now counts.new runs.new) }
    ensures told { result ≡ pos 0 → told.new ≡ length runs.new }
    ensures sound_tool { result ≡ pos 0 → IsSoundTool tool.now }
    ensures sound { result ≡ pos 0
        → AreSoundFibers triangles.now fibers.now (length counts.old) }
    ensures cause { result ≢ pos 0 → IsToldFor (IsFiberCause triangles.now tool.now fibers.now
        (length counts.old) (length runs.old) told.new) result }
    ensures counts_kept { result ≢ pos 0 → counts.new ≡ counts.old }
    ensures runs_kept { result ≢ pos 0 → runs.new ≡ runs.old }
    ensures untold { result ≢ pos 0 → result ≢ fault_code fault.Room → told.new ≡ 0 }
{
    match runs_into(alloc, triangles, tool, fibers, counts, runs, told) {
        Ok(()) => 0,
        Err(fault) => fault.code(),
    }
}

/// Runs along fibers, or why there are none.
fn runs_into(
    alloc: Global,
    triangles: &[RawTriangle],
    tool: &RawTool,
    fibers: &[RawFiber],
    counts: &mut [u64],
    runs: &mut [RawRun],
    told: &mut u64,
) -> Result<(), Fault>
    ensures done { OnOk result (IsSomeAnd (tool_of tool.now)
        (λ t. AreRunsAt t (tris_of triangles.now) fibers.now counts.new runs.new)) }
    ensures told { OnOk result (told.new ≡ length runs.new) }
    ensures sound_tool { OnOk result (IsSoundTool tool.now) }
    ensures sound { OnOk result (AreSoundFibers triangles.now fibers.now (length counts.old)) }
    ensures cause { IfErr result (IsFiberCause triangles.now tool.now fibers.now
        (length counts.old) (length runs.old) told.new) }
    ensures counts_kept { OnErr result (counts.new ≡ counts.old) }
    ensures runs_kept { OnErr result (runs.new ≡ runs.old) }
    ensures untold { IfErr result (λ why. why ≢ fault.Room → told.new ≡ 0) }
{
    *told = 0;
    // A match, since rattle proves no `?` on a tool.
    let pushed = match tool_from(tool) {
        Ok(pushed) => pushed,
        Err(fault) => return Err(fault),
    };
    check_arguments(triangles, fibers, counts.len())?;
    let part = part_from(alloc, triangles)?;
    let found = found_runs(alloc, part, &pushed, fibers)?;
    *told = found.runs.len() as u64;
    if runs.len() != found.runs.len() {
        return Err(Fault::Room);
    }
    counts.copy_from_slice(&found.counts);
    runs.copy_from_slice(&found.runs);
    Ok(())
}

/// Tests the arguments other than the tool; the array for the counts is `room` long.
fn check_arguments(triangles: &[RawTriangle], fibers: &[RawFiber], room: usize) -> Result<(), Fault>
    ensures sound { OnOk result (AreSoundFibers triangles.now fibers.now room) }
    ensures cause { IfErr result (IsCauseBesideFibers triangles.now fibers.now room) }
{
    check_triangles(triangles)?;
    if !are_fibers(fibers) {
        return Err(Fault::Fiber);
    }
    if room != fibers.len() {
        return Err(Fault::CountsRoom);
    }
    Ok(())
}

/// Whether the numbers of the fibers are in their ranges.
fn are_fibers(raws: &[RawFiber]) -> bool
    ensures yes { IsTrue result → All IsSoundFiber raws.now }
    ensures no { result ≡ false → ¬ All IsSoundFiber raws.now }
{
    for raw in raws {
        if !is_fiber(raw) {
            return false;
        }
    }
    true
}

fn is_fiber(raw: &RawFiber) -> bool
    ensures yes { IsTrue result → IsSoundFiber raw.now }
    ensures no { result ≡ false → ¬ IsSoundFiber raw.now }
{
    if !is_axis(raw.axis) {
        return false;
    }
    if !is_line(raw.at, raw.z) {
        return false;
    }
    is_stretch(raw.first, raw.last)
}

fn is_axis(axis: i32) -> bool
    ensures yes { IsTrue result → IsAxis axis }
    ensures no { result ≡ false → ¬ IsAxis axis }
{
    1 <= axis && axis <= 2
}

fn is_line(at: i32, z: i32) -> bool
    ensures yes { IsTrue result → IsLine at z }
    ensures no { result ≡ false → ¬ IsLine at z }
{
    is_coordinate(at) && is_coordinate(z)
}

fn is_stretch(first: i32, last: i32) -> bool
    ensures yes { IsTrue result → IsStretch first last }
    ensures no { result ≡ false → ¬ IsStretch first last }
{
    if first > last {
        return false;
    }
    is_coordinate(first) && is_coordinate(last)
}

/// How many runs each fiber has, and all of them.
#[derive(Drop)]
struct Found {
    counts: Vec<u64>,
    runs: Vec<RawRun>,
}

/// The runs of each fiber.
fn found_runs(
    alloc: Global,
    part: Part,
    tool: &Tool,
    fibers: &[RawFiber],
) -> Result<Found, WantOfMemory>
    requires fibers_ok { All IsSoundFiber fibers.now }
    ensures runs { IfOk result (λ found.
        AreRunsAt tool.now part fibers.now found.counts.items found.runs.items) }
    ensures count { IfOk result (λ found. length found.counts.items ≡ length fibers.now) }
{
    let sorted = SortedPart::new(alloc, part)?;
    let mut counts = Vec::with_capacity(alloc, fibers.len())?;
    let mut runs = Vec::new(alloc);
    for raw in fibers {
        let found = fiber_runs::<Brand>(alloc, &sorted, tool, raw, Blank::new(1))?;
        counts.push(found.len() as u64)?;
        add_runs(&found, &mut runs)?;
    }
    Ok(Found { counts, runs })
}

/// The runs of one fiber. The touches aren't counted.
fn fiber_runs<L: Ledger>(
    alloc: Global,
    part: &SortedPart,
    tool: &Tool,
    raw: &RawFiber,
    blank: Blank,
) -> Result<Vec<Run>, WantOfMemory>
    requires fiber_ok { IsSoundFiber raw.now }
    requires name { blank.name ≡ L.name }
    requires parts { blank.parts ≡ L.parts }
    requires some { 0 < blank.parts }
    ensures { IfOk result (λ runs.
        AreRuns tool.now part.now (fiber_of raw.now) raw.now.first raw.now.last runs.items) }
{
    let mut steps = Steps::<L>::new(blank);
    let (first, last) = (raw.first, raw.last);
    push(alloc, part, tool, fiber_from(raw), first, last, &mut steps)
}

fn fiber_from(raw: &RawFiber) -> Fiber
    ensures { result ≡ fiber_of raw.now }
{
    let axis = if raw.axis == 2 { Axis::Y } else { Axis::X };
    Fiber {
        axis,
        at: raw.at,
        z: raw.z,
    }
}

/// Adds the runs of a fiber to those of the fibers before it.
fn add_runs(found: &[Run], runs: &mut Vec<RawRun>) -> Result<(), WantOfMemory>
    ensures { OnOk result (map run_of runs.new.items ≡ map run_of runs.old.items ++ found.now) }
{
    for run in found {
        runs.push(raw_from(*run))?;
    }
    Ok(())
}

fn raw_from(run: Run) -> RawRun
    ensures { run_of result ≡ run }
{
    let Run { first, last } = run;
    RawRun { first, last }
}
