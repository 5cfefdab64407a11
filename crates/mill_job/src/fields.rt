use crate::fixtures::Fixtures;
use crate::habits::{Rapids, Start, ToolLengths, Words};
use crate::levels::Levels;
use mill_base::{Box2, Cutter, Solid, Unit};
use mill_decimal::Snap;

/// A place in x and y, in units.
#[derive(Clone, Copy, Debug, PartialEq, Eq)]
pub struct Place {
    pub x: i32,
    pub y: i32,
}

/// The numbers of a job: what is cut, with which cutter, and how exactly. Lengths and places are in
/// units. In a [`Job`](crate::Job) they are in range and fit one another.
#[derive(Clone, Copy, Debug, PartialEq, Eq)]
pub struct JobFields {
    /// The unit of all lengths and places, and of the texts that are read and written for the job.
    pub unit: Unit,
    pub cutter: Cutter,
    /// The height of the machine's table under the stock; no tip goes lower.
    pub floor: i32,
    /// The height of the uncut stock.
    pub top: i32,
    /// The height at which a program starts, and at which the cutter travels over everything.
    pub clear: i32,
    /// The rectangle over which the columns of the stock stand.
    pub area: Box2,
    /// The place over which a program starts and ends.
    pub home: Place,
    /// The distance of neighbouring columns.
    pub pitch: i32,
    /// The greatest distance of neighbouring samples of a move, from 1 to 10,000.
    pub sample: i32,
    /// How much a column may stand over what covers it.
    pub allowance: i32,
    /// How near a part point covers a column.
    pub band: i32,
    /// How much over its drop height a plan's finishing path runs, from 0 to 10,000.
    pub lift: i32,
    /// The distance of neighbouring rows and places of a plan's finishing path, from 1 to 10,000.
    pub raster: i32,
    /// The distance of neighbouring rows and places of a plan's roughing paths, from 1 to 10,000.
    pub rough_raster: i32,
    /// How much a plan's roughing takes off at a time, from 0 to the unit's greatest
    /// coordinate; 0 means no roughing.
    pub layer: i32,
    /// How much a plan's roughing leaves over the part, from 0 to 10,000.
    pub rough_stock: i32,
    /// The heights of the waterlines that a plan follows, from the highest to the lowest, each from
    /// the floor on and under the top, at most 64.
    pub levels: Levels,
    /// How coordinates of the part that are finer than a unit are taken.
    pub snap: Snap,
    /// How deep a feed may cut at a time: it removes no point of a column that lies this much or more
    /// under the column's top. From 0 to the unit's greatest coordinate; 0 means no limit.
    pub max_cut: i32,
    /// What holds the cutter, where that is watched; it is wider than the cutter.
    pub holder: Option<Solid>,
    /// How much the straight ways between the places of a plan's finishing path may run over the drop
    /// heights under them, the lift aside, from 0 to 10,000; with `None` the path comes to each node of
    /// its lattice instead.
    pub path_tol: Option<i32>,
    /// How far the machine's tip may be from where the program says, at each moment, from 0 to 200.
    pub slack: i32,
    /// How deep a part point may lie inside the cutter and be no gouge, from 0 to 500.
    pub overcut: i32,
    /// How deep a stock point may lie inside the cutter and be shaved off by a rapid, and count as
    /// no depth, from 0 to 500; with `None` it is as [`Job::graze`](crate::Job::graze) says.
    pub graze: Option<i32>,
    /// What stands on the machine beside the stock, as clamps, a vice or pins, at most 64 boxes,
    /// each from below up to its height. The cutter passes over all of them at the clear height,
    /// with the slack around it.
    pub keep_out: Fixtures,
    /// How the machine moves its rapids.
    pub rapids: Rapids,
    /// From where a program starts.
    pub start: Start,
    /// Whether a program has to start the spindle, and to say how fast it feeds, before it feeds.
    pub spindle: bool,
    /// Which words programs have.
    pub words: Words,
    /// How far over the depth before a peck's way back down ends at least, from 0 to 10,000; with
    /// `None` a quarter of a millimetre.
    pub peck_clearance: Option<i32>,
    /// What the machine does with the lengths of its tools.
    pub lengths: ToolLengths,
    /// By how many units the distances of an arc's start and end from its centre may differ, from 1
    /// to 100, and at least two less than the slack; with `None` it is as
    /// [`Job::arc_tolerance`](crate::Job::arc_tolerance) says.
    pub arc_tol: Option<i32>,
}
