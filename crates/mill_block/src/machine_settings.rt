//! What the settings of a line for a machine change.
ghost use Rattle.std.specs.Prelude.{◌≡◌, ◌≤◌, IfSome};
ghost use Rattle.mill_words.specs.Words.{FitsNum};
ghost use Rattle.mill_control.specs.Lengths.{per as per_in};
ghost use Rattle.mill_control.specs.Drilled.{FitsSeries};
ghost use Rattle.mill_block.specs.Drives.{driven_by};
ghost use Rattle.mill_block.specs.MachineSettings.{mode_behind as mode_behind_line};
ghost use Rattle.mill_block.specs.MachineSettings.{cycle_behind as cycle_behind_line};
ghost use Rattle.mill_block.specs.MachineSettings.{turn_behind as turn_behind_line};
ghost use Rattle.mill_block.specs.MachineSettings.{path_per as path_per_line};
ghost use Rattle.mill_block.specs.MachineSettings.{wide_behind as wide_behind_line};
ghost use Rattle.mill_block.specs.MachineSettings.{series_behind as series_behind_line};
ghost use Rattle.mill_block.specs.MachineSettings.{returns_behind as returns_behind_line};
ghost use Rattle.mill_block.specs.MachineSettings.{millimetres_behind as millimetres_behind_line};
ghost use Rattle.mill_block.specs.MachineSettings.{inches_behind as inches_behind_line};
ghost use Rattle.mill_block.specs.MachineSettings.{incremental_behind as incremental_behind_line};
ghost use Rattle.mill_block.specs.MachineSettings.{are_inches as are_inches_lengths, length_told};
ghost use Rattle.mill_block.specs.MachineSettings.{offsets_behind as offsets_behind_line};
ghost use Rattle.mill_block.specs.MachineSettings.{is_of_tool as is_of_tool_line, with_tool};
ghost use Rattle.mill_block.specs.MachineSettings.{with_offsets};
ghost use Rattle.mill_block.specs.MachineSettings.{place_behind as place_behind_line};
ghost use Rattle.mill_block.specs.MachineSettings.{machine_settled, settled_for};
ghost use Rattle.mill_block.specs.MachineSettings.{lengths_of, per_of};
ghost use Rattle.mill_block.specs.MachineSettings.{has_lengths as has_lengths_of};
ghost use Rattle.mill_block.specs.Kept.{FitsProgress};
ghost use Rattle.mill_said.specs.Bounds.{FitsTold};
ghost use Rattle.mill_block.specs.inner.Bounds.{Stays};

use crate::machine::Machine;
use crate::progress::{Drive, Progress};
use mill_base::Unit;
use mill_control::{Cycle, LengthUnit, Offsets, Place, Return, Series, ToolLength, Turn, exact};
use mill_said::{Control, MachineSaid, Mode, Motion, is_at_most};
use mill_words::Num;

impl Progress {
    /// The settings of a line for a machine take effect.
    #[tactic(auto, unfolding(crate::specs::MachineSettings::settled_for))]
    pub fn settle_for_machine(&mut self, control: Control, said: &MachineSaid)
        requires said { FitsTold said.now }
        requires fits { FitsProgress self.old }
        ensures value { self.new ≡ settled_for control self.old said.now }
        ensures fits { FitsProgress self.new }
    {
        let path = path_per(self.unit, said, self.millimetres);
        self.mode = mode_behind(said.motion, said.still, self.mode);
        self.millimetres = millimetres_behind(said.lengths, self.millimetres);
        self.absolute = said.absolute.unwrap_or(self.absolute);
        self.ended = said.ends;
        if self.rules.needs_spindle {
            self.drive = self.drive.behind_machine(said);
        }
        self.machine = self.machine.settled(control, path, said);
    }

    /// The unit of lengths in force: millimetres until there is one.
    pub fn lengths(&self) -> LengthUnit
        ensures { result ≡ lengths_of self.now }
    {
        if self.machine.inches {
            LengthUnit::Inches
        } else {
            LengthUnit::Millimetres
        }
    }

    /// So many units of the grid is a length of 1.
    pub fn per(&self) -> u64
        ensures value { result ≡ per_of self.now }
        ensures few { result ≤ 25400 }
    {
        self.lengths().per(self.unit)
    }

    /// Whether a unit of lengths is in force.
    pub fn has_lengths(&self) -> bool
        ensures { result ≡ has_lengths_of self.now }
    {
        self.millimetres || self.machine.inches
    }
}

impl Drive {
    /// What there is behind a line for a machine that says this.
    fn behind_machine(self, said: &MachineSaid) -> Drive
        ensures { result ≡
            driven_by self said.now.changes said.now.spindle said.now.speed said.now.rate }
    {
        Drive {
            turns: said.spindle.unwrap_or(self.turns && !said.changes),
            speed: said.speed.unwrap_or(self.speed),
            rate: said.rate.unwrap_or(self.rate),
        }
    }
}

impl Machine {
    // Behind a line that says this.
    fn settled(self, control: Control, path: u64, said: &MachineSaid) -> Self
        requires path { path ≤ 25400 }
        requires said { FitsTold said.now }
        requires series { IfSome self.series FitsSeries }
        ensures value { result ≡ machine_settled control path said.now self }
        ensures fits { IfSome result.series FitsSeries }
    {
        let cycle = cycle_behind(said.motion, said.still, self.cycle);
        Machine {
            inches: inches_behind(said.lengths, self.inches),
            incremental: incremental_behind(said.absolute, self.incremental),
            cycle,
            turn: turn_behind(said.motion, said.still, self.turn),
            plane: said.plane.unwrap_or(self.plane),
            wide_path: wide_behind(control.arc_room, path, said, self.wide_path),
            series: series_behind(cycle, self.series),
            returns: returns_behind(said.returns, self.returns),
            place: self.place_behind(control, said),
            offsets: offsets_behind(control.one_length, said, self.offsets),
            late: self.late || (is_of_tool(said) && self.has_named),
            ..self
        }
    }

    // What is known of the tool's place behind it.
    fn place_behind(self, control: Control, said: &MachineSaid) -> Place
        requires { FitsTold said.now }
        ensures { result ≡ place_behind_line control said.now self }
    {
        let offsets = offsets_behind(control.one_length, said, self.offsets);
        let place = behind_tool(self.place, control.change_raises, said);
        behind_offsets(place, self.offsets, offsets)
    }
}

// The straight motion in force behind a line.
fn mode_behind(motion: Option<Motion>, still: bool, mode: Mode) -> Mode
    ensures { result ≡ mode_behind_line motion still mode }
{
    match motion {
        Some(Motion::Goes(kind)) => Mode::On(kind),
        Some(Motion::Drills(_) | Motion::Turns(_)) => Mode::Off,
        None if still => Mode::Off,
        None => mode,
    }
}

// The drilling cycle in force.
fn cycle_behind(motion: Option<Motion>, still: bool, cycle: Option<Cycle>) -> Option<Cycle>
    ensures { result ≡ cycle_behind_line motion still cycle }
{
    match motion {
        Some(Motion::Goes(_) | Motion::Turns(_)) => None,
        Some(Motion::Drills(new)) => Some(new),
        None if still => None,
        None => cycle,
    }
}

// The way round of the arcs in force.
fn turn_behind(motion: Option<Motion>, still: bool, turn: Option<Turn>) -> Option<Turn>
    ensures { result ≡ turn_behind_line motion still turn }
{
    match motion {
        Some(Motion::Goes(_) | Motion::Drills(_)) => None,
        Some(Motion::Turns(new)) => Some(new),
        None if still => None,
        None => turn,
    }
}

// So many units is a length of 1 of a line's tolerance, in millimetres behind it or in inches.
fn path_per(unit: Unit, said: &MachineSaid, millimetres: bool) -> u64
    ensures value { result ≡ path_per_line unit said.now millimetres }
    ensures few { result ≤ 25400 }
{
    if millimetres_behind(said.lengths, millimetres) {
        LengthUnit::Millimetres.per(unit)
    } else {
        LengthUnit::Inches.per(unit)
    }
}

// Whether the path may be left by more units than these behind it.
fn wide_behind(room: i32, per: u64, said: &MachineSaid, before: bool) -> bool
    requires said { FitsTold said.now }
    requires per { per ≤ 25400 }
    ensures { result ≡ wide_behind_line room per said.now before }
{
    if said.tolerates {
        return match said.p {
            Some(num) => !is_at_most(per, room, num),
            None => false,
        };
    }
    before && !said.exact
}

// A series lasts while there is no other motion mode.
fn series_behind(cycle: Option<Cycle>, series: Option<Series>) -> Option<Series>
    requires { IfSome series FitsSeries }
    ensures value { result ≡ series_behind_line cycle series }
    ensures fits { IfSome result FitsSeries }
{
    match cycle {
        Some(_) => series,
        None => None,
    }
}

fn returns_behind(new: Option<Return>, before: Option<Return>) -> Option<Return>
    ensures { result ≡ returns_behind_line new before }
{
    match new {
        Some(_) => new,
        None => before,
    }
}

fn millimetres_behind(lengths: Option<LengthUnit>, before: bool) -> bool
    ensures { result ≡ millimetres_behind_line lengths before }
{
    match lengths {
        Some(lengths) => !are_inches(lengths),
        None => before,
    }
}

fn inches_behind(lengths: Option<LengthUnit>, before: bool) -> bool
    ensures { result ≡ inches_behind_line lengths before }
{
    match lengths {
        Some(lengths) => are_inches(lengths),
        None => before,
    }
}

fn are_inches(lengths: LengthUnit) -> bool
    ensures { result ≡ are_inches_lengths lengths }
{
    matches!(lengths, LengthUnit::Inches)
}

fn incremental_behind(absolute: Option<bool>, before: bool) -> bool
    ensures { result ≡ incremental_behind_line absolute before }
{
    match absolute {
        Some(absolute) => !absolute,
        None => before,
    }
}

// What is in force behind the line. Where all lengths are one, none ever is.
fn offsets_behind(one_length: bool, said: &MachineSaid, offsets: Offsets) -> Offsets
    requires { FitsTold said.now }
    ensures { result ≡ offsets_behind_line one_length said.now offsets }
{
    Offsets {
        length: if one_length {
            offsets.length
        } else {
            length_behind(said.length, said.h, offsets.length)
        },
        zero: said.zero.unwrap_or(offsets.zero),
    }
}

fn length_behind(on: Option<bool>, number: Option<Num>, length: ToolLength) -> ToolLength
    requires { IfSome number (FitsNum 18) }
    ensures { result ≡ length_told on number length }
{
    match (on, number) {
        (None, _) => length,
        (Some(false), _) => ToolLength::Cancelled,
        (Some(true), None) => ToolLength::Unnumbered,
        (Some(true), Some(num)) => ToolLength::Numbered(exact(num)),
    }
}

// Whether a line selects or changes the tool.
fn is_of_tool(said: &MachineSaid) -> bool
    ensures { result ≡ is_of_tool_line said.now }
{
    said.selects || said.changes
}

// Another tool may be in the spindle, and a change may leave it high.
fn behind_tool(place: Place, raises: bool, said: &MachineSaid) -> Place
    ensures { result ≡ with_tool raises said.now place }
{
    if raises && said.changes {
        return place.other_zero().raised();
    }
    if is_of_tool(said) {
        return place.other_zero();
    }
    place
}

// Another length or another zero may be in force.
fn behind_offsets(place: Place, old: Offsets, new: Offsets) -> Place
    ensures { result ≡ with_offsets old new place }
{
    let place = if old.length.is_same(new.length) {
        place
    } else {
        place.other_length()
    };
    if old.zero == new.zero {
        place
    } else {
        place.other_zero()
    }
}
