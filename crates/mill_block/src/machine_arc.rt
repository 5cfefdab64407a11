//! An arc that a line for a machine makes: what its words have to show, and its moves along chords.
ghost use Rattle.std.specs.Prelude.{◌≡◌, ◌≢◌, ◌≤◌, ◌++◌, ◌*◌, ◌^◌, map, OnOk, OnErr, IfErr, IfOk};
ghost use Rattle.std.specs.Prelude.{IfSome, Ok, Err, pos, true, All as AllAre};
ghost use Rattle.std.specs.List.{list_all};
ghost use Rattle.mill_base.specs.Numbers.{Within};
ghost use Rattle.mill_base.specs.Ranges.{IsInUnitRange};
ghost use Rattle.mill_base.specs.Units.{greatest_of};
ghost use Rattle.mill_base.specs.declared.limits.TheConstants.{MAX_COORDINATE};
ghost use Rattle.mill_words.specs.Words.{FitsNum};
ghost use Rattle.mill_arc.specs.Arcs.{is_sound};
ghost use Rattle.mill_arc.specs.Chords.{IsPlaceable, chords_of};
ghost use Rattle.mill_control.specs.Drilled.{ends_at};
ghost use Rattle.mill_control.specs.Unrounded.{is_nano as is_nano_parts, text_of, text_units};
ghost use Rattle.mill_block.specs.MachineArcs.{words_fit as words_fit_line};
ghost use Rattle.mill_block.specs.MachineArcs.{holds_arcs as holds_arcs_control};
ghost use Rattle.mill_block.specs.MachineArcs.{chord_end as chord_end_of, fed, sweep_of};
ghost use Rattle.mill_block.specs.MachineArcs.{first_offset as first_offset_of};
ghost use Rattle.mill_block.specs.MachineArcs.{second_offset as second_offset_of};
ghost use Rattle.mill_block.specs.MachineArcs.{third_offset as third_offset_of};
ghost use Rattle.mill_block.specs.MachineArcs.{offset_fits as offset_fits_line};
ghost use Rattle.mill_block.specs.MachineArcs.{names_one_centre as names_one_centre_line};
ghost use Rattle.mill_block.specs.MachineArcs.{centre_fits as centre_fits_line};
ghost use Rattle.mill_block.specs.MachineArcs.{ends_fit as ends_fit_line};
ghost use Rattle.mill_block.specs.MachineArcs.{are_nano as are_nano_line, is_nano_place};
ghost use Rattle.mill_block.specs.MachineArcs.{is_rounded as is_rounded_number};
ghost use Rattle.mill_block.specs.MachineArcs.{is_rounded_place as is_rounded_point};
ghost use Rattle.mill_block.specs.MachineArcs.{nano_offset as nano_offset_of, offset_of};
ghost use Rattle.mill_block.specs.MachineArcs.{in_plane as in_plane_of, minus as minus_of};
ghost use Rattle.mill_block.specs.MachineArcs.{along as along_of, nano_place};
ghost use Rattle.mill_block.specs.MachineArcs.{is_counterclockwise as is_counterclockwise_turn};
ghost use Rattle.mill_block.specs.MachineArcs.{sweep_between as sweep_from};
ghost use Rattle.mill_arc.specs.Vectors.{plus as plus_of};
ghost use Rattle.mill_block.specs.MachineLines.{turned, points_of, went_round};
ghost use Rattle.mill_block.specs.MachineLines.{is_in_range as is_point};
ghost use Rattle.mill_block.specs.MachineLines.{is_coordinate as is_coordinate_of};
ghost use Rattle.mill_block.specs.MachineLines.{target_for as target_for_control};
ghost use Rattle.mill_block.specs.MachineSettings.{per_of};
ghost use Rattle.mill_block.specs.TextPlaces.{exact_here, text_or, text_target};
ghost use Rattle.mill_block.specs.Motion.{known_of};
ghost use Rattle.mill_block.specs.declared.progress.Known.TheVariants.{All};
ghost use Rattle.mill_block.specs.Kept.{Adds, FitsProgress};
ghost use Rattle.mill_said.specs.declared.fault.NgcFault.TheVariants as faults;
ghost use Rattle.mill_said.specs.declared.rules.Control.{Control};
ghost use Rattle.mill_said.specs.Bounds.{FitsTold};
ghost use Rattle.mill_said.specs.MachineTakes.{is_at_most as is_at_most_units};
ghost use Rattle.mill_block.specs.inner.Bounds.{Stays};
ghost use Rattle.mill_block.specs.inner.Finers.{finer_or as finer_or_here};
ghost use Rattle.mill_block.specs.inner.Sweeps.{FitCoordinates, FitsSweep, IsPointWithin, IsWithin};
ghost use Rattle.mill_block.specs.inner.Sweeps.{NANO, point_of, texts_of};

use crate::motion::add;
use crate::progress::Progress;
use mill_arc::{Arc, Chord, MAX_TOLERANCE, Vector, height, place};
use mill_base::{Kind, MAX_MOVES, Move, Pt3, Unit};
use mill_control::{Coordinate, Plane, Turn, finer, is_nano_number, rounded};
use mill_said::{Control, MachineSaid, NgcFault, is_at_most, is_nought};
use mill_words::Num;
use std::alloc::Global;

/// Half a unit, in parts of 10^18.
const HALF_UNIT: i64 = 500_000_000_000_000_000;

/// An arc at its place, in nanometres.
#[derive(Clone, Copy)]
pub(crate) struct Sweep {
    pub arc: Arc,
    /// Its centre, along the first and the second axis of its plane.
    pub centre: Vector,
    /// Where it begins along the third one, and where it ends.
    pub from: i64,
    pub to: i64,
}

/// A place by a text's own numbers.
#[derive(Clone, Copy)]
struct Coordinates {
    x: Coordinate,
    y: Coordinate,
    z: Coordinate,
}

/// A point in nanometres, or one in units that may be out of range.
#[derive(Clone, Copy)]
struct WidePoint {
    x: i64,
    y: i64,
    z: i64,
}

impl Progress {
    /// Goes round the arc of a line, and adds its moves to `out`.
    #[tactic(auto, unfolding(crate::specs::MachineLines::turned))]
    pub fn go_round(
        &mut self,
        control: Control,
        said: &MachineSaid,
        turn: Turn,
        out: &mut Vec<Move>,
    ) -> Result<(), NgcFault>
        requires said { FitsTold said.now }
        requires here { IsInUnitRange self.old.unit self.old.here }
        requires fits { FitsProgress self.old }
        requires place { known_of self.old ≡ All }
        ensures ok { OnOk result (Adds (turned control self.old said.now turn)
            self.old out.old.items self.new out.new.items) }
        ensures fault { IfErr result (λ f. f ≢ faults.WantOfMemory →
            turned control self.old said.now turn ≡ Err f) }
        ensures kept { OnErr result (out.new.items ≡ out.old.items) }
        ensures stays { Stays self.old self.new }
    {
        if control.arc_room >= 0 && self.machine.wide_path {
            return Err(NgcFault::PathControl { line: self.line });
        }
        if !self.words_fit(control, said) {
            return Err(NgcFault::Arc { line: self.line });
        }
        let to = self.target_for(control, said)?;
        let sweep = self.sweep(control, said, turn, to);
        let chords = self.chords_of(sweep, *out.allocator())?;
        if !self.are_in_range(sweep, &chords) {
            return Err(NgcFault::OutOfRange { line: self.line });
        }
        self.follow(sweep, &chords, out)
    }

    // Whether its words show an arc: there is room for it, its centre is named along its plane and
    // in no other way, and all of its numbers are whole nanometres.
    fn words_fit(&self, control: Control, said: &MachineSaid) -> bool
        requires said { FitsTold said.now }
        requires here { IsInUnitRange self.now.unit self.now.here }
        requires fits { FitsProgress self.now }
        ensures { result ≡ words_fit_line control self.now said.now }
    {
        (holds_arcs(control) && self.names_one_centre(said))
            && (self.centre_fits(said) && self.ends_fit(said))
    }

    fn names_one_centre(&self, said: &MachineSaid) -> bool
        requires { FitsTold said.now }
        ensures { result ≡ names_one_centre_line self.now said.now }
    {
        said.r.is_none()
            && (is_nought(self.third_offset(said))
                && (self.first_offset(said).is_some() || self.second_offset(said).is_some()))
    }

    // Where the centre is from the start, along the axes of the plane.
    fn first_offset(&self, said: &MachineSaid) -> Option<Num>
        requires said { FitsTold said.now }
        ensures value { result ≡ first_offset_of self.now said.now }
        ensures fits { IfSome result (FitsNum 18) }
    {
        self.machine.plane.first(said.i, said.j, said.k)
    }

    fn second_offset(&self, said: &MachineSaid) -> Option<Num>
        requires said { FitsTold said.now }
        ensures value { result ≡ second_offset_of self.now said.now }
        ensures fits { IfSome result (FitsNum 18) }
    {
        self.machine.plane.second(said.i, said.j, said.k)
    }

    fn third_offset(&self, said: &MachineSaid) -> Option<Num>
        ensures { result ≡ third_offset_of self.now said.now }
    {
        self.machine.plane.third(said.i, said.j, said.k)
    }

    fn centre_fits(&self, said: &MachineSaid) -> bool
        requires said { FitsTold said.now }
        ensures { result ≡ centre_fits_line self.now said.now }
    {
        self.offset_fits(self.first_offset(said)) && self.offset_fits(self.second_offset(said))
    }

    // Whether it is no greater than a coordinate, and a whole number of nanometres.
    fn offset_fits(&self, offset: Option<Num>) -> bool
        requires offset { IfSome offset (FitsNum 18) }
        ensures { result ≡ offset_fits_line self.now offset }
    {
        match offset {
            Some(num) => {
                is_at_most(self.per(), self.unit.greatest(), num)
                    && is_nano_number(num, self.per(), self.unit)
            }
            None => true,
        }
    }

    // Whether start and end are whole nanometres, and the start lies in the list where it is
    // rounded to.
    fn ends_fit(&self, said: &MachineSaid) -> bool
        requires said { FitsTold said.now }
        requires here { IsInUnitRange self.now.unit self.now.here }
        requires fits { FitsProgress self.now }
        ensures { result ≡ ends_fit_line self.now said.now }
    {
        self.are_nano(said) && self.is_rounded()
    }

    fn are_nano(&self, said: &MachineSaid) -> bool
        requires said { FitsTold said.now }
        requires here { IsInUnitRange self.now.unit self.now.here }
        requires fits { FitsProgress self.now }
        ensures { result ≡ are_nano_line self.now said.now }
    {
        let here = self.exact_place();
        here.is_nano(self.unit) && self.is_nano_end(here, said)
    }

    fn is_nano_end(&self, here: Coordinates, said: &MachineSaid) -> bool
        requires said { FitsTold said.now }
        ensures { result ≡ is_nano_place self.now.unit
            (text_target self.now (texts_of here) said.now) }
    {
        self.is_nano_or(here.x, said.x)
            && (self.is_nano_or(here.y, said.y) && self.is_nano_or(here.z, said.z))
    }

    fn is_nano_or(&self, here: Coordinate, num: Option<Num>) -> bool
        requires num { IfSome num (FitsNum 18) }
        ensures { result ≡ is_nano_parts self.now.unit
            (text_or (per_of self.now) (text_of here) num) }
    {
        match num {
            Some(num) => is_nano_number(num, self.per(), self.unit),
            None => here.is_nano(self.unit),
        }
    }

    fn is_rounded(&self) -> bool
        ensures { result ≡ is_rounded_point self.now.here self.now.machine.finer }
    {
        let finer = self.machine.finer;
        is_rounded(self.here.x, finer.x)
            && (is_rounded(self.here.y, finer.y) && is_rounded(self.here.z, finer.z))
    }

    // The present place, by the text's own numbers.
    fn exact_place(&self) -> Coordinates
        requires here { IsInUnitRange self.now.unit self.now.here }
        requires fits { FitsProgress self.now }
        ensures text { texts_of result ≡ exact_here self.now }
        ensures fits { FitCoordinates self.now.unit result }
    {
        Coordinates {
            x: Coordinate {
                units: self.here.x,
                finer: self.machine.finer.x,
            },
            y: Coordinate {
                units: self.here.y,
                finer: self.machine.finer.y,
            },
            z: self.height(),
        }
    }

    // The arc of the line, whose end has these units.
    fn sweep(&self, control: Control, said: &MachineSaid, turn: Turn, to: Pt3) -> Sweep
        requires said { FitsTold said.now }
        requires here { IsInUnitRange self.now.unit self.now.here }
        requires fits { FitsProgress self.now }
        requires words { words_fit_line control self.now said.now ≡ true }
        requires to { target_for_control control self.now said.now ≡ Ok to }
        requires end { IsInUnitRange self.now.unit to }
        ensures value { result ≡ sweep_of control self.now said.now turn }
        ensures fits { FitsSweep result }
    {
        let start = self.exact_place().nano(self.unit);
        let end = self.exact_end(said, to).nano(self.unit);
        let offset = self.offset(said);
        let plane = self.machine.plane;
        sweep_between(control, self.unit, plane, turn, start, end, offset)
    }

    // The line's end by the text's own numbers, which has these units.
    fn exact_end(&self, said: &MachineSaid, to: Pt3) -> Coordinates
        requires said { FitsTold said.now }
        requires fits { FitsProgress self.now }
        requires end { IsInUnitRange self.now.unit to }
        ensures text { (c : Control) → target_for_control c self.now said.now ≡ Ok to →
            texts_of result ≡ text_target self.now (exact_here self.now) said.now }
        ensures fits { FitCoordinates self.now.unit result }
    {
        let finer = self.machine.finer;
        Coordinates {
            x: self.end_coordinate(to.x, finer.x, said.x),
            y: self.end_coordinate(to.y, finer.y, said.y),
            z: self.end_coordinate(to.z, finer.z, said.z),
        }
    }

    // A coordinate of the end, which has these units, where that of the start has so much beside.
    fn end_coordinate(&self, units: i32, here: i64, num: Option<Num>) -> Coordinate
        requires num { IfSome num (FitsNum 18) }
        requires here { Within (5 * 10 ^ 17) here }
        ensures value { result ≡
            record { units = units; finer = finer_or_here (per_of self.now) here num } }
        ensures finer { Within (5 * 10 ^ 17) result.finer }
    {
        Coordinate {
            units,
            finer: self.finer_or(here, num),
        }
    }

    // From the start to the centre.
    fn offset(&self, said: &MachineSaid) -> Vector
        requires said { FitsTold said.now }
        requires centre { centre_fits_line self.now said.now ≡ true }
        ensures value { result ≡ offset_of self.now said.now }
        ensures bound { IsWithin NANO result }
    {
        Vector {
            first: self.nano_offset(self.first_offset(said)),
            second: self.nano_offset(self.second_offset(said)),
        }
    }

    // An offset in nanometres.
    fn nano_offset(&self, offset: Option<Num>) -> i64
        requires num { IfSome offset (FitsNum 18) }
        requires fits { offset_fits_line self.now offset ≡ true }
        ensures value { result ≡ nano_offset_of self.now offset }
        ensures bound { Within NANO result }
    {
        match offset {
            Some(num) => self.offset_coordinate(num).nano(self.unit),
            None => 0,
        }
    }

    #[tactic(auto, using(crate::proofs::ArcNumbers::offset_within))]
    fn offset_coordinate(&self, num: Num) -> Coordinate
        requires num { FitsNum 18 num }
        requires fits { is_at_most_units (per_of self.now) (pos (greatest_of self.now.unit)) num
            ≡ true }
        ensures text { text_of result ≡ text_units (per_of self.now) num }
        ensures units { Within (greatest_of self.now.unit) result.units }
        ensures finer { Within (5 * 10 ^ 17) result.finer }
    {
        Coordinate {
            units: rounded(num, self.per()) as i32,
            finer: finer(num, self.per()),
        }
    }

    // The chords of its turn, where its start and its end lie on one circle.
    #[tactic(auto, unfolding(crate::specs::MachineLines::points_of))]
    fn chords_of(&self, sweep: Sweep, alloc: Global) -> Result<Vec<Chord>, NgcFault>
        requires arc { FitsSweep sweep }
        ensures sound { OnOk result (is_sound sweep.arc ≡ true) }
        ensures chords { IfOk result (λ chords. chords_of sweep.arc ≡ Some chords.items) }
        ensures placeable { IfOk result (λ chords. AllAre IsPlaceable chords.items) }
        ensures fault { IfErr result (λ f. f ≢ faults.WantOfMemory →
            points_of self.now sweep ≡ Err f) }
    {
        let mut chords = Vec::new(alloc);
        if !sweep.arc.is_sound() || !sweep.arc.chords(&mut chords)? {
            return Err(NgcFault::Arc { line: self.line });
        }
        Ok(chords)
    }

    // Whether each chord ends in range.
    fn are_in_range(&self, sweep: Sweep, chords: &[Chord]) -> bool
        requires sweep { FitsSweep sweep }
        requires placeable { AllAre IsPlaceable chords.now }
        ensures { result ≡ list_all (is_point self.now.unit)
            (map (chord_end_of self.now.machine.plane sweep) chords.now) }
    {
        for chord in chords {
            if !self.is_in_range(sweep.chord_end(self.machine.plane, *chord)) {
                return false;
            }
        }
        true
    }

    // Whether a point's coordinates are ones that a text may give.
    fn is_in_range(&self, at: WidePoint) -> bool
        ensures { result ≡ is_point self.now.unit (point_of at) }
    {
        self.is_coordinate(at.x) && (self.is_coordinate(at.y) && self.is_coordinate(at.z))
    }

    fn is_coordinate(&self, at: i64) -> bool
        ensures { result ≡ is_coordinate_of self.now.unit at }
    {
        at.unsigned_abs() <= u64::from(self.unit.greatest().unsigned_abs())
    }

    // Adds feeds along the chords, unless they are too many.
    fn follow(
        &mut self,
        sweep: Sweep,
        chords: &[Chord],
        out: &mut Vec<Move>,
    ) -> Result<(), NgcFault>
        requires sweep { FitsSweep sweep }
        requires unit { sweep.arc.unit ≡ self.old.unit }
        requires placeable { AllAre IsPlaceable chords.now }
        requires range { list_all (is_point self.old.unit)
            (map (chord_end_of self.old.machine.plane sweep) chords.now) ≡ true }
        requires here { IsInUnitRange self.old.unit self.old.here }
        requires place { known_of self.old ≡ All }
        ensures ok { OnOk result (Adds (went_round self.old
            (map (chord_end_of self.old.machine.plane sweep) chords.now))
            self.old out.old.items self.new out.new.items) }
        ensures fault { IfErr result (λ f. f ≢ faults.WantOfMemory →
            went_round self.old (map (chord_end_of self.old.machine.plane sweep) chords.now)
            ≡ Err f) }
        ensures kept { OnErr result (out.new.items ≡ out.old.items) }
        ensures stays { Stays self.old self.new }
    {
        let most = MAX_MOVES as u64;
        let count = chords.len() as u64;
        if self.moves > most || count > most - self.moves {
            return Err(NgcFault::TooManyMoves { line: self.line });
        }
        self.here = add_chords(sweep, self.machine.plane, self.here, chords, out)?;
        self.positioned = true;
        self.moves += count;
        Ok(())
    }
}

impl Coordinates {
    // Whether it is a whole number of nanometres.
    fn is_nano(self, unit: Unit) -> bool
        ensures { result ≡ is_nano_place unit (texts_of self) }
    {
        self.x.is_nano(unit) && (self.y.is_nano(unit) && self.z.is_nano(unit))
    }

    // Where it is in nanometres, of which it is a whole number.
    fn nano(self, unit: Unit) -> WidePoint
        requires whole { is_nano_place unit (texts_of self) ≡ true }
        requires fits { FitCoordinates unit self }
        ensures value { point_of result ≡ nano_place unit (texts_of self) }
        ensures bound { IsPointWithin NANO result }
    {
        WidePoint {
            x: self.x.nano(unit),
            y: self.y.nano(unit),
            z: self.z.nano(unit),
        }
    }
}

impl WidePoint {
    // The same point, where it is in range.
    fn narrow(self) -> Pt3
        requires { IsPointWithin MAX_COORDINATE self }
        ensures { result ≡ point_of self }
    {
        Pt3 {
            x: self.x as i32,
            y: self.y as i32,
            z: self.z as i32,
        }
    }
}

impl Sweep {
    // The end of a chord, in units.
    fn chord_end(self, plane: Plane, chord: Chord) -> WidePoint
        requires sweep { FitsSweep self }
        requires chord { IsPlaceable chord }
        ensures { point_of result ≡ chord_end_of plane self chord }
    {
        let (first, second) = place(self.centre, chord.node, self.arc.unit);
        let third = height(self.from, self.to, chord, self.arc.unit);
        WidePoint {
            x: plane.x(first, second, third),
            y: plane.y(first, second, third),
            z: plane.z(first, second, third),
        }
    }
}

// The arc from one point to another, whose centre is so far from the first.
fn sweep_between(
    control: Control,
    unit: Unit,
    plane: Plane,
    turn: Turn,
    start: WidePoint,
    end: WidePoint,
    offset: Vector,
) -> Sweep
    requires control { holds_arcs_control control ≡ true }
    requires start { IsPointWithin NANO start }
    requires end { IsPointWithin NANO «end» }
    requires offset { IsWithin NANO offset }
    ensures value { result ≡
        sweep_from control unit plane turn (point_of start) (point_of «end») offset }
    ensures fits { FitsSweep result }
{
    let from = in_plane(plane, start);
    let to = in_plane(plane, end);
    let centre = plus(from, offset);
    Sweep {
        arc: Arc {
            start: minus(from, centre),
            end: minus(to, centre),
            counterclockwise: is_counterclockwise(turn),
            unit,
            tolerance: control.arc_tolerance,
        },
        centre,
        from: along(plane, start),
        to: along(plane, end),
    }
}

fn is_counterclockwise(turn: Turn) -> bool
    ensures { result ≡ is_counterclockwise_turn turn }
{
    matches!(turn, Turn::Counterclockwise)
}

// A point's coordinate along the third axis.
fn along(plane: Plane, at: WidePoint) -> i64
    requires { IsPointWithin NANO at }
    ensures value { result ≡ along_of plane (point_of at) }
    ensures bound { Within NANO result }
{
    plane.third(at.x, at.y, at.z)
}

// A point by the axes of a plane.
fn in_plane(plane: Plane, at: WidePoint) -> Vector
    requires { IsPointWithin NANO at }
    ensures value { result ≡ in_plane_of plane (point_of at) }
    ensures bound { IsWithin NANO result }
{
    Vector {
        first: plane.first(at.x, at.y, at.z),
        second: plane.second(at.x, at.y, at.z),
    }
}

fn plus(one: Vector, other: Vector) -> Vector
    requires one { IsWithin NANO one }
    requires other { IsWithin NANO other }
    ensures value { result ≡ plus_of one other }
    ensures bound { IsWithin (2 * NANO) result }
{
    Vector {
        first: one.first + other.first,
        second: one.second + other.second,
    }
}

fn minus(one: Vector, other: Vector) -> Vector
    requires one { IsWithin NANO one }
    requires other { IsWithin (2 * NANO) other }
    ensures { result ≡ minus_of one other }
{
    Vector {
        first: one.first - other.first,
        second: one.second - other.second,
    }
}

// Whether numbers are rounded, and there is room for arcs, by a tolerance that arcs have.
fn holds_arcs(control: Control) -> bool
    ensures { result ≡ holds_arcs_control control }
{
    (control.rounds && control.arc_room >= 0)
        && (1 <= control.arc_tolerance && control.arc_tolerance <= MAX_TOLERANCE)
}

// Whether these units are the number, rounded: from the midst between two units away from zero.
#[tactic(auto, unfolding(crate::specs::MachineArcs::is_rounded))]
fn is_rounded(units: i32, finer: i64) -> bool
    ensures { result ≡ is_rounded_number units finer }
{
    (finer < HALF_UNIT || units < 0) && (-HALF_UNIT < finer || 0 < units)
}

// Adds feeds from here along the chords, and tells where they end. Where the memory doesn't
// suffice, it adds none.
fn add_chords(
    sweep: Sweep,
    plane: Plane,
    here: Pt3,
    chords: &[Chord],
    out: &mut Vec<Move>,
) -> Result<Pt3, NgcFault>
    requires sweep { FitsSweep sweep }
    requires placeable { AllAre IsPlaceable chords.now }
    requires range { list_all (is_point sweep.arc.unit)
        (map (chord_end_of plane sweep) chords.now) ≡ true }
    ensures moves { OnOk result (out.new.items
        ≡ out.old.items ++ fed here (map (chord_end_of plane sweep) chords.now)) }
    ensures end { IfOk result (λ end. end
        ≡ ends_at here (fed here (map (chord_end_of plane sweep) chords.now))) }
    ensures fault { IfErr result (λ f. f ≡ faults.WantOfMemory) }
    ensures kept { OnErr result (out.new.items ≡ out.old.items) }
{
    let first = out.len();
    let mut at = here;
    for chord in chords {
        let to = sweep.chord_end(plane, *chord).narrow();
        let made = Move {
            kind: Kind::Feed,
            from: at,
            to,
        };
        if add(out, made).is_err() {
            out.truncate(first);
            return Err(NgcFault::WantOfMemory);
        }
        at = to;
    }
    Ok(at)
}
