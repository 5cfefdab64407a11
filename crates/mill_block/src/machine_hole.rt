//! A hole that a line of a drilling cycle makes.
ghost use Rattle.std.specs.Prelude.{◌≡◌, ◌≢◌, ◌≤ℤ◌, ◌*◌, ◌^◌, ◌+ℤ◌, ◌*ℤ◌, ◌++◌, pos, true};
ghost use Rattle.std.specs.Prelude.{OnOk, OnErr, IfOk, IfErr, Ok};
ghost use Rattle.std.specs.Prelude.{Err, IfSome};
ghost use Rattle.mill_base.specs.Ranges.{IsInUnitRange};
ghost use Rattle.mill_words.specs.Words.{FitsNum};
ghost use Rattle.mill_control.specs.Drilled.{IsHole};
ghost use Rattle.mill_control.specs.Drilled.{FitsSeries};
ghost use Rattle.mill_control.specs.Unrounded.{parts, text_of};
ghost use Rattle.mill_control.specs.declared.hole.Hole.{Hole};
ghost use Rattle.mill_base.specs.Numbers.{Within};
ghost use Rattle.mill_block.specs.TextPlaces.{exact_here};
ghost use Rattle.mill_block.specs.MachineLines.{text_end, text_over_hole};
ghost use Rattle.mill_said.specs.declared.rules.Control.{Control};
ghost use Rattle.mill_block.specs.MachineLines.{drills_hole, is_drillable};
ghost use Rattle.mill_block.specs.MachineLines.{is_level as is_level_plane};
ghost use Rattle.mill_block.specs.MachineLines.{series_for as series_for_line};
ghost use Rattle.mill_block.specs.MachineLines.{rounded_or as rounded_or_here};
ghost use Rattle.mill_block.specs.MachineLines.{hole_for as hole_for_line};
ghost use Rattle.mill_block.specs.MachineLines.{hole_z, number_or as number_or_nought, returns_or};
ghost use Rattle.mill_block.specs.MachineLines.{peck_fits as peck_fits_grid, hole_of, drilled};
ghost use Rattle.mill_block.specs.Motion.{known_of};
ghost use Rattle.mill_block.specs.declared.progress.Known.TheVariants.{All};
ghost use Rattle.mill_block.specs.Kept.{Adds, FitsProgress};
ghost use Rattle.mill_said.specs.declared.fault.NgcFault.TheVariants as faults;
ghost use Rattle.mill_said.specs.Bounds.{FitsTold};

use crate::progress::Progress;
use mill_base::{MAX_MOVES, Move, Pt3};
use mill_control::{
    Coordinate, Cycle, Hole, Plane, Return, Series, count_hole, drill, finer, higher, is_whole,
    rounded,
};
use mill_said::{Control, MachineSaid, NgcFault};
use mill_words::Num;

impl Progress {
    /// Drills the hole of a line of this cycle, and adds its moves to `out`.
    #[tactic(auto, unfolding(crate::specs::MachineLines::drills_hole))]
    pub fn drill_hole(
        &mut self,
        control: Control,
        said: &MachineSaid,
        cycle: Cycle,
        out: &mut Vec<Move>,
    ) -> Result<(), NgcFault>
        requires said { FitsTold said.now }
        requires here { IsInUnitRange self.old.unit self.old.here }
        requires fits { FitsProgress self.old }
        requires place { known_of self.old ≡ All }
        ensures ok { OnOk result (Adds (drills_hole control self.old said.now cycle)
            self.old out.old.items self.new out.new.items) }
        ensures fault { IfErr result (λ f. f ≢ faults.WantOfMemory →
            drills_hole control self.old said.now cycle ≡ Err f) }
        ensures kept { OnErr result (out.new.items ≡ out.old.items) }
        ensures fits { FitsProgress self.new }
    {
        let series = self.series_for(said, cycle);
        if !self.may_drill(said, series) {
            return Err(NgcFault::Cycle { line: self.line });
        }
        let hole = self.hole_for(control, said, series)?;
        self.drill_in(series, hole, out)
    }

    /// What the height behind the line's hole has beside its units, by the text's own numbers. It
    /// is so where the height of R is in range: else the line is refused.
    pub fn finer_over_hole(&self, said: &MachineSaid, cycle: Cycle) -> i64
        requires said { FitsTold said.now }
        requires fits { FitsProgress self.now }
        ensures exact { (c : Control) (h : Hole) →
            is_drillable self.now said.now (series_for_line self.now said.now cycle) ≡ true →
            hole_for_line c self.now said.now (series_for_line self.now said.now cycle) ≡ Ok h →
            ((parts *ℤ h.end) +ℤ result) ≡ (text_over_hole self.now (exact_here self.now) said.now
            (series_for_line self.now said.now cycle)).z }
        ensures bound { Within (5 * 10 ^ 17) result }
    {
        let top = number_or(self.series_for(said, cycle).r);
        let Ok(units) = i32::try_from(rounded(top, self.per())) else {
            return 0;
        };
        let over = Coordinate {
            units,
            finer: finer(top, self.per()),
        };
        end_over(self.machine.returns, over, self.height()).finer
    }

    // The series with the numbers of the line.
    fn series_for(&self, said: &MachineSaid, cycle: Cycle) -> Series
        requires said { FitsTold said.now }
        requires fits { FitsProgress self.now }
        ensures value { result ≡ series_for_line self.now said.now cycle }
        ensures fits { FitsSeries result }
    {
        Series::begun(self.machine.series, cycle, self.here.z).with_numbers(said.r, said.z, said.q)
    }

    // Whether every control makes the same moves of the line's hole.
    fn may_drill(&self, said: &MachineSaid, series: Series) -> bool
        requires said { FitsTold said.now }
        requires series { FitsSeries series }
        requires here { IsInUnitRange self.now.unit self.now.here }
        ensures { result ≡ is_drillable self.now said.now series }
    {
        let x = self.rounded_or(self.here.x, said.x);
        let y = self.rounded_or(self.here.y, said.y);
        is_level(self.machine.plane)
            && series.may_drill(self.machine.returns, self.per(), self.here, x, y)
    }

    // A number in units, or a coordinate of the present point.
    fn rounded_or(&self, here: i32, num: Option<Num>) -> i128
        requires { IfSome num (FitsNum 18) }
        ensures { result ≡ rounded_or_here self.now here num }
    {
        match num {
            Some(num) => rounded(num, self.per()),
            None => i128::from(here),
        }
    }

    // The hole of the line, where it may be drilled.
    #[tactic(auto, unfolding(crate::specs::MachineLines::hole_for))]
    fn hole_for(
        &self,
        control: Control,
        said: &MachineSaid,
        series: Series,
    ) -> Result<Hole, NgcFault>
        requires said { FitsTold said.now }
        requires series { FitsSeries series }
        requires here { IsInUnitRange self.now.unit self.now.here }
        requires may { is_drillable self.now said.now series ≡ true }
        ensures value { result ≡ hole_for_line control self.now said.now series }
        ensures hole { IfOk result IsHole }
        ensures from { IfOk result (λ h. h.from ≡ self.now.here) }
        ensures unit { IfOk result (λ h. h.unit ≡ self.now.unit) }
    {
        let x = self.coordinate_for(control, self.here.x, said.x)?;
        let y = self.coordinate_for(control, self.here.y, said.y)?;
        let _bottom = self.coordinate_for(control, self.here.z, series.z)?;
        let top = self.coordinate_for(control, self.here.z, series.r)?;
        self.check_peck(control, said.q)?;
        let hole = self.hole_at(control, series, x, y, top);
        Ok(hole)
    }

    // A peck that is finer than the grid is a fault where nothing is rounded.
    fn check_peck(&self, control: Control, num: Option<Num>) -> Result<(), NgcFault>
        requires { IfSome num (FitsNum 18) }
        ensures { result ≡ peck_fits_grid control self.now num }
    {
        match num {
            Some(num) if !(control.rounds || is_whole(num, self.per())) => {
                Err(NgcFault::OffGrid { line: self.line })
            }
            _ => Ok(()),
        }
    }

    fn hole_at(&self, control: Control, series: Series, x: i32, y: i32, top: i32) -> Hole
        ensures value { result ≡ hole_of control self.now series x y top }
        ensures most { result.peck_clearance ≤ℤ pos 65535 }
    {
        Hole {
            from: self.here,
            x,
            y,
            cycle: series.cycle,
            r: number_or(series.r),
            z: number_or(series.z),
            q: series.q,
            unit: self.unit,
            lengths: self.lengths(),
            peck_clearance: i32::from(control.peck_clearance),
            end: hole_end_z(series.level, self.machine.returns, top),
        }
    }

    // Adds the hole's moves, unless they are too many.
    fn drill_in(&mut self, series: Series, hole: Hole, out: &mut Vec<Move>) -> Result<(), NgcFault>
        requires series { FitsSeries series }
        requires fits { FitsProgress self.old }
        requires hole { IsHole hole }
        requires place { known_of self.old ≡ All }
        requires from { hole.from ≡ self.old.here }
        requires unit { hole.unit ≡ self.old.unit }
        ensures ok { OnOk result (Adds (drilled self.old series hole)
            self.old out.old.items self.new out.new.items) }
        ensures fault { IfErr result (λ f. f ≢ faults.WantOfMemory →
            drilled self.old series hole ≡ Err f) }
        ensures kept { OnErr result (out.new.items ≡ out.old.items) }
        ensures fits { FitsProgress self.new }
    {
        let count = count_hole(hole);
        let most = MAX_MOVES as u64;
        if self.moves > most || count > u128::from(most - self.moves) {
            return Err(NgcFault::TooManyMoves { line: self.line });
        }
        drill(hole, out)?;
        self.here = Pt3 {
            x: hole.x,
            y: hole.y,
            z: hole.end,
        };
        self.positioned = true;
        self.moves += count as u64;
        self.machine.series = Some(series);
        Ok(())
    }
}

// Whether it is the plane across which holes go down.
fn is_level(plane: Plane) -> bool
    ensures { result ≡ is_level_plane plane }
{
    matches!(plane, Plane::Xy)
}

// No other number than this is asked for where a hole may be drilled.
fn number_or(num: Option<Num>) -> Num
    ensures { result ≡ number_or_nought num }
{
    match num {
        Some(num) => num,
        None => Num {
            neg: false,
            mant: 0,
            scale: 0,
        },
    }
}

// The height where the hole ends.
fn hole_end_z(level: i32, returns: Option<Return>, top: i32) -> i32
    ensures { result ≡ hole_z level (returns_or returns) top }
{
    match returns {
        Some(Return::Level) => top.max(level),
        _ => top,
    }
}

// The same by the text's own numbers, where R is at the one height and the tool at the other.
fn end_over(returns: Option<Return>, top: Coordinate, here: Coordinate) -> Coordinate
    requires top { Within (5 * 10 ^ 17) top.finer }
    requires here { Within (5 * 10 ^ 17) here.finer }
    ensures text { text_of result ≡ text_end (returns_or returns) (text_of top) (text_of here) }
    ensures units { result.units ≡ hole_z here.units (returns_or returns) top.units }
    ensures finer { Within (5 * 10 ^ 17) result.finer }
{
    match returns {
        Some(Return::Level) => higher(top, here),
        _ => top,
    }
}
