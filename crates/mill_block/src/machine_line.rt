//! What a line of a program for a machine does: its checks in their order, and its moves.
ghost use Rattle.std.specs.Prelude.{◌≡◌, ◌≢◌, ◌≤ℤ◌, ◌⊎◌, ◌+◌, ◌*◌, ◌^◌, [], ◌∷◌, ◌++◌};
ghost use Rattle.std.specs.Prelude.{List, true, nat_lt};
ghost use Rattle.std.specs.Prelude.{replicate};
ghost use Rattle.std.specs.Prelude.{OnOk, OnErr, IfOk, IfErr, Ok, Err, IfSome};
ghost use Rattle.mill_base.specs.Numbers.{Within};
ghost use Rattle.mill_base.specs.Units.{greatest_of};
ghost use Rattle.mill_base.specs.Ranges.{IsInUnitRange};
ghost use Rattle.mill_words.specs.Words.{FitsNum};
ghost use Rattle.mill_base.specs.declared.motion.Move.{Move};
ghost use Rattle.mill_control.specs.Places.{allows};
ghost use Rattle.mill_control.specs.Unrounded.{text_of};
ghost use Rattle.mill_block.specs.MachineLines.{machine_acted, machine_done, with_stop, stands};
ghost use Rattle.mill_block.specs.MachineLines.{is_idle as is_idle_line, above_of, gone_up, rise};
ghost use Rattle.mill_block.specs.MachineLines.{park};
ghost use Rattle.mill_block.specs.MachineLines.{has_cycle_word as has_cycle_word_said};
ghost use Rattle.mill_block.specs.MachineLines.{up_fits as up_fits_line};
ghost use Rattle.mill_block.specs.MachineLines.{is_safe as is_safe_at, parks as parks_line};
ghost use Rattle.mill_block.specs.MachineLines.{names_by, acts_by, exact_to, went, place_of};
ghost use Rattle.mill_block.specs.MachineLines.{naming_of};
ghost use Rattle.mill_block.specs.MachineLines.{names_height as names_height_said};
ghost use Rattle.mill_block.specs.MachineLines.{acts as acts_line};
ghost use Rattle.mill_block.specs.TextPlaces.{exact_here, text_above};
ghost use Rattle.mill_block.specs.MachineLines.{is_before_tool as is_before_tool_line};
ghost use Rattle.mill_block.specs.MachineLines.{units_for as units_for_control, coordinate_for};
ghost use Rattle.mill_block.specs.MachineLines.{target_for as target_for_control};
ghost use Rattle.mill_block.specs.MachineLines.{gone_to, arrived, waits, still_at};
ghost use Rattle.mill_said.specs.MachineSaid.{is_drills as is_drills_motion};
ghost use Rattle.mill_block.specs.Motion.{known_of};
ghost use Rattle.mill_block.specs.declared.progress.Known.TheVariants.{All};
ghost use Rattle.mill_block.specs.Kept.{Adds, Keeps, FitsFiner, FitsProgress};
ghost use Rattle.mill_said.specs.declared.fault.NgcFault.TheVariants as faults;
ghost use Rattle.mill_said.specs.Bounds.{FitsTold};
ghost use Rattle.mill_block.specs.MachineSettings.{per_of};
ghost use Rattle.mill_block.specs.declared.progress.Progress.{Progress};
ghost use Rattle.mill_block.specs.inner.Bounds.{Stays};
ghost use Rattle.mill_block.specs.inner.Finers.{IsExactly, finer_or as finer_or_here};

use crate::machine::Finer;
use crate::motion::{add, is_rapid};
use crate::progress::{Known, Progress};
use mill_base::{Kind, MAX_MOVES, Move, Pt3};
use mill_control::{Coordinate, Cycle, Naming, Place, finer, higher, is_whole, rounded};
use mill_said::{Control, MachineSaid, Mode, Motion, NgcFault, Up, is_nought};
use mill_words::Num;

impl Progress {
    /// Does what a line for a machine says, and adds the moves that it makes to `out`. A line with
    /// a fault adds nothing, nor one whose moves `out` has no memory for.
    #[tactic(auto, unfolding(crate::specs::MachineLines::machine_acted))]
    pub fn act_for_machine(
        &mut self,
        control: Control,
        said: &MachineSaid,
        out: &mut Vec<Move>,
    ) -> Result<(), NgcFault>
        requires said { FitsTold said.now }
        requires here { IsInUnitRange self.old.unit self.old.here }
        requires fits { FitsProgress self.old }
        ensures ok { OnOk result (Adds (machine_acted control self.old said.now)
            self.old out.old.items self.new out.new.items) }
        ensures fault { IfErr result (λ f. f ≢ faults.WantOfMemory →
            machine_acted control self.old said.now ≡ Err f) }
        ensures kept { OnErr result (out.new.items ≡ out.old.items) }
        ensures fits { FitsProgress self.new }
    {
        self.settle_for_machine(control, said);
        self.do_line(control, said, out)?;
        self.stop_behind(said.stops);
        Ok(())
    }

    // The spindle may stop behind the line.
    fn stop_behind(&mut self, stops: bool)
        ensures value { self.new ≡ (with_stop stops (self.old, [])).0 }
        ensures stays { Stays self.old self.new }
    {
        if stops {
            self.drive.turns = false;
        }
    }

    // What the line does behind its settings.
    #[tactic(auto, using(crate::proofs::KeptLemmas::unmoved, crate::proofs::KeptLemmas::stays_fit))]
    fn do_line(
        &mut self,
        control: Control,
        said: &MachineSaid,
        out: &mut Vec<Move>,
    ) -> Result<(), NgcFault>
        requires said { FitsTold said.now }
        requires here { IsInUnitRange self.old.unit self.old.here }
        requires fits { FitsProgress self.old }
        ensures ok { OnOk result (Adds (machine_done control self.old said.now)
            self.old out.old.items self.new out.new.items) }
        ensures fault { IfErr result (λ f. f ≢ faults.WantOfMemory →
            machine_done control self.old said.now ≡ Err f) }
        ensures kept { OnErr result (out.new.items ≡ out.old.items) }
        ensures fits { FitsProgress self.new }
    {
        if !self.acts(said) {
            return self.stand(said);
        }
        match said.up {
            None => self.name(control, said, out),
            Some(up) => self.go_up(said, up, out),
        }
    }

    // Whether the line names an axis, or is an arc's.
    fn acts(&self, said: &MachineSaid) -> bool
        ensures { result ≡ acts_line self.now said.now }
    {
        said.names_axis()
            || (self.machine.turn.is_some() && (said.names_centre() || said.r.is_some()))
    }

    // Another line changes nothing more, if it may come.
    fn stand(&self, said: &MachineSaid) -> Result<(), NgcFault>
        ensures ok { OnOk result (stands self.now said.now said.now.up ≡ Ok (self.now, [])) }
        ensures fault { IfErr result (λ f. stands self.now said.now said.now.up ≡ Err f) }
    {
        if let Some(up) = said.up {
            if !up.by_machine {
                return Err(not_here(self.line, up));
            }
        }
        if !is_idle(said) {
            return Err(NgcFault::Cycle { line: self.line });
        }
        Ok(())
    }

    // Up to the machine's place, or across to it.
    #[tactic(auto, unfolding(crate::specs::MachineLines::gone_up))]
    fn go_up(&mut self, said: &MachineSaid, up: Up, out: &mut Vec<Move>) -> Result<(), NgcFault>
        requires here { IsInUnitRange self.old.unit self.old.here }
        requires fits { FitsProgress self.old }
        ensures ok { OnOk result (Adds (gone_up self.old said.now up)
            self.old out.old.items self.new out.new.items) }
        ensures fault { IfErr result (λ f. f ≢ faults.WantOfMemory →
            gone_up self.old said.now up ≡ Err f) }
        ensures kept { OnErr result (out.new.items ≡ out.old.items) }
        ensures fits { FitsProgress self.new }
    {
        if !self.up_fits(said, up) {
            return Err(not_here(self.line, up));
        }
        if parks(said) && !self.machine.place.may_park(self.is_safe()) {
            return Err(NgcFault::Start { line: self.line });
        }
        if !self.has_lengths() {
            return Err(NgcFault::NoUnits { line: self.line });
        }
        if up.by_machine && !self.absolute {
            return Err(NgcFault::NoAbsolute { line: self.line });
        }
        if parks(said) {
            self.park_at(said);
            return Ok(());
        }
        self.rise_to_machine(out)
    }

    // By machine's coordinates it goes by a rapid, else by no increment.
    fn up_fits(&self, said: &MachineSaid, up: Up) -> bool
        ensures { result ≡ up_fits_line self.now said.now up }
    {
        if has_cycle_word(said) || said.names_centre() {
            return false;
        }
        if up.by_machine {
            return is_rapid(self.mode);
        }
        self.machine.incremental && is_nought(said.x) && is_nought(said.y) && is_nought(said.z)
    }

    // The height that is told is at or over the safe one.
    fn is_safe(&self) -> bool
        ensures { result ≡ is_safe_at self.now }
    {
        self.clear <= self.here.z
    }

    // Across to the machine's place is no move.
    fn park_at(&mut self, said: &MachineSaid)
        requires here { IsInUnitRange self.old.unit self.old.here }
        ensures told { park self.old said.now ≡ Ok (self.new, []) }
        ensures keeps { Keeps self.old [] self.new }
        ensures stays { Stays self.old self.new }
    {
        self.positioned = true;
        self.machine.place = self.machine.place.parked(said.z.is_some());
    }

    // Straight up to the machine's place is a rapid to the safe height, if that is higher.
    fn rise_to_machine(&mut self, out: &mut Vec<Move>) -> Result<(), NgcFault>
        requires here { IsInUnitRange self.old.unit self.old.here }
        requires fits { FitsProgress self.old }
        ensures ok { OnOk result (Adds (rise self.old)
            self.old out.old.items self.new out.new.items) }
        ensures fault { IfErr result (λ f. f ≢ faults.WantOfMemory → rise self.old ≡ Err f) }
        ensures kept { OnErr result (out.new.items ≡ out.old.items) }
        ensures fits { FitsProgress self.new }
    {
        let above = self.above();
        let height = self.exact_above();
        self.go_to(Kind::Rapid, false, above, out)?;
        self.machine.place = self.machine.place.raised();
        self.machine.finer.z = height.finer;
        Ok(())
    }

    // Straight over the present point, at the safe height or where it is higher.
    fn above(&self) -> Pt3
        requires here { IsInUnitRange self.now.unit self.now.here }
        requires fits { FitsProgress self.now }
        ensures value { result ≡ above_of self.now }
        ensures in_range { IsInUnitRange self.now.unit result }
        ensures high { self.now.here.z ≤ℤ result.z }
    {
        Pt3 {
            x: self.here.x,
            y: self.here.y,
            z: self.here.z.max(self.clear),
        }
    }

    // Its height by the text's own numbers.
    fn exact_above(&self) -> Coordinate
        requires here { IsInUnitRange self.now.unit self.now.here }
        requires fits { FitsProgress self.now }
        ensures text { text_of result ≡ (text_above self.now (exact_here self.now)).z }
        ensures units { result.units ≡ (above_of self.now).z }
        ensures finer { Within (5 * 10 ^ 17) result.finer }
    {
        let clear = Coordinate {
            units: self.clear,
            finer: 0,
        };
        higher(self.height(), clear)
    }

    /// The present height by the text's own numbers.
    pub fn height(&self) -> Coordinate
        requires fits { FitsProgress self.now }
        ensures value { result ≡
            record { units = self.now.here.z; finer = self.now.machine.finer.z } }
        ensures finer { Within (5 * 10 ^ 17) result.finer }
    {
        Coordinate {
            units: self.here.z,
            finer: self.machine.finer.z,
        }
    }

    // A line that names coordinates.
    #[tactic(auto, unfolding(crate::specs::MachineLines::names_by))]
    fn name(
        &mut self,
        control: Control,
        said: &MachineSaid,
        out: &mut Vec<Move>,
    ) -> Result<(), NgcFault>
        requires said { FitsTold said.now }
        requires here { IsInUnitRange self.old.unit self.old.here }
        requires fits { FitsProgress self.old }
        ensures ok { OnOk result (Adds (names_by control self.old said.now)
            self.old out.old.items self.new out.new.items) }
        ensures fault { IfErr result (λ f. f ≢ faults.WantOfMemory →
            names_by control self.old said.now ≡ Err f) }
        ensures kept { OnErr result (out.new.items ≡ out.old.items) }
        ensures fits { FitsProgress self.new }
    {
        if self.machine.late {
            return Err(NgcFault::LateTool { line: self.line });
        }
        let naming = self.naming(said);
        let place = self.place();
        if !place.allows(naming) {
            return Err(NgcFault::Start { line: self.line });
        }
        let named = self.machine.named;
        let height = names_height(self.machine.cycle, said);
        if !named.allows(self.machine.offsets, height, parks(said)) {
            return Err(NgcFault::LateOffset { line: self.line });
        }
        if !self.has_lengths() {
            return Err(NgcFault::NoUnits { line: self.line });
        }
        if !self.absolute {
            return Err(NgcFault::NoAbsolute { line: self.line });
        }
        let counts = !self.is_before_tool(naming);
        let finer = self.finer_behind(said);
        self.act_in_mode(control, said, out)?;
        self.machine.finer = finer;
        self.machine.place = place.behind(naming);
        let named = self.machine.named;
        self.machine.named = named.behind(self.machine.offsets, height, parks(said));
        self.machine.has_named = self.machine.has_named || counts;
        Ok(())
    }

    // What is known of the place. Before the first whole place x and y aren't.
    fn place(&self) -> Place
        ensures { result ≡ place_of self.now }
    {
        match self.known_place() {
            Known::All => self.machine.place,
            _ => Place {
                across: false,
                ..self.machine.place
            },
        }
    }

    // What the line names of the place that it goes to.
    fn naming(&self, said: &MachineSaid) -> Naming
        requires { FitsTold said.now }
        ensures { result ≡ naming_of self.now said.now }
    {
        Naming {
            rapid: is_rapid(self.mode),
            needs_place: self.machine.cycle.is_some() || self.machine.turn.is_some(),
            x: said.x.is_some(),
            y: said.y.is_some(),
            z: match said.z {
                Some(num) => Some(i128::from(self.clear) <= rounded(num, self.per())),
                None => None,
            },
        }
    }

    // A rapid straight up to the safe height, under no tool length, may stand before a tool is
    // selected.
    fn is_before_tool(&self, naming: Naming) -> bool
        ensures { result ≡ is_before_tool_line self.now naming }
    {
        naming.rapid
            && !self.machine.offsets.length.is_offset()
            && !(naming.x || naming.y)
            && naming.z.unwrap_or(false)
    }

    // What the line does in the motion mode in force.
    fn act_in_mode(
        &mut self,
        control: Control,
        said: &MachineSaid,
        out: &mut Vec<Move>,
    ) -> Result<(), NgcFault>
        requires said { FitsTold said.now }
        requires here { IsInUnitRange self.old.unit self.old.here }
        requires fits { FitsProgress self.old }
        requires allowed { allows (place_of self.old) (naming_of self.old said.now) ≡ true }
        ensures ok { OnOk result (Adds
            (acts_by control self.old said.now self.old.mode self.old.machine.cycle
            self.old.machine.turn)
            self.old out.old.items self.new out.new.items) }
        ensures fault { IfErr result (λ f. f ≢ faults.WantOfMemory →
            acts_by control self.old said.now self.old.mode self.old.machine.cycle
            self.old.machine.turn ≡ Err f) }
        ensures kept { OnErr result (out.new.items ≡ out.old.items) }
        ensures fits { FitsProgress self.new }
    {
        match (self.machine.cycle, self.machine.turn, self.mode) {
            (Some(cycle), _, _) => {
                self.check_drive(Kind::Feed)?;
                self.drill_hole(control, said, cycle, out)
            }
            (None, Some(turn), _) => {
                self.check_drive(Kind::Feed)?;
                self.go_round(control, said, turn, out)
            }
            (None, None, Mode::Off) => Err(NgcFault::NoMotion { line: self.line }),
            (None, None, Mode::On(kind)) => {
                self.check_drive(kind)?;
                self.go_straight(control, said, kind, out)
            }
        }
    }

    // A straight way to the line's coordinates.
    fn go_straight(
        &mut self,
        control: Control,
        said: &MachineSaid,
        kind: Kind,
        out: &mut Vec<Move>,
    ) -> Result<(), NgcFault>
        requires said { FitsTold said.now }
        requires here { IsInUnitRange self.old.unit self.old.here }
        requires allowed { allows (place_of self.old) (naming_of self.old said.now) ≡ true }
        ensures ok { OnOk result (Adds (went control self.old said.now kind)
            self.old out.old.items self.new out.new.items) }
        ensures fault { IfErr result (λ f. f ≢ faults.WantOfMemory →
            went control self.old said.now kind ≡ Err f) }
        ensures kept { OnErr result (out.new.items ≡ out.old.items) }
        ensures stays { Stays self.old self.new }
    {
        let to = self.target_for(control, said)?;
        self.go_to(kind, parks(said), to, out)
    }

    // What the place behind the line has beside its units, by the text's own numbers.
    fn finer_behind(&self, said: &MachineSaid) -> Finer
        requires said { FitsTold said.now }
        requires here { IsInUnitRange self.now.unit self.now.here }
        requires fits { FitsProgress self.now }
        ensures exact { (c : Control) (done : Progress × List Move) →
            acts_by c self.now said.now self.now.mode self.now.machine.cycle self.now.machine.turn
            ≡ Ok done →
            IsExactly result done.0.here (exact_to self.now said.now self.now.machine.cycle) }
        ensures fits { FitsFiner result }
    {
        Finer {
            x: self.finer_or(self.machine.finer.x, said.x),
            y: self.finer_or(self.machine.finer.y, said.y),
            z: match self.machine.cycle {
                Some(cycle) => self.finer_over_hole(said, cycle),
                None => self.finer_or(self.machine.finer.z, said.z),
            },
        }
    }

    /// The same of a coordinate: of the number of its axis, or of the present point.
    pub fn finer_or(&self, here: i64, num: Option<Num>) -> i64
        requires num { IfSome num (FitsNum 18) }
        requires here { Within (5 * 10 ^ 17) here }
        ensures value { result ≡ finer_or_here (per_of self.now) here num }
        ensures bound { Within (5 * 10 ^ 17) result }
    {
        match num {
            Some(num) => finer(num, self.per()),
            None => here,
        }
    }

    /// Where the line's way ends.
    #[tactic(auto, unfolding(crate::specs::MachineLines::target_for))]
    pub fn target_for(&self, control: Control, said: &MachineSaid) -> Result<Pt3, NgcFault>
        requires said { FitsTold said.now }
        requires here { IsInUnitRange self.now.unit self.now.here }
        ensures value { result ≡ target_for_control control self.now said.now }
        ensures in_range { IfOk result (IsInUnitRange self.now.unit) }
    {
        let x = self.coordinate_for(control, self.here.x, said.x)?;
        let y = self.coordinate_for(control, self.here.y, said.y)?;
        let z = self.coordinate_for(control, self.here.z, said.z)?;
        Ok(Pt3 { x, y, z })
    }

    /// A coordinate of the way's end: the number of its axis, or that of the present point.
    pub fn coordinate_for(
        &self,
        control: Control,
        here: i32,
        num: Option<Num>,
    ) -> Result<i32, NgcFault>
        requires num { IfSome num (FitsNum 18) }
        requires here { Within (greatest_of self.now.unit) here }
        ensures value { result ≡ coordinate_for control self.now here num }
        ensures within { IfOk result (Within (greatest_of self.now.unit)) }
    {
        match num {
            Some(num) => self.units_for(control, num),
            None => Ok(here),
        }
    }

    // A number in units: rounded, or a fault where nothing is rounded.
    fn units_for(&self, control: Control, num: Num) -> Result<i32, NgcFault>
        requires num { FitsNum 18 num }
        ensures value { result ≡ units_for_control control self.now num }
        ensures within { IfOk result (Within (greatest_of self.now.unit)) }
    {
        let per = self.per();
        if !(control.rounds || is_whole(num, per)) {
            return Err(NgcFault::OffGrid { line: self.line });
        }
        let units = rounded(num, per);
        if units.unsigned_abs() > u128::from(self.unit.greatest().unsigned_abs()) {
            return Err(NgcFault::OutOfRange { line: self.line });
        }
        Ok(units as i32)
    }

    // A straight way to this point, on a line that names x and y or doesn't.
    fn go_to(
        &mut self,
        kind: Kind,
        across: bool,
        to: Pt3,
        out: &mut Vec<Move>,
    ) -> Result<(), NgcFault>
        requires here { IsInUnitRange self.old.unit self.old.here }
        requires to { IsInUnitRange self.old.unit to }
        requires high { (known_of self.old ≡ All)
            ⊎ ((self.old.here.z ≤ℤ to.z) ⊎ (self.old.clear ≤ℤ to.z)) }
        ensures ok { OnOk result (Adds (gone_to (known_of self.old) self.old kind across to)
            self.old out.old.items self.new out.new.items) }
        ensures fault { IfErr result (λ f. f ≢ faults.WantOfMemory →
            gone_to (known_of self.old) self.old kind across to ≡ Err f) }
        ensures kept { OnErr result (out.new.items ≡ out.old.items) }
        ensures stays { Stays self.old self.new }
    {
        match self.known_place() {
            Known::All => self.move_to(kind, to, out),
            _ => {
                if across {
                    self.arrive(to, out)
                } else {
                    self.wait(to)
                }
            }
        }
    }

    // X and y are known for the first time: the moves begin there, with one of length 0 for each
    // line that waited and for this one.
    fn arrive(&mut self, to: Pt3, out: &mut Vec<Move>) -> Result<(), NgcFault>
        requires to { IsInUnitRange self.old.unit to }
        requires known { known_of self.old ≢ All }
        requires high { (self.old.here.z ≤ℤ to.z) ⊎ (self.old.clear ≤ℤ to.z) }
        ensures ok { OnOk result (Adds (arrived self.old to)
            self.old out.old.items self.new out.new.items) }
        ensures fault { IfErr result (λ f. f ≢ faults.WantOfMemory → arrived self.old to ≡ Err f) }
        ensures kept { OnErr result (out.new.items ≡ out.old.items) }
        ensures stays { Stays self.old self.new }
    {
        if !self.has_room() {
            return Err(NgcFault::TooManyMoves { line: self.line });
        }
        let count = self.machine.waiting + 1;
        add_still(count, to, out)?;
        self.here = to;
        self.known = Known::All;
        self.positioned = true;
        self.moves += count;
        self.machine.waiting = 0;
        Ok(())
    }

    // They aren't yet: one line more waits.
    fn wait(&mut self, to: Pt3) -> Result<(), NgcFault>
        requires to { IsInUnitRange self.old.unit to }
        requires known { known_of self.old ≢ All }
        requires high { (self.old.here.z ≤ℤ to.z) ⊎ (self.old.clear ≤ℤ to.z) }
        ensures ok { OnOk result (waits self.old to ≡ Ok (self.new, [])) }
        ensures keeps { OnOk result (Keeps self.old [] self.new) }
        ensures fault { IfErr result (λ f. waits self.old to ≡ Err f) }
        ensures stays { Stays self.old self.new }
    {
        if !self.has_room() {
            return Err(NgcFault::TooManyMoves { line: self.line });
        }
        self.here = to;
        self.positioned = true;
        self.machine.waiting += 1;
        Ok(())
    }

    // Whether there may be one move more than have been made and wait.
    fn has_room(&self) -> bool
        ensures { result ≡ nat_lt (self.now.moves + self.now.machine.waiting) MAX_MOVES }
    {
        u128::from(self.moves) + u128::from(self.machine.waiting) < MAX_MOVES as u128
    }
}

// Adds so many moves of length 0 at a place.
#[tactic(auto, using(crate::proofs::KeptLemmas::one_more_still))]
fn add_still(count: u64, at: Pt3, out: &mut Vec<Move>) -> Result<(), NgcFault>
    ensures ok { OnOk result (out.new.items ≡ out.old.items ++ replicate count (still_at at)) }
    ensures fault { IfErr result (λ f. f ≡ faults.WantOfMemory) }
    ensures kept { OnErr result (out.new.items ≡ out.old.items) }
{
    let first = out.len();
    let still = Move {
        kind: Kind::Rapid,
        from: at,
        to: at,
    };
    let mut left = count;
    while left > 0 {
        if add(out, still).is_err() {
            out.truncate(first);
            return Err(NgcFault::WantOfMemory);
        }
        left -= 1;
    }
    Ok(())
}

fn not_here(line: u64, up: Up) -> NgcFault
    ensures { result ≡ faults.NotInProfile line 71 up.num }
{
    NgcFault::NotInProfile {
        line,
        letter: b'G',
        number: up.num,
    }
}

// Whether the line has no word of a cycle but the P of a rest or a tolerance.
fn is_idle(said: &MachineSaid) -> bool
    ensures { result ≡ is_idle_line said.now }
{
    let numbers = said.r.is_some() || said.q.is_some();
    let rests = said.rests || said.tolerates;
    !(is_drills(said.motion) || numbers || (said.p.is_some() && !rests))
}

// Whether the line has a word of a cycle.
fn has_cycle_word(said: &MachineSaid) -> bool
    ensures { result ≡ has_cycle_word_said said.now }
{
    is_drills(said.motion) || said.r.is_some() || said.q.is_some() || said.p.is_some()
}

fn is_drills(motion: Option<Motion>) -> bool
    ensures { result ≡ is_drills_motion motion }
{
    matches!(motion, Some(Motion::Drills(_)))
}

// Whether the line names x or y.
fn parks(said: &MachineSaid) -> bool
    ensures { result ≡ parks_line said.now }
{
    said.x.is_some() || said.y.is_some()
}

// Whether it names a height: Z, or a cycle's R.
fn names_height(cycle: Option<Cycle>, said: &MachineSaid) -> bool
    ensures { result ≡ names_height_said cycle said.now }
{
    said.z.is_some() || (cycle.is_some() && said.r.is_some())
}
