//! What a line does that says this.
ghost use Rattle.std.specs.Prelude.{◌≡◌, ◌≢◌, ◌<◌, ◌≤◌, ◌+◌, ◌≤ℤ◌, ◌⊎◌, [], ◌∷◌, ◌++◌};
ghost use Rattle.std.specs.Prelude.{OnOk, OnErr, IfOk, IfErr, Ok, Err, IfSome};
ghost use Rattle.mill_base.specs.Numbers.{Within};
ghost use Rattle.mill_base.specs.Units.{greatest_of};
ghost use Rattle.mill_base.specs.Ranges.{IsInUnitRange};
ghost use Rattle.mill_words.specs.Words.{FitsNum};
ghost use Rattle.mill_block.specs.Drives.{driven, driven_or_fault};
ghost use Rattle.mill_block.specs.Motion.{settled, known_of, is_rapid as is_rapid_mode};
ghost use Rattle.mill_block.specs.Motion.{reaches as reaches_height, may_come as may_come_by};
ghost use Rattle.mill_block.specs.Motion.{coordinate as coordinate_of, target as target_of};
ghost use Rattle.mill_block.specs.Motion.{made_move, risen, began, gone, moved_by, moved, acted};
ghost use Rattle.mill_block.specs.declared.progress.Known.TheVariants.{Height, All};
ghost use Rattle.mill_block.specs.Kept.{Adds, Keeps};
ghost use Rattle.mill_said.specs.declared.fault.NgcFault.TheVariants as faults;
ghost use Rattle.mill_said.specs.Bounds.{FitsSaid};
ghost use Rattle.mill_block.specs.inner.Bounds.{Stays};

use crate::progress::{Known, Progress};
use mill_base::{Kind, MAX_MOVES, Move, Pt3, Unit};
use mill_said::{Mode, NgcFault, Said, is_at_or_over, units_of};
use mill_words::Num;

impl Progress {
    /// Does what the line says, and adds the moves that it makes to `out`. A line with a fault adds
    /// nothing, nor one whose moves `out` has no memory for.
    #[tactic(auto, unfolding(crate::specs::Motion::acted))]
    pub fn act(&mut self, said: &Said, out: &mut Vec<Move>) -> Result<(), NgcFault>
        requires said { FitsSaid said.now }
        requires here { IsInUnitRange self.old.unit self.old.here }
        ensures ok { OnOk result
            (Adds (acted self.old said.now) self.old out.old.items self.new out.new.items) }
        ensures fault { IfErr result (λ f. f ≢ faults.WantOfMemory →
            acted self.old said.now ≡ Err f) }
        ensures kept { OnErr result (out.new.items ≡ out.old.items) }
        ensures stays { Stays self.old self.new }
    {
        self.settle(said);
        if said.has_axis() {
            return self.make_move(said, out);
        }
        if said.has_motion() {
            return Err(NgcFault::NoAxis { line: self.line });
        }
        Ok(())
    }

    // The settings of the line take effect.
    fn settle(&mut self, said: &Said)
        ensures { self.new ≡ settled self.old said.now }
    {
        if let Some(mode) = said.mode {
            self.mode = mode;
        }
        self.millimetres = self.millimetres || said.millimetres;
        self.absolute = self.absolute || said.absolute;
        self.ended = said.ends;
        if self.rules.needs_spindle {
            self.drive = self.drive.behind(said);
        }
    }

    #[tactic(auto, unfolding(crate::specs::Motion::moved))]
    fn make_move(&mut self, said: &Said, out: &mut Vec<Move>) -> Result<(), NgcFault>
        requires said { FitsSaid said.now }
        requires here { IsInUnitRange self.old.unit self.old.here }
        ensures ok { OnOk result
            (Adds (moved self.old said.now) self.old out.old.items self.new out.new.items) }
        ensures fault { IfErr result (λ f. f ≢ faults.WantOfMemory →
            moved self.old said.now ≡ Err f) }
        ensures kept { OnErr result (out.new.items ≡ out.old.items) }
        ensures stays { Stays self.old self.new }
    {
        if !self.may_come(said) {
            return Err(NgcFault::Start { line: self.line });
        }
        if !self.millimetres {
            return Err(NgcFault::NoUnits { line: self.line });
        }
        if !self.absolute {
            return Err(NgcFault::NoAbsolute { line: self.line });
        }
        match self.mode {
            Mode::Off => Err(NgcFault::NoMotion { line: self.line }),
            Mode::On(kind) => {
                self.check_drive(kind)?;
                let to = self.target(said)?;
                self.reach(kind, to, out)
            }
        }
    }

    /// What is known of the tool's place: all of it, unless it may be anywhere before the program.
    pub fn known_place(&self) -> Known
        ensures { result ≡ known_of self.now }
    {
        if self.rules.from_anywhere {
            self.known
        } else {
            Known::All
        }
    }

    // Whether a line with axis words may come now: first one straight up, then one across.
    fn may_come(&self, said: &Said) -> bool
        requires { FitsSaid said.now }
        ensures { result ≡ may_come_by (known_of self.now) self.now said.now }
    {
        match self.known_place() {
            Known::Nothing => {
                (is_rapid(self.mode) && reaches(said.z, self.here.z, self.unit))
                    && !(said.x.is_some() || said.y.is_some())
            }
            Known::Height => {
                (is_rapid(self.mode) && (said.x.is_some() && said.y.is_some())) && !said.z.is_some()
            }
            Known::All => true,
        }
    }

    /// Whether a move of this kind comes with what it is asked to come with.
    pub fn check_drive(&self, kind: Kind) -> Result<(), NgcFault>
        ensures ok { OnOk result (driven_or_fault self.now.rules.needs_spindle kind
            self.now.drive self.now.line ≡ Ok tt) }
        ensures fault { IfErr result (λ f. driven_or_fault self.now.rules.needs_spindle kind
            self.now.drive self.now.line ≡ Err f) }
    {
        if self.rules.needs_spindle {
            return self.drive.check(kind, self.line);
        }
        Ok(())
    }

    // Where the line's move ends: the named coordinates take the place of those of the present
    // point.
    #[tactic(auto, unfolding(crate::specs::Motion::target))]
    fn target(&self, said: &Said) -> Result<Pt3, NgcFault>
        requires said { FitsSaid said.now }
        requires here { IsInUnitRange self.now.unit self.now.here }
        ensures value { result ≡ target_of self.now said.now }
        ensures in_range { IfOk result (IsInUnitRange self.now.unit) }
    {
        let x = coordinate(self.line, self.here.x, said.x, self.unit)?;
        let y = coordinate(self.line, self.here.y, said.y, self.unit)?;
        let z = coordinate(self.line, self.here.z, said.z, self.unit)?;
        Ok(Pt3 { x, y, z })
    }

    // The tool goes to this point.
    fn reach(&mut self, kind: Kind, to: Pt3, out: &mut Vec<Move>) -> Result<(), NgcFault>
        requires here { IsInUnitRange self.old.unit self.old.here }
        requires to { IsInUnitRange self.old.unit to }
        requires high { (known_of self.old ≡ All) ⊎ (self.old.here.z ≤ℤ to.z) }
        ensures ok { OnOk result (Adds (gone (known_of self.old) self.old kind to)
            self.old out.old.items self.new out.new.items) }
        ensures fault { IfErr result (λ f. f ≢ faults.WantOfMemory →
            gone (known_of self.old) self.old kind to ≡ Err f) }
        ensures kept { OnErr result (out.new.items ≡ out.old.items) }
        ensures stays { Stays self.old self.new }
    {
        match self.known_place() {
            Known::Nothing => {
                self.rise(to);
                Ok(())
            }
            Known::Height => self.begin(to, out),
            Known::All => self.move_to(kind, to, out),
        }
    }

    // The tool goes up, and its place isn't known whole yet: there is no move.
    fn rise(&mut self, to: Pt3)
        ensures { self.new ≡ risen self.old to }
    {
        self.here = to;
        self.known = Known::Height;
        self.positioned = true;
    }

    // The tool has gone up and comes across: the moves begin where it is then.
    fn begin(&mut self, to: Pt3, out: &mut Vec<Move>) -> Result<(), NgcFault>
        requires place { known_of self.old ≡ Height }
        requires to { IsInUnitRange self.old.unit to }
        requires high { self.old.here.z ≤ℤ to.z }
        ensures ok { OnOk result
            (Adds (began self.old to) self.old out.old.items self.new out.new.items) }
        ensures fault { IfErr result (λ f. f ≢ faults.WantOfMemory → began self.old to ≡ Err f) }
        ensures kept { OnErr result (out.new.items ≡ out.old.items) }
        ensures stays { Stays self.old self.new }
    {
        if self.moves > MAX_MOVES as u64 - 2 {
            return Err(NgcFault::TooManyMoves { line: self.line });
        }
        let there = Move {
            kind: Kind::Rapid,
            from: to,
            to,
        };
        out.extend_from_slice(&[there, there])?;
        self.here = to;
        self.known = Known::All;
        self.positioned = true;
        self.moves += 2;
        Ok(())
    }

    /// Adds a move to this point, unless there are 1,000,000 already.
    pub fn move_to(&mut self, kind: Kind, to: Pt3, out: &mut Vec<Move>) -> Result<(), NgcFault>
        requires place { known_of self.old ≡ All }
        requires here { IsInUnitRange self.old.unit self.old.here }
        requires to { IsInUnitRange self.old.unit to }
        ensures ok { OnOk result
            (Adds (made_move self.old kind to) self.old out.old.items self.new out.new.items) }
        ensures fault { IfErr result (λ f. f ≢ faults.WantOfMemory →
            made_move self.old kind to ≡ Err f) }
        ensures kept { OnErr result (out.new.items ≡ out.old.items) }
        ensures stays { Stays self.old self.new }
    {
        if self.moves >= MAX_MOVES as u64 {
            return Err(NgcFault::TooManyMoves { line: self.line });
        }
        let made = self.go(kind, to);
        add(out, made)
    }

    /// The same where there are fewer.
    #[inline(always)]
    pub fn go(&mut self, kind: Kind, to: Pt3) -> Move
        requires place { known_of self.old ≡ All }
        requires few { self.old.moves < MAX_MOVES }
        requires here { IsInUnitRange self.old.unit self.old.here }
        requires to { IsInUnitRange self.old.unit to }
        ensures made { made_move self.old kind to ≡ Ok (self.new, result ∷ []) }
        ensures keeps { Keeps self.old (result ∷ []) self.new }
        ensures stays { Stays self.old self.new }
    {
        let made = Move {
            kind,
            from: self.here,
            to,
        };
        self.here = to;
        self.positioned = true;
        self.moves += 1;
        made
    }
}

/// Adds a move. It is pushed by its parts, so that none of them needs a place in memory first.
pub(crate) fn add(moves: &mut Vec<Move>, made: Move) -> Result<(), NgcFault>
    ensures ok { OnOk result (moves.new.items ≡ moves.old.items ++ made ∷ []) }
    ensures fault { IfErr result (λ f. f ≡ faults.WantOfMemory) }
    ensures kept { OnErr result (moves.new.items ≡ moves.old.items) }
{
    moves.push(Move {
        kind: made.kind,
        from: made.from,
        to: made.to,
    })?;
    Ok(())
}

/// Whether the motion mode is a rapid's.
pub(crate) fn is_rapid(mode: Mode) -> bool
    ensures { result ≡ is_rapid_mode mode }
{
    matches!(mode, Mode::On(Kind::Rapid))
}

// Whether an axis is named, with a number of millimetres at or over this height in units.
fn reaches(num: Option<Num>, height: i32, unit: Unit) -> bool
    requires { IfSome num (FitsNum 18) }
    ensures { result ≡ reaches_height unit height num }
{
    match num {
        Some(num) => is_at_or_over(num, height, unit),
        None => false,
    }
}

// A coordinate of the move's end: the number of its axis, or that of the present point.
#[inline(always)]
fn coordinate(line: u64, here: i32, num: Option<Num>, unit: Unit) -> Result<i32, NgcFault>
    requires num { IfSome num (FitsNum 18) }
    requires here { Within (greatest_of unit) here }
    ensures value { result ≡ coordinate_of unit line here num }
    ensures within { IfOk result (Within (greatest_of unit)) }
{
    match num {
        Some(num) => units_of(line, num, unit),
        None => Ok(here),
    }
}
