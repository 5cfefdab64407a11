//! A reader that is fed a program line by line, up to its first fault.
ghost use Rattle.std.specs.Prelude.{◌≡◌, ◌≢◌, ◌++◌, [], ◌∷◌, ◌<◌, ◌^◌, length, OnOk, OnErr, IfOk};
ghost use Rattle.std.specs.Prelude.{IfErr, Ok, Err, None, Some, IfSome};
ghost use Rattle.std.specs.Str.{bytes_eq};
ghost use Rattle.mill_base.specs.Ranges.{IsInUnitRange};
ghost use Rattle.mill_words.specs.Lines.{line_of};
ghost use Rattle.mill_words.specs.Words.{Line};
ghost use Rattle.mill_words.specs.Marks.{is_blank as is_blank_byte};
ghost use Rattle.mill_said.specs.declared.fault.NgcFault.TheVariants as faults;
ghost use Rattle.mill_block.specs.declared.progress.Progress.{Progress};
ghost use Rattle.mill_block.specs.Lines.{start_at, is_percent as is_percent_line};
ghost use Rattle.mill_block.specs.Lines.{percent_step as percent_step_by, has_frame, with_percent};
ghost use Rattle.mill_block.specs.Lines.{with_line, line_begun, after_line, after_words};
ghost use Rattle.mill_block.specs.Lines.{words_or_fault, acted_by, settled_before};
ghost use Rattle.mill_said.specs.declared.rules.Words.TheVariants.{Strict};
ghost use Rattle.mill_said.specs.declared.rules.Words.TheVariants.{Machine as MachineWords};
ghost use Rattle.mill_block.specs.Kept.{Adds, AddsLine, Keeps, FitsProgress};
ghost use Rattle.mill_block.specs.Motion.{known_of};
ghost use Rattle.mill_block.specs.declared.progress.Known.TheVariants.{All};
ghost use Rattle.mill_block.specs.inner.Bounds.{Stays};
ghost use Rattle.mill_block.specs.inner.PlainMoves.{made_plain};

use crate::machine::Machine;
use crate::motion::add;
use crate::plain_move::PlainMove;
use crate::progress::{Drive, Frame, Known, Progress};
use mill_base::{MAX_MOVES, Move, Pt3, Unit};
use mill_said::{Before, Control, MachineSaid, Mode, NgcFault, Rules, Said, Words};
use mill_words::{LineWords, read_line_into};
use std::marker::Model;

/// The most bytes of a line, without its line end (NISTIR 6556, 3.3).
pub const LONGEST_LINE: usize = 256;

/// Reads the lines of a program one after another, up to its first fault.
///
/// It shows what the lines so far have settled: where the tool stands, the motion mode, whether the
/// program has ended, and how many lines and moves there were. Beside that it lends room for a
/// line's words, so that none is moved.
#[derive(Drop)]
pub struct LineReader {
    progress: Progress,
    words: LineWords,
    said: Said,
    told: MachineSaid,
}

impl Model for LineReader {
    ghost Value = { Progress };

    ghost view = { λ r. r.progress };

    ghost invariant = { λ r. FitsProgress r.progress };
}

impl LineReader {
    /// A reader before the first line, with the tool at this point and coordinates in this unit,
    /// that asks this beside of the program. Where the tool may be anywhere, the point's z alone
    /// counts: the least height of the way up, and with a machine's words the safe height.
    pub fn new(start: Pt3, unit: Unit, rules: Rules) -> Self
        requires { IsInUnitRange unit start }
        ensures { result ≡ start_at start unit rules }
    {
        LineReader {
            progress: Progress {
                rules,
                unit,
                clear: start.z,
                here: start,
                known: Known::Nothing,
                machine: Machine::BEGUN,
                drive: Drive::NONE,
                mode: Mode::Off,
                millimetres: false,
                absolute: false,
                positioned: false,
                frame: Frame::Unknown,
                ended: false,
                moves: 0,
                line: 0,
            },
            words: LineWords::new(),
            said: Said::new(),
            told: MachineSaid::new(),
        }
    }

    /// Whether the program has ended: what comes behind has no meaning then.
    pub fn has_ended(&self) -> bool
        ensures { result ≡ self.now.ended }
    {
        self.progress.ended
    }

    /// How many lines it was fed: the number of the last one.
    pub fn line(&self) -> u64
        ensures { result ≡ self.now.line }
    {
        self.progress.line
    }

    /// Takes the next line, without its line end, and adds the moves that it makes to `out`.
    ///
    /// The answer is the line's fault, if it has one, or `WantOfMemory` where `out` can't grow.
    /// Then nothing is added, and the reader isn't to be fed again. The tool is to stand in the
    /// unit's
    /// range, where each line leaves it, and lines are to be fewer than 2^63.
    // Most lines are only a move and spelled as most are, and are read without what other lines
    // need. A move is added where it is made, so that it stays in registers.
    #[inline(always)]
    #[tactic(auto, using(crate::proofs::KeptLemmas::stays_fit))]
    pub fn read_line(&mut self, line: &[u8], out: &mut Vec<Move>) -> Result<(), NgcFault>
        requires here { IsInUnitRange self.old.unit self.old.here }
        requires number { self.old.line < 2 ^ 63 }
        ensures ok { OnOk result (AddsLine self.old line.now out.old.items self.new out.new.items) }
        ensures fault { IfErr result (λ f. f ≢ faults.WantOfMemory →
            after_line self.old line.now ≡ Err f) }
        ensures kept { OnErr result (out.new.items ≡ out.old.items) }
    {
        if let Some(made) = self.progress.read_quick(line) {
            return add(out, made);
        }
        self.read_any_line(line, out)
    }

    /// The same as `read_line`, word for word. It costs more for a line that is only a move, and
    /// stands in one place of the program: it is for lines that come seldom.
    // (lines of other spellings come here too, so that those of `read_line` need not make room for
    // them)
    #[inline(never)]
    #[tactic(auto, using(crate::proofs::KeptLemmas::stays_fit))]
    pub fn read_any_line(&mut self, line: &[u8], out: &mut Vec<Move>) -> Result<(), NgcFault>
        requires here { IsInUnitRange self.old.unit self.old.here }
        requires number { self.old.line < 2 ^ 63 }
        ensures ok { OnOk result (AddsLine self.old line.now out.old.items self.new out.new.items) }
        ensures fault { IfErr result (λ f. f ≢ faults.WantOfMemory →
            after_line self.old line.now ≡ Err f) }
        ensures kept { OnErr result (out.new.items ≡ out.old.items) }
    {
        match self.progress.read_plain(line) {
            Some(made) => add(out, made),
            None => self.act_any_line(line, out),
        }
    }

    // The same of any line. It is kept apart, since most lines are plain.
    #[inline(never)]
    #[tactic(auto, using(crate::proofs::KeptLemmas::stays_fit), unfolding(crate::specs::Lines::after_line))]
    fn act_any_line(&mut self, line: &[u8], out: &mut Vec<Move>) -> Result<(), NgcFault>
        requires here { IsInUnitRange self.old.unit self.old.here }
        requires number { self.old.line < 2 ^ 63 }
        ensures ok { OnOk result (AddsLine self.old line.now out.old.items self.new out.new.items) }
        ensures fault { IfErr result (λ f. f ≢ faults.WantOfMemory →
            after_line self.old line.now ≡ Err f) }
        ensures kept { OnErr result (out.new.items ≡ out.old.items) }
    {
        self.progress.line += 1;
        if line.len() > LONGEST_LINE {
            return Err(NgcFault::LongLine {
                line: self.progress.line,
            });
        }
        if has_percent(self.progress.frame, line) {
            self.progress.take_percent();
            return Ok(());
        }
        read_words(self.progress.line, line, &mut self.words)?;
        self.progress
            .act_words(&self.words, &mut self.said, &mut self.told, out)
    }
}

impl Progress {
    // Does what the next line says, if it is only a move and spelled as most are.
    #[inline(always)]
    fn read_quick(&mut self, line: &[u8]) -> Option<Move>
        requires here { IsInUnitRange self.old.unit self.old.here }
        requires number { self.old.line < 2 ^ 63 }
        ensures made { IfSome result (λ made.
            after_line self.old line.now ≡ Ok (self.new, made ∷ [])) }
        ensures keeps { IfSome result (λ made. Keeps (line_begun self.old) (made ∷ []) self.new) }
        ensures stays { result ≡ None → self.new ≡ self.old }
        ensures bounds { Stays self.old self.new }
    {
        if line.len() > LONGEST_LINE || has_percent(self.frame, line) {
            return None;
        }
        let plain = self.quick_line(line)?;
        self.line += 1;
        Some(self.make_plain(plain))
    }

    // Does what the next line says, if its words are plain and it is only a move.
    #[inline(always)]
    fn read_plain(&mut self, line: &[u8]) -> Option<Move>
        requires here { IsInUnitRange self.old.unit self.old.here }
        requires number { self.old.line < 2 ^ 63 }
        ensures made { IfSome result (λ made.
            after_line self.old line.now ≡ Ok (self.new, made ∷ [])) }
        ensures keeps { IfSome result (λ made. Keeps (line_begun self.old) (made ∷ []) self.new) }
        ensures stays { result ≡ None → self.new ≡ self.old }
        ensures bounds { Stays self.old self.new }
    {
        if line.len() > LONGEST_LINE || has_percent(self.frame, line) {
            return None;
        }
        let plain = self.plain_line(line)?;
        self.line += 1;
        Some(self.make_plain(plain))
    }

    // Does what the words of the line say.
    #[tactic(auto, using(crate::proofs::KeptLemmas::stays_fit))]
    fn act_words(
        &mut self,
        words: &LineWords,
        said: &mut Said,
        told: &mut MachineSaid,
        out: &mut Vec<Move>,
    ) -> Result<(), NgcFault>
        requires here { IsInUnitRange self.old.unit self.old.here }
        requires fits { FitsProgress self.old }
        ensures ok { OnOk result
            (Adds (after_words self.old words.now) self.old out.old.items self.new out.new.items) }
        ensures fault { IfErr result (λ f. f ≢ faults.WantOfMemory →
            after_words self.old words.now ≡ Err f) }
        ensures kept { OnErr result (out.new.items ≡ out.old.items) }
        ensures fits { FitsProgress self.new }
    {
        if let Some(plain) = self.plain_move(words) {
            let made = self.make_plain(plain);
            return add(out, made);
        }
        self.act_any_words(words, said, told, out)
    }

    // Makes the move of a line that is only that.
    #[inline(always)]
    fn make_plain(&mut self, plain: PlainMove) -> Move
        requires place { known_of self.old ≡ All }
        requires few { self.old.moves < MAX_MOVES }
        requires here { IsInUnitRange self.old.unit self.old.here }
        requires to { IsInUnitRange self.old.unit plain.to }
        ensures made { made_plain self.old plain ≡ Ok (self.new, result ∷ []) }
        ensures keeps { Keeps self.old (result ∷ []) self.new }
        ensures bounds { Stays self.old self.new }
    {
        self.mode = Mode::On(plain.kind);
        self.ended = false;
        self.go(plain.kind, plain.to)
    }

    // The same of any line. It is kept apart, since most lines are only a move.
    #[inline(never)]
    #[tactic(auto, using(crate::proofs::KeptLemmas::stays_fit), unfolding(crate::specs::Lines::after_words))]
    fn act_any_words(
        &mut self,
        words: &LineWords,
        said: &mut Said,
        told: &mut MachineSaid,
        out: &mut Vec<Move>,
    ) -> Result<(), NgcFault>
        requires here { IsInUnitRange self.old.unit self.old.here }
        requires fits { FitsProgress self.old }
        ensures ok { OnOk result
            (Adds (after_words self.old words.now) self.old out.old.items self.new out.new.items) }
        ensures fault { IfErr result (λ f. f ≢ faults.WantOfMemory →
            after_words self.old words.now ≡ Err f) }
        ensures kept { OnErr result (out.new.items ≡ out.old.items) }
        ensures fits { FitsProgress self.new }
    {
        self.know_frame(words.is_blank());
        match self.rules.words {
            Words::Strict => self.act_strict(words, said, out),
            Words::Machine(control) => self.act_machine(control, words, told, out),
        }
    }

    // Does what the words say as those of the short table.
    #[tactic(auto, using(crate::proofs::KeptLemmas::stays_fit))]
    fn act_strict(
        &mut self,
        words: &LineWords,
        said: &mut Said,
        out: &mut Vec<Move>,
    ) -> Result<(), NgcFault>
        requires here { IsInUnitRange self.old.unit self.old.here }
        requires fits { FitsProgress self.old }
        ensures ok { OnOk result (Adds (acted_by Strict self.old words.now)
            self.old out.old.items self.new out.new.items) }
        ensures fault { IfErr result (λ f. f ≢ faults.WantOfMemory →
            acted_by Strict self.old words.now ≡ Err f) }
        ensures kept { OnErr result (out.new.items ≡ out.old.items) }
        ensures fits { FitsProgress self.new }
    {
        said.read(self.line, self.positioned, words)?;
        self.act(said, out)
    }

    // Does what the words say as those of a machine's program.
    fn act_machine(
        &mut self,
        control: Control,
        words: &LineWords,
        told: &mut MachineSaid,
        out: &mut Vec<Move>,
    ) -> Result<(), NgcFault>
        requires here { IsInUnitRange self.old.unit self.old.here }
        requires fits { FitsProgress self.old }
        ensures ok { OnOk result (Adds (acted_by (MachineWords control) self.old words.now)
            self.old out.old.items self.new out.new.items) }
        ensures fault { IfErr result (λ f. f ≢ faults.WantOfMemory →
            acted_by (MachineWords control) self.old words.now ≡ Err f) }
        ensures kept { OnErr result (out.new.items ≡ out.old.items) }
        ensures fits { FitsProgress self.new }
    {
        told.read(control, &self.before_line(), words)?;
        self.act_for_machine(control, told, out)
    }

    // What the lines before this one tell of it.
    fn before_line(&self) -> Before
        ensures { result ≡ settled_before self.now }
    {
        Before {
            line: self.line,
            unit: self.unit,
            positioned: self.positioned,
            millimetres: self.millimetres,
            inches: self.machine.inches,
            cycle: self.machine.cycle,
            turn: self.machine.turn,
        }
    }

    // A line that isn't blank, and isn't a `%` alone, shows that a program isn't framed.
    fn know_frame(&mut self, blank: bool)
        ensures value { self.new ≡ with_line self.old blank }
        ensures bounds { Stays self.old self.new }
    {
        match self.frame {
            Frame::Unknown if !blank => self.frame = Frame::Plain,
            _ => {}
        }
    }

    // A `%` line begins the program's frame, or ends it.
    fn take_percent(&mut self)
        ensures value { self.new ≡ with_percent self.old }
        ensures bounds { Stays self.old self.new }
    {
        match self.frame {
            Frame::Framed => self.ended = true,
            _ => self.frame = Frame::Framed,
        }
    }
}

fn read_words(number: u64, line: &[u8], words: &mut LineWords) -> Result<(), NgcFault>
    requires { length line.now < 2 ^ 32 }
    ensures ok { OnOk result (line_of line.now ≡ Ok words.new) }
    ensures fault { IfErr result (λ f. words_or_fault number (line_of line.now) ≡ Err f) }
{
    match read_line_into(line, words) {
        Ok(()) => Ok(()),
        Err(fault) => Err(NgcFault::Word {
            line: number,
            fault,
        }),
    }
}

// Whether the line is one of a frame's `%` lines.
fn has_percent(frame: Frame, line: &[u8]) -> bool
    ensures { result ≡ has_frame frame (is_percent_line line.now) }
{
    match frame {
        Frame::Plain => false,
        _ => is_percent(line),
    }
}

fn is_percent(line: &[u8]) -> bool
    ensures { result ≡ is_percent_line line.now }
{
    let mut seen = false;
    for byte in line {
        match percent_step(seen, *byte) {
            Some(next) => seen = next,
            None => return false,
        }
    }
    seen
}

// Whether a `%` has come behind this byte, if the line may still hold only that.
fn percent_step(seen: bool, byte: u8) -> Option<bool>
    ensures { result ≡ percent_step_by seen byte }
{
    if is_blank(byte) {
        return Some(seen);
    }
    if byte == b'%' && !seen {
        return Some(true);
    }
    None
}

fn is_blank(byte: u8) -> bool
    ensures { result ≡ is_blank_byte byte }
{
    byte == b' ' || byte == b'\t' || byte == b'\r'
}
