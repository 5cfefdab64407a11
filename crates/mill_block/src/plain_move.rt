//! Lines that are only a move, as most lines of a program are: axis words, and with them a `G0` or
//! `G1` and an `F`, or none.
//!
//! They are read without what other lines need, and where their words are plain, straight from
//! their bytes. Where anything else stands on a line, it is read as any line is; and so is each
//! line of a
//! program for a machine, while such a line might change or break what its words have settled.
ghost use Rattle.std.specs.Prelude.{◌≡◌, ◌+◌, ◌<◌, ◌^◌, length, Bool, true, false, None, Some};
ghost use Rattle.std.specs.Prelude.{IfSome, IsTrue, unwrap_or};
ghost use Rattle.mill_base.specs.Ranges.{IsInUnitRange};
ghost use Rattle.mill_base.specs.Units.{places_of};
ghost use Rattle.mill_words.specs.Words.{FitsNum, FitsWord};
ghost use Rattle.mill_said.specs.declared.profile.Mode.TheVariants.{On};
ghost use Rattle.mill_said.specs.declared.said.Said.{Said};
ghost use Rattle.mill_block.specs.Lines.{line_begun};
ghost use Rattle.mill_block.specs.Motion.{known_of};
ghost use Rattle.mill_said.specs.Numbers.{is_over_zero as is_over_zero_number};
ghost use Rattle.mill_block.specs.declared.progress.Known.TheVariants.{All};
ghost use Rattle.mill_block.specs.inner.PlainMoves.{Goes, HasDrive, IsAxis, IsCapital, IsEnd};
ghost use Rattle.mill_block.specs.inner.PlainMoves.{IsMotion, IsReady, IsUnits, LineMovesTo};
ghost use Rattle.mill_block.specs.inner.PlainMoves.{MovesTo, Says, TakesPlain, mode_of, words_in};

use crate::progress::{Frame, Known, Progress};
use mill_base::{Kind, MAX_MOVES, Pt3, Unit};
use mill_said::{Mode, Words, is_over_zero, signed, units_of};
use mill_words::{LineWords, Num, Word, plain_number_behind};

/// What the words of such a line have said so far.
#[derive(Clone, Copy)]
pub(crate) struct PlainLine {
    /// The move's kind, if the line names it.
    pub kind: Option<Kind>,
    /// Whether it has an `F`, which is over 0.
    pub feed: bool,
    /// The coordinates that it names, in units.
    pub x: Option<i32>,
    pub y: Option<i32>,
    pub z: Option<i32>,
}

/// The move of such a line.
#[derive(Clone, Copy)]
pub(crate) struct PlainMove {
    pub kind: Kind,
    pub to: Pt3,
}

impl Progress {
    /// The move of the next line, if its words are plain and it is only that, and the lines before
    /// it have settled what a move needs.
    #[inline(always)]
    pub fn plain_line(&self, line: &[u8]) -> Option<PlainMove>
        requires here { IsInUnitRange self.now.unit self.now.here }
        requires number { self.now.line < 2 ^ 63 }
        ensures { IfSome result (λ m. LineMovesTo (line_begun self.now) line.now m) }
    {
        if !self.is_ready() {
            return None;
        }
        let mut plain = PlainLine::new();
        let mut place = 0;
        while place < line.len() {
            let number = plain_number_behind(line, place)?;
            let word = Word {
                letter: line[place],
                num: number.num,
            };
            if !plain.take(self.line + 1, self.unit, word) {
                return None;
            }
            place = number.end;
        }
        self.end_plain(&plain)
    }

    /// The move of a line with these words, if it is only that and the lines before it have settled
    /// what a move needs.
    pub fn plain_move(&self, words: &LineWords) -> Option<PlainMove>
        requires { IsInUnitRange self.now.unit self.now.here }
        ensures { IfSome result (λ m. MovesTo self.now words.now m) }
    {
        if !self.is_ready() || words.has_slash() {
            return None;
        }
        let mut plain = PlainLine::new();
        for word in words.words() {
            if !plain.take(self.line, self.unit, *word) {
                return None;
            }
        }
        self.end_plain(&plain)
    }

    /// Whether the lines before have settled what a move needs, and there is room for one more.
    pub fn is_ready(&self) -> bool
        ensures { IsTrue result → IsReady self.now }
    {
        match self.frame {
            Frame::Unknown => false,
            _ => {
                self.millimetres
                    && self.absolute
                    && self.moves < MAX_MOVES as u64
                    && self.takes_plain()
                    && self.asks_no_more()
            }
        }
    }

    // Whether such a line does nothing beside, with the words that the program may have.
    #[inline(always)]
    fn takes_plain(&self) -> bool
        ensures { IsTrue result → TakesPlain self.now.rules.words self.now.machine }
    {
        match self.rules.words {
            Words::Strict => true,
            Words::Machine(_) => self.machine.is_settled(),
        }
    }

    // Whether a move has to keep to nothing more: nothing is asked beside, or it is there already.
    #[inline(always)]
    fn asks_no_more(&self) -> bool
        ensures place { IsTrue result → known_of self.now ≡ All }
        ensures drive { IsTrue result → HasDrive self.now.rules.needs_spindle self.now.drive }
    {
        if !self.rules.from_anywhere && !self.rules.needs_spindle {
            return true;
        }
        self.keeps_rules()
    }

    // The same where something is asked beside. It is kept apart, since that is so of few programs.
    #[inline(never)]
    fn keeps_rules(&self) -> bool
        ensures place { IsTrue result → known_of self.now ≡ All }
        ensures drive { IsTrue result → HasDrive self.now.rules.needs_spindle self.now.drive }
    {
        match self.known_place() {
            Known::All => !self.rules.needs_spindle || self.drive.is_all(),
            _ => false,
        }
    }

    // The move of a line whose words have said this.
    fn end_plain(&self, plain: &PlainLine) -> Option<PlainMove>
        ensures { IfSome result (λ m. IsEnd self.now plain.now m) }
    {
        if plain.x.is_none() && plain.y.is_none() && plain.z.is_none() {
            return None;
        }
        let kind = kind_in(plain.kind, self.mode)?;
        Some(PlainMove {
            kind,
            to: Pt3 {
                x: plain.x.unwrap_or(self.here.x),
                y: plain.y.unwrap_or(self.here.y),
                z: plain.z.unwrap_or(self.here.z),
            },
        })
    }
}

impl PlainLine {
    fn new() -> Self
        ensures { result ≡ record { kind = None; feed = false; x = None; y = None; z = None } }
    {
        PlainLine {
            kind: None,
            feed: false,
            x: None,
            y: None,
            z: None,
        }
    }

    // Takes the next word, if it may stand on such a line.
    #[inline(always)]
    fn take(&mut self, line: u64, unit: Unit, word: Word) -> bool
        requires { FitsWord word }
        ensures goes { IsTrue result → (positioned : Bool) (s : Said) → Says unit line self.old s →
            Goes unit line positioned word s self.new }
        ensures capital { IsTrue result → IsCapital word.letter }
        ensures more { IsTrue result → words_in self.new ≡ words_in self.old + 1 }
    {
        match word.letter {
            b'X' => take_axis(&mut self.x, line, unit, word.num),
            b'Y' => take_axis(&mut self.y, line, unit, word.num),
            b'Z' => take_axis(&mut self.z, line, unit, word.num),
            b'G' => take_motion(&mut self.kind, word.num),
            b'F' => take_feed(&mut self.feed, word.num),
            _ => false,
        }
    }
}

/// The kind of a line's move: what the line names, or the mode.
pub(crate) fn kind_in(named: Option<Kind>, mode: Mode) -> Option<Kind>
    ensures { IfSome result (λ kind. unwrap_or (mode_of named) mode ≡ On kind) }
{
    if named.is_some() {
        return named;
    }
    match mode {
        Mode::On(kind) => Some(kind),
        Mode::Off => None,
    }
}

// Takes an axis number, where the line has no other of its axis, and it is on the grid and in
// range.
#[inline(always)]
fn take_axis(axis: &mut Option<i32>, line: u64, unit: Unit, num: Num) -> bool
    requires { FitsNum 18 num }
    ensures new { IsTrue result → axis.old ≡ None }
    ensures units { IsTrue result → IsAxis unit line axis.new (Some num) }
{
    if axis.is_some() {
        return false;
    }
    match units_in_range(line, unit, num) {
        Some(units) => {
            *axis = Some(units);
            true
        }
        None => false,
    }
}

// The units of an axis number, if it is on the grid and in range.
#[inline(always)]
fn units_in_range(line: u64, unit: Unit, num: Num) -> Option<i32>
    requires { FitsNum 18 num }
    ensures { IfSome result (λ units. IsUnits unit line units num) }
{
    if num.scale == unit.places() as u8 {
        return whole_units(line, unit, num);
    }
    scaled_units(line, unit, num.neg, num.mant, num.scale)
}

/// The units of an axis number that has the unit's decimals, if it is in range.
#[inline(always)]
pub(crate) fn whole_units(_line: u64, unit: Unit, num: Num) -> Option<i32>
    requires { num.scale ≡ places_of unit }
    ensures { IfSome result (λ units. IsUnits unit _line units num) }
{
    if num.mant > u64::from(unit.greatest().unsigned_abs()) {
        return None;
    }
    Some(signed(num.neg, num.mant as u32))
}

// The units of any axis number. It is kept apart, since most numbers of a program have the unit's
// decimals, and takes the number's parts, so that those others need no place in memory.
#[inline(never)]
fn scaled_units(line: u64, unit: Unit, neg: bool, mant: u64, scale: u8) -> Option<i32>
    requires { FitsNum 18 (record { neg = neg; mant = mant; scale = scale }) }
    ensures { IfSome result (λ units.
        IsUnits unit line units (record { neg = neg; mant = mant; scale = scale })) }
{
    match units_of(line, Num { neg, mant, scale }, unit) {
        Ok(units) => Some(units),
        Err(_) => None,
    }
}

/// Takes the number of a `G0` or `G1`, where the line has none so far.
#[inline(always)]
pub(crate) fn take_motion(kind: &mut Option<Kind>, num: Num) -> bool
    ensures new { IsTrue result → kind.old ≡ None }
    ensures kind { IsTrue result → IsMotion num kind.new }
{
    if kind.is_some() || num.neg || num.scale != 0 || num.mant > 1 {
        return false;
    }
    *kind = Some(if num.mant == 0 {
        Kind::Rapid
    } else {
        Kind::Feed
    });
    true
}

// Takes the number of an `F`, where the line has none so far, and it is over 0.
#[inline(always)]
fn take_feed(feed: &mut bool, num: Num) -> bool
    ensures new { IsTrue result → feed.old ≡ false }
    ensures had { IsTrue result → feed.new ≡ true }
    ensures over { IsTrue result → is_over_zero_number num ≡ true }
{
    if *feed || !is_over_zero(num) {
        return false;
    }
    *feed = true;
    true
}
