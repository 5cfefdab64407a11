//! What the whole line tells of which letters it takes.
ghost use Rattle.std.specs.Prelude.{◌≡◌, ◌≤◌, All, IfSome};
ghost use Rattle.mill_words.specs.Words.{FitsNum, FitsWord};
ghost use Rattle.mill_said.specs.MachineTakes.{meaning_of as meaning_of_row};
ghost use Rattle.mill_said.specs.MachineTakes.{first_p as first_p_of};
ghost use Rattle.mill_said.specs.MachineTakes.{is_at_most as is_at_most_units};
ghost use Rattle.mill_said.specs.MachineTakes.{is_tolerable as is_tolerable_number};
ghost use Rattle.mill_said.specs.MachineTakes.{takes_of, takes as takes_word};
ghost use Rattle.mill_said.specs.inner.SeenWords.{dwells_in, lengths_in, seen_in, seen_with};

use crate::before::Before;
use crate::machine_table::{Meaning, Row, row_of};
use crate::numbers::{is_over_zero, power};
use crate::rules::Control;
use mill_control::{Cycle, LengthUnit};
use mill_words::{Num, Word};

/// What the whole line tells of which letters it takes.
#[derive(Clone, Copy)]
pub struct Takes {
    /// An H, since it has a `G43`.
    pub number: bool,
    /// An H of 0, since it has a `G49`.
    pub no_number: bool,
    /// A P, since it rests, sets a tolerance, or dwells in a hole.
    pub rest: bool,
    /// An R and a Q, since it drills.
    pub drill: bool,
    /// An I, a J, a K and an R, since it turns.
    pub turn: bool,
    /// Its P is a tolerance within the one that is allowed.
    pub tolerance: bool,
}

// What the words of a line mean, as far as it tells which letters the line takes.
#[derive(Clone, Copy)]
struct Seen {
    /// It has a `G43`.
    pub number: bool,
    /// It has a `G49`.
    pub no_number: bool,
    /// It has a `G4`.
    pub rests: bool,
    /// It has a `G64`.
    pub tolerates: bool,
    /// It has a word of the motion modes.
    pub moves: bool,
    /// It has a drilling cycle.
    pub drills: bool,
    /// It has the one that dwells.
    pub dwells: bool,
    /// It has an arc's.
    pub turns: bool,
    /// It says that lengths are inches.
    pub inches: bool,
    /// It says that lengths are millimetres.
    pub millimetres: bool,
}

impl Takes {
    /// What this line tells, behind the lines before it.
    pub(crate) fn of(control: Control, before: &Before, words: &[Word]) -> Self
        requires { All FitsWord words.now }
        ensures { result ≡ takes_of control before.now words.now }
    {
        let seen = Seen::of(words);
        let cycle = before.cycle;
        let per = seen.lengths(before.millimetres).per(before.unit);
        Takes {
            number: seen.number,
            no_number: seen.no_number,
            rest: seen.rests || (seen.tolerates || seen.mode_dwells(cycle)),
            drill: seen.drills || (!seen.moves && cycle.is_some()),
            turn: seen.turns || (!seen.moves && before.turn.is_some()),
            tolerance: is_tolerable(per, control.path_tolerance, first_p(words)),
        }
    }

    /// Whether the line takes a word of this meaning with this number.
    pub(crate) fn allows(self, meaning: Meaning, num: Num) -> bool
        ensures { result ≡ takes_word self meaning num }
    {
        match meaning {
            Meaning::H => self.number || (self.no_number && num.mant == 0),
            Meaning::P => self.rest,
            Meaning::R => self.drill || self.turn,
            Meaning::Q => self.drill,
            Meaning::I | Meaning::J | Meaning::K => self.turn,
            _ => true,
        }
    }
}

impl Seen {
    const NONE: Seen = Seen {
        number: false,
        no_number: false,
        rests: false,
        tolerates: false,
        moves: false,
        drills: false,
        dwells: false,
        turns: false,
        inches: false,
        millimetres: false,
    };

    #[tactic(auto, using(crate::proofs::TakesLemmas::seen_more))]
    fn of(words: &[Word]) -> Self
        requires { All FitsWord words.now }
        ensures { result ≡ seen_in words.now }
    {
        let mut seen = Seen::NONE;
        for word in words {
            seen = seen.with(meaning_of(row_of(word)));
        }
        seen
    }

    // With a word of this meaning.
    fn with(mut self, meaning: Meaning) -> Self
        ensures { result ≡ seen_with self meaning }
    {
        match meaning {
            Meaning::Length(true) => self.number = true,
            Meaning::Length(false) => self.no_number = true,
            Meaning::Rest => self.rests = true,
            Meaning::Tolerance => self.tolerates = true,
            Meaning::Straight(_) | Meaning::Still => self.moves = true,
            Meaning::Drill(cycle) => {
                self.moves = true;
                self.drills = true;
                self.dwells = self.dwells || matches!(cycle, Cycle::Dwell);
            }
            Meaning::Turn(_) => {
                self.moves = true;
                self.turns = true;
            }
            Meaning::Lengths(LengthUnit::Inches) => self.inches = true,
            Meaning::Lengths(LengthUnit::Millimetres) => self.millimetres = true,
            _ => {}
        }
        self
    }

    // Whether the mode of the line is that of the cycle that dwells.
    fn mode_dwells(self, cycle: Option<Cycle>) -> bool
        ensures { result ≡ dwells_in self cycle }
    {
        self.dwells || (!self.moves && matches!(cycle, Some(Cycle::Dwell)))
    }

    // The unit of the line's lengths, and inches where there is none.
    fn lengths(self, millimetres: bool) -> LengthUnit
        ensures { result ≡ lengths_in self millimetres }
    {
        if self.inches {
            return LengthUnit::Inches;
        }
        if self.millimetres || millimetres {
            return LengthUnit::Millimetres;
        }
        LengthUnit::Inches
    }
}

fn meaning_of(row: Option<Row>) -> Meaning
    ensures { result ≡ meaning_of_row row }
{
    match row {
        Some(row) => row.meaning,
        None => Meaning::Nothing,
    }
}

// The number of the line's first P.
fn first_p(words: &[Word]) -> Option<Num>
    requires { All FitsWord words.now }
    ensures value { result ≡ first_p_of words.now }
    ensures fits { IfSome result (FitsNum 18) }
{
    for word in words {
        if word.letter == b'P' {
            return Some(word.num);
        }
    }
    None
}

// Whether it is a tolerance over 0 that isn't greater than so many units.
fn is_tolerable(per: u64, greatest: i32, num: Option<Num>) -> bool
    requires per { per ≤ 25400 }
    requires num { IfSome num (FitsNum 18) }
    ensures { result ≡ is_tolerable_number per greatest num }
{
    match num {
        Some(num) => is_over_zero(num) && is_at_most(per, greatest, num),
        None => false,
    }
}

/// Whether so many lengths, of which 1 is so many units, aren't over this many units.
pub fn is_at_most(per: u64, units: i32, num: Num) -> bool
    requires per { per ≤ 25400 }
    requires num { FitsNum 18 num }
    ensures { result ≡ is_at_most_units per units num }
{
    let greatest = u128::from(units.unsigned_abs()) * u128::from(power(num.scale));
    u128::from(num.mant) * u128::from(per) <= greatest
}
