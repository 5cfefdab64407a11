//! The words of the profile: each one's group, and its effect.
ghost use Rattle.std.specs.Prelude.{◌≡◌};
ghost use Rattle.mill_words.specs.Words.{FitsWord};
ghost use Rattle.mill_said.specs.Profile.{g_entry as g_entry_of, m_entry as m_entry_of};
ghost use Rattle.mill_said.specs.Profile.{letter_entry as letter_entry_of};
ghost use Rattle.mill_said.specs.Profile.{entry_of as entry_of_word, row as row_with};

use crate::numbers::whole_of;
use mill_base::Kind;
use mill_words::Word;

/// The motion mode.
#[derive(Clone, Copy)]
pub enum Mode {
    /// At the start, and behind `G80`: an axis word has no meaning.
    Off,
    /// Behind `G0` or `G1`.
    On(Kind),
}

/// What a word does.
#[derive(Clone, Copy)]
pub enum Effect {
    /// Nothing.
    Nothing,
    /// Sets the motion mode.
    Motion(Mode),
    /// Says that coordinates are absolute.
    Absolute,
    /// Says that lengths are millimetres.
    Millimetres,
    /// Ends the program with its line.
    End,
    /// Selects the tool.
    Tool,
    /// Changes it, and stops the spindle.
    Change,
    /// Starts the spindle, or stops it.
    Spindle(bool),
    /// Sets the spindle's speed.
    Speed,
    /// Sets the feed rate.
    Rate,
    /// Names the x of the move's end.
    X,
    /// Names its y.
    Y,
    /// Names its z.
    Z,
}

/// A word's row in the table.
#[derive(Clone, Copy)]
pub struct Entry {
    /// The modal group of its number, 0 for letters other than `G` and `M`.
    pub group: u8,
    /// What it does.
    pub effect: Effect,
}

/// The row of a word, if it is of the profile.
#[tactic(auto, unfolding(crate::specs::Profile::entry_of))]
pub(crate) fn entry_of(word: &Word) -> Option<Entry>
    requires { FitsWord word.now }
    ensures { result ≡ entry_of_word word.now }
{
    match word.letter {
        b'G' => g_entry(whole_of(word.num)?),
        b'M' => m_entry(whole_of(word.num)?),
        letter => letter_entry(letter),
    }
}

fn g_entry(number: u64) -> Option<Entry>
    ensures { result ≡ g_entry_of number }
{
    match number {
        0 => Some(row(1, Effect::Motion(Mode::On(Kind::Rapid)))),
        1 => Some(row(1, Effect::Motion(Mode::On(Kind::Feed)))),
        80 => Some(row(1, Effect::Motion(Mode::Off))),
        17 => Some(row(2, Effect::Nothing)),
        90 => Some(row(3, Effect::Absolute)),
        94 => Some(row(5, Effect::Nothing)),
        21 => Some(row(6, Effect::Millimetres)),
        40 => Some(row(7, Effect::Nothing)),
        49 => Some(row(8, Effect::Nothing)),
        54 => Some(row(12, Effect::Nothing)),
        61 => Some(row(13, Effect::Nothing)),
        _ => None,
    }
}

fn m_entry(number: u64) -> Option<Entry>
    ensures { result ≡ m_entry_of number }
{
    match number {
        2 | 30 => Some(row(4, Effect::End)),
        6 => Some(row(6, Effect::Change)),
        3 | 4 => Some(row(7, Effect::Spindle(true))),
        5 => Some(row(7, Effect::Spindle(false))),
        7 | 8 | 9 => Some(row(8, Effect::Nothing)),
        _ => None,
    }
}

fn letter_entry(letter: u8) -> Option<Entry>
    ensures { result ≡ letter_entry_of letter }
{
    match letter {
        b'F' => Some(row(0, Effect::Rate)),
        b'S' => Some(row(0, Effect::Speed)),
        b'T' => Some(row(0, Effect::Tool)),
        b'X' => Some(row(0, Effect::X)),
        b'Y' => Some(row(0, Effect::Y)),
        b'Z' => Some(row(0, Effect::Z)),
        _ => None,
    }
}

/// A row of the table.
pub(crate) fn row(group: u8, effect: Effect) -> Entry
    ensures { result ≡ row_with group effect }
{
    Entry { group, effect }
}
