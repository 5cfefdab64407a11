//! Why a program is refused.
ghost use Rattle.std.specs.Prelude.{◌≡◌};
ghost use Rattle.mill_said.specs.declared.fault.NgcFault.TheVariants.{WantOfMemory};

use mill_words::{Num, WordFault};
use std::alloc::{AllocError, AllocFailed};
use thiserror::Error;

/// The first fault of a program, with the number of its line, from 1.
///
/// The checks on a line come in the order of these variants, from `LongLine` to `NoAxis`. Those
/// from `NotInProfile` to `Twice` are made on one word after another, from the left, and `OffGrid`
/// and `OutOfRange` on x, y and z in turn.
#[derive(Clone, Copy, Debug, PartialEq, Eq, Error)]
pub enum NgcFault {
    /// The line has more than 256 bytes before its line end (NISTIR 6556, 3.3).
    #[error("line {line}: more than 256 bytes")]
    LongLine { line: u64 },
    /// The line isn't words with an optional slash and line number before them.
    #[error("line {line}: {fault}")]
    Word { line: u64, fault: WordFault },
    /// A word isn't of the profile, or the line begins with a slash, which is told as `/` and 0.
    #[error("line {line}: `{}` and its number are not of the profile", char::from(*.letter))]
    NotInProfile { line: u64, letter: u8, number: Num },
    /// A `T` or `M6` on a line behind that of the first axis word.
    #[error("line {line}: a tool change behind the first move")]
    LateTool { line: u64 },
    /// The line has two G words, or two M words, of one modal group (NISTIR 6556, 3.3.4 and 3.4).
    #[error("line {line}: two words of modal group {group}")]
    Group { line: u64, group: u8 },
    /// The line has a letter other than `G` and `M` twice (NISTIR 6556, 3.3.4).
    #[error("line {line}: `{}` twice", char::from(*.letter))]
    Twice { line: u64, letter: u8 },
    /// With a machine's words: a `G64` whose tolerance is missing, not over 0, or greater than the
    /// job allows; or an arc while one is in force that is greater than arcs leave for it.
    #[error("line {line}: a path tolerance that is missing or too great")]
    PathControl { line: u64 },
    /// Where the tool may stand anywhere before the program: the first line with an axis word isn't
    /// a rapid with Z alone, at or over the height of the reader's start, or the second one isn't a
    /// rapid with X and Y both and no Z.
    #[error("line {line}: not the way up and across that a program begins with")]
    Start { line: u64 },
    /// With a machine's words: a coordinate is named under another tool length, or another zero,
    /// than the first one was.
    #[error("line {line}: a coordinate under another offset than the first one")]
    LateOffset { line: u64 },
    /// An axis word, and no `G21` so far (NISTIR 6556, 3.5.7).
    #[error("line {line}: a move before G21")]
    NoUnits { line: u64 },
    /// An axis word, and no `G90` so far (NISTIR 6556, 3.5.17).
    #[error("line {line}: a move before G90")]
    NoAbsolute { line: u64 },
    /// An axis word, and no motion mode: neither `G0` nor `G1` so far, or `G80` behind them.
    #[error("line {line}: a move without G0 or G1")]
    NoMotion { line: u64 },
    /// A feed is asked to have a spindle, and neither `M3` nor `M4` is in force, or the last `S`
    /// isn't over 0.
    #[error("line {line}: a feed, and the spindle doesn't turn")]
    NoSpindle { line: u64 },
    /// A feed is asked to have a spindle, and the last `F` isn't over 0.
    #[error("line {line}: a feed without a feed rate")]
    NoFeed { line: u64 },
    /// With a machine's words: an arc that the slack has no room for, whose words don't tell its
    /// centre, whose numbers aren't whole nanometres, or whose start and end don't lie on one
    /// circle.
    #[error("line {line}: an arc that is not whole, or that the slack has no room for")]
    Arc { line: u64 },
    /// With a machine's words: a drilling cycle that lacks a word, or that controls run
    /// differently.
    #[error("line {line}: a drilling cycle that is not whole, or that controls run differently")]
    Cycle { line: u64 },
    /// An axis word's number isn't a whole number of units.
    #[error("line {line}: an axis number that is not a whole number of units")]
    OffGrid { line: u64 },
    /// An axis word's number is over the unit's greatest coordinate in magnitude.
    #[error("line {line}: an axis number that is out of range")]
    OutOfRange { line: u64 },
    /// The 1,000,001st move.
    #[error("line {line}: more than 1,000,000 moves")]
    TooManyMoves { line: u64 },
    /// A `G0` or `G1`, and no axis word (NISTIR 6556, 3.5.1 and 3.5.2).
    #[error("line {line}: G0 or G1 without an axis")]
    NoAxis { line: u64 },
    /// The text ends before the program does. The line is 1 more than the text has line ends.
    #[error("line {line}: the text ends before the program does")]
    NoEnd { line: u64 },
    /// There was not enough memory for the moves.
    #[error("not enough memory")]
    WantOfMemory,
}

impl From<AllocError> for NgcFault {
    ghost from_gives = { λ _ e. e ≡ WantOfMemory };

    fn from(_: AllocError) -> Self {
        NgcFault::WantOfMemory
    }
}

impl<T: Drop> From<AllocFailed<T>> for NgcFault {
    ghost from_gives = { λ _ e. e ≡ WantOfMemory };

    fn from(_: AllocFailed<T>) -> Self {
        NgcFault::WantOfMemory
    }
}

impl From<mill_base::WantOfMemory> for NgcFault {
    ghost from_gives = { λ _ e. e ≡ WantOfMemory };

    fn from(_: mill_base::WantOfMemory) -> Self {
        NgcFault::WantOfMemory
    }
}
