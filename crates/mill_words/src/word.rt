//! The words of a line, and what may be wrong with it.
use thiserror::Error;

/// A number as it is spelled (NISTIR 6556, 3.3.2.1): its digits without the point, at most 18 of
/// them, as one whole number `mant`, `scale` of which stand behind the point.
///
/// So it is `mant / 10 ^ scale`, and with `neg` less than 0, or 0. `-12.50` has `neg`, `mant` 1250
/// and `scale` 2.
// The fields stand by falling size, so that words are small: they are copied often.
#[derive(Clone, Copy, Debug, PartialEq, Eq)]
pub struct Num {
    pub mant: u64,
    pub scale: u8,
    pub neg: bool,
}

/// A word (NISTIR 6556, 3.3.2): a letter in upper case, other than `N`, and its number.
#[derive(Clone, Copy, Debug, PartialEq, Eq)]
pub struct Word {
    pub num: Num,
    pub letter: u8,
}

/// The first fault of a line, with its place in the line, from 0.
#[derive(Clone, Copy, Debug, PartialEq, Eq, Error)]
pub enum WordFault {
    /// The byte at this place can't stand there.
    #[error("an unexpected byte at {0}")]
    BadByte(u32),
    /// The letter at this place has no digit behind it.
    #[error("no number behind the letter at {0}")]
    NoNumber(u32),
    /// The number of the letter at this place has more than 18 digits.
    #[error("more than 18 digits behind the letter at {0}")]
    LongNumber(u32),
    /// The comment from this place on has no end on the line, or a second `(` in it.
    #[error("a comment that is not closed at {0}")]
    Comment(u32),
    /// The `N` at this place doesn't begin the line, or hasn't 1 to 9 digits and nothing more.
    #[error("not a line number at {0}")]
    LineNumber(u32),
    /// A 33rd word begins.
    #[error("more than 32 words")]
    TooManyWords,
}
