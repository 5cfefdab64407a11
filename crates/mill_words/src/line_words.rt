//! The words of a line, in place.
ghost use Rattle.std.specs.Prelude.{◌≡◌, ◌++◌, ◌∷◌, [], ◌<◌, ◌≤◌, length, take, All};
ghost use Rattle.mill_words.specs.Words.{Line, empty_line, is_blank as is_blank_line, FitsWord};
ghost use Rattle.mill_words.specs.Lines.{noted};

use crate::stage::Stage;
use crate::word::{Num, Word};
use std::marker::Model;

/// The most words of a line.
pub(crate) const MOST_WORDS: usize = 32;

/// What a line says: whether a slash and a line number stand at its start, and its words, of which
/// there are at most 32.
#[derive(Drop)]
pub struct LineWords {
    slash: bool,
    numbered: bool,
    words: [Word; 32],
    count: usize,
}

impl Model for LineWords {
    ghost Value = { Line };

    ghost view = { λ l. record { slash = l.slash; numbered = l.numbered; words = take l.count l.words } };

    ghost invariant = { λ l. (l.count ≤ 32) × All FitsWord (take l.count l.words) };
}

impl LineWords {
    /// A line that says nothing.
    pub fn new() -> Self
        ensures { result ≡ empty_line }
    {
        let none = Word {
            letter: b'X',
            num: Num {
                neg: false,
                mant: 0,
                scale: 0,
            },
        };
        LineWords {
            slash: false,
            numbered: false,
            words: [none; 32],
            count: 0,
        }
    }

    /// Whether the line begins with a slash, which is "block delete" (NISTIR 6556, 3.3).
    pub fn has_slash(&self) -> bool
        ensures { result ≡ self.now.slash }
    {
        self.slash
    }

    /// Whether the line has a line number (NISTIR 6556, 3.3.1).
    pub fn is_numbered(&self) -> bool
        ensures { result ≡ self.now.numbered }
    {
        self.numbered
    }

    /// The words, from left to right. Each number has at most 18 digits.
    pub fn words(&self) -> &[Word]
        ensures words { result.now ≡ self.now.words }
        ensures fit { All FitsWord self.now.words }
        ensures few { length self.now.words ≤ 32 }
    {
        &self.words[..self.count]
    }

    /// Whether nothing but blanks and comments stands on the line.
    pub fn is_blank(&self) -> bool
        ensures { result ≡ is_blank_line self.now }
    {
        if self.slash {
            return false;
        }
        if self.numbered {
            return false;
        }
        self.words().is_empty()
    }

    pub(crate) fn count(&self) -> usize
        ensures count { result ≡ length self.now.words }
        ensures few { result ≤ 32 }
    {
        self.words().len()
    }

    pub(crate) fn clear(&mut self)
        ensures { self.new ≡ empty_line }
    {
        self.slash = false;
        self.numbered = false;
        self.count = 0;
    }

    pub(crate) fn push(&mut self, word: Word)
        requires room { length self.old.words < 32 }
        requires fits { FitsWord word }
        ensures { self.new ≡ record { slash = self.old.slash; numbered = self.old.numbered; words = self.old.words ++ word ∷ [] } }
    {
        self.words[self.count] = word;
        self.count += 1;
    }

    /// Notes what of the line has begun: its slash or its line number.
    pub(crate) fn note(&mut self, stage: Stage)
        ensures { self.new ≡ noted stage self.old }
    {
        match stage {
            Stage::Slashed => self.slash = true,
            Stage::InLineNumber(_, _) => self.numbered = true,
            _ => {}
        }
    }
}
