//! A word that has begun.
ghost use Rattle.std.specs.Prelude.{◌≡◌, ◌<◌, ◌≤◌, true, false, Ok};
ghost use Rattle.std.specs.Char.{is_ascii_digit};
ghost use Rattle.mill_words.specs.Lines.{grown_word, grows, with_digit, is_sign as is_sign_byte, is_fresh as is_fresh_word, opened_at};
ghost use Rattle.mill_words.specs.inner.Bounds.{FitsOpenWord};

use crate::word::{Num, WordFault};

/// The most digits of a number.
pub(crate) const MOST_DIGITS: u8 = 18;

/// A word that has begun: its letter at a place, and what stands behind it so far.
#[derive(Clone, Copy)]
pub(crate) struct OpenWord {
    pub letter: u8,
    pub place: u32,
    pub num: Num,
    /// How many digits the number has so far.
    pub digits: u8,
    pub signed: bool,
    pub pointed: bool,
}

impl OpenWord {
    /// The letter alone.
    pub fn new(letter: u8, place: u32) -> Self
        ensures { result ≡ opened_at letter place }
    {
        OpenWord {
            letter,
            place,
            num: Num {
                neg: false,
                mant: 0,
                scale: 0,
            },
            digits: 0,
            signed: false,
            pointed: false,
        }
    }

    /// Whether the byte goes on with the word, which it is added to then.
    #[tactic(auto, unfolding(crate::specs::Lines::grown_word))]
    pub fn grow(&mut self, byte: u8) -> Result<bool, WordFault>
        requires { FitsOpenWord self.old }
        ensures value { grown_word self.old byte ≡ grows result self.new }
        ensures fits { FitsOpenWord self.new }
        ensures stays { result ≡ Ok false → self.new ≡ self.old }
    {
        if byte.is_ascii_digit() {
            return self.grow_number(byte);
        }
        if byte == b'.' && !self.pointed {
            self.pointed = true;
            return Ok(true);
        }
        if is_sign(byte) && self.is_fresh() {
            self.signed = true;
            self.num.neg = byte == b'-';
            return Ok(true);
        }
        Ok(false)
    }

    #[tactic(auto, unfolding(crate::specs::Lines::grown_word))]
    fn grow_number(&mut self, digit: u8) -> Result<bool, WordFault>
        requires fits { FitsOpenWord self.old }
        requires digit { is_ascii_digit digit ≡ true }
        ensures value { grown_word self.old digit ≡ grows result self.new }
        ensures fits { FitsOpenWord self.new }
        ensures never { result ≡ Ok false → self.new ≡ self.old }
    {
        if self.digits == MOST_DIGITS {
            return Err(WordFault::LongNumber(self.place));
        }
        self.add_digit(digit);
        Ok(true)
    }

    fn add_digit(&mut self, digit: u8)
        requires fits { FitsOpenWord self.old }
        requires digit { is_ascii_digit digit ≡ true }
        requires room { self.old.digits < 18 }
        ensures value { self.new ≡ with_digit self.old digit }
        ensures fits { FitsOpenWord self.new }
    {
        self.num = Num {
            neg: self.num.neg,
            mant: 10 * self.num.mant + u64::from(digit - b'0'),
            scale: self.num.scale + u8::from(self.pointed),
        };
        self.digits += 1;
    }

    // Whether nothing stands behind the letter yet.
    fn is_fresh(&self) -> bool
        ensures { result ≡ is_fresh_word self.now }
    {
        !self.signed && !self.pointed && self.digits == 0
    }
}

pub(crate) fn is_sign(byte: u8) -> bool
    ensures { result ≡ is_sign_byte byte }
{
    byte == b'+' || byte == b'-'
}
