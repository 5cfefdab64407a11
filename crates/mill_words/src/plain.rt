//! Plain words, which are read at once: a letter, a minus sign or none, digits, and a point with
//! digits behind it or none.
ghost use Rattle.std.specs.Prelude.{◌≡◌, ◌↔◌, ℕ, true, ◌<◌, ◌≤◌, ◌+◌, length, slice_index, IfSome, IsSome, IsTrue};
ghost use Rattle.std.specs.Char.{is_ascii_alphabetic, to_ascii_uppercase};
ghost use Rattle.mill_words.specs.Lines.{EndsWord, and_word, is_word_letter, line_from, opened_at};
ghost use Rattle.mill_words.specs.Words.{Line, FitsNum};
ghost use Rattle.mill_words.specs.Plain.{IsPlainNumber, blank_end, digits_end, has_at, number_end};
ghost use Rattle.mill_words.specs.declared.marks.Region.TheVariants.{Outside};
ghost use Rattle.mill_words.specs.declared.stage.Stage.{Stage};
ghost use Rattle.mill_words.specs.declared.stage.Stage.TheVariants.{Between, InWord};
ghost use Rattle.mill_words.specs.inner.Places.{rest_of, numbered_word, with_word, DigitsTo, IsPlainWord};

use crate::line_words::{LineWords, MOST_WORDS};
use crate::marks::is_blank;
use crate::open_word::{MOST_DIGITS, OpenWord};
use crate::word::{Num, Word};

/// A number as it is read at once.
#[derive(Clone, Copy)]
pub(crate) struct PlainNumber {
    pub num: Num,
    /// How many digits it has.
    pub digits: usize,
    pub pointed: bool,
    /// The place behind it.
    pub end: usize,
}

/// The number behind a letter, and where the next word may begin.
#[derive(Clone, Copy)]
pub struct LetterNumber {
    pub num: Num,
    pub end: usize,
}

/// The number of the word whose letter stands at a place, if it is plain: a minus sign or none, and
/// 1 to 18 digits, with a point before, among or behind them or none. It ends behind the blank that
/// stands behind it, if one does.
///
/// The answer is none only where the number isn't plain: `plain` and `end` tell that, and where it
/// ends. Where a letter stands at its end, or the line ends there, the line says that word and goes
/// on there: `word` tells it of a letter other than `N`, behind at most 31 words. Where any other
/// byte stands there, or the answer is none, nothing is said of the line, and [`read_line_into`] is
/// to read it.
///
/// [`read_line_into`]: crate::read_line_into
#[inline(always)]
pub fn plain_number_behind(line: &[u8], place: usize) -> Option<LetterNumber>
    requires within { place < length line.now }
    ensures word { IfSome result (λ n. (l : Line) → is_word_letter (slice_index line.now place) ≡ true → length l.words < 32 → EndsWord line.now n.end →
        line_from l line.now place ≡ line_from (and_word l (to_ascii_uppercase (slice_index line.now place)) n.num) line.now n.end) }
    ensures fits { IfSome result (λ n. FitsNum 18 n.num) }
    ensures plain { IsSome result ↔ IsPlainNumber line.now (place + 1) }
    ensures end { IfSome result (λ n. n.end ≡ blank_end line.now (number_end line.now (place + 1))) }
    ensures forward { IfSome result (λ n. place < n.end) }
    ensures within { IfSome result (λ n. n.end ≤ length line.now) }
{
    let number = number_at(line, place + 1)?;
    Some(LetterNumber {
        num: Num {
            neg: number.num.neg,
            mant: number.num.mant,
            scale: number.num.scale,
        },
        end: behind_blank(line, number.end),
    })
}

/// Takes the plain words that stand from a letter on, outside comments and where nothing has begun.
/// The answer is the place behind them, which is the same where no such word stands there.
// It is kept apart from the reading byte by byte, whose state would take its registers.
#[inline(never)]
pub(crate) fn take_plain_words(line: &[u8], from: usize, words: &mut LineWords) -> usize
    requires within { from < length line.now }
    requires letter { is_ascii_alphabetic (slice_index line.now from) ≡ true }
    ensures same { rest_of Outside Between words.new line.now result ≡ rest_of Outside Between words.old line.now from }
    ensures stops { result < length line.now → IsPlainWord (length words.new.words) line.now result → ⊥ }
    ensures forward { from ≤ result }
    ensures within { result ≤ length line.now }
{
    let mut place = from;
    while place < line.len() {
        let behind = take_plain_word(line, place, words);
        if behind == place {
            return place;
        }
        place = behind;
    }
    place
}

// The same for one word.
fn take_plain_word(line: &[u8], place: usize, words: &mut LineWords) -> usize
    requires within { place < length line.now }
    requires letter { is_ascii_alphabetic (slice_index line.now place) ≡ true }
    ensures same { rest_of Outside Between words.new line.now result ≡ rest_of Outside Between words.old line.now place }
    ensures stops { result ≡ place → IsPlainWord (length words.new.words) line.now place → ⊥ }
    ensures forward { place ≤ result }
    ensures within { result ≤ length line.now }
    ensures letter { result < length line.now → is_ascii_alphabetic (slice_index line.now result) ≡ true }
{
    let letter = line[place].to_ascii_uppercase();
    if letter == b'N' || words.count() == MOST_WORDS {
        return place;
    }
    let Some(number) = number_at(line, place + 1) else {
        return place;
    };
    match word_end(line, number.end) {
        Some(end) => {
            words.push(Word {
                letter,
                num: Num {
                    neg: number.num.neg,
                    mant: number.num.mant,
                    scale: number.num.scale,
                },
            });
            end
        }
        None => place,
    }
}

// Where a word with digits ends: behind a blank or none, at the line's end or at a letter.
fn word_end(line: &[u8], place: usize) -> Option<usize>
    requires within { place ≤ length line.now }
    ensures same { IfSome result (λ end. (w : OpenWord) (l : Line) → 0 < w.digits →
        rest_of Outside (InWord w) l line.now place ≡ rest_of Outside Between (with_word w l) line.now end) }
    ensures ends { IsSome result ↔ EndsWord line.now (blank_end line.now place) }
    ensures forward { IfSome result (λ end. place ≤ end) }
    ensures within { IfSome result (λ end. end ≤ length line.now) }
    ensures letter { IfSome result (λ end. end < length line.now → is_ascii_alphabetic (slice_index line.now end) ≡ true) }
{
    let end = behind_blank(line, place);
    if end == line.len() || line[end].is_ascii_alphabetic() {
        return Some(end);
    }
    None
}

// Behind the blank at a place, if one stands there. Mostly that is a space, or the line ends there.
fn behind_blank(line: &[u8], place: usize) -> usize
    requires within { place ≤ length line.now }
    ensures same { (s : Stage) (l : Line) → rest_of Outside s l line.now place ≡ rest_of Outside s l line.now result }
    ensures end { result ≡ blank_end line.now place }
    ensures forward { place ≤ result }
    ensures within { result ≤ length line.now }
{
    if has_byte(line, place, b' ') {
        return place + 1;
    }
    if place == line.len() {
        return place;
    }
    behind_any_blank(line, place)
}

// The same of any blank. It is kept apart, so that the compiler branches where a space stands: the
// place behind a word is known sooner then than by a sum.
#[inline(never)]
fn behind_any_blank(line: &[u8], place: usize) -> usize
    requires within { place ≤ length line.now }
    ensures same { (s : Stage) (l : Line) → rest_of Outside s l line.now place ≡ rest_of Outside s l line.now result }
    ensures end { result ≡ blank_end line.now place }
    ensures forward { place ≤ result }
    ensures within { result ≤ length line.now }
{
    if place < line.len() && is_blank(line[place]) {
        return place + 1;
    }
    place
}

// The number at a place, if it has 1 to 18 digits.
#[tactic(auto, unfolding(crate::specs::Plain::number_end, crate::specs::Plain::number_digits))]
fn number_at(line: &[u8], from: usize) -> Option<PlainNumber>
    requires within { from ≤ length line.now }
    ensures same { IfSome result (λ n. (letter place : ℕ) (l : Line) → rest_of Outside (InWord (opened_at letter place)) l line.now from
        ≡ rest_of Outside (InWord (numbered_word letter place n)) l line.now n.end) }
    ensures some { IfSome result (λ n. 0 < n.digits) }
    ensures few { IfSome result (λ n. n.digits ≤ 18) }
    ensures fits { IfSome result (λ n. FitsNum n.digits n.num) }
    ensures plain { IsSome result ↔ IsPlainNumber line.now from }
    ensures end { IfSome result (λ n. n.end ≡ number_end line.now from) }
    ensures forward { IfSome result (λ n. from ≤ n.end) }
    ensures within { IfSome result (λ n. n.end ≤ length line.now) }
{
    let neg = has_byte(line, from, b'-');
    let first = from + usize::from(neg);
    let (whole, point) = digits_at(line, first, 0);
    let before = point - first;
    if !has_byte(line, point, b'.') {
        if before == 0 || before > usize::from(MOST_DIGITS) {
            return None;
        }
        return Some(PlainNumber {
            num: Num {
                neg,
                mant: whole,
                scale: 0,
            },
            digits: before,
            pointed: false,
            end: point,
        });
    }
    let (mant, end) = digits_at(line, point + 1, whole);
    let behind = end - (point + 1);
    if before + behind == 0 || before + behind > usize::from(MOST_DIGITS) {
        return None;
    }
    Some(PlainNumber {
        num: Num {
            neg,
            mant,
            scale: behind as u8,
        },
        digits: before + behind,
        pointed: true,
        end,
    })
}

pub(crate) fn has_byte(line: &[u8], place: usize, byte: u8) -> bool
    requires within { place ≤ length line.now }
    ensures value { result ≡ has_at byte line.now place }
    ensures within { IsTrue result → place < length line.now }
    ensures byte { IsTrue result → slice_index line.now place ≡ byte }
{
    place < line.len() && line[place] == byte
}

/// The number of the digits at a place, behind digits that stand for `front`, and the place behind
/// them. Where all of them are more than 18, the number may have wrapped.
pub(crate) fn digits_at(line: &[u8], from: usize, front: u64) -> (u64, usize)
    requires { from ≤ length line.now }
    ensures digits { DigitsTo line.now from result.1 front result.0 }
    ensures end { result.1 ≡ digits_end line.now from }
    ensures forward { from ≤ result.1 }
    ensures within { result.1 ≤ length line.now }
{
    let mut value = front;
    let mut place = from;
    while place < line.len() {
        let byte = line[place];
        if !byte.is_ascii_digit() {
            return (value, place);
        }
        value = value.wrapping_mul(10).wrapping_add(u64::from(byte - b'0'));
        place += 1;
    }
    (value, place)
}
