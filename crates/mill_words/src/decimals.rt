//! Short numbers, as most of a program are: one digit, and a number with so many decimals.
//!
//! They are read with less to decide than any plain number.
ghost use Rattle.std.specs.Prelude.{◌≡◌, ◌↔◌, ℕ, true, ◌<◌, ◌≤◌, ◌+◌, drop, length, slice_index, IfSome, IsSome, IsTrue};
ghost use Rattle.std.specs.Char.{is_ascii_digit, to_ascii_uppercase};
ghost use Rattle.mill_words.specs.Lines.{EndsWord, and_word, is_word_letter, line_from, opened_at};
ghost use Rattle.mill_words.specs.Words.{Line, FitsNum};
ghost use Rattle.mill_words.specs.Plain.{digit_count, is_decimal, is_digit_at, space_end, whole_end};
ghost use Rattle.mill_words.specs.declared.marks.Region.TheVariants.{Outside};
ghost use Rattle.mill_words.specs.declared.stage.Stage.{Stage};
ghost use Rattle.mill_words.specs.declared.stage.Stage.TheVariants.{InWord};
ghost use Rattle.mill_words.specs.inner.Places.{rest_of, numbered_word, DigitsTo};

use crate::plain::{LetterNumber, PlainNumber, digits_at, has_byte};
use crate::word::Num;

/// The most digits before the point: with the decimals they are at most 18.
const MOST_WHOLE_DIGITS: usize = 15;

/// The number of the word whose letter stands at a place, if a digit stands behind it: that digit.
/// It ends behind the space that stands behind the digit, if one does.
///
/// The answer is none only where no digit stands there: `digit` tells that, and `end` where the
/// number ends. Where a letter stands at its end, or the line ends there, the line says that word and
/// goes on there: `word` tells it of a letter other than `N`, behind at most 31 words. Where any other
/// byte stands there, as a second digit, or the answer is none, nothing is said of the line.
#[inline(always)]
pub fn digit_behind(line: &[u8], place: usize) -> Option<LetterNumber>
    requires within { place < length line.now }
    ensures word { IfSome result (λ n. (l : Line) → is_word_letter (slice_index line.now place) ≡ true → length l.words < 32 → EndsWord line.now n.end →
        line_from l line.now place ≡ line_from (and_word l (to_ascii_uppercase (slice_index line.now place)) n.num) line.now n.end) }
    ensures fits { IfSome result (λ n. FitsNum 18 n.num) }
    ensures digit { IsSome result ↔ IsTrue (is_digit_at line.now (place + 1)) }
    ensures end { IfSome result (λ n. n.end ≡ space_end line.now (place + 2)) }
    ensures forward { IfSome result (λ n. place < n.end) }
    ensures within { IfSome result (λ n. n.end ≤ length line.now) }
{
    let digit = place + 1;
    let mant = digit_at(line, digit)?;
    Some(LetterNumber {
        num: Num {
            neg: false,
            mant,
            scale: 0,
        },
        end: behind_space(line, digit + 1),
    })
}

/// The number of the word whose letter stands at a place, if it has 2 or 3 decimals, as `places`
/// says: a minus sign or none, at most 15 digits, a point, and so many digits. It ends behind the
/// space that stands behind these, if one does.
///
/// The answer is none only where these don't stand there: `decimal` tells that, and `end` where the
/// number ends. Where a letter stands at its end, or the line ends there, the line says that word and
/// goes on there: `word` tells it of a letter other than `N`, behind at most 31 words. Where any other
/// byte stands there, as a digit more, or the answer is none, nothing is said of the line.
#[inline(always)]
pub fn decimal_behind(line: &[u8], place: usize, places: u8) -> Option<LetterNumber>
    requires within { place < length line.now }
    requires places { (2 ≤ places) × (places ≤ 3) }
    ensures word { IfSome result (λ n. (l : Line) → is_word_letter (slice_index line.now place) ≡ true → length l.words < 32 → EndsWord line.now n.end →
        line_from l line.now place ≡ line_from (and_word l (to_ascii_uppercase (slice_index line.now place)) n.num) line.now n.end) }
    ensures fits { IfSome result (λ n. FitsNum 18 n.num) }
    ensures scale { IfSome result (λ n. n.num.scale ≡ places) }
    ensures decimal { IsSome result ↔ IsTrue (is_decimal places line.now (place + 1)) }
    ensures end { IfSome result (λ n. n.end ≡ space_end line.now (whole_end line.now (place + 1) + 1 + places)) }
    ensures forward { IfSome result (λ n. place < n.end) }
    ensures within { IfSome result (λ n. n.end ≤ length line.now) }
{
    let number = decimal_at(line, place + 1, places)?;
    Some(LetterNumber {
        num: Num {
            neg: number.num.neg,
            mant: number.num.mant,
            scale: number.num.scale,
        },
        end: behind_space(line, number.end),
    })
}

// The number at a place, if it has so many decimals and at most 15 digits before them.
#[inline(always)]
#[tactic(auto, unfolding(crate::specs::Plain::is_decimal))]
fn decimal_at(line: &[u8], from: usize, places: u8) -> Option<PlainNumber>
    requires within { from ≤ length line.now }
    requires places { (2 ≤ places) × (places ≤ 3) }
    ensures same { IfSome result (λ n. (letter place : ℕ) (l : Line) → rest_of Outside (InWord (opened_at letter place)) l line.now from
        ≡ rest_of Outside (InWord (numbered_word letter place n)) l line.now n.end) }
    ensures some { IfSome result (λ n. 0 < n.digits) }
    ensures fits { IfSome result (λ n. FitsNum 18 n.num) }
    ensures scale { IfSome result (λ n. n.num.scale ≡ places) }
    ensures decimal { IsSome result ↔ IsTrue (is_decimal places line.now from) }
    ensures end { IfSome result (λ n. n.end ≡ whole_end line.now from + 1 + places) }
    ensures forward { IfSome result (λ n. from ≤ n.end) }
    ensures within { IfSome result (λ n. n.end ≤ length line.now) }
{
    let neg = has_byte(line, from, b'-');
    let first = from + usize::from(neg);
    let (whole, point) = digits_at(line, first, 0);
    let before = point - first;
    if before > MOST_WHOLE_DIGITS || !has_byte(line, point, b'.') {
        return None;
    }
    let count = usize::from(places);
    let mant = decimals_at(line, point + 1, count, whole)?;
    Some(PlainNumber {
        num: Num {
            neg,
            mant,
            scale: places,
        },
        digits: before + count,
        pointed: true,
        end: point + 1 + count,
    })
}

// The number of the next 2 or 3 digits, behind digits that stand for `front`, if so many stand
// there. Where all of them are more than 18, it may have wrapped.
#[inline(always)]
fn decimals_at(line: &[u8], from: usize, count: usize, front: u64) -> Option<u64>
    requires within { from ≤ length line.now }
    requires count { (2 ≤ count) × (count ≤ 3) }
    ensures digits { IfSome result (λ value. DigitsTo line.now from (from + count) front value) }
    ensures enough { IsSome result ↔ (count ≤ digit_count (drop from line.now)) }
    ensures within { IsSome result → from + count ≤ length line.now }
{
    if from + count > line.len() {
        return None;
    }
    let tens = next_digit(line, from, front)?;
    let ones = next_digit(line, from + 1, tens)?;
    if count == 2 {
        return Some(ones);
    }
    let last = next_digit(line, from + 2, ones)?;
    Some(last)
}

// The number of the digit at a place, if one stands there.
#[inline(always)]
fn digit_at(line: &[u8], place: usize) -> Option<u64>
    requires within { place ≤ length line.now }
    ensures digits { IfSome result (λ value. DigitsTo line.now place (place + 1) 0 value) }
    ensures digit { IsSome result ↔ IsTrue (is_digit_at line.now place) }
    ensures within { IsSome result → place < length line.now }
{
    if place == line.len() {
        return None;
    }
    let digit = next_digit(line, place, 0)?;
    Some(digit)
}

// The number of the digit at a place behind digits that stand for `value`, if one stands there.
#[inline(always)]
fn next_digit(line: &[u8], place: usize, value: u64) -> Option<u64>
    requires { place < length line.now }
    ensures digit { IsSome result ↔ IsTrue (is_ascii_digit (slice_index line.now place)) }
    ensures value { IfSome result (λ next. (from front : ℕ) → from ≤ place → DigitsTo line.now from place front value →
        DigitsTo line.now from (place + 1) front next) }
{
    let byte = line[place];
    if !byte.is_ascii_digit() {
        return None;
    }
    Some(value.wrapping_mul(10).wrapping_add(u64::from(byte - b'0')))
}

// Behind the space at a place, if one stands there.
#[inline(always)]
fn behind_space(line: &[u8], place: usize) -> usize
    requires within { place ≤ length line.now }
    ensures same { (s : Stage) (l : Line) → rest_of Outside s l line.now place ≡ rest_of Outside s l line.now result }
    ensures end { result ≡ space_end line.now place }
    ensures forward { place ≤ result }
    ensures within { result ≤ length line.now }
{
    if has_byte(line, place, b' ') {
        return place + 1;
    }
    place
}
