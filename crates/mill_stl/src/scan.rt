//! Where the words of a part text end, and the white space between them.

ghost use Rattle.std.specs.Prelude.{◌≡◌, ℕ, ◌≤◌, ◌<◌, ◌^◌, ◌+◌, ◌-◌, List, length, slice_index, true, false, IsTrue};
ghost use Rattle.mill_base.specs.declared.points.Tri.{Tri};
ghost use Rattle.mill_base.specs.declared.unit.Unit.{Unit};
ghost use Rattle.mill_decimal.specs.declared.snap.Snap.{Snap};
ghost use Rattle.mill_stl.specs.declared.state.Progress.{Progress};
ghost use Rattle.mill_stl.specs.Parts.{is_space as is_space_byte, next_line as next_line_of};
ghost use Rattle.mill_stl.specs.inner.Bounds.{IsBeforeWord, meaning_from};

use crate::state::Cursor;
use std::simd::prelude::*;

/// How many bytes are tested at once.
const LANES: usize = 16;

fn is_space(byte: u8) -> bool
    ensures { result ≡ is_space_byte byte }
{
    if byte == b' ' {
        return true;
    }
    byte >= b'\t' && byte <= b'\r'
}

fn next_line(line: u64, byte: u8) -> u64
    requires { line < 2 ^ 64 - 1 }
    ensures value { result ≡ next_line_of line byte }
    ensures small { result ≤ line + 1 }
{
    if byte == b'\n' { line + 1 } else { line }
}

/// The end of the word that begins at a place.
///
/// Nearly every word ends among the first 16 bytes, and testing these at once spares a guess at the
/// word's length, which the processor often gets wrong.
pub(crate) fn word_end(text: &[u8], from: usize) -> usize
    requires { from ≤ length text.now }
    ensures forward { from ≤ result }
    ensures within { result ≤ length text.now }
    ensures word { (k : ℕ) → from ≤ k → k < result → is_space_byte (slice_index text.now k) ≡ false }
    ensures space { result < length text.now → is_space_byte (slice_index text.now result) ≡ true }
{
    let mut place = from;
    while text.len() - place >= LANES {
        let run = run_at(text, place);
        place += run;
        if run < LANES {
            break;
        }
    }
    word_end_by_byte(text, place)
}

// The same, byte by byte.
fn word_end_by_byte(text: &[u8], from: usize) -> usize
    requires { from ≤ length text.now }
    ensures forward { from ≤ result }
    ensures within { result ≤ length text.now }
    ensures word { (k : ℕ) → from ≤ k → k < result → is_space_byte (slice_index text.now k) ≡ false }
    ensures space { result < length text.now → is_space_byte (slice_index text.now result) ≡ true }
{
    for place in from..text.len() {
        if is_space(text[place]) {
            return place;
        }
    }
    text.len()
}

// How many of the 16 bytes at a place come before the first that is no more than a blank.
fn run_at(text: &[u8], place: usize) -> usize
    requires { place + LANES ≤ length text.now }
    ensures within { result ≤ LANES }
    ensures word { (k : ℕ) → place ≤ k → k < place + result → is_space_byte (slice_index text.now k) ≡ false }
{
    let bytes = u8x16::from_slice(&text[place..]);
    let marks = bytes.simd_le(u8x16::splat(b' ')).to_bitmask();
    if marks == 0 {
        return LANES;
    }
    marks.trailing_zeros() as usize
}

/// Passes over the white space at the cursor.
pub(crate) fn behind_spaces(text: &[u8], cursor: Cursor) -> Cursor
    requires within { cursor.from ≤ length text.now }
    requires line { cursor.line ≤ cursor.from + 1 }
    ensures meaning { (snap : Snap) (unit : Unit) (p : Progress) (tris : List Tri) →
        meaning_from snap unit text.now result p tris ≡ meaning_from snap unit text.now cursor p tris }
    ensures forward { cursor.from ≤ result.from }
    ensures placed { IsBeforeWord text.now result }
{
    if is_lone_blank(text, cursor.from) {
        return Cursor {
            line: cursor.line,
            from: cursor.from + 1,
        };
    }
    behind_run(text, cursor)
}

// Whether a blank stands at a place, as between most words, and then no white space.
fn is_lone_blank(text: &[u8], place: usize) -> bool
    requires { place ≤ length text.now }
    ensures within { IsTrue result → place + 1 < length text.now }
    ensures blank { IsTrue result → slice_index text.now place ≡ 32 }
    ensures word { IsTrue result → is_space_byte (slice_index text.now (place + 1)) ≡ false }
{
    text.len() - place > 1 && text[place] == b' ' && text[place + 1] > b' '
}

// Passes over any white space at the cursor: a byte, and then the blanks behind it, as a line mostly
// begins with many.
fn behind_run(text: &[u8], cursor: Cursor) -> Cursor
    requires within { cursor.from ≤ length text.now }
    requires line { cursor.line ≤ cursor.from + 1 }
    ensures meaning { (snap : Snap) (unit : Unit) (p : Progress) (tris : List Tri) →
        meaning_from snap unit text.now result p tris ≡ meaning_from snap unit text.now cursor p tris }
    ensures forward { cursor.from ≤ result.from }
    ensures placed { IsBeforeWord text.now result }
{
    let mut line = cursor.line;
    let mut from = cursor.from;
    while from < text.len() {
        let byte = text[from];
        if !is_space(byte) {
            return Cursor { line, from };
        }
        line = next_line(line, byte);
        from = behind_blanks(text, from + 1);
    }
    Cursor { line, from }
}

// Passes over blanks at a place, up to sixteen.
fn behind_blanks(text: &[u8], place: usize) -> usize
    requires { place ≤ length text.now }
    ensures forward { place ≤ result }
    ensures within { result ≤ length text.now }
    ensures blanks { (k : ℕ) → place ≤ k → k < result → slice_index text.now k ≡ 32 }
{
    if text.len() - place < LANES {
        return place;
    }
    place + blanks_at(text, place)
}

// How many blanks the 16 bytes at a place begin with.
fn blanks_at(text: &[u8], place: usize) -> usize
    requires { place + LANES ≤ length text.now }
    ensures within { result ≤ LANES }
    ensures blanks { (k : ℕ) → place ≤ k → k < place + result → slice_index text.now k ≡ 32 }
{
    let bytes = u8x16::from_slice(&text[place..]);
    let marks = bytes.simd_ne(u8x16::splat(b' ')).to_bitmask();
    if marks == 0 {
        return LANES;
    }
    marks.trailing_zeros() as usize
}
