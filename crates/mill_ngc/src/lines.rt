//! The lines of a text.
ghost use Rattle.std.specs.Prelude.{◌≡◌, ℕ, ◌+◌, ◌<◌, ◌≤◌, ◌∷◌, ◌==◌, not, true, false, length, slice_index, IfSome, option_copied};
ghost use Rattle.std.specs.List.{prefix_len};
ghost use Rattle.mill_ngc.specs.Programs.{lines_of, lines_behind};

use std::simd::prelude::*;

/// How many bytes are compared at once.
const LANES: usize = 16;

/// The first line of a text, and the text behind its line end if it has one.
pub(crate) fn split_line(text: &[u8]) -> (&[u8], Option<&[u8]>)
    ensures lines { lines_of text.now ≡ result.0.now ∷ lines_behind (option_copied result.1) }
    ensures shorter { IfSome result.1 (λ rest. length rest.now < length text.now) }
{
    let count = line_length(text);
    if count == text.len() {
        return (text, None);
    }
    (&text[..count], Some(&text[count + 1..]))
}

// How many bytes stand before the first line feed, or at all.
fn line_length(text: &[u8]) -> usize
    ensures value { result ≡ prefix_len (λ b. not (b == 10)) text.now }
    ensures within { result ≤ length text.now }
{
    let mut place = 0;
    while text.len() - place >= LANES {
        let run = run_at(text, place);
        place += run;
        if run < LANES {
            return place;
        }
    }
    line_length_by_byte(text, place)
}

// The same byte by byte, where no line feed stands before a place.
fn line_length_by_byte(text: &[u8], from: usize) -> usize
    requires within { from ≤ length text.now }
    requires none { (k : ℕ) → k < from → (slice_index text.now k == 10) ≡ false }
    ensures value { result ≡ prefix_len (λ b. not (b == 10)) text.now }
    ensures within { result ≤ length text.now }
{
    for place in from..text.len() {
        if text[place] == b'\n' {
            return place;
        }
    }
    text.len()
}

// How many of the 16 bytes at a place come before the first line feed.
fn run_at(text: &[u8], place: usize) -> usize
    requires { place + LANES ≤ length text.now }
    ensures within { result ≤ LANES }
    ensures none { (k : ℕ) → place ≤ k → k < place + result → (slice_index text.now k == 10) ≡ false }
    ensures feed { result < LANES → (slice_index text.now (place + result) == 10) ≡ true }
{
    let bytes = u8x16::from_slice(&text[place..]);
    let marks = bytes.simd_eq(u8x16::splat(b'\n')).to_bitmask();
    if marks == 0 {
        return LANES;
    }
    marks.trailing_zeros() as usize
}
