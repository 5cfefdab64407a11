//! Lines that are only a move, and spelled as most lines of a program are: a `G0` or `G1` or none,
//! behind it numbers of X, Y and Z in this order, each with the unit's decimals, and last a feed
//! rate over 0 or none.
//!
//! They are read with less to decide than any line of plain words.
ghost use Rattle.std.specs.Prelude.{◌≡◌, ◌+◌, ◌<◌, ◌≤◌, ◌^◌, ◌||◌, length, None, IfSome, IsTrue};
ghost use Rattle.std.specs.Prelude.{is_some};
ghost use Rattle.mill_base.specs.Ranges.{IsInUnitRange};
ghost use Rattle.mill_block.specs.declared.progress.Progress.{Progress};
ghost use Rattle.mill_block.specs.Lines.{line_begun};
ghost use Rattle.mill_block.specs.inner.PlainMoves.{EndsLine, IsReady, LineMovesTo, ReadTo};
ghost use Rattle.mill_block.specs.inner.PlainMoves.{ReadsAxis, in_order};

use crate::plain_move::{PlainMove, kind_in, take_motion, whole_units};
use crate::progress::Progress;
use mill_base::{Kind, Pt3, Unit};
use mill_said::is_over_zero;
use mill_words::{decimal_behind, digit_behind, plain_number_behind};

/// The motion that a line names, if it names one, and the place behind its word.
#[derive(Clone, Copy)]
pub(crate) struct NamedMotion {
    pub kind: Option<Kind>,
    pub end: usize,
}

/// The coordinate of an axis that a line names, if it names one, in units, and the place behind its
/// word.
#[derive(Clone, Copy)]
pub(crate) struct NamedAxis {
    pub units: Option<i32>,
    pub end: usize,
}

impl Progress {
    /// The move of the next line, if it is only that and spelled as most are, and the lines before
    /// it have settled what a move needs.
    #[inline(always)]
    pub fn quick_line(&self, line: &[u8]) -> Option<PlainMove>
        requires here { IsInUnitRange self.now.unit self.now.here }
        requires number { self.now.line < 2 ^ 63 }
        ensures { IfSome result (λ m. LineMovesTo (line_begun self.now) line.now m) }
    {
        if !self.is_ready() {
            return None;
        }
        match self.unit {
            Unit::Hundredth => self.quick_line_in(line, Unit::Hundredth),
            Unit::Thousandth => self.quick_line_in(line, Unit::Thousandth),
        }
    }

    // The same in the program's unit. Where a call names it, its decimals and its range are
    // constants.
    #[inline(always)]
    fn quick_line_in(&self, line: &[u8], unit: Unit) -> Option<PlainMove>
        requires here { IsInUnitRange self.now.unit self.now.here }
        requires number { self.now.line < 2 ^ 63 }
        requires ready { IsReady self.now }
        requires unit { unit ≡ self.now.unit }
        ensures { IfSome result (λ m. LineMovesTo (line_begun self.now) line.now m) }
    {
        let number = self.line + 1;
        let motion = motion_at(line)?;
        let kind = kind_in(motion.kind, self.mode)?;
        // What an axis ends at is settled at once, so that no flag is kept up to the line's end.
        let x = axis_at(line, motion.end, b'X', unit, number)?;
        let x_end = x.units.unwrap_or(self.here.x);
        let y = axis_at(line, x.end, b'Y', unit, number)?;
        let y_end = y.units.unwrap_or(self.here.y);
        let z = axis_at(line, y.end, b'Z', unit, number)?;
        let z_end = z.units.unwrap_or(self.here.z);
        if !ends_at(line, z.end) {
            return None;
        }
        if !names_axis(x.units, y.units, z.units) {
            return None;
        }
        Some(PlainMove {
            kind,
            to: Pt3 {
                x: x_end,
                y: y_end,
                z: z_end,
            },
        })
    }
}

// Whether the line ends at a place, or behind the feed rate that stands there.
#[inline(always)]
fn ends_at(line: &[u8], place: usize) -> bool
    requires within { place ≤ length line.now }
    ensures { IsTrue result → EndsLine line.now place }
{
    if place == line.len() {
        return true;
    }
    ends_with_feed(line, place)
}

// Whether the line ends behind the feed rate at a place. It is kept apart, since most lines name
// none.
#[inline(never)]
fn ends_with_feed(line: &[u8], place: usize) -> bool
    requires within { place < length line.now }
    ensures { IsTrue result → EndsLine line.now place }
{
    if line[place] != b'F' {
        return false;
    }
    let Some(number) = plain_number_behind(line, place) else {
        return false;
    };
    if number.end < line.len() || !is_over_zero(number.num) {
        return false;
    }
    true
}

fn names_axis(x: Option<i32>, y: Option<i32>, z: Option<i32>) -> bool
    ensures { result ≡ ((is_some x || is_some y) || is_some z) }
{
    x.is_some() || y.is_some() || z.is_some()
}

// The motion word that the line begins with, or none; no answer where another number than 0 or 1
// stands behind its `G`.
#[inline(always)]
fn motion_at(line: &[u8]) -> Option<NamedMotion>
    ensures read { IfSome result (λ m. (p : Progress) →
        ReadTo p line.now m.end (in_order m.kind None None None)) }
    ensures within { IfSome result (λ m. m.end ≤ length line.now) }
{
    if line.is_empty() || line[0] != b'G' {
        return Some(NamedMotion { kind: None, end: 0 });
    }
    let number = digit_behind(line, 0)?;
    let mut kind = None;
    if !take_motion(&mut kind, number.num) {
        return None;
    }
    Some(NamedMotion {
        kind,
        end: number.end,
    })
}

// The word of an axis at a place, or none; no answer where its number hasn't the unit's decimals,
// or is out of range.
#[inline(always)]
fn axis_at(line: &[u8], place: usize, letter: u8, unit: Unit, number: u64) -> Option<NamedAxis>
    requires within { place ≤ length line.now }
    ensures read { IfSome result (λ a. ReadsAxis unit number line.now place letter a.units a.end) }
    ensures within { IfSome result (λ a. a.end ≤ length line.now) }
{
    if place == line.len() || line[place] != letter {
        return Some(NamedAxis {
            units: None,
            end: place,
        });
    }
    let coordinate = decimal_behind(line, place, unit.places() as u8)?;
    let units = whole_units(number, unit, coordinate.num)?;
    Some(NamedAxis {
        units: Some(units),
        end: coordinate.end,
    })
}
