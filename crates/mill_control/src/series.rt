//! A series of a drilling cycle's holes.
ghost use Rattle.std.specs.Prelude.{◌≡◌, ◌≤◌, ◌&&◌, IfSome};
ghost use Rattle.std.specs.Ordering.{int_eq};
ghost use Rattle.mill_words.specs.Words.{FitsNum};
ghost use Rattle.mill_control.specs.Holes.{same_cycle, begun as begun_by, later as later_of};
ghost use Rattle.mill_control.specs.Holes.{with_numbers as with_numbers_of, pecks as pecks_by};
ghost use Rattle.mill_control.specs.Holes.{is_whole_series, goes_down as goes_down_by};
ghost use Rattle.mill_control.specs.Holes.{is_positive as is_positive_number, clearance_of};
ghost use Rattle.mill_control.specs.Holes.{crosses_alike as crosses_alike_by};
ghost use Rattle.mill_control.specs.Holes.{returns_alike as returns_alike_by};
ghost use Rattle.mill_control.specs.Holes.{may_drill as may_drill_by};
ghost use Rattle.mill_control.specs.Drilled.{FitsSeries};
ghost use Rattle.mill_control.specs.inner.Bounds.{goes_out as goes_out_by};

use crate::lengths::{exact, rounded};
use mill_base::Pt3;
use mill_words::Num;

/// A drilling cycle (NISTIR 6556, 3.5.16).
#[derive(Clone, Copy)]
pub enum Cycle {
    /// `G81`: down in one feed.
    Drill,
    /// `G82`: so, with a rest at the bottom.
    Dwell,
    /// `G83`: by pecks, with a way out between two of them.
    Peck,
    /// `G73`: by pecks, without one.
    Break,
}

/// How high a cycle's hole ends.
#[derive(Clone, Copy)]
pub enum Return {
    /// `G98`: where the series began, if that is over R.
    Level,
    /// `G99`: at R.
    Clearance,
}

/// What the lines of cycles have said so far, with no other motion mode between them.
#[derive(Clone, Copy)]
pub struct Series {
    /// The height where it began.
    pub level: i32,
    pub cycle: Cycle,
    pub r: Option<Num>,
    pub z: Option<Num>,
    pub q: Option<Num>,
}

impl Cycle {
    pub fn is_same(self, other: Cycle) -> bool
        ensures { result ≡ same_cycle self other }
    {
        matches!(
            (self, other),
            (Cycle::Drill, Cycle::Drill)
                | (Cycle::Dwell, Cycle::Dwell)
                | (Cycle::Peck, Cycle::Peck)
                | (Cycle::Break, Cycle::Break)
        )
    }

    /// Whether it goes down by pecks.
    pub fn pecks(self) -> bool
        ensures { result ≡ pecks_by self }
    {
        matches!(self, Cycle::Peck | Cycle::Break)
    }

    /// Whether it goes up to R between two pecks.
    pub(crate) fn goes_out(self) -> bool
        ensures { result ≡ goes_out_by self }
    {
        matches!(self, Cycle::Peck)
    }
}

impl Series {
    /// The series that a line of a cycle goes on with, or begins at this height.
    pub fn begun(before: Option<Series>, cycle: Cycle, level: i32) -> Self
        requires { IfSome before FitsSeries }
        ensures value { result ≡ begun_by before cycle level }
        ensures fits { FitsSeries result }
    {
        let level = match before {
            Some(series) => {
                if series.cycle.is_same(cycle) {
                    return series;
                }
                series.level
            }
            None => level,
        };
        Series {
            level,
            cycle,
            r: None,
            z: None,
            q: None,
        }
    }

    /// The same with the numbers of a line, as far as it has them.
    pub fn with_numbers(self, r: Option<Num>, z: Option<Num>, q: Option<Num>) -> Self
        requires series { FitsSeries self }
        requires r { IfSome r (FitsNum 18) }
        requires z { IfSome z (FitsNum 18) }
        requires q { IfSome q (FitsNum 18) }
        ensures value { result ≡ with_numbers_of self r z q }
        ensures fits { FitsSeries result }
    {
        Series {
            r: later(r, self.r),
            z: later(z, self.z),
            q: later(q, self.q),
            ..self
        }
    }

    /// Whether a hole at x and y may be drilled from here, and every control makes the same moves
    /// of it: all numbers have come and are within their rules, across isn't from under R, and the
    /// way
    /// back to the level is straight up.
    pub fn may_drill(self, returns: Option<Return>, per: u64, here: Pt3, x: i128, y: i128) -> bool
        requires series { FitsSeries self }
        requires per { per ≤ 25400 }
        ensures { result ≡ may_drill_by self returns per here x y }
    {
        self.is_whole()
            && (crosses_alike(clearance(self.r, per), here, x, y)
                && returns_alike(returns, self.level, here.z))
    }

    // Whether all of its numbers have come, and are within their rules.
    fn is_whole(self) -> bool
        requires { FitsSeries self }
        ensures { result ≡ is_whole_series self }
    {
        goes_down(self.r, self.z) && (!self.cycle.pecks() || is_positive(self.q))
    }
}

fn later(new: Option<Num>, before: Option<Num>) -> Option<Num>
    requires new { IfSome new (FitsNum 18) }
    requires before { IfSome before (FitsNum 18) }
    ensures value { result ≡ later_of new before }
    ensures fits { IfSome result (FitsNum 18) }
{
    match new {
        Some(num) => Some(num),
        None => before,
    }
}

fn is_positive(num: Option<Num>) -> bool
    ensures { result ≡ is_positive_number num }
{
    match num {
        Some(num) => !num.neg && num.mant > 0,
        None => false,
    }
}

// Whether the bottom isn't over R.
fn goes_down(r: Option<Num>, z: Option<Num>) -> bool
    requires r { IfSome r (FitsNum 18) }
    requires z { IfSome z (FitsNum 18) }
    ensures { result ≡ goes_down_by r z }
{
    match (r, z) {
        (Some(r), Some(z)) => exact(z) <= exact(r),
        _ => false,
    }
}

// R in units.
fn clearance(r: Option<Num>, per: u64) -> i128
    requires r { IfSome r (FitsNum 18) }
    requires per { per ≤ 25400 }
    ensures { result ≡ clearance_of per r }
{
    match r {
        Some(r) => rounded(r, per),
        None => 0,
    }
}

// Whether it goes across at one height, or at a height that isn't under R.
fn crosses_alike(r: i128, here: Pt3, x: i128, y: i128) -> bool
    ensures { result ≡ crosses_alike_by r here x y }
{
    r <= i128::from(here.z) || stays(here, x, y)
}

fn stays(here: Pt3, x: i128, y: i128) -> bool
    ensures { result ≡ (int_eq x here.x && int_eq y here.y) }
{
    x == i128::from(here.x) && y == i128::from(here.y)
}

// Whether it goes back up to the level where the holes begin there, or to R.
fn returns_alike(returns: Option<Return>, level: i32, z: i32) -> bool
    ensures { result ≡ returns_alike_by returns level z }
{
    match returns {
        None => false,
        Some(Return::Level) => level == z,
        Some(Return::Clearance) => true,
    }
}
