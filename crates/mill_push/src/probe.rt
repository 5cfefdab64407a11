//! The search for an end of a triangle's stretch, with a few touches near where it is expected.
ghost use Rattle.std.specs.Prelude.{◌≡◌, ◌+◌, ◌^◌, ◌<◌, ◌≤◌, ◌≤ℤ◌, ◌<ℤ◌, ◌+ℤ◌, ◌-ℤ◌, ◌*ℤ◌, ℕ, pos, nat_abs, false};
ghost use Rattle.mill_base.specs.Numbers.{Within};
ghost use Rattle.mill_base.specs.declared.limits.TheConstants.{MAX_COORDINATE};
ghost use Rattle.mill_base.specs.Ranges.{TriInRange};
ghost use Rattle.mill_push.specs.Fibers.{IsTouched};
ghost use Rattle.mill_push.specs.inner.Probes.{IsCut, IsFirstEnd, IsLastEnd, IsLeft, IsSearch, left_of, place_in};
ghost use Rattle.mill_push.specs.inner.Pushers.{IsPusher};

use crate::stretch::{Pusher, middle};
use mill_base::{Steps, Tri};
use mill_hints::{Aim, Aims};
use std::sync::ledger::Ledger;

/// The two ways along a fiber.
#[derive(Clone, Copy)]
enum Way {
    Back,
    On,
}

/// A search for an end of a stretch: from a position at which the triangle is touched, up to the one
/// that is `limit` positions away. Positions are counted from where it begins.
#[derive(Clone, Copy)]
struct Search {
    way: Way,
    found: i32,
    limit: i32,
}

/// What is left of a search: at the position `held` the triangle is touched, and at none beyond `free`.
#[derive(Clone, Copy)]
struct Left {
    held: i32,
    free: i32,
}

impl Search {
    /// The position of this count.
    fn place(self, count: i32) -> i32
        requires self_ok { IsSearch self }
        requires least { (pos 0) ≤ℤ count }
        requires most { count ≤ℤ self.limit }
        ensures value { result ≡ place_in self count }
        ensures in_range { Within MAX_COORDINATE result }
    {
        match self.way {
            Way::Back => self.found - count,
            Way::On => self.found + count,
        }
    }
}

impl Left {
    /// Whether halving does as well from here on: the end lies between two touches, or nothing is left.
    fn is_closed(self, limit: i32) -> bool
        ensures { result ≡ false → self.held <ℤ self.free }
    {
        self.held >= self.free || (self.held > 0 && self.free < limit)
    }

    /// Where the next touch goes: beyond the last one if that found the triangle, else before it.
    fn next(self, stride: i32) -> i32 {
        if self.held > 0 {
            self.held.saturating_add(stride)
        } else {
            self.free.saturating_sub(stride).saturating_add(1)
        }
    }

    /// The position that is nearest to this one and still open.
    fn nearest(self, at: i32) -> i32
        requires { self.held <ℤ self.free }
        ensures after { self.held <ℤ result }
        ensures within { result ≤ℤ self.free }
    {
        at.clamp(self.held + 1, self.free)
    }
}

impl Pusher {
    /// The first position from `low` on at which the triangle is touched, where it is at `found`.
    pub fn first_near<L: Ledger>(
        self,
        tri: &Tri,
        low: i32,
        found: i32,
        aims: Aims,
        steps: &mut Steps<L>,
    ) -> i32
        requires self_ok { IsPusher self }
        requires tri_ok { TriInRange tri.now }
        requires low_ok { Within MAX_COORDINATE low }
        requires found_ok { Within MAX_COORDINATE found }
        requires order { low ≤ℤ found }
        requires held { IsTouched self.cutter tri.now self.fiber found }
        ensures end { IsFirstEnd self.cutter tri.now self.fiber low found result }
        ensures cost { (n : ℕ) → nat_abs (found -ℤ low) < 2 ^ n →
            steps.new ≤ steps.old + (n + aims.probes) }
    {
        let search = Search {
            way: Way::Back,
            found,
            limit: found - low,
        };
        let aim = aims.first.back_from(found);
        let left = self.near_end(tri, search, aim, aims.probes, steps);
        let count = self.halved(tri, search, left, steps);
        search.place(count)
    }

    /// The last position up to `high` at which the triangle is touched, where it is at `found`.
    pub fn last_near<L: Ledger>(
        self,
        tri: &Tri,
        found: i32,
        high: i32,
        aims: Aims,
        steps: &mut Steps<L>,
    ) -> i32
        requires self_ok { IsPusher self }
        requires tri_ok { TriInRange tri.now }
        requires found_ok { Within MAX_COORDINATE found }
        requires high_ok { Within MAX_COORDINATE high }
        requires order { found ≤ℤ high }
        requires held { IsTouched self.cutter tri.now self.fiber found }
        ensures end { IsLastEnd self.cutter tri.now self.fiber found high result }
        ensures cost { (n : ℕ) → nat_abs (high -ℤ found) < 2 ^ n → steps.new ≤ steps.old + (n + aims.probes) }
    {
        let search = Search {
            way: Way::On,
            found,
            limit: high - found,
        };
        let aim = aims.last.on_from(found);
        let left = self.near_end(tri, search, aim, aims.probes, steps);
        let count = self.halved(tri, search, left, steps);
        search.place(count)
    }

    /// What is left of a search after touches near the aim, if there is one: from there on as long as
    /// they find the triangle, or back as long as they don't, each time twice as far.
    fn near_end<L: Ledger>(
        self,
        tri: &Tri,
        search: Search,
        aim: Aim,
        probes: u32,
        steps: &mut Steps<L>,
    ) -> Left
        requires self_ok { IsPusher self }
        requires tri_ok { TriInRange tri.now }
        requires search_ok { IsSearch search }
        requires held { IsTouched self.cutter tri.now self.fiber search.found }
        ensures left { IsLeft self.cutter tri.now self.fiber search result }
        ensures cost { steps.new ≤ steps.old + probes }
    {
        let mut left = Left {
            held: 0,
            free: search.limit,
        };
        if aim.is_none() {
            return left;
        }
        let mut at = aim.at;
        let mut stride = aim.stride;
        for _ in 0..probes {
            if left.is_closed(search.limit) {
                return left;
            }
            left = self.probe(tri, search, left, left.nearest(at), steps);
            at = left.next(stride);
            stride = stride.saturating_add(stride);
        }
        left
    }

    /// The count of the end, from what is left of its search: each touch is in the middle.
    fn halved<L: Ledger>(self, tri: &Tri, search: Search, rest: Left, steps: &mut Steps<L>) -> i32
        requires self_ok { IsPusher self }
        requires tri_ok { TriInRange tri.now }
        requires search_ok { IsSearch search }
        requires rest_ok { IsLeft self.cutter tri.now self.fiber search rest }
        ensures end { IsLeft self.cutter tri.now self.fiber search (left_of result result) }
        ensures cost { (n : ℕ) → nat_abs (rest.free -ℤ rest.held) < 2 ^ n → steps.new ≤ steps.old + n }
    {
        let mut left = rest;
        while left.held < left.free {
            let at = middle(left.held + 1, left.free);
            left = self.probe(tri, search, left, at, steps);
        }
        left.held
    }

    /// What is left after a touch at a count that is still open.
    fn probe<L: Ledger>(
        self,
        tri: &Tri,
        search: Search,
        left: Left,
        at: i32,
        steps: &mut Steps<L>,
    ) -> Left
        requires self_ok { IsPusher self }
        requires tri_ok { TriInRange tri.now }
        requires search_ok { IsSearch search }
        requires left_ok { IsLeft self.cutter tri.now self.fiber search left }
        requires after { left.held <ℤ at }
        requires within { at ≤ℤ left.free }
        ensures left { IsLeft self.cutter tri.now self.fiber search result }
        ensures cut { IsCut left at result }
        ensures step { steps.new ≡ steps.old + 1 }
    {
        if self.is_touched(tri, search.place(at), steps) {
            Left {
                held: at,
                free: left.free,
            }
        } else {
            Left {
                held: left.held,
                free: at - 1,
            }
        }
    }
}
