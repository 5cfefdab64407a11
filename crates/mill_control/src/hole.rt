//! The moves of a drilling cycle's hole.
ghost use Rattle.std.specs.Prelude.{◌≡◌, ◌<◌, ◌≤◌, ◌*◌, ◌+◌, ◌^◌, ◌++◌, ◌+ℤ◌, ◌-ℤ◌, pos, nat_abs};
ghost use Rattle.std.specs.Prelude.{[], ◌∷◌, length, take, IfSome, OnOk, OnErr};
ghost use Rattle.mill_words.specs.Words.{FitsNum};
ghost use Rattle.mill_base.specs.Numbers.{Within, lesser};
ghost use Rattle.mill_base.specs.declared.motion.Kind.TheVariants.{Rapid};
ghost use Rattle.mill_base.specs.Units.{greatest_of};
ghost use Rattle.mill_control.specs.Holes.{at_height as at_height_of, bite_of};
ghost use Rattle.mill_control.specs.Holes.{bites_over as bites_over_of};
ghost use Rattle.mill_control.specs.Holes.{bottom_of, cleared, count_bites as count_bites_of};
ghost use Rattle.mill_control.specs.Holes.{depth_at, hole_moves, lowered, over_hole};
ghost use Rattle.mill_control.specs.Holes.{per_of, risen_to, sunk, top_of};
ghost use Rattle.mill_control.specs.Lengths.{exact as exact_of};
ghost use Rattle.mill_control.specs.Drilled.{IsHole, HoleGoesOn};
ghost use Rattle.mill_control.specs.inner.Bounds.{Extends, back_of, bite_ways, crossing_move};
ghost use Rattle.mill_control.specs.inner.Bounds.{each_of, goes_out};
ghost use Rattle.mill_control.specs.inner.Bounds.{height_behind as height_behind_of, rests};

use crate::lengths::{LengthUnit, exact, rounded, rounded_parts};
use crate::series::Cycle;
use mill_base::{Kind, MAX_MOVES, Move, Pt3, Unit, WantOfMemory};
use mill_words::Num;

/// A hole to be drilled.
#[derive(Clone, Copy)]
pub struct Hole {
    /// Where the tool stands before.
    pub from: Pt3,
    pub x: i32,
    pub y: i32,
    pub cycle: Cycle,
    /// R, Z and Q as they are written.
    pub r: Num,
    pub z: Num,
    pub q: Option<Num>,
    /// The unit of the grid, and that of the program's lengths.
    pub unit: Unit,
    pub lengths: LengthUnit,
    /// How far over the depth before a control stops on its way back down, in units.
    pub peck_clearance: i32,
    /// The height where it ends, in units.
    pub end: i32,
}

/// How many moves a hole has.
pub fn count_hole(hole: Hole) -> u128
    requires { IsHole hole }
    ensures { result ≡ length (hole_moves hole) }
{
    let bites = count_bite_moves(hole);
    let top = top(hole);
    if hole.from.z == top {
        return bites + 3;
    }
    bites + 4
}

// How many of them the pecks are that end over the bottom.
fn count_bite_moves(hole: Hole) -> u128
    requires { IsHole hole }
    ensures value { result ≡ each_of (goes_out hole.cycle) * count_bites_of hole }
    ensures bound { result ≤ 6 * 10 ^ 36 }
{
    let bites = count_bites(hole);
    if hole.cycle.goes_out() {
        return 3 * bites;
    }
    bites
}

/// Adds the moves of a hole to `out`, of which there are at most 1,000,000. A hole whose moves
/// `out` has no memory for adds none.
pub fn drill(hole: Hole, out: &mut Vec<Move>) -> Result<(), WantOfMemory>
    requires hole { IsHole hole }
    requires few { length (hole_moves hole) ≤ MAX_MOVES }
    ensures made { OnOk result (out.new.items ≡ out.old.items ++ hole_moves hole) }
    ensures kept { OnErr result (out.new.items ≡ out.old.items) }
{
    let first = out.len();
    let added = go_all(hole, out);
    all_or_none(added, first, out)
}

// Takes back what was added from the move of number `first` on, where not all was added.
fn all_or_none(
    added: Result<(), WantOfMemory>,
    first: usize,
    out: &mut Vec<Move>,
) -> Result<(), WantOfMemory>
    ensures same { result ≡ added }
    ensures ok { OnOk result (out.new.items ≡ out.old.items) }
    ensures err { OnErr result (out.new.items ≡ take first out.old.items) }
{
    if added.is_err() {
        out.truncate(first);
    }
    added
}

// Adds the first moves, and where the memory suffices all of them.
fn go_all(hole: Hole, out: &mut Vec<Move>) -> Result<(), WantOfMemory>
    requires { IsHole hole }
    ensures ok { OnOk result (out.new.items ≡ out.old.items ++ hole_moves hole) }
    ensures on { Extends out.old.items out.new.items }
{
    let top = top(hole);
    rise(hole, top, out)?;
    cross(hole, top, out)?;
    lower(hole, top, out)?;
    go_down(hole, top, out)
}

// Up to R, where it is lower.
fn rise(hole: Hole, top: i32, out: &mut Vec<Move>) -> Result<(), WantOfMemory>
    ensures ok { OnOk result (out.new.items ≡ out.old.items ++ risen_to hole.from top) }
    ensures err { OnErr result (out.new.items ≡ out.old.items) }
{
    if hole.from.z >= top {
        return Ok(());
    }
    add(Kind::Rapid, hole.from, top, out)
}

// Across at R, or from higher at its height.
fn cross(hole: Hole, top: i32, out: &mut Vec<Move>) -> Result<(), WantOfMemory>
    requires { top ≡ top_of hole }
    ensures ok { OnOk result (out.new.items ≡ out.old.items ++ crossing_move hole ∷ []) }
    ensures err { OnErr result (out.new.items ≡ out.old.items) }
{
    let height = top.max(hole.from.z);
    out.push(Move {
        kind: Kind::Rapid,
        from: at_height(hole.from, height),
        to: over(hole, height),
    })?;
    Ok(())
}

// At the place of the hole down to R, where it is higher.
fn lower(hole: Hole, top: i32, out: &mut Vec<Move>) -> Result<(), WantOfMemory>
    requires { top ≡ top_of hole }
    ensures ok { OnOk
        result
        (out.new.items ≡ out.old.items ++ sunk (over_hole hole) (lowered top hole.from.z)) }
    ensures err { OnErr result (out.new.items ≡ out.old.items) }
{
    if hole.from.z <= top {
        return Ok(());
    }
    add(Kind::Rapid, over(hole, hole.from.z), top, out)
}

// Adds the first moves from R on, and where the memory suffices all of them: the pecks, the bottom,
// and up.
fn go_down(hole: Hole, top: i32, out: &mut Vec<Move>) -> Result<(), WantOfMemory>
    requires hole { IsHole hole }
    requires top { top ≡ top_of hole }
    ensures ok { OnOk
        result
        (out.new.items ≡ out.old.items ++ sunk (at_height_of (over_hole hole) top) (rests hole)) }
    ensures on { Extends out.old.items out.new.items }
{
    let bites = count_bites(hole);
    for done in 0..bites {
        bite(hole, top, done, out)?;
    }
    let start = height_behind(hole, top, bites);
    let bottom = bottom(hole);
    add(Kind::Feed, over(hole, start), bottom, out)?;
    add(Kind::Rapid, over(hole, bottom), hole.end, out)
}

// Adds the first moves of a peck behind so many, and where the memory suffices all of them.
fn bite(hole: Hole, top: i32, done: u128, out: &mut Vec<Move>) -> Result<(), WantOfMemory>
    requires hole { IsHole hole }
    requires top { top ≡ top_of hole }
    requires bite { done < count_bites_of hole }
    ensures ok { OnOk
        result
        (out.new.items ≡ out.old.items
        ++ sunk (at_height_of (over_hole hole) (height_behind_of hole done))
        (bite_ways hole (done + 1))) }
    ensures on { Extends out.old.items out.new.items }
{
    let start = height_behind(hole, top, done);
    let depth = depth(hole, done + 1);
    add(Kind::Feed, over(hole, start), depth, out)?;
    go_out(hole, top, depth, out)
}

// Adds the first moves out of the hole and back from where a peck has ended, if the cycle has them,
// and where the memory suffices all of them.
fn go_out(hole: Hole, top: i32, depth: i32, out: &mut Vec<Move>) -> Result<(), WantOfMemory>
    requires hole { IsHole hole }
    requires depth { Within (greatest_of hole.unit) depth }
    ensures ok { OnOk
        result
        (out.new.items ≡ out.old.items
        ++ sunk (at_height_of (over_hole hole) depth)
        (cleared hole.cycle top hole.peck_clearance depth)) }
    ensures on { Extends out.old.items out.new.items }
{
    if hole.cycle.goes_out() {
        return out_and_back(hole, top, depth, out);
    }
    Ok(())
}

fn out_and_back(hole: Hole, top: i32, depth: i32, out: &mut Vec<Move>) -> Result<(), WantOfMemory>
    requires hole { IsHole hole }
    requires depth { Within (greatest_of hole.unit) depth }
    ensures ok { OnOk
        result
        (out.new.items ≡ out.old.items
        ++ sunk (at_height_of (over_hole hole) depth)
        ((Rapid, top) ∷ (Rapid, lesser top (depth +ℤ hole.peck_clearance)) ∷ [])) }
    ensures on { Extends out.old.items out.new.items }
{
    let back = shortly_over(hole, top, depth);
    add(Kind::Rapid, over(hole, depth), top, out)?;
    add(Kind::Rapid, over(hole, top), back, out)
}

// The height of the tool behind so many pecks, and before the next one.
fn height_behind(hole: Hole, top: i32, done: u128) -> i32
    requires hole { IsHole hole }
    requires top { top ≡ top_of hole }
    requires bites { done ≤ count_bites_of hole }
    ensures { result ≡ height_behind_of hole done }
{
    if done == 0 {
        return top;
    }
    back(hole, top, depth(hole, done))
}

// The height from which the peck behind one that ends at this depth begins.
fn back(hole: Hole, top: i32, depth: i32) -> i32
    requires hole { IsHole hole }
    requires depth { Within (greatest_of hole.unit) depth }
    ensures { result ≡ back_of hole.cycle top hole.peck_clearance depth }
{
    if hole.cycle.goes_out() {
        return shortly_over(hole, top, depth);
    }
    depth
}

// Shortly over this depth, and no higher than R.
fn shortly_over(hole: Hole, top: i32, depth: i32) -> i32
    requires hole { IsHole hole }
    requires depth { Within (greatest_of hole.unit) depth }
    ensures { result ≡ lesser top (depth +ℤ hole.peck_clearance) }
{
    let over = depth + hole.peck_clearance;
    top.min(over)
}

// The height of R, in units.
fn top(hole: Hole) -> i32
    requires { IsHole hole }
    ensures { result ≡ top_of hole }
{
    narrow(hole, rounded(hole.r, per(hole)))
}

// The height of the bottom, in units.
fn bottom(hole: Hole) -> i32
    requires { IsHole hole }
    ensures { result ≡ bottom_of hole }
{
    narrow(hole, rounded(hole.z, per(hole)))
}

fn narrow(hole: Hole, height: i128) -> i32
    requires { Within (greatest_of hole.unit) height }
    ensures { result ≡ height }
{
    height as i32
}

// Where a peck that isn't the last one ends, in units.
fn depth(hole: Hole, bite: u128) -> i32
    requires hole { IsHole hole }
    requires some { 1 ≤ bite }
    requires over { bite ≤ count_bites_of hole }
    ensures value { result ≡ depth_at hole bite }
    ensures in_range { Within (greatest_of hole.unit) result }
{
    let parts = parts_behind(hole, bite);
    narrow(hole, rounded_parts(parts, per(hole)))
}

// Where it ends, in parts of 10^18.
fn parts_behind(hole: Hole, bite: u128) -> i128
    requires hole { IsHole hole }
    requires some { 1 ≤ bite }
    requires over { bite ≤ count_bites_of hole }
    ensures value { result ≡ exact_of hole.r -ℤ pos (bite * bite_of hole.q) }
    ensures few { Within (10 ^ 26) result }
{
    minus(exact(hole.r), bitten_away(hole, bite))
}

fn minus(parts: i128, under: u128) -> i128
    requires parts { Within (10 ^ 36) parts }
    requires under { under ≤ 2 * 10 ^ 36 }
    ensures { result ≡ parts -ℤ pos under }
{
    let less = under as i128;
    parts - less
}

// How deep it ends under R, in the same parts.
fn bitten_away(hole: Hole, bite: u128) -> u128
    requires hole { IsHole hole }
    requires some { 1 ≤ bite }
    requires over { bite ≤ count_bites_of hole }
    ensures value { result ≡ bite * bite_of hole.q }
    ensures bound { result ≤ 2 * 10 ^ 36 }
{
    bite * bite_size(hole.q)
}

// How many pecks end over the bottom.
#[tactic(auto, using(crate::proofs::Depths::some_bite))]
fn count_bites(hole: Hole) -> u128
    requires { IsHole hole }
    ensures value { result ≡ count_bites_of hole }
    ensures bound { result ≤ 2 * 10 ^ 36 }
{
    if hole.cycle.pecks() {
        return bites_over(whole_depth(hole), bite_size(hole.q));
    }
    0
}

fn bites_over(deep: u128, bite: u128) -> u128
    requires { 1 ≤ bite }
    ensures value { result ≡ bites_over_of deep bite }
    ensures bound { result ≤ deep }
{
    deep.saturating_sub(1) / bite
}

// How deep the bottom is under R, in parts of 10^18.
fn whole_depth(hole: Hole) -> u128
    requires { IsHole hole }
    ensures value { result ≡ nat_abs (exact_of hole.r -ℤ exact_of hole.z) }
    ensures bound { result ≤ 2 * 10 ^ 36 }
{
    let deep = exact(hole.r) - exact(hole.z);
    deep.unsigned_abs()
}

// How deep a peck is, in parts of 10^18.
fn bite_size(q: Option<Num>) -> u128
    requires { IfSome q (FitsNum 18) }
    ensures value { result ≡ bite_of q }
    ensures bound { result ≤ 10 ^ 36 }
{
    match q {
        None => 0,
        Some(q) => exact(q).unsigned_abs(),
    }
}

// So many units of the grid is a length of 1.
fn per(hole: Hole) -> u64
    ensures value { result ≡ per_of hole }
    ensures few { result ≤ 25400 }
{
    hole.lengths.per(hole.unit)
}

// Adds one move straight up or down.
fn add(kind: Kind, from: Pt3, z: i32, out: &mut Vec<Move>) -> Result<(), WantOfMemory>
    ensures ok { OnOk result (out.new.items ≡ out.old.items ++ sunk from ((kind, z) ∷ [])) }
    ensures err { OnErr result (out.new.items ≡ out.old.items) }
{
    out.push(Move {
        kind,
        from,
        to: at_height(from, z),
    })?;
    Ok(())
}

// The place at this height over or under another.
fn at_height(place: Pt3, z: i32) -> Pt3
    ensures { result ≡ at_height_of place z }
{
    Pt3 { z, ..place }
}

// The place at this height over or in the hole.
fn over(hole: Hole, z: i32) -> Pt3
    ensures { result ≡ at_height_of (over_hole hole) z }
{
    Pt3 {
        x: hole.x,
        y: hole.y,
        z,
    }
}

/// A law: the moves of a hole follow on each other from where it begins to where it ends, and are
/// in range.
pub fn hole_goes_on()
    ensures { HoleGoesOn }
{}
