ghost use Rattle.std.specs.Prelude.{◌≡◌, ◌⊎◌, ◌<ℤ◌, ◌≤ℤ◌, pos, false, IsTrue};
ghost use Rattle.mill_base.specs.Numbers.{Within};
ghost use Rattle.mill_geom.specs.Widths.{most_lift};
ghost use Rattle.mill_contact_cone.specs.inner.Widths.{most_cone_form, most_slant};
ghost use Rattle.mill_contact_cone.specs.Cones.{IsCone, IsCornerOf, CornerInRange, TouchesEdge, HitsUpper, HitsLower};
ghost use Rattle.mill_contact_cone.specs.inner.Clears.{HoldsCorner};
ghost use Rattle.mill_contact_cone.specs.inner.Quadratics.{FormInRange, BlendInRange, IsUpperForm, IsLowerForm, IsUpperEdge, IsLowerEdge, upper_of, lower_of, slant_of, IsStart};

use crate::corner::{Cone, Corner};
use crate::quadratic::{Blend, Form, has_both_signs, hits_between};

/// The dot product of two corners in x and y, less the square of the radius.
fn upper_product(p: Corner, q: Corner, cone: Cone) -> i64
    requires p_ok { CornerInRange p }
    requires q_ok { CornerInRange q }
    requires cone_ok { IsCone cone }
    ensures value { result ≡ upper_of cone p q }
    ensures bound { Within most_cone_form result }
{
    p.x * q.x + p.y * q.y - cone.radius * cone.radius
}

/// The dot product of two corners in x and y, times the square of the rise, less the product of
/// their heights, times the square of the run.
fn lower_product(p: Corner, q: Corner, cone: Cone) -> i64
    requires p_ok { CornerInRange p }
    requires q_ok { CornerInRange q }
    requires cone_ok { IsCone cone }
    ensures value { result ≡ lower_of cone p q }
    ensures bound { Within most_cone_form result }
{
    let across = p.x * q.x + p.y * q.y;
    cone.rise * cone.rise * across - cone.run * cone.run * (p.z * q.z)
}

/// The form that decides over the height of the rim.
fn upper_form(p: Corner, q: Corner, cone: Cone) -> Form
    requires p_ok { CornerInRange p }
    requires q_ok { CornerInRange q }
    requires cone_ok { IsCone cone }
    ensures value { IsUpperForm cone p q result }
    ensures range { FormInRange result }
{
    let a = upper_product(p, p, cone);
    let h = upper_product(p, q, cone);
    let b = upper_product(q, q, cone);
    Form { a, h, b }
}

/// The form that decides under the height of the rim.
fn lower_form(p: Corner, q: Corner, cone: Cone) -> Form
    requires p_ok { CornerInRange p }
    requires q_ok { CornerInRange q }
    requires cone_ok { IsCone cone }
    ensures value { IsLowerForm cone p q result }
    ensures range { FormInRange result }
{
    let a = lower_product(p, p, cone);
    let h = lower_product(p, q, cone);
    let b = lower_product(q, q, cone);
    Form { a, h, b }
}

/// The dot product in x and y of the point of the segment at the height of the tip and the last end,
/// times how much higher than the first the last end is: the sign of the lower form's product of them.
fn slant(p: Corner, q: Corner) -> i64
    requires p_ok { CornerInRange p }
    requires q_ok { CornerInRange q }
    ensures value { result ≡ slant_of p q }
    ensures bound { Within most_slant result }
{
    q.z * (p.x * q.x + p.y * q.y) - p.z * (q.x * q.x + q.y * q.y)
}

/// Where a quantity that is `f` at the first end and `g` at the last begins not to be negative.
fn start(f: i64, g: i64) -> Blend
    requires f_ok { Within most_lift f }
    requires g_ok { Within most_lift g }
    requires g_least { pos 0 ≤ℤ g }
    ensures place { IsStart f g result }
    ensures range { BlendInRange result }
{
    if f >= 0 {
        return Blend { u: 1, v: 0 };
    }
    Blend { u: g, v: -f }
}

/// A point of a segment, as one of the segment with its ends swapped.
fn turned(p: Blend) -> Blend
    requires p_ok { BlendInRange p }
    ensures u { result.u ≡ p.v }
    ensures v { result.v ≡ p.u }
    ensures range { BlendInRange result }
{
    Blend { u: p.v, v: p.u }
}

/// The last end of a segment.
fn last() -> Blend
    ensures u { result.u ≡ pos 0 }
    ensures v { result.v ≡ pos 1 }
    ensures range { BlendInRange result }
{
    Blend { u: 0, v: 1 }
}

/// Whether a point of the segment is inside the cutter's cylinder, where the last end is over the
/// height of the rim.
#[inline(never)]
fn hits_upper(p: Corner, q: Corner, cone: Cone) -> bool
    requires p_ok { CornerInRange p }
    requires q_ok { CornerInRange q }
    requires cone_ok { IsCone cone }
    requires q_over { pos 0 <ℤ q.over }
    ensures yes { IsTrue result → HitsUpper cone p q }
    ensures no { result ≡ false → ¬ HitsUpper cone p q }
{
    let form = upper_form(p, q, cone);
    let from = start(p.over, q.over);
    hits_between(form, from, last())
}

/// Whether a point of the segment is inside the cutter's cone, where the last end is over the tip
/// and not under the first, and some point is under the height of the rim.
#[inline(never)]
fn hits_lower(p: Corner, q: Corner, cone: Cone) -> bool
    requires p_ok { CornerInRange p }
    requires q_ok { CornerInRange q }
    requires cone_ok { IsCone cone }
    requires p_is { IsCornerOf cone p }
    requires q_is { IsCornerOf cone q }
    requires rising { p.z ≤ℤ q.z }
    requires q_up { pos 0 <ℤ q.z }
    requires under { (q.over ≤ℤ pos 0) ⊎ (p.over <ℤ pos 0) }
    ensures yes { IsTrue result → HitsLower cone p q }
    ensures no { result ≡ false → ¬ HitsLower cone p q }
{
    let form = lower_form(p, q, cone);
    let from = start(p.z, q.z);
    let back = start(-q.over, -p.over);
    hits_between(form, from, turned(back))
}

/// Whether a point of the segment is inside the cutter's cylinder, where both ends are at or over the
/// height of the rim and neither is in the cutter.
#[inline(never)]
fn passes_cylinder(p: Corner, q: Corner, cone: Cone) -> bool
    requires p_ok { CornerInRange p }
    requires q_ok { CornerInRange q }
    requires cone_ok { IsCone cone }
    requires edge { IsUpperEdge cone p q }
    requires p_out { ¬ HoldsCorner cone p }
    requires q_out { ¬ HoldsCorner cone q }
    ensures yes { IsTrue result → HitsUpper cone p q }
    ensures no { result ≡ false → ¬ HitsUpper cone p q }
{
    if upper_product(p, q, cone) >= 0 {
        return false;
    }
    has_both_signs(upper_form(p, q, cone))
}

/// Whether a point of the segment is inside the cutter's cone, where both ends are between the heights
/// of the tip and of the rim and neither is in the cutter.
fn passes_cone(p: Corner, q: Corner, cone: Cone) -> bool
    requires p_ok { CornerInRange p }
    requires q_ok { CornerInRange q }
    requires cone_ok { IsCone cone }
    requires edge { IsLowerEdge cone p q }
    requires p_up { pos 0 ≤ℤ p.z }
    requires p_out { ¬ HoldsCorner cone p }
    requires q_out { ¬ HoldsCorner cone q }
    ensures yes { IsTrue result → HitsLower cone p q }
    ensures no { result ≡ false → ¬ HitsLower cone p q }
{
    if lower_product(p, q, cone) >= 0 {
        return false;
    }
    has_both_signs(lower_form(p, q, cone))
}

/// Whether a point of the segment is inside the cutter's cone, where the first end is under the tip
/// and the last between the heights of the tip and of the rim, and not in the cutter.
fn enters_cone(p: Corner, q: Corner, cone: Cone) -> bool
    requires p_ok { CornerInRange p }
    requires q_ok { CornerInRange q }
    requires cone_ok { IsCone cone }
    requires edge { IsLowerEdge cone p q }
    requires p_down { p.z <ℤ pos 0 }
    requires q_out { ¬ HoldsCorner cone q }
    ensures yes { IsTrue result → HitsLower cone p q }
    ensures no { result ≡ false → ¬ HitsLower cone p q }
{
    if slant(p, q) >= 0 {
        return false;
    }
    has_both_signs(lower_form(p, q, cone))
}

/// Whether a point of the segment is inside the cutter's cone, where the last end is over the tip, not
/// over the height of the rim and not under the first, and no end is in the cutter.
#[inline(always)]
fn crosses_cone(p: Corner, q: Corner, cone: Cone) -> bool
    requires p_ok { CornerInRange p }
    requires q_ok { CornerInRange q }
    requires cone_ok { IsCone cone }
    requires edge { IsLowerEdge cone p q }
    requires p_out { ¬ HoldsCorner cone p }
    requires q_out { ¬ HoldsCorner cone q }
    ensures yes { IsTrue result → HitsLower cone p q }
    ensures no { result ≡ false → ¬ HitsLower cone p q }
{
    if p.z < 0 {
        return enters_cone(p, q, cone);
    }
    passes_cone(p, q, cone)
}

/// Whether some point of the segment is strictly inside the cone cutter, where its last end isn't
/// lower than its first, and neither is in the cutter.
#[inline(always)]
fn touches_rising(p: Corner, q: Corner, cone: Cone) -> bool
    requires p_ok { CornerInRange p }
    requires q_ok { CornerInRange q }
    requires cone_ok { IsCone cone }
    requires p_is { IsCornerOf cone p }
    requires q_is { IsCornerOf cone q }
    requires rising { p.z ≤ℤ q.z }
    requires p_out { ¬ HoldsCorner cone p }
    requires q_out { ¬ HoldsCorner cone q }
    ensures yes { IsTrue result → TouchesEdge cone p q }
    ensures no { result ≡ false → ¬ TouchesEdge cone p q }
{
    if q.z <= 0 {
        return false;
    }
    if q.over <= 0 {
        return crosses_cone(p, q, cone);
    }
    if p.over >= 0 {
        return passes_cylinder(p, q, cone);
    }
    if hits_upper(p, q, cone) {
        return true;
    }
    hits_lower(p, q, cone)
}

/// Whether some point of the segment is strictly inside the cone cutter, where neither end is.
#[inline(always)]
pub fn touches_edge(p: Corner, q: Corner, cone: Cone) -> bool
    requires p_ok { CornerInRange p }
    requires q_ok { CornerInRange q }
    requires cone_ok { IsCone cone }
    requires p_is { IsCornerOf cone p }
    requires q_is { IsCornerOf cone q }
    requires p_out { ¬ HoldsCorner cone p }
    requires q_out { ¬ HoldsCorner cone q }
    ensures yes { IsTrue result → TouchesEdge cone p q }
    ensures no { result ≡ false → ¬ TouchesEdge cone p q }
{
    if p.z <= q.z {
        return touches_rising(p, q, cone);
    }
    touches_rising(q, p, cone)
}
