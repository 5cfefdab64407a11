ghost use Rattle.std.specs.Prelude.{◌≡◌, ◌^◌, ◌↔◌, ◌<ℤ◌, pos, false, IsTrue};
ghost use Rattle.mill_base.specs.Numbers.{Within};
ghost use Rattle.mill_geom.specs.Widths.{most_form, most_mixed_form, most_lift, widest};
ghost use Rattle.mill_geom.specs.Offsets.{LiftedInRange};
ghost use Rattle.mill_geom.specs.Forms.{level_form_of, mixed_form_of, IsAlone, IsOver};
ghost use Rattle.mill_geom.specs.Contacts.{TouchesTriangle, OnLevel, EdgesClear};

use crate::offset::Offset;
use crate::plane::is_line_near;
use crate::segment::form;

/// Whether the corner `p` is on one side of the level, and the others on the other side or on it.
fn is_alone(p: Offset, q: Offset, s: Offset) -> bool
    requires p_ok { LiftedInRange p }
    requires q_ok { LiftedInRange q }
    requires s_ok { LiftedInRange s }
    ensures yes { IsTrue result → IsAlone p q s }
    ensures no { result ≡ false → ¬ IsAlone p q s }
{
    if p.z > 0 {
        if q.z > 0 {
            return false;
        }
        return s.z <= 0;
    }
    if p.z >= 0 {
        return false;
    }
    if q.z <= 0 {
        return false;
    }
    s.z > 0
}

/// The form of the two points in which the edges from `p` meet the level, from the forms and
/// heights of the corners.
fn mixed_form(pp: i128, pq: i128, ps: i128, qs: i128, p: i64, q: i64, s: i64) -> i128
    requires pp_ok { Within most_form pp }
    requires pq_ok { Within most_form pq }
    requires ps_ok { Within most_form ps }
    requires qs_ok { Within most_form qs }
    requires p_ok { Within most_lift p }
    requires q_ok { Within most_lift q }
    requires s_ok { Within most_lift s }
    ensures value { result ≡ mixed_form_of pp pq ps qs p q s }
    ensures bound { Within most_mixed_form result }
{
    let p = p as i128;
    let q = q as i128;
    let s = s as i128;
    p * p * qs - p * s * pq - p * q * ps + q * s * pp
}

/// The form of the two points in which the edges from `p` meet the level.
fn level_form(p: Offset, q: Offset, s: Offset, radius: i64) -> i128
    requires p_ok { LiftedInRange p }
    requires q_ok { LiftedInRange q }
    requires s_ok { LiftedInRange s }
    requires r_ok { Within widest radius }
    ensures value { result ≡ level_form_of radius p q s }
    ensures bound { Within most_mixed_form result }
{
    let pp = form(p, p, radius);
    let pq = form(p, q, radius);
    let ps = form(p, s, radius);
    let qs = form(q, s, radius);
    mixed_form(pp, pq, ps, qs, p.z, q.z, s.z)
}

/// Whether the triangle's points on the level come nearer to the axis than the radius between the
/// two edges from `p`, where these keep off it.
fn crosses(p: Offset, q: Offset, s: Offset, radius: i64) -> bool
    requires p_ok { LiftedInRange p }
    requires q_ok { LiftedInRange q }
    requires s_ok { LiftedInRange s }
    requires r_ok { Within widest radius }
    requires r_least { pos 0 <ℤ radius }
    requires alone { IsAlone p q s }
    ensures yes { IsTrue result → TouchesTriangle radius p q s }
    ensures no { result ≡ false → EdgesClear radius p q s → ¬ OnLevel radius p q s }
{
    if level_form(p, q, s, radius) >= 0 {
        return false;
    }
    is_line_near(p, q, s, radius)
}

/// Whether some point of the triangle on the level is nearer to the axis than the radius, where the
/// edges keep off it; then some point over the level is, too. Heights may be scaled ones.
pub fn touches_on_level(a: Offset, b: Offset, c: Offset, radius: i64) -> bool
    requires a_ok { LiftedInRange a }
    requires b_ok { LiftedInRange b }
    requires c_ok { LiftedInRange c }
    requires r_ok { Within widest radius }
    requires r_least { pos 0 <ℤ radius }
    ensures yes { IsTrue result → TouchesTriangle radius a b c }
    ensures no { result ≡ false → IsOver a b c → EdgesClear radius a b c → ¬ OnLevel radius a b c }
{
    if is_alone(a, b, c) {
        return crosses(a, b, c, radius);
    }
    if is_alone(b, c, a) {
        return crosses(b, c, a, radius);
    }
    if is_alone(c, a, b) {
        return crosses(c, a, b, radius);
    }
    false
}
