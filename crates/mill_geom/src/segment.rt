ghost use Rattle.std.specs.Prelude.{◌≡◌, ◌^◌, ◌↔◌, ◌<ℤ◌, pos, IsTrue};
ghost use Rattle.mill_base.specs.Numbers.{Within};
ghost use Rattle.mill_geom.specs.Widths.{most_form, farthest, widest};
ghost use Rattle.mill_geom.specs.Offsets.{OffsetInRange, PlanInRange};
ghost use Rattle.mill_geom.specs.Forms.{form_of, PairHits, cut_mid_of, cut_end_of};
ghost use Rattle.mill_geom.specs.Contacts.{TouchesSegment};

use crate::offset::Offset;

/// The dot product of two offsets in x and y, less the square of the radius.
pub fn form(p: Offset, q: Offset, radius: i64) -> i128
    requires p_ok { PlanInRange p }
    requires q_ok { PlanInRange q }
    requires r_ok { Within widest radius }
    ensures value { result ≡ form_of radius p q }
    ensures bound { Within most_form result }
{
    p.x as i128 * q.x as i128 + p.y as i128 * q.y as i128 - radius as i128 * radius as i128
}

/// Whether `a * u * u + 2 * h * u * v + b * v * v` is negative at some `u` and `v` that aren't.
fn pair_hits(a: i128, h: i128, b: i128) -> bool
    requires a_ok { Within most_form a }
    requires h_ok { Within most_form h }
    requires b_ok { Within most_form b }
    ensures { IsTrue result ↔ PairHits a h b }
{
    if a < 0 {
        return true;
    }
    if b < 0 {
        return true;
    }
    if h >= 0 {
        return false;
    }
    a * b < h * h
}

/// The form of an end at the height `z` and the point on the level before the end at `w`.
fn cut_mid(a: i128, h: i128, z: i64, w: i64) -> i128
    requires a_ok { Within most_form a }
    requires h_ok { Within most_form h }
    requires z_ok { Within farthest z }
    requires w_ok { Within farthest w }
    ensures { result ≡ cut_mid_of a h z w }
{
    (0 - w as i128) * a + z as i128 * h
}

/// The form of the point on the level between ends at the heights `z` and `w`.
fn cut_end(a: i128, h: i128, b: i128, z: i64, w: i64) -> i128
    requires a_ok { Within most_form a }
    requires h_ok { Within most_form h }
    requires b_ok { Within most_form b }
    requires z_ok { Within farthest z }
    requires w_ok { Within farthest w }
    ensures { result ≡ cut_end_of a h b z w }
{
    let z = z as i128;
    let w = 0 - w as i128;
    w * w * a + 2 * (z * w * h) + z * z * b
}

/// The test of a segment whose first end is over the level and whose second end is under it.
fn touches_across(p: Offset, q: Offset, radius: i64) -> bool
    requires p_ok { OffsetInRange p }
    requires q_ok { OffsetInRange q }
    requires r_ok { Within widest radius }
    requires up { pos 0 <ℤ p.z }
    requires down { q.z <ℤ pos 0 }
    ensures { IsTrue result ↔ TouchesSegment radius p q }
{
    let a = form(p, p, radius);
    let h = form(p, q, radius);
    let b = form(q, q, radius);
    if a < 0 {
        return true;
    }
    if cut_end(a, h, b, p.z, q.z) < 0 {
        return true;
    }
    if cut_mid(a, h, p.z, q.z) >= 0 {
        return false;
    }
    a * b < h * h
}

/// Whether some point of the segment is nearer to the axis than the radius and over the level.
pub fn touches_segment(p: Offset, q: Offset, radius: i64) -> bool
    requires p_ok { OffsetInRange p }
    requires q_ok { OffsetInRange q }
    requires r_ok { Within widest radius }
    ensures { IsTrue result ↔ TouchesSegment radius p q }
{
    if p.z > 0 {
        if q.z < 0 {
            return touches_across(p, q, radius);
        }
        return pair_hits(form(p, p, radius), form(p, q, radius), form(q, q, radius));
    }
    if q.z <= 0 {
        return false;
    }
    if p.z < 0 {
        return touches_across(q, p, radius);
    }
    pair_hits(form(q, q, radius), form(q, p, radius), form(p, p, radius))
}
