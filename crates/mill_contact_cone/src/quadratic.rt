ghost use Rattle.std.specs.Prelude.{◌≡◌, ◌↔◌, ◌*ℤ◌, ◌<ℤ◌, pos, false, IsTrue};
ghost use Rattle.mill_base.specs.Numbers.{Within};
ghost use Rattle.mill_contact_cone.specs.inner.Widths.{most_blend_form};
ghost use Rattle.mill_contact_cone.specs.inner.Quadratics.{FormInRange, BlendInRange, polar_of, turn_of, HitsBetween};

/// The quadratic form `a * u * u + 2 * h * u * v + b * v * v`.
#[derive(Clone, Copy, Debug, PartialEq, Eq)]
pub struct Form {
    pub a: i64,
    pub h: i64,
    pub b: i64,
}

/// A point of a segment: `u` times its first end and `v` times its last, over `u + v`.
#[derive(Clone, Copy, Debug, PartialEq, Eq)]
pub struct Blend {
    pub u: i64,
    pub v: i64,
}

/// The bilinear form of two blends.
fn polar(form: Form, p: Blend, q: Blend) -> i128
    requires form_ok { FormInRange form }
    requires p_ok { BlendInRange p }
    requires q_ok { BlendInRange q }
    ensures value { result ≡ polar_of form p q }
    ensures bound { Within most_blend_form result }
{
    let first = (p.u * q.u) as i128 * form.a as i128;
    let mixed = (p.u * q.v + p.v * q.u) as i128 * form.h as i128;
    let last = (p.v * q.v) as i128 * form.b as i128;
    first + mixed + last
}

/// Whether the form takes both signs.
pub fn has_both_signs(form: Form) -> bool
    requires form_ok { FormInRange form }
    ensures { IsTrue result ↔ ((form.a *ℤ form.b) <ℤ (form.h *ℤ form.h)) }
{
    form.a as i128 * (form.b as i128) < form.h as i128 * form.h as i128
}

/// Whether the form is negative at some blend from `from` to `to`.
pub fn hits_between(form: Form, from: Blend, to: Blend) -> bool
    requires form_ok { FormInRange form }
    requires from_ok { BlendInRange from }
    requires to_ok { BlendInRange to }
    requires apart { pos 0 <ℤ turn_of from to }
    ensures yes { IsTrue result → HitsBetween form from to }
    ensures no { result ≡ false → ¬ HitsBetween form from to }
{
    if polar(form, from, from) < 0 {
        return true;
    }
    if polar(form, to, to) < 0 {
        return true;
    }
    if polar(form, from, to) >= 0 {
        return false;
    }
    has_both_signs(form)
}
