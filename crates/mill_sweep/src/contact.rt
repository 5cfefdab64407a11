ghost use Rattle.std.specs.Prelude.{◌≡◌, pos, false, IsTrue};
ghost use Rattle.mill_base.specs.Contact.{Touches};
ghost use Rattle.mill_base.specs.Ranges.{TriInRange};
ghost use Rattle.mill_base.specs.Sizes.{IsWideCutter};
ghost use Rattle.mill_geom.specs.Offsets.{IsCentre};

use mill_base::{Cutter, Pt3, Tri};

/// Whether some point of the triangle is strictly inside the cutter with its tip at `tip`.
///
/// Each kind of cutter has a crate of its own, and this chooses among them (mill_push chooses for
/// its own tests, which count a step). Lengths are in units. Corners may be equal or collinear.
// (in place of a call, with the contact crates' tests: where several loops test triangles by calls,
// a drop's takes up to a quarter more instructions)
#[inline(always)]
pub fn holds_some(cutter: Cutter, tip: Pt3, tri: &Tri) -> bool
    requires cutter_ok { IsWideCutter cutter }
    requires tip_ok { IsCentre tip }
    requires tri_ok { TriInRange tri.now }
    ensures yes { IsTrue result → Touches cutter (pos 1) tip tri.now }
    ensures no { result ≡ false → ¬ Touches cutter (pos 1) tip tri.now }
{
    match cutter {
        Cutter::Flat { .. } => mill_contact_flat::is_inside(tri, cutter, tip),
        Cutter::Ball { .. } => mill_contact_ball::is_inside(tri, cutter, tip),
        Cutter::Cone { .. } => mill_contact_cone::is_inside(tri, cutter, tip),
    }
}
