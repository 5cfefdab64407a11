ghost use Rattle.std.specs.Prelude.{◌≡◌};
ghost use Rattle.mill_base.specs.Points.{highest};
ghost use Rattle.mill_cells.specs.Boxes.{box_of, bounds_of, widened, Meet};

use mill_base::{Box2, Tri};

/// The box of a triangle in x and y.
pub fn tri_box(tri: &Tri) -> Box2
    ensures { result ≡ box_of tri.now }
{
    Box2 {
        x0: tri.a.x.min(tri.b.x.min(tri.c.x)),
        y0: tri.a.y.min(tri.b.y.min(tri.c.y)),
        x1: tri.a.x.max(tri.b.x.max(tri.c.x)),
        y1: tri.a.y.max(tri.b.y.max(tri.c.y)),
    }
}

/// A triangle's top, the greatest of its three heights.
pub fn tri_top(tri: &Tri) -> i32
    ensures { result ≡ highest tri.now }
{
    tri.a.z.max(tri.b.z.max(tri.c.z))
}

/// The least box that holds both boxes.
fn hull(a: Box2, b: Box2) -> Box2
    ensures { result ≡ widened a b }
{
    Box2 {
        x0: a.x0.min(b.x0),
        y0: a.y0.min(b.y0),
        x1: a.x1.max(b.x1),
        y1: a.y1.max(b.y1),
    }
}

/// The least box that holds the boxes of all triangles; without triangles, that of the origin.
pub fn bounds(tris: &[Tri]) -> Box2
    ensures { result ≡ bounds_of tris.now }
{
    let Some((first, others)) = tris.split_first() else {
        return Box2 {
            x0: 0,
            y0: 0,
            x1: 0,
            y1: 0,
        };
    };
    let mut bounds = tri_box(first);
    for tri in others {
        bounds = hull(bounds, tri_box(tri));
    }
    bounds
}
