//! How triangles lie to the three cutters: what the tests of the contacts share.
ghost use Rattle.mill_base.specs.Ranges.{TriInRange};
ghost use Rattle.mill_base.specs.Sizes.{IsWideCutter};
ghost use Rattle.mill_geom.specs.Offsets.{IsCentre};

use mill_base::{Cutter, Pt3, Tri};
use mill_geom::{Axis, Side, Touch};
use mill_tables::{halves, placed, tip, triangle, wide_cutter};
use std::process::Abort;
use std::test::Fail;

/// How a triangle lies along X, along Y, and whether it's inside.
type Lie = (&'static str, &'static str, bool);

fn word(touch: Touch) -> &'static str {
    match touch {
        Touch::Inside => "inside",
        Touch::Apart(Side::Less) => "less",
        Touch::Apart(Side::More) => "more",
        Touch::Apart(Side::Never) => "never",
    }
}

fn lie(tri: &Tri, cutter: Cutter, tip: Pt3) -> Lie
    requires tri_ok { TriInRange tri.now }
    requires cutter_ok { IsWideCutter cutter }
    requires tip_ok { IsCentre tip }
{
    match cutter {
        Cutter::Flat { .. } => (
            word(mill_contact_flat::touch(tri, cutter, tip, Axis::X)),
            word(mill_contact_flat::touch(tri, cutter, tip, Axis::Y)),
            mill_contact_flat::is_inside(tri, cutter, tip),
        ),
        Cutter::Ball { .. } => (
            word(mill_contact_ball::touch(tri, cutter, tip, Axis::X)),
            word(mill_contact_ball::touch(tri, cutter, tip, Axis::Y)),
            mill_contact_ball::is_inside(tri, cutter, tip),
        ),
        Cutter::Cone { .. } => (
            word(mill_contact_cone::touch(tri, cutter, tip, Axis::X)),
            word(mill_contact_cone::touch(tri, cutter, tip, Axis::Y)),
            mill_contact_cone::is_inside(tri, cutter, tip),
        ),
    }
}

/// The same triangle from its second corner on.
fn turned(tri: Tri) -> Tri
    requires { TriInRange tri }
    ensures { TriInRange result }
{
    Tri {
        a: tri.b,
        b: tri.c,
        c: tri.a,
    }
}

/// How the triangle lies from each of its corners.
fn lie_from_each(tri: Tri, cutter: Cutter, tip: Pt3) -> (Lie, Lie, Lie)
    requires tri_ok { TriInRange tri }
    requires cutter_ok { IsWideCutter cutter }
    requires tip_ok { IsCentre tip }
{
    let second = turned(tri);
    let third = turned(second);
    (
        lie(&tri, cutter, tip),
        lie(&second, cutter, tip),
        lie(&third, cutter, tip),
    )
}

/// The same of the corners and the tip that a row says, or of the corners that its block has.
fn lies_of(cutter: Cutter, corners: &str, text: &str) -> Result<(Lie, Lie, Lie), Fail>
    requires { IsWideCutter cutter }
{
    let (own_corners, place) = placed(text);
    let corners = if own_corners.is_empty() {
        corners
    } else {
        own_corners
    };
    Ok(lie_from_each(triangle(corners)?, cutter, tip(place)?))
}

/// Looks at a triangle that is inside, or that lies to the cutter so along X and so along Y.
fn look_at_row<R: Abort>(
    rt: &R,
    cutter: Cutter,
    corners: &str,
    title: &str,
    row: &str,
) -> Result<(), Fail>
    requires { IsWideCutter cutter }
{
    let (text, wanted) = halves(row)?;
    let found = lies_of(cutter, corners, text)?;
    let (along_x, along_y) = wanted.split_once(" ").unwrap_or((wanted, wanted));
    let wanted = (along_x, along_y, wanted == "inside");
    assert_eq!(rt; found, (wanted, wanted, wanted), "{title}: {row}");
    Ok(())
}

fn look_at_rows<R: Abort>(
    rt: &R,
    cutter: Cutter,
    corners: &str,
    title: &str,
    rows: &str,
) -> Result<(), Fail>
    requires { IsWideCutter cutter }
{
    for row in rows.lines() {
        look_at_row(rt, cutter, corners, title, row)?;
    }
    Ok(())
}

fn look_at_block<R: Abort>(rt: &R, block: &str) -> Result<(), Fail> {
    let (title, block) = block.split_once(":\n").ok_or("a block without a title")?;
    let (head, rows) = block.split_once("\n").ok_or("a block without rows")?;
    let (name, corners) = head.split_once(": ").unwrap_or((head, ""));
    look_at_rows(rt, wide_cutter(name)?, corners, title, rows)
}

/// Looks at many triangles. A table has blocks with an empty line between any two. A block begins with
/// a title, up to a colon at a line's end, and a line with a cutter and, where all its rows have the same
/// triangle, its corners. A row has a triangle's corners if its block has none, `at` and the tip's place
/// where that isn't the origin, and how the triangle lies.
pub(crate) fn each_block<R: Abort>(rt: &R, table: &str) -> Result<(), Fail> {
    for block in table.split("\n\n") {
        look_at_block(rt, block)?;
    }
    Ok(())
}
