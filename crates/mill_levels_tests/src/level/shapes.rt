use super::each_waterline;
use std::test::Fail;

// The point is 300 - z over the tip. At 40 over its tip the ball reaches 80 from its axis, since its
// centre is 60 higher; at 30 over it the root of 100^2 - 70^2, which is 71.4; and at 1 over it the root
// of 100^2 - 99^2, which is 14.1. At 40 over their tips the cones reach 80 and 26.7. What is at the
// reach itself, at the height of the tip or lower is free.
const ROUND_A_POINT: &str = "\
flat 100 at 299 over 0 0 to 1000 1000 by 100: 500 500 300 => closed (400 500) (500 400) (600 500) (500 600)
flat 100 at 300 over 0 0 to 1000 1000 by 100: 500 500 300 => none
ball 100 at 200 over 0 0 to 1000 1000 by 100: 500 500 300 => closed (400 500) (500 400) (600 500) (500 600)
ball 100 at 260 over 0 0 to 1000 1000 by 100: 500 500 300 => closed (420 500) (500 420) (580 500) (500 580)
ball 100 at 270 over 0 0 to 1000 1000 by 100: 500 500 300 => closed (428 500) (500 428) (572 500) (500 572)
ball 100 at 299 over 0 0 to 1000 1000 by 100: 500 500 300 => closed (485 500) (500 485) (515 500) (500 515)
ball 100 at 300 over 0 0 to 1000 1000 by 100: 500 500 300 => none
cone 100 1 2 at 250 over 0 0 to 1000 1000 by 100: 500 500 300 => closed (400 500) (500 400) (600 500) (500 600)
cone 100 1 2 at 260 over 0 0 to 1000 1000 by 100: 500 500 300 => closed (420 500) (500 420) (580 500) (500 580)
cone 100 1 2 at 300 over 0 0 to 1000 1000 by 100: 500 500 300 => none
cone 100 3 2 at 260 over 0 0 to 1000 1000 by 100: 500 500 300 => closed (473 500) (500 473) (527 500) (500 527)";

// The point is 250 over a holder's face that is 50 over the tip: it keeps the holder 200 away, and the
// cutter only 100. It isn't over a face that is 300 over the tip.
const ROUND_WITH_A_HOLDER: &str = "\
flat 100 in 200 50 at 0 over 0 0 to 1000 1000 by 500: 500 500 300 => \
    closed (300 500) (500 300) (700 500) (500 700)
flat 100 in 200 300 at 0 over 0 0 to 1000 1000 by 500: 500 500 300 => \
    closed (400 500) (500 400) (600 500) (500 600)";

// An edge along a row, which rises over the tip's height at x = 400, and a wall whose points over that
// height begin there too: the place 100 before that is free, and the next one is blocked. Then a wall
// under a level edge, at which the ball and the cone reach 80 from their axes; to what is lower they
// reach less.
const EDGES_AND_WALLS: &str = "\
flat 100 at 0 over 0 0 to 1000 600 by 100: 300 300 -100, 700 300 300 => \
    closed (300 300) (400 200) (500 200) (600 200) (700 200) (800 300) (700 400) (600 400) (500 400) (400 400)
flat 100 at 0 over 0 0 to 1000 600 by 100: 300 300 -300, 700 300 300, 500 300 300 => \
    closed (300 300) (400 200) (500 200) (600 200) (700 200) (800 300) (700 400) (600 400) (500 400) (400 400)
ball 100 at 0 over 0 0 to 1000 600 by 100: 400 300 40, 600 300 40, 500 300 -900 => \
    closed (320 300) (400 220) (500 220) (600 220) (680 300) (600 380) (500 380) (400 380)
cone 100 1 2 at 0 over 0 0 to 1000 600 by 100: 400 300 40, 600 300 40, 500 300 -900 => \
    closed (320 300) (400 220) (500 220) (600 220) (680 300) (600 380) (500 380) (400 380)";

// A row beside a point, an edge and a triangle's corner. At the distance 100 the cutter just touches
// them, which is free. At 99 it is blocked up to the root of 100^2 - 99^2 along the row, which is 14.1.
const TOUCHING: &str = "\
flat 100 at 0 over 0 0 to 1000 0 by 100: 500 100 300 => none
flat 100 at 0 over 0 0 to 1000 0 by 100: 500 99 300 => open (485 0), open (515 0)
flat 100 at 0 over 0 0 to 1000 0 by 100: 300 100 300, 700 100 300 => none
flat 100 at 0 over 0 0 to 1000 0 by 100: 300 99 300, 700 99 300 => open (285 0), open (715 0)
flat 100 at 0 over 0 0 to 1000 0 by 100: 500 100 300, 300 300 300, 700 300 300 => none";

// A level triangle at the height 300: one unit under it the cutter is blocked, at it free. Its long
// side lies in x + y = 1000, and is nearer than 100 where x + y is less than 1141.4.
const LEVEL_FACE: &str = "\
flat 100 at 299 over 0 0 to 1000 1000 by 100: 400 400 300, 600 400 300, 400 600 300 => \
    closed (300 400) (400 300) (500 300) (600 300) (700 400) (642 500) (600 542) (542 600) (500 642) \
    (400 700) (300 600) (300 500)
flat 100 at 300 over 0 0 to 1000 1000 by 100: 400 400 300, 600 400 300, 400 600 300 => none";

#[test]
fn waterlines_round_shapes(rt: HostRuntime) -> Result<(), Fail> {
    for table in [
        ROUND_A_POINT,
        ROUND_WITH_A_HOLDER,
        EDGES_AND_WALLS,
        TOUCHING,
        LEVEL_FACE,
    ] {
        each_waterline(&rt, table)?;
    }
    Ok(())
}
