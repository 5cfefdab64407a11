use super::each_waterline;
use std::test::Fail;

// A lattice of three columns and three rows, and over it the waterline of the widest cylinder over a
// triangle in the plane z = x whose corners are as far out as the lattice.
//
// The triangle's sides lie in 2x + y = far and in -2x + y = far. From the first a place is 10,000 away
// where 2x + y is far + 22,360.7, which is far and 10,000 times the root of 5: so in the right column
// at y = -far + 22,360.7, and in the upper rows at x = (far + 22,360.7) / 2 and at x = 11,180.3.
// The lowest tip is under the whole triangle but its corner. At height 0 the points at x > 0 count: the
// places up to x = -10,000 are free. One unit under the top those at x > far - 1 count: in the lower
// row the places up to x = far - 10,001 are free, and in the right column those from
// y = -far + 10,002 on, since the nearest of those points come close to (far - 1, -far + 2).
const ENDS_OF_THE_RANGE: &str = "\
flat 10000 at 131071 over -131071 -131071 to 131071 131071 by 131071: \
    -131071 -131071 -131071, 131071 -131071 131071, 0 131071 0 => \
    none
flat 10000 at 131070 over -131071 -131071 to 131071 131071 by 131071: \
    -131071 -131071 -131071, 131071 -131071 131071, 0 131071 0 => \
    open (131071 -121069) (121070 -131071)
flat 10000 at 0 over -131071 -131071 to 131071 131071 by 131071: \
    -131071 -131071 -131071, 131071 -131071 131071, 0 131071 0 => \
    open (-10000 131071) (-10000 0) (-10000 -131071), open (131071 -108710) (76716 0) (11181 131071)
flat 10000 at -131071 over -131071 -131071 to 131071 131071 by 131071: \
    -131071 -131071 -131071, 131071 -131071 131071, 0 131071 0 => \
    open (-11181 131071) (-76716 0) (-131071 -108710), open (131071 -108710) (76716 0) (11181 131071)
flat 10000 at 524287 over -524287 -524287 to 524287 524287 by 524287: \
    -524287 -524287 -524287, 524287 -524287 524287, 0 524287 0 => \
    none
flat 10000 at 524286 over -524287 -524287 to 524287 524287 by 524287: \
    -524287 -524287 -524287, 524287 -524287 524287, 0 524287 0 => \
    open (524287 -514285) (514286 -524287)
flat 10000 at 0 over -524287 -524287 to 524287 524287 by 524287: \
    -524287 -524287 -524287, 524287 -524287 524287, 0 524287 0 => \
    open (-10000 524287) (-10000 0) (-10000 -524287), open (524287 -501926) (273324 0) (11181 524287)
flat 10000 at -524287 over -524287 -524287 to 524287 524287 by 524287: \
    -524287 -524287 -524287, 524287 -524287 524287, 0 524287 0 => \
    open (-11181 524287) (-273324 0) (-524287 -501926), open (524287 -501926) (273324 0) (11181 524287)";

// At 4,000 over their tips the ball and the cone of the greatest radius reach 8,000 from their axes.
const GREATEST_CUTTERS: &str = "\
ball 10000 at 520287 over -524287 -524287 to 524287 524287 by 524287: 524287 524287 524287 => \
    open (516287 524287) (524287 516287)
cone 10000 1 2 at 520287 over -524287 -524287 to 524287 524287 by 524287: 524287 524287 524287 => \
    open (516287 524287) (524287 516287)";

#[test]
fn waterlines_at_the_limits(rt: HostRuntime) -> Result<(), Fail> {
    for table in [ENDS_OF_THE_RANGE, GREATEST_CUTTERS] {
        each_waterline(&rt, table)?;
    }
    Ok(())
}
