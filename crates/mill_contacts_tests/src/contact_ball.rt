use crate::contacts::each_block;
use std::test::Fail;

const TABLE: &str = "\
A level edge far over the centre, where the cylinder counts:
ball 100: 0 -500 5000, 0 500 5000
at -99 0 0 => inside
at -100 0 0 => more never
at 99 0 0 => inside
at 100 0 0 => less never
at 0 599 0 => inside
at 0 600 0 => never less
at 60 579 0 => inside
at 60 580 0 => less less
at -60 -580 0 => more more
at 0 0 4999 => inside
at 0 0 5000 => never never

A level edge at half the radius over the tip, where the sphere counts, since
86^2 + 50^2 < 100^2 < 87^2 + 50^2:
ball 100: 0 500 50, 0 -500 50
at -86 0 0 => inside
at -87 0 0 => more never
at 86 0 0 => inside
at 87 0 0 => less never
at -90 0 0 => more never
at -60 0 -30 => inside
at -80 0 10 => more never
at -79 0 10 => inside
at 0 586 0 => inside
at 0 587 0 => never less
at 0 -587 0 => never more
at -70 570 0 => more less
at 0 0 49 => inside
at 0 0 50 => never never

An upright edge: at the equator the radius counts, under it the nearest point is the edge's upper end:
ball 100: 0 0 0, 0 0 1000, 0 0 400
at 99 0 300 => inside
at 100 0 300 => less never
at 59 79 300 => inside
at 60 80 300 => less less
at 60 -80 300 => less more
at 79 0 960 => inside
at 80 0 960 => less never
at 0 -80 960 => never more
at 0 0 999 => inside
at 0 0 1000 => never never

A large level triangle: its face, its edge, and beside it its plane alone:
ball 100: -3000 -3000 200, 3000 -3000 200, 0 3000 200
at 0 0 199 => inside
at 0 0 200 => never never
at 0 0 100 => inside
at 0 0 -5000 => inside
at 0 -3099 100 => inside
at 0 -3100 100 => never more
at 0 -3091 140 => inside
at 0 -3092 140 => never more
at 2900 2900 150 => less less
at 4000 0 100 => less never
at -4000 0 150 => more never

A slope of 3 over 4: the plane at the distance of the radius from the centre:
ball 100: -4000 -4000 -3000, 4000 -4000 3000, 0 4000 0
at 0 0 24 => inside
at 0 0 25 => more never
at -1 0 24 => inside
at -2 0 24 => more never
at 1 0 25 => inside

A point at the equator, under it and over it:
ball 100: 7 7 100
at 106 7 0 => inside
at 107 7 0 => less never
at -93 7 0 => more never
at 67 86 0 => inside
at 67 87 0 => less less
at 67 -73 0 => less more
at 67 86 -500 => inside
at 67 87 -500 => less less
at 87 7 60 => less never
at 87 7 59 => inside
at 7 7 99 => inside
at 7 7 100 => never never
at 7 107 50 => never less

A level triangle at half the radius over the tip at its corners, edges and face, one unit in and
out: 50^2 + 86^2 < 100^2 < 50^2 + 87^2. Past a corner and beside the slope its box is near and it isn't:
ball 100: 0 0 50, 1000 0 50, 0 1000 50
at -86 0 0 => inside
at -87 0 0 => more never
at -60 -60 0 => inside
at -62 -62 0 => more more
at 1050 -70 0 => inside
at 1051 -71 0 => less more
at 0 1086 0 => inside
at 0 1087 0 => never less
at 500 -86 0 => inside
at 500 -87 0 => never more
at 500 -87 -1 => inside
at 500 -99 -50 => inside
at 500 -100 -50 => never more
at 500 -99 -500 => inside
at 500 -100 -500 => never more
at 561 561 0 => inside
at 562 562 0 => less less
at 300 300 49 => inside
at 300 300 50 => never never
at 5000 300 0 => less never

A slope of 45 degrees through the whole range. It is free where (h + R) / sqrt(2) is at least R,
from R * (sqrt(2) - 1) on, which is 4142.1 for R = 10000:
ball 10000: -524287 -524287 -524287, 524287 -524287 524287, 0 524287 0
at 0 0 4142 => inside
at 0 0 4143 => more never

The highest edge, beside the cylinder of the widest cutter at its lowest tip:
ball 11024: -524287 11024 524287, 524287 11024 524287
at 0 1 -545000 => inside
at 0 0 -545000 => never more

The lowest edge, at the sphere of the widest cutter: 11024 is 13 * 848, the edge is 5 * 848 beside the
tip and 848 over it, and so 12 * 848 under the centre:
ball 11024: -524287 -524287 -524287, 524287 -524287 -524287
at 0 -520047 -525136 => inside
at 0 -520047 -525135 => never less";

#[test]
fn triangles_by_a_ball(rt: HostRuntime) -> Result<(), Fail> {
    each_block(&rt, TABLE)
}
