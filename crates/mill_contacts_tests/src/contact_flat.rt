use crate::contacts::each_block;
use std::test::Fail;

const TABLE: &str = "\
A level triangle: its edges, its face, its height and its corners, one unit in and out, and where its
box is near and it isn't, beside its slope and past a corner:
flat 100: 0 0 200, 1000 0 200, 0 1000 200
at -99 500 199 => inside
at -100 500 199 => more never
at 500 -99 199 => inside
at 500 -100 199 => never more
at 641 500 199 => inside
at 642 500 199 => less less
at 300 300 199 => inside
at 300 300 200 => never never
at 500 300 200 => never never
at -99 500 200 => never never
at 0 0 199 => inside
at 0 0 200 => never never
at 1059 -80 199 => inside
at 1060 -80 199 => less more
at 60 1079 199 => inside
at 60 1080 199 => less less
at -60 1079 199 => inside
at -60 1080 199 => more less
at -59 -80 199 => inside
at -60 -80 199 => more more
at -75 -75 199 => more more
at 900 900 199 => less less
at 5000 500 199 => less never
at 500 5000 199 => never less

The tip's height cuts the triangle: only a line of it is near, then only its highest corner:
flat 100: 0 -1000 0, 0 1000 0, 1000 0 1000
at 401 0 500 => inside
at 400 0 500 => more never
at 401 700 500 => never less
at 401 -700 500 => never more
at 1099 0 999 => inside
at 1100 0 999 => less never
at 1079 60 999 => inside
at 1080 60 999 => less less
at 1080 -60 999 => less more
at 1000 0 1000 => never never

An upright triangle over the line from (0, 0) to (1000, 0), down to its end at the tip's height:
flat 100: 0 0 0, 1000 0 0, 0 0 1000
at 300 99 500 => inside
at 300 100 500 => never less
at 300 -100 500 => never more
at 559 80 500 => inside
at 560 80 500 => less less
at 560 -80 500 => less more
at 0 0 999 => inside
at 0 0 1000 => never never

Three corners on one level line:
flat 100: 0 0 10, 500 0 10, 200 0 10
at 300 99 9 => inside
at 300 100 9 => never less
at 300 -100 9 => never more
at -59 80 9 => inside
at -60 80 9 => more less
at 599 0 9 => inside
at 600 0 9 => less never
at 300 0 9 => inside
at 300 0 10 => never never

A segment that comes over the tip's height beside the cutter:
flat 100: 0 0 0, 400 400 400
at 41 20 100 => inside
at 40 20 100 => more more
at 20 40 100 => more more
at -60 120 100 => more never
at 120 -60 100 => never more
at 200 200 399 => never never
at 400 400 400 => never never

A point:
flat 100: 7 7 7
at 7 7 6 => inside
at 7 7 7 => never never
at 67 86 6 => inside
at 67 87 6 => less less
at -53 87 6 => more less
at -53 -73 6 => more more
at 67 -73 6 => less more
at 106 7 6 => inside
at 107 7 6 => less never
at -93 7 6 => more never
at 7 107 6 => never less
at 7 -93 6 => never more

The widest cutter, with its tip as low and as far out as can be, and a triangle as wide as can be:
flat 11024: -524287 -524287 524287, 524287 -524287 -524287, -524287 524287 524287
at 524287 524287 -545000 => less less
at 7795 7795 -545000 => inside
at 7796 7796 -545000 => less less
at -524287 0 524286 => inside";

#[test]
fn triangles_by_a_flat_cutter(rt: HostRuntime) -> Result<(), Fail> {
    each_block(&rt, TABLE)
}
