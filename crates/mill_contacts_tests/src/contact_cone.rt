use crate::contacts::each_block;
use std::test::Fail;

const TABLE: &str = "\
Points at the apex, at the wall, at the circle where the wall meets the shank, and at the shank; and
beside the shank, the wall and the tip:
cone 100 1 1
0 0 1 => inside
0 0 0 => never never
0 0 -1 => never never
1 0 1 => more never
50 0 51 => inside
50 0 50 => more never
-30 40 51 => inside
-30 40 50 => less more
0 -99 100 => inside
0 -99 99 => never less
0 -100 100 => never less
0 -100 101 => never less
60 79 100 => inside
60 80 101 => more more
-99 0 500 => inside
-100 0 500 => less never
0 99 500 => inside
0 100 500 => never more
150 0 50 => more never
-150 0 50 => less never
0 150 50 => never more
0 -150 50 => never less
30 50 50 => never more
30 49 50 => more more
-30 -49 50 => less less
30 39 50 => inside
30 40 50 => more more
80 99 500 => more more
80 100 500 => never more

Points by a shallow cone: the wall rises by the rise over the run, from the tip:
cone 100 3 7
17 20 34 at 10 20 30 => inside
17 20 33 at 10 20 30 => more never
16 20 33 at 10 20 30 => inside
3 20 33 at 10 20 30 => less never
10 20 31 at 10 20 30 => inside
10 20 30 at 10 20 30 => never never
110 20 900 at 10 20 30 => more never
109 20 900 at 10 20 30 => inside

Points by a steep cone:
cone 100 16 1
1 0 17 => inside
1 0 16 => more never

Triangles whose box or corners show the answer, each beside one by a unit for which they don't: by
the height, by the distance from the axis, by the wall; and triangles that are near by their boxes
alone, and that come inside with no corner:
cone 100 1 1
0 0 0, 900 0 0, 0 900 -5 => never never
0 0 1, 900 0 0, 0 900 -5 => inside
80 60 500, 900 60 500, 80 900 500 => more more
79 60 500, 900 60 500, 80 900 500 => inside
-80 -60 500, -900 -60 500, -80 -900 500 => less less
-80 -59 500, -900 -60 500, -80 -900 500 => inside
100 -50 500, 900 70 500, 300 900 500 => more never
900 70 500, 300 900 500, 99 -10 500 => inside
50 0 50, 60 10 50, 60 -10 50 => more never
50 0 51, 60 10 50, 60 -10 50 => inside
60 10 51, 50 0 50, 60 -10 50 => more never
30 40 50, 40 40 50, 30 50 50 => more more
40 40 50, 30 40 51, 30 50 50 => inside
0 141 500, 141 0 500, 141 141 500 => inside
0 141 500, 142 0 500, 142 142 500 => more more
0 70 70, 500 70 70, 500 500 70 => never more
0 70 70, 500 69 70, 500 500 70 => inside
-500 -500 10, 500 -500 10, 0 500 10 => inside
-500 -500 0, 500 -500 0, 0 500 0 => never never

Segments, each from both ends. No end is inside: under and over the height at which the cone reaches
its radius, through it, and through the tip's height. Then segments that pass the tip on both sides,
and come into the cutter on one: by the shank's two sides, and by the wall's:
cone 100 1 1
-50 30 31, 50 30 31 => inside
50 30 31, -50 30 31 => inside
-50 30 30, 50 30 30 => never more
50 30 30, -50 30 30 => never more
-500 99 300, 500 99 300 => inside
500 99 300, -500 99 300 => inside
-500 100 300, 500 100 300 => never more
500 100 300, -500 100 300 => never more
99 0 0, 99 0 200 => inside
99 0 200, 99 0 0 => inside
100 0 0, 100 0 200 => more never
100 0 200, 100 0 0 => more never
99 0 -5, 99 0 100 => inside
99 0 100, 99 0 -5 => inside
99 0 -5, 99 0 99 => more never
99 0 99, 99 0 -5 => more never
-400 0 -901, 400 0 699 => more never
400 0 699, -400 0 -901 => more never
-450 0 -1000, 400 0 700 => more never
400 0 700, -450 0 -1000 => more never
450 0 -1000, -400 0 700 => less never
-400 0 700, 450 0 -1000 => less never
-450 0 -999, 400 0 701 => inside
400 0 701, -450 0 -999 => inside
-10 0 -10, 10 0 10 => more never
10 0 10, -10 0 -10 => more never
-10 0 -9, 10 0 11 => inside
10 0 11, -10 0 -9 => inside
-200 12 300, 200 212 300 => less more
200 212 300, -200 12 300 => less more
-200 11 300, 200 211 300 => inside
200 211 300, -200 11 300 => inside
-200 212 300, 200 12 300 => more more
200 12 300, -200 212 300 => more more
-200 -212 300, 200 -12 300 => more less
200 -12 300, -200 -212 300 => more less
-200 -12 300, 200 -212 300 => less less
200 -212 300, -200 -12 300 => less less
-40 50 63, 40 50 23 => less more
40 50 23, -40 50 63 => less more
-40 50 64, 40 50 24 => inside
40 50 24, -40 50 64 => inside
-40 -50 63, 40 -50 23 => less less
40 -50 23, -40 -50 63 => less less
-40 50 23, 40 50 63 => more more
40 50 63, -40 50 23 => more more
-40 -50 23, 40 -50 63 => more less
40 -50 63, -40 -50 23 => more less
-200 300 300, 200 300 300 => never more
200 300 300, -200 300 300 => never more
-40 60 50, 40 60 50 => never more
40 60 50, -40 60 50 => never more

Level triangles about the axis, and planes that meet only the circle where the wall meets the
shank, with one corner over it and with one corner under it. Then steep planes whose points near the
cutter are all at the height of the circle:
cone 100 1 1
500 -500 1, -500 -500 1, 0 500 1 => inside
500 -500 0, -500 -500 0, 0 500 0 => never never
-500 -500 1, 500 -500 1, 0 500 1 => inside
500 -500 100, -500 -500 100, 0 500 100 => inside
500 -500 500, -500 -500 500, 0 500 500 => inside
500 -500 -500, -500 -500 -500, 0 500 503 => inside
500 -500 -500, -500 -500 -500, 0 500 500 => never more
500 -500 -1099, -500 -500 -1099, 0 500 901 => inside
-500 -500 -1099, 500 -500 -1099, 0 500 901 => inside
500 -500 -1100, -500 -500 -1100, 0 500 900 => never more
-450 0 -999, 1000 -2000 1901, 1000 2000 1901 => inside
-450 0 -1000, 1000 -2000 1900, 1000 2000 1900 => more never
-450 -2000 -999, 1000 0 1901, -450 2000 -999 => inside
-450 -2000 -1000, 1000 0 1900, -450 2000 -1000 => more never

A level triangle at the heights of the shank and of the cone:
cone 100 1 1: 0 0 200, 1000 0 200, 0 1000 200
at -99 500 0 => inside
at -100 500 0 => more never
at 500 -100 0 => never more
at 641 500 0 => inside
at 642 500 0 => less less
at -49 500 150 => inside
at -50 500 150 => more never
at 500 -50 150 => never more
at 570 500 150 => inside
at 571 500 150 => less less
at 300 300 199 => inside
at 300 300 200 => never never

An upright triangle:
cone 100 1 1: 0 -5000 -10, 0 5000 -10, 0 0 5000
at 99 0 0 => inside
at 100 0 0 => less never
at -100 0 0 => more never
at 0 0 4999 => inside
at 0 0 5000 => never never";

/// The greatest numbers that calls take: coordinates up to 524,287, and tips down to -545,000.
const LIMITS: &str = "\
A plane and a line whose height is their x, at a cone that rises half as much: where its rim touches
them they are by half the radius higher than the tip:
cone 10000 1 2
-131071 -131071 -131071, 131071 -131071 131071, 0 131071 0 at 0 0 4999 => inside
-131071 -131071 -131071, 131071 -131071 131071, 0 131071 0 at 0 0 5000 => more never
-524287 -524287 -524287, 524287 -524287 524287, 0 524287 0 at 0 0 4999 => inside
-524287 -524287 -524287, 524287 -524287 524287, 0 524287 0 at 0 0 5000 => more never
-524287 0 -524287, 524287 0 524287 at 0 0 4999 => inside
-524287 0 -524287, 524287 0 524287 at 0 0 5000 => more never

A cone at 45 degrees: a line at its wall, a plane twice as steep at its rim, upright planes far from
it, one and the next unit off its shank, the farther ones by more than a volume whose square is
computed, and a point at its rim:
cone 11024 100 100
-524287 0 -524287, 524287 0 524287 at 0 0 -1 => inside
-524287 0 -524287, 524287 0 524287 at 0 0 0 => more never
-256632 0 -524287, 267655 -524287 524287, 267655 524287 524287 at 0 0 0 => inside
-256632 0 -524287, 267655 -524287 524287, 267655 524287 524287 at 0 0 1 => more never
-424287 524287 -524287, 524287 -424287 -524287, 50000 50000 524287 at 0 0 0 => more more
-424287 524287 -524287, 524287 -424287 -524287, 50000 50000 524287 at 42204 42204 0 => more more
-424287 524287 -524287, 524287 -424287 -524287, 50000 50000 524287 at 42205 42205 0 => inside
-384287 524287 -524287, 524287 -384287 -524287, 70000 70000 524287 at 0 0 0 => more more
-384287 524287 -524287, 524287 -384287 -524287, 70000 70000 524287 at 62204 62204 0 => more more
-384287 524287 -524287, 524287 -384287 -524287, 70000 70000 524287 at 62205 62205 0 => inside
524287 513264 -513264 at 524287 524287 -524287 => never less
524287 513264 -513263 at 524287 524287 -524287 => inside

The steepest cone: a line through the tip, a plane steeper than the wall at the rim, and points at
the wall:
cone 11024 16 1
-524287 0 -524287, 524287 0 524287 at 0 0 -1 => inside
-524287 0 -524287, 524287 0 524287 at 0 0 0 => more never
1867 0 -524284, 62900 -524287 513277, 62900 524287 513277 at 0 0 -545000 => inside
1867 0 -524284, 62900 -524287 513277, 62900 524287 513277 at 0 0 -544999 => more never
521287 520287 -465000 at 524287 524287 -545000 => less less
-521287 -520287 -465000 at -524287 -524287 -545000 => more more
521287 520287 -464999 at 524287 524287 -545000 => inside
-521287 -520287 -464999 at -524287 -524287 -545000 => inside

The flattest cone: points at the rim, and level and rising triangles at the shank:
cone 11024 1 100
-524287 -524287 524287, 524287 -524287 524287, -524287 524287 524287 at 524287 -508697 -545000 => inside
-524287 -524287 524287, 524287 -524287 524287, -524287 524287 524287 at 524287 -508696 -545000 => less less
-524287 11023 -524287, 524287 11023 524287 at 0 0 -545000 => inside
-524287 11023 -524287, 524287 11023 524287 at 0 -1 -545000 => never more
-513264 524287 524287 at -524287 524287 524177 => more never
-513264 524287 524287 at -524287 524287 524176 => inside";

#[test]
fn triangles_by_a_cone(rt: HostRuntime) -> Result<(), Fail> {
    each_block(&rt, TABLE)?;
    each_block(&rt, LIMITS)
}
