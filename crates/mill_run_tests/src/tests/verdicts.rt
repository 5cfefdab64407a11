// `verify`: the line and the status of each answer.
use crate::tests::each_says;
use std::test::Fail;

const VERDICTS: &str =
    r"verify job plate down => 0 accepted moves 2 columns 9 left 0.00 band 0.00 allowance 0.00
verify job plate <G21 G90\nG1 Z2.01\nG0 Z4\nM2\n> => 3 rejected left row 0 column 0 top 2.01
verify job plate <G21 G90\nG1 Z1.99\nM2\n> => 3 rejected gouge move 0 triangle 0 leaf 8 254
verify job plate <G21 G90\nG0 Z2.99\nM2> => 3 rejected rapid move 0 row 0 column 0 leaf 7 126
verify job plate <G21 G90\nG1 Z-0.01\nM2> => 3 rejected floor move 0 z -0.01
verify cut-100 plate down => 0 accepted moves 2 columns 9 left 0.00 band 0.00 allowance 0.00
verify cut-99 plate down => 3 rejected cut move 0 row 0 column 0 leaf 8 254
verify plate-ball-100 plate down => 0 accepted moves 2 columns 9 left 1.00 band 0.00 allowance 1.00
verify plate-ball-99 plate down => 3 rejected left row 0 column 0 top 3.00
verify held-50 plate down => 3 rejected holder-stock move 0 row 0 column 0 leaf 8 192
verify held-100 plate down => 0 accepted moves 2 columns 9 left 0.00 band 0.00 allowance 0.00
verify slim-99 far-wall <G21 G90\nG0 X5\nG0 Z1\nG0 X3\nM2> => 3 rejected holder move 1 triangle 0 leaf 9 339
verify held-none plate <M2> => 4 refused job missing stickout
verify held-thin plate <M2> => 4 refused job relation radius holder_radius
verify thousandths plate down => 0 accepted moves 2 columns 9 left 0.000 band 0.000 allowance 0.000
verify thousandths plate <G21 G90\nG1 Z-0.001\nM2> => 3 rejected floor move 0 z -0.001
verify thousandths high <M2> => 4 refused part-top 3.010 top 3.000
verify thousandths plate <G21 G90\nG1 X12.3455\nM2> => 4 refused program line 2 off-grid
verify band-50 narrow down => 3 rejected left row 0 column 2 top 2.00
verify band-51 narrow down => 0 accepted moves 2 columns 9 left 0.00 band 0.51 allowance 0.00
verify band-151 narrow <M2> => 4 refused job relation band radius
verify no-stock empty <M2> => 0 accepted moves 0 columns 1 left 0.00 band 0.00 allowance 0.00
verify wide corner <M2> => 3 rejected left row 0 column 0 top 4.00
verify loose plate loose-planned => 0 accepted moves 13 columns 9 left 0.00 band 0.00 allowance 0.00
verify loose plate planned => 4 refused program line 3 start
verify axes plate <G21 G90\nG1 Z2\nG0 X1.01 Z4\nM2> => 0 accepted moves 2 columns 9 left 0.00 band 0.00 allowance 0.00
verify axes plate <G21 G90\nG0 X1.01 Z2\nM2> => 3 rejected rapid move 0 row 0 column 0 leaf 0 0
verify axes plate <G21 G90\nG0 Z2.99\nM2> => 3 rejected rapid move 0 row 0 column 0 leaf 7 126
verify turning plate planned => 4 refused program line 3 no-spindle
verify clamped plate clamped-planned => 0 accepted moves 9 columns 9 left 0.00 band 0.00 allowance 0.00
verify garbled plate <M2> => 4 refused job syntax
verify no-key plate <M2> => 4 refused job unknown depth
verify one-key plate <M2> => 4 refused job missing radius
verify cut-131072 plate <M2> => 4 refused job range max_cut
verify low-clear plate <M2> => 4 refused job relation top clear
verify job abnormal <M2> => 4 refused part line 2 expected
verify job cut-short <M2> => 4 refused part line 2 cut-short
verify job high <M3> => 4 refused part-top 3.01 top 3.00
verify job plate <G64\n> => 4 refused program line 1 not-in-profile
verify job plate <G21 G90\nG1 Z2.001\nM2\n> => 4 refused program line 2 off-grid
verify job plate <G21 G90\nG1 X1\n> => 4 refused program line 3 no-end
verify job plate <%\nn10 g21 g90 (down) g1 z+2. 0\n%\n> => 0 accepted moves 1 columns 9 left 0.00 band 0.00 allowance 0.00";

#[test]
fn prints_each_answer(rt: HostRuntime) -> Result<(), Fail> {
    each_says(&rt, rt.alloc(), VERDICTS)
}

const ALIKE: &str =
    r"verify --workers=1 job plate down => 0 accepted moves 2 columns 9 left 0.00 band 0.00 allowance 0.00
verify --workers=4 job plate down => 0 accepted moves 2 columns 9 left 0.00 band 0.00 allowance 0.00
verify --workers=64 job plate down => 0 accepted moves 2 columns 9 left 0.00 band 0.00 allowance 0.00
verify --workers=1 job plate <G21 G90\nG0 Z1.99\nM2\n> => 3 rejected gouge move 0 triangle 0 leaf 8 254
verify --workers=4 job plate <G21 G90\nG0 Z1.99\nM2\n> => 3 rejected gouge move 0 triangle 0 leaf 8 254
verify --workers=64 job plate <G21 G90\nG0 Z1.99\nM2\n> => 3 rejected gouge move 0 triangle 0 leaf 8 254
verify --workers=1 held-50 plate down => 3 rejected holder-stock move 0 row 0 column 0 leaf 8 192
verify --workers=4 held-50 plate down => 3 rejected holder-stock move 0 row 0 column 0 leaf 8 192
verify --workers=64 held-50 plate down => 3 rejected holder-stock move 0 row 0 column 0 leaf 8 192
verify --workers=1 job plate <G21 G90\nG0 Z3\nM2\n> => 3 rejected left row 0 column 0 top 3.00
verify --workers=4 job plate <G21 G90\nG0 Z3\nM2\n> => 3 rejected left row 0 column 0 top 3.00
verify --workers=64 job plate <G21 G90\nG0 Z3\nM2\n> => 3 rejected left row 0 column 0 top 3.00";

#[test]
fn answers_alike_for_each_number_of_workers(rt: HostRuntime) -> Result<(), Fail> {
    each_says(&rt, rt.alloc(), ALIKE)
}

// A program of two pieces, with a line across their border.
const TWO_PIECES: &str =
    r"verify job plate <G21 G90\n + 10000 * G1 Z2\nG0 Z4\n + M2\n> => 0 accepted moves 20000 columns 9 left 0.00 band 0.00 allowance 0.00";

#[test]
fn reads_a_program_of_two_pieces(rt: HostRuntime) -> Result<(), Fail> {
    each_says(&rt, rt.alloc(), TWO_PIECES)
}
