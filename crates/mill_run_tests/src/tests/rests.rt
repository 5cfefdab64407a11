// `rest`: the line and the status of each answer.
use crate::tests::each_says;
use std::test::Fail;

// An empty table is no step.
const RESTS: &str = r"rest job plate two => 0 accepted files 2 moves 4 columns 9 left 0.00
rest --workers=1 job plate two => 0 accepted files 2 moves 4 columns 9 left 0.00
rest --workers=4 job plate two => 0 accepted files 2 moves 4 columns 9 left 0.00
rest --workers=64 job plate two => 0 accepted files 2 moves 4 columns 9 left 0.00
rest job plate third => 0 accepted files 3 moves 6 columns 9 left 0.00
rest job plate ball-alone => 3 rejected left row 0 column 0 top 3.00
rest --workers=1 job plate second-low => 3 rejected file 1 gouge move 0 triangle 0 leaf 8 254
rest --workers=4 job plate second-low => 3 rejected file 1 gouge move 0 triangle 0 leaf 8 254
rest --workers=64 job plate second-low => 3 rejected file 1 gouge move 0 triangle 0 leaf 8 254
rest job plate first-low => 3 rejected file 0 gouge move 0 triangle 0 leaf 8 254
rest job plate second-off-grid => 4 refused program 1 line 2 off-grid
rest job plate second-absent => 6 read fault program 1
rest job plate absent => 6 read fault list
rest job plate garbled => 4 refused list syntax
rest job plate one-key => 4 refused list unknown cutter
rest band-51 plate second-narrow => 4 refused list relation band radius
rest job plate <steps = []> => 4 refused list range steps
rest job plate <steps = [{}, {}, {}, {}, {}, {}, {}, {}, {}, {}, {}, {}, {}, {}, {}, {}, {}]> => 4 refused list range steps
rest job plate <steps = [{}, {}, {}, {}, {}, {}, {}, {}, {}, {}, {}, {}, {}, {}, {}, {}]> => 4 refused list missing program";

#[test]
fn prints_each_answer(rt: HostRuntime) -> Result<(), Fail> {
    each_says(&rt, rt.alloc(), RESTS)
}
