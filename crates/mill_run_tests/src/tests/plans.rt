// `plan`: the line, the status and the stored text of each answer.
use crate::tests::failures::each_tells;
use crate::tests::{each_says, each_stores};
use std::test::Fail;

// With a holder so far over the tip the plan is the same; in thousandths it is a tenth as large. It
// has two moves more where the program starts anywhere, and keeps off what stands beside the plate.
// The last stores it in the place of the job.
const STORED: &str =
    "plan --workers=1 job plate out => planned moves 11 columns 9 left 0.00 => planned
plan --workers=3 job plate out => planned moves 11 columns 9 left 0.00 => planned
plan --workers=1 held-100 plate out => planned moves 11 columns 9 left 0.00 => planned
plan --workers=1 tenth low-plate out => planned moves 11 columns 9 left 0.000 => tenth-planned
plan --workers=1 loose plate out => planned moves 13 columns 9 left 0.00 => loose-planned
plan --workers=2 clamped plate out => planned moves 9 columns 9 left 0.00 => clamped-planned
plan --workers=1 job plate job => planned moves 11 columns 9 left 0.00 => planned";

#[test]
fn stores_a_program(rt: HostRuntime) -> Result<(), Fail> {
    each_stores(&rt, rt.alloc(), STORED)
}

// Two layers over the plate, of nine places each, and then the plate itself.
const LAYERED: &str =
    "plan layered plate out, out 1000, 200 => 0 planned moves 29 columns 9 left 0.00";

#[test]
fn plans_layers(rt: HostRuntime) -> Result<(), Fail> {
    each_tells(&rt, rt.alloc(), LAYERED)
}

const NOTHING: &str = r"plan groove-job groove out => 8 uncut row 0 column 5 top 2.00
plan held-50 plate out => 8 held move 0 row 0 column 0
plan slim-100 wall out => 8 held move 52 row 0 column 3
plan fine corner out => 9 over nodes 4004001
plan job high out => 4 refused part-top 3.01 top 3.00
plan garbled plate out => 4 refused job syntax
plan turning plate out => 4 refused job missing feed
plan turning high out => 4 refused job missing feed";

#[test]
fn stores_nothing_without_a_program(rt: HostRuntime) -> Result<(), Fail> {
    each_says(&rt, rt.alloc(), NOTHING)
}
