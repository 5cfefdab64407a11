// `drop`: the line and the status of each answer.
use crate::tests::each_says;
use std::test::Fail;

const DROPS: &str = r"drop wide corner --x=-0.99 --y=5.00 => 0 drop 2.00
drop wide corner --x=-1.00 --y=5.00 => 0 drop 0.00
drop wide corner --x=-1 --y=5 => 0 drop 0.00
drop wide corner --x=5.00 --y=-0.99 => 0 drop 2.00
drop wide corner --x=10 --y=-0.9 => 0 drop 2.00
drop wide corner --x=-0.9 --y=10 => 0 drop 2.00
drop wide corner --x=11 --y=-0.9 => 0 drop 0.00
drop wide corner --x=1e0 --y=0.010e2 => 0 drop 2.00
drop ball peak --x=0.6 --y=0 => 0 drop 2.80
drop ball peak --x=0.61 --y=0 => 0 drop 2.80
drop job beside --x=1 --y=1 => 0 drop 0.00
drop held-50 beside --x=1 --y=1 => 0 drop 2.50
drop held-300 beside --x=1 --y=1 => 0 drop 0.00
drop wide empty --x=0 --y=0 => 0 drop 0.00
drop wide dot --x=0.51 --y=0 => 0 drop 0.50
drop boxed dot --x=0.5 --y=0 => 0 drop 0.50
drop boxed dot --x=0.51 --y=0 => 0 drop 2.20
drop boxed dot --x=2.5 --y=0 => 0 drop 4.00
drop wide corner --x=0.005 --y=5 => 4 refused word x off-grid
drop wide corner --x=1 --y=1310.72 => 4 refused word y out-of-range
drop wide corner --x= --y= => 4 refused word x spelling
drop wide corner --x=0 --y=0.000000000000000000000000 => 4 refused word y too-many-digits
drop garbled corner --x=0.005 --y=0 => 4 refused job syntax
drop thousandths plate --x=3.499 --y=0.005 => 0 drop 2.000
drop thousandths plate --x=3.500 --y=0 => 0 drop 0.000
drop thousandths cut-short --x=0.0005 --y=0 => 4 refused word x off-grid
drop thousandths plate --x=0 --y=524.288 => 4 refused word y out-of-range
drop wide cut-short --x=0 --y=0 => 4 refused part line 2 cut-short
drop job high --x=0 --y=0 => 4 refused part-top 3.01 top 3.00";

#[test]
fn drops_the_cutter(rt: HostRuntime) -> Result<(), Fail> {
    each_says(&rt, rt.alloc(), DROPS)
}
