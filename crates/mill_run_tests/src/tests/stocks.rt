// `stock`: the line, the status and the stored text of each answer.
use crate::tests::{each_says, each_stores};
use std::test::Fail;

// The moves needn't pass any test: `deep` goes down into the plate. The last row stores the stock in the
// place of the job.
const STORED: &str = "stock job down out => stock triangles 8 => stocked
stock --workers=3 job down out => stock triangles 8 => stocked
stock job deep out => stock triangles 8 => deep-stocked
stock one-row down out => stock triangles 0 => no-triangles
stock job down job => stock triangles 8 => stocked";

#[test]
fn stores_the_stock(rt: HostRuntime) -> Result<(), Fail> {
    each_stores(&rt, rt.alloc(), STORED)
}

const NOTHING: &str = r"stock garbled down out => 4 refused job syntax
stock job plate out => 4 refused program line 1 word
stock absent down out => 6 read fault job
stock job absent out => 6 read fault program
stock many-columns down out => 9 over triangles 200978";

#[test]
fn stores_nothing_without_a_stock(rt: HostRuntime) -> Result<(), Fail> {
    each_says(&rt, rt.alloc(), NOTHING)
}
