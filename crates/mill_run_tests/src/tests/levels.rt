// `level`: the text and the status of each answer.
use crate::tests::each_says;
use std::test::Fail;

const LEVELS: &str =
    r"level --workers=2 wide point --z=0 => 0 closed 4\n4.00 5.00\n5.00 4.00\n6.00 5.00\n5.00 6.00\nchains 1
level --workers=2 wide point --z=2.99 => 0 closed 4\n4.00 5.00\n5.00 4.00\n6.00 5.00\n5.00 6.00\nchains 1
level --workers=2 wide point --z=-1310.71 => 0 closed 4\n4.00 5.00\n5.00 4.00\n6.00 5.00\n5.00 6.00\nchains 1
level --workers=2 wide point --z=0.3e1 => 0 chains 0
level --workers=2 wide peak --z=0 => 0 open 2\n1.00 0.00\n0.00 1.00\nchains 1
level --workers=2 slim-100 wall --z=0 => 0 open 5\n0.80 2.00\n0.80 1.50\n0.80 1.00\n0.80 0.50\n0.80 0.00\nchains 1
level --workers=2 wide empty --z=0 => 0 chains 0
level --workers=2 vice empty --z=0 => 0 closed 12\n3.50 5.00\n3.63 4.00\n4.00 3.63\n5.00 3.50\n6.00 3.63\n6.37 4.00\n6.50 5.00\n6.37 6.00\n6.00 6.37\n5.00 6.50\n4.00 6.37\n3.63 6.00\nchains 1
level --workers=2 vice empty --z=2.2 => 0 chains 0
level --workers=2 job empty --z=1310.71 => 0 chains 0
level --workers=2 thousandths peak --z=2.999 => 0 open 4\n1.500 0.000\n1.119 1.000\n1.000 1.119\n0.000 1.500\nchains 1";

#[test]
fn goes_round_part_and_fixtures(rt: HostRuntime) -> Result<(), Fail> {
    each_says(&rt, rt.alloc(), LEVELS)
}

const NO_LEVEL: &str = r"level fine corner --z=0 => 9 over nodes 4004001
level wide point --z=0.001 => 4 refused word z off-grid
level wide point --z=-1310.72 => 4 refused word z out-of-range
level wide cut-short --z= => 4 refused word z spelling
level thousandths empty --z=524.288 => 4 refused word z out-of-range
level garbled point --z=0.001 => 4 refused job syntax
level wide cut-short --z=0 => 4 refused part line 2 cut-short
level job high --z=0 => 4 refused part-top 3.01 top 3.00";

#[test]
fn tells_why_there_is_no_level(rt: HostRuntime) -> Result<(), Fail> {
    each_says(&rt, rt.alloc(), NO_LEVEL)
}
