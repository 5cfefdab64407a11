use mill_sweep::Leaf;

/// Which test of a move by a row fails.
#[derive(Clone, Copy, Debug, PartialEq, Eq)]
pub enum RowTest {
    /// That of the cutter: a rapid would cut the row, or a feed would cut too deep into it.
    Cut,
    /// That of the holder, which would touch the row, while the cutter's test is passed.
    Holder,
}

/// Where a move fails a test by a row of the stock.
#[derive(Clone, Copy, Debug, PartialEq, Eq)]
pub struct RowFail {
    /// The number of the move, from 0 on.
    pub at: u64,
    /// The first column of the row that the move doesn't pass.
    pub col: u32,
    /// The segment of the move at which the test of that column fails.
    pub leaf: Leaf,
    /// The test.
    pub test: RowTest,
}
