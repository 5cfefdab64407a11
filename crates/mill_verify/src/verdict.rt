use mill_sweep::Leaf;

/// The first written test that fails. Moves, triangles, fixtures, rows and columns are counted
/// from 0.
#[derive(Clone, Copy, Debug, PartialEq, Eq)]
pub enum Reason {
    /// An end of the move is under the floor.
    Floor {
        at: u64,
    },
    /// The move doesn't pass the triangle, which blocks this leaf of the move.
    Gouge {
        at: u64,
        tri: u32,
        leaf: Leaf,
    },
    /// The cutter passes the part, and the holder doesn't pass the triangle, which blocks this leaf of the
    /// move as the holder's own tip makes it.
    Holder {
        at: u64,
        tri: u32,
        leaf: Leaf,
    },
    /// Cutter and holder pass the part, and the cutter doesn't pass the upper face of the fixture,
    /// which blocks this leaf of the move.
    Fixture {
        at: u64,
        fixture: u32,
        leaf: Leaf,
    },
    /// Cutter and holder pass the part, and the cutter the fixtures, and the holder doesn't pass
    /// the upper face of the fixture, which blocks this leaf of the move as the holder's own tip
    /// makes it.
    HolderFixture {
        at: u64,
        fixture: u32,
        leaf: Leaf,
    },
    /// The rapid doesn't pass the point at the top of the column, which blocks this leaf of the move.
    Rapid {
        at: u64,
        row: u32,
        col: u32,
        leaf: Leaf,
    },
    /// The feed cuts too deep: it doesn't pass the point of the column that lies the job's greatest depth
    /// of cut under the top, or at the floor if that is higher, which blocks this leaf of the move.
    Cut {
        at: u64,
        row: u32,
        col: u32,
        leaf: Leaf,
    },
    /// The cutter passes the stock, as far as it is tested, and the holder doesn't pass the point at the top
    /// of the column, which blocks this leaf of the move as the holder's own tip makes it.
    HolderStock {
        at: u64,
        row: u32,
        col: u32,
        leaf: Leaf,
    },
    /// After all moves the column's top, in units, is more than the allowance over what covers it.
    Left {
        row: u32,
        col: u32,
        top: i32,
    },
}

/// What is said of a program.
#[derive(Clone, Copy, Debug, PartialEq, Eq)]
pub enum Verdict {
    /// Every test passes. `most_left` is the most that any column's top stands over its greatest
    /// covered height, in units.
    Accept {
        moves: u64,
        columns: u64,
        most_left: i32,
    },
    /// A test fails, and this is the first.
    Reject(Reason),
}
