/// A point, in units, as the caller gives it: its coordinates may be any.
#[repr(C)]
#[derive(Clone, Copy, Debug, PartialEq, Eq)]
pub struct RawPoint {
    pub x: i32,
    pub y: i32,
    pub z: i32,
}

/// A triangle by its three corners, nine numbers in a row.
#[repr(C)]
#[derive(Clone, Copy, Debug, PartialEq, Eq)]
pub struct RawTriangle {
    pub a: RawPoint,
    pub b: RawPoint,
    pub c: RawPoint,
}

/// A place seen from above, in units.
#[repr(C)]
#[derive(Clone, Copy, Debug, PartialEq, Eq)]
pub struct RawPlace {
    pub x: i32,
    pub y: i32,
}

/// A tool in numbers: a cutter, and its holder if it has one. Lengths are in units.
#[repr(C)]
#[derive(Clone, Copy, Debug, PartialEq, Eq)]
pub struct RawTool {
    /// What the cutter is: 1 a flat end mill, 2 a ball end mill, 3 a cone.
    pub kind: i32,
    /// The radius of its shank, from 1 to 10,000.
    pub radius: i32,
    /// How far a cone rises over each `run`, from 1 to 100, and at most 16 times the run. It is not
    /// looked at for other cutters, and neither is `run`.
    pub rise: i32,
    /// The run of a cone, from 1 to 100.
    pub run: i32,
    /// The radius of the holder, from 1 to 10,000; 0, and a `stickout` of 0, for no holder.
    pub holder_radius: i32,
    /// How far the holder's lower face is over the cutter's tip, from 1 to 524,287.
    pub stickout: i32,
}

/// What a reading of a part's text came to. What isn't told is 0.
#[repr(C)]
#[derive(Clone, Copy, Debug, PartialEq, Eq)]
pub struct RawReading {
    /// How many triangles the part has.
    pub triangles: u64,
    /// How many of their coordinates were rounded.
    pub rounded: u64,
    /// The line of the text's first fault, counted from 1; each LF ends one.
    pub line: u64,
}

/// A line along an axis, at one height, and a stretch of it: where the tip of a cutter is pushed. Its
/// positions are the coordinates along the axis, in units.
#[repr(C)]
#[derive(Clone, Copy, Debug, PartialEq, Eq)]
pub struct RawFiber {
    /// 1 for a line along x, 2 for one along y.
    pub axis: i32,
    /// The other one of the coordinates x and y.
    pub at: i32,
    pub z: i32,
    /// The first position of the stretch.
    pub first: i32,
    /// The last one, which isn't before the first.
    pub last: i32,
}

/// The positions from `first` to `last`, with both of them.
#[repr(C)]
#[derive(Clone, Copy, Debug, PartialEq, Eq)]
pub struct RawRun {
    pub first: i32,
    pub last: i32,
}

/// What is said of a program, in numbers, or what is told of a text that is refused. What isn't told is 0.
/// Moves, triangles, fixtures, rows and columns are counted from 0, and lengths are in the job's unit.
#[repr(C)]
#[derive(Clone, Copy, Debug, PartialEq, Eq)]
pub struct RawVerdict {
    /// The first test that fails; 0 where none does, and the program is accepted. Of a move: 1 that
    /// it stays over the floor, 2 that the cutter passes the part, 3 that the holder does, 8 that
    /// the cutter passes the fixtures, 9 that the holder does, 4 that a rapid passes the stock, 5
    /// that a feed cuts no deeper than it may, 6 that the holder passes the stock, in this order; 7
    /// that after the last move no column is left too high.
    pub test: i32,
    /// How much is left at most on a column of an accepted program, over what covers it.
    pub most_left: i32,
    /// The top of the column that is left too high.
    pub top: i32,
    /// The greatest height of a part that is over the job's top.
    pub height: i32,
    /// The triangle that the move doesn't pass.
    pub triangle: u32,
    /// The row of the column that the move doesn't pass, or that is left too high.
    pub row: u32,
    /// Its column.
    pub column: u32,
    /// The segment of the move that is blocked, as `leaf` says.
    pub depth: u32,
    /// The segment goes from the moment leaf / 2^depth to (leaf + 1) / 2^depth of the move.
    pub leaf: u64,
    /// The move that fails.
    pub at: u64,
    /// How many moves an accepted program has.
    pub moves: u64,
    /// How many columns the stock has, where the program is accepted.
    pub columns: u64,
    /// The line of a refused text's first fault, counted from 1; each LF ends one.
    pub line: u64,
    /// The fixture that the move doesn't pass.
    pub fixture: u32,
}

/// The nodes over an area: the positions in x are `x0`, `x0 + step`, `x0 + 2 * step` and so on up to `x1`,
/// and `x1` itself where it isn't one of them; likewise in y. Lengths are in units.
#[repr(C)]
#[derive(Clone, Copy, Debug, PartialEq, Eq)]
pub struct RawLattice {
    pub x0: i32,
    pub y0: i32,
    pub x1: i32,
    pub y1: i32,
    /// At least one unit.
    pub step: i32,
}

/// A chain of a waterline, beside its points.
#[repr(C)]
#[derive(Clone, Copy, Debug, PartialEq, Eq)]
pub struct RawChain {
    /// How many points it has.
    pub points: u64,
    /// 1 where its last point is joined to its first, and else 0.
    pub closed: u64,
}

/// How many chains a waterline has, and how many points these have together.
#[repr(C)]
#[derive(Clone, Copy, Debug, PartialEq, Eq)]
pub struct RawCounts {
    pub chains: u64,
    pub points: u64,
}

/// What is told of a plan, or of why there is none, in numbers. What isn't told is 0. Moves, rows and
/// columns are counted from 0, and lengths are in the job's unit.
#[repr(C)]
#[derive(Clone, Copy, Debug, PartialEq, Eq)]
pub struct RawPlanned {
    /// How many bytes the program's text has.
    pub bytes: u64,
    /// How many moves the program has.
    pub moves: u64,
    /// How many columns the stock has.
    pub columns: u64,
    /// How many nodes the lattice has that has too many.
    pub nodes: u64,
    /// The move on which the holder would touch a column.
    pub at: u64,
    /// The line of the part's first fault, counted from 1; each LF ends one.
    pub line: u64,
    /// How much the program leaves at most on a column, over what covers it.
    pub most_left: i32,
    /// The top of the column that the plan leaves too high.
    pub top: i32,
    /// The greatest height of a part that is over the job's top.
    pub height: i32,
    /// The row of the column that is left too high, or that the holder would touch.
    pub row: u32,
    /// Its column.
    pub column: u32,
}
