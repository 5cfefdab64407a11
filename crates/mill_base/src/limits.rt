//! The limits of the whole program, each in one place. Lengths are in units of the job, 0.01 mm or
//! 0.001 mm.

/// The greatest magnitude of a coordinate that a text in units of 0.01 mm may give.
pub const MAX_TEXT_COORDINATE: u32 = 131_071;

/// The greatest magnitude of a coordinate that calls take, and that a text in units of 0.001 mm may
/// give.
pub const MAX_COORDINATE: u32 = 524_287;

/// The lowest height of a tip at which contact is tested: a widened cutter is lowered under its move.
pub const LOWEST_TIP: i32 = -545_000;

/// The lowest that a solid's tip may be under the tip of its tool.
pub const LOWEST_LIFT: i32 = -4_300;

/// The greatest radius of a job's cutter.
pub const MAX_RADIUS: i32 = 10_000;

/// The greatest radius at which contact is tested: a job's cutter that is widened by the greatest
/// reach.
pub const MAX_WIDE_RADIUS: i32 = 11_024;

/// The greatest reach of a piece of a move that may pass as a whole.
pub const MAX_REACH: u32 = 1_024;

/// The greatest reach of a piece that isn't halved any more.
pub const MAX_LAST_REACH: u32 = 2;

/// How many times a move is halved at most.
pub const MAX_DEPTH: u32 = 20;

/// The most triangles of a part.
pub const MAX_TRIANGLES: usize = 200_000;

/// The most moves of a program or a plan.
pub const MAX_MOVES: usize = 1_000_000;

/// The most columns of a job's stock.
pub const MAX_COLUMNS: u64 = 4_000_000;

/// The most nodes of a lattice.
pub const MAX_NODES: u64 = 4_000_000;

/// The most workers that share the work.
pub const MAX_WORKERS: u32 = 64;

/// The most bytes of a file.
pub const MAX_FILE_BYTES: u64 = 1 << 26;
