//! The limits of a job's numbers that the program's limits don't name.

/// The greatest pitch, sample, raster, allowance, band, lift, stock that roughing leaves and tolerance
/// of paths.
pub const MAX_DISTANCE: i32 = 10_000;

/// The greatest slack.
pub const MAX_SLACK: i32 = 200;

/// The greatest overcut.
pub const MAX_OVERCUT: i32 = 500;

/// The greatest graze.
pub const MAX_GRAZE: i32 = 500;

/// How much the graze is over twice a slack where the job doesn't say.
pub const SPARE_GRAZE: i32 = 5;

/// The greatest tolerance of arcs.
pub const MAX_ARC_TOL: i32 = 100;

/// How much a slack is over a tolerance of arcs at least, where the job has one.
pub const SPARE_ARC: i32 = 2;

/// The most layers that roughing may take off.
pub const MAX_LAYERS: i32 = 1_000;

/// The most waterlines that a job may have.
pub const MAX_LEVELS: usize = 64;

/// The most fixtures that a job may have.
pub const MAX_FIXTURES: usize = 64;
