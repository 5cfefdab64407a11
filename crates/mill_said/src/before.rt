//! What the lines before a line tell of it.

use mill_base::Unit;
use mill_control::{Cycle, Turn};

/// What the lines before a line have settled, as far as its words are read by it.
#[derive(Clone, Copy)]
pub struct Before {
    /// The number of the line, from 1.
    pub line: u64,
    /// The unit of the program's coordinates.
    pub unit: Unit,
    /// A line before had an axis word.
    pub positioned: bool,
    /// A line before had `G21`.
    pub millimetres: bool,
    /// Lengths are inches.
    pub inches: bool,
    /// The drilling cycle that is the motion mode.
    pub cycle: Option<Cycle>,
    /// The way round of the arcs that are the motion mode.
    pub turn: Option<Turn>,
}
