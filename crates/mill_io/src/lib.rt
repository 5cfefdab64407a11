//! The outside of the program: stores of named files and sinks of bytes.
//!
//! It stands on mill_base. A [`Shelf`] and a [`Sink`] are traits with a written meaning: what they
//! hold, where they tell it, and how often they failed. [`read_whole`], [`Pieces`], [`store`] and
//! [`write_whole`] promise exactly the contents over each of them. Real files and standard output
//! tell no contents, and the shelf and the sink in memory tell all. The definitions are in `specs/`,
//! a module a subject.
#![tactic(auto)]

mod files;
mod log;
mod mem_shelf;
mod mem_sink;
mod pieces;
mod room;
mod script;
mod shelf;
mod storing;
mod whole;

pub use files::{FileShelf, StdSink};
pub use mem_shelf::{MemFile, MemShelf};
pub use mem_sink::MemSink;
pub use pieces::{PieceEnd, Pieces};
pub use shelf::{Failed, Shelf, Sink};
pub use storing::store;
pub use whole::{ReadEnd, read_whole, write_whole};
