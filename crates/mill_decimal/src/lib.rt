//! Decimal texts of millimetres, read to whole units of 0.01 mm or 0.001 mm and written back.
//!
//! It stands on mill_base, `itoa` and `thiserror`, and takes no memory. It promises that a text is
//! read to exactly the units that it stands for, or refused with the first of its faults, and that
//! what is written reads back. `specs/Spelling` says how a decimal is spelled, `specs/Decimals`
//! what it means and what the canonical form of a number is, and `specs/Shorts` what the form stands
//! for in which a short decimal is split.
#![tactic(auto)]

mod digits;
mod exponent;
mod fault;
mod number_text;
mod reading;
mod round_trip;
mod rounding;
mod scaled;
mod short;
mod snap;
mod writing;

pub use fault::DecFault;
pub use number_text::NumText;
pub use reading::{Reading, read_decimal, read_with_rounding, was_rounded};
pub use round_trip::written_reads_back;
pub use snap::Snap;
pub use writing::write_decimal;
