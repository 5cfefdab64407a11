//! The document that a report is printed as: what it tells of each finding, as one line of JSON.
//!
//! It stands on `mill_report` for the findings, on `mill_ngc` for the lines of the program, on
//! `mill_decimal` for lengths, and on the kit's `serde_json` and `hex`. `failing_values` and
//! `left_values` make the items of its two lists, `tops_met` the tops of the columns in the way,
//! and `report_text` and `fault_text` the whole document. It promises that the text is exactly the
//! compact one of the data that its definitions give, with a line feed behind it, and no float in
//! it. Definitions: `specs/Details`, what is told of a finding, and `specs/Documents`, as which
//! data.
#![tactic(auto)]

mod detail;
mod failure;
mod list;
mod met;
mod numbers;
mod report;
mod segment;
mod values;

pub use list::{failing_values, left_values};
pub use met::tops_met;
pub use report::{Summary, Sums, fault_text, report_text};
