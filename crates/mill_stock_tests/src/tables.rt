//! The jobs of the tables, and what is told of their rows.
use mill_job::Job;
use mill_sweep::Leaf;
use mill_tables::job_by;
use std::alloc::Global;
use std::process::Abort;
use std::test::Fail;

/// Looks that what is told of a row is what it wants.
pub(crate) fn same<R: Abort>(rt: &R, told: &str, wanted: &str, row: &str) {
    assert_eq!(rt; told, wanted, "{row}");
}

/// One row of three columns at x = 0, 100 and 200, from 0 to 300.
const THREE_COLUMNS: &str = "cutter = 'flat'; radius = 150; floor = 0; top = 300; clear = 400; \
    area = [0, 0, 200, 0]; home = [0, 0]; pitch = 100; sample = 100; allowance = 0; band = 0";

/// One row of 41 columns, 5 apart, from 0 to 300, sampled at least every 50.
const LONG_ROW: &str = "floor = 0; top = 300; clear = 400; area = [0, 0, 200, 0]; home = [0, 0]; \
    pitch = 5; sample = 50; allowance = 0; band = 0";

/// Stock over the whole range in thousandths: 105 rows of 105 columns, 10,000 apart.
const WHOLE_RANGE: &str = "unit = 'thousandth'; floor = -524287; top = 524287; clear = 524287; \
    area = [-524287, -524287, 524287, 524287]; home = [-524287, -524287]; pitch = 10000; \
    sample = 10000; allowance = 0; band = 0";

/// Five rows, at y = 0, 100, 200, 300 and 400, of three columns each, from 0 to 300.
const FIVE_ROWS: &str = "cutter = 'flat'; radius = 150; floor = 0; top = 300; clear = 400; \
    area = [0, 0, 200, 400]; home = [0, 0]; pitch = 100; sample = 100; allowance = 0; band = 0";

/// Seven rows, at y = 0, 100 and so on up to 600, of three columns each, from 0 to 300.
const SEVEN_ROWS: &str = "cutter = 'flat'; radius = 150; floor = 0; top = 300; clear = 400; \
    area = [0, 0, 200, 600]; home = [0, 0]; pitch = 100; sample = 100; allowance = 0; band = 0";

/// A stock from 0 to 300 in height.
const BLOCK: &str =
    "cutter = 'flat'; radius = 150; floor = 0; top = 300; clear = 400; home = [0, 0]; \
    sample = 100; allowance = 0; band = 0";

/// The keys of a job by its name.
fn keys_of(name: &str) -> Result<&'static str, Fail> {
    match name {
        "three" => Ok(THREE_COLUMNS),
        "long" => Ok(LONG_ROW),
        "whole" => Ok(WHOLE_RANGE),
        "five" => Ok(FIVE_ROWS),
        "seven" => Ok(SEVEN_ROWS),
        "block" => Ok(BLOCK),
        _ => Err(Fail::from("no such job")),
    }
}

/// A job by its name and more keys, with a semicolon between them.
pub(crate) fn job(alloc: Global, text: &str) -> Result<Job, Fail> {
    let (name, more) = text.split_once(' ').unwrap_or((text, ""));
    job_by(alloc, keys_of(name)?, more)
}

/// A column and the part of a move at which it stops the move.
pub(crate) fn told_stop(alloc: Global, stop: Option<(u32, Leaf)>) -> Result<String, Fail> {
    match stop {
        None => Ok(format!(in alloc; "none")?),
        Some((column, Leaf { d, k })) => Ok(format!(in alloc; "column {column} at {d} {k}")?),
    }
}
