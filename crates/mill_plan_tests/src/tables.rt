//! The jobs of the tables, and a look at what is said of a row.
use mill_job::Job;
use mill_tables::job_by;
use std::alloc::Global;
use std::process::Abort;
use std::test::Fail;

/// A block from 0 to 300 over a square of 300, and sixteen columns and finishing nodes in it.
const SQUARE: &str = "cutter = 'flat'; radius = 100; floor = 0; top = 300; clear = 400; \
    area = [0, 0, 300, 300]; home = [0, 0]; pitch = 100; sample = 50; allowance = 0; band = 0";

/// A block from 0 to 300 over a square of 4,000.
const FINE: &str = "cutter = 'flat'; radius = 100; floor = 0; top = 300; clear = 400; \
    area = [0, 0, 4000, 4000]; home = [0, 0]; pitch = 100; sample = 50; allowance = 0; band = 0";

/// A block from 0 to 400 over a square of 1,000, and 121 columns and finishing nodes in it.
const WIDE: &str = "cutter = 'flat'; radius = 100; floor = 0; top = 400; clear = 400; \
    area = [0, 0, 1000, 1000]; home = [0, 0]; pitch = 100; sample = 50; allowance = 50; band = 0";

/// A block from 0 to 300 over a square of 200, nine columns and finishing nodes in it, and a cutter that
/// reaches the nodes next to its own, also across.
const SHALLOW: &str = "cutter = 'flat'; radius = 150; floor = 0; top = 300; clear = 400; \
    area = [0, 0, 200, 200]; home = [100, 100]; pitch = 100; sample = 50; allowance = 0; band = 0";

/// A block of 0.3 mm over a square of 0.005 mm, in thousandths, farther out than hundredths reach, and
/// four columns and finishing nodes in it.
const FAR: &str =
    "unit = 'thousandth'; cutter = 'flat'; radius = 100; floor = 0; top = 300; clear = 405; \
    area = [200000, 0, 200005, 5]; home = [200000, 0]; pitch = 5; sample = 5; allowance = 0; band = 0";

/// A block from 0 to 400 over a square of 2,000, and a flat cutter.
const LEVEL: &str =
    "cutter = 'flat'; floor = 0; top = 400; clear = 400; area = [0, 0, 2000, 2000]; \
    home = [0, 0]; pitch = 100; sample = 50; allowance = 50; band = 0; rough_raster = 100";

/// The stock is 400 high, and the cutter starts over (-300, 0) at 500.
const POST: &str = "cutter = 'flat'; radius = 100; floor = 0; top = 400; clear = 500; \
    area = [-300, -300, 300, 300]; home = [-300, 0]; pitch = 100; sample = 100; allowance = 0; band = 0; \
    raster = 100; rough_raster = 200";

/// The job over the sample part of size 1: nine finishing nodes 50 apart, and four roughing nodes.
const SAMPLE: &str = "cutter = 'ball'; radius = 100; floor = 0; top = 200; clear = 300; \
    area = [0, 0, 100, 100]; home = [0, 0]; pitch = 50; sample = 50; allowance = 40; band = 0; \
    raster = 50; rough_raster = 100; layer = 50";

/// A block from 0 to 300 over a strip of 200 by 100, fifteen columns and finishing nodes in it.
/// A row says how much of them may be left.
const STRIP: &str = "cutter = 'flat'; radius = 40; floor = 0; top = 300; clear = 400; \
    area = [0, 0, 200, 100]; home = [0, 0]; pitch = 50; sample = 50; band = 0";

/// Whether a text is the wanted one, or begins and ends as is wanted, with ` .. ` between the two.
fn is_so(said: &str, wanted: &str) -> bool {
    match wanted.split_once(" .. ") {
        Some((start, end)) => said.starts_with(start) && said.ends_with(end),
        None => said == wanted,
    }
}

/// Looks at what is said of a row.
pub(crate) fn same<R: Abort>(rt: &R, said: &str, wanted: &str, row: &str) {
    assert!(rt; is_so(said, wanted), "{row}: {said}");
}

/// The keys of a job by its name.
fn keys_of(name: &str) -> Result<&'static str, Fail> {
    match name {
        "square" => Ok(SQUARE),
        "fine" => Ok(FINE),
        "wide" => Ok(WIDE),
        "shallow" => Ok(SHALLOW),
        "far" => Ok(FAR),
        "level" => Ok(LEVEL),
        "post" => Ok(POST),
        "sample" => Ok(SAMPLE),
        "strip" => Ok(STRIP),
        _ => Err(Fail::from("no such job")),
    }
}

/// A job by its name and more keys, with a semicolon between them.
pub(crate) fn job(alloc: Global, text: &str) -> Result<Job, Fail> {
    let (name, more) = text.split_once(' ').unwrap_or((text, ""));
    job_by(alloc, keys_of(name)?, more)
}
