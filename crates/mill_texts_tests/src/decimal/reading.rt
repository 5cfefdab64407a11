// Numbers that are read. A row has a text, and behind `=>` what it's read as.
use crate::tables::same;
use mill_base::Unit;
use mill_decimal::{Snap, read_decimal, was_rounded};
use mill_tables::halves;
use std::alloc::Global;
use std::process::Abort;
use std::test::Fail;

// What a text is read as to the nearest, and whether it was rounded.
fn told_nearest(alloc: Global, text: &str, unit: Unit) -> Result<String, Fail> {
    let read = read_decimal(text.as_bytes(), Snap::Nearest, unit);
    let rounded = was_rounded(text.as_bytes(), unit);
    Ok(format!(in alloc; "{read:?} {rounded}")?)
}

fn tells_nearest<R: Abort>(rt: &R, alloc: Global, unit: Unit, row: &str) -> Result<(), Fail> {
    let (text, wanted) = halves(row)?;
    same(rt, &told_nearest(alloc, text, unit)?, wanted, row);
    Ok(())
}

fn told_exactly(alloc: Global, text: &str, unit: Unit) -> Result<String, Fail> {
    let read = read_decimal(text.as_bytes(), Snap::Exact, unit);
    Ok(format!(in alloc; "{read:?}")?)
}

fn tells_exactly<R: Abort>(rt: &R, alloc: Global, unit: Unit, row: &str) -> Result<(), Fail> {
    let (text, wanted) = halves(row)?;
    same(rt, &told_exactly(alloc, text, unit)?, wanted, row);
    Ok(())
}

const NEAREST: &str = "\
0 => Ok(0) false
-0 => Ok(0) false
+2.5 => Ok(250) false
007.5 => Ok(750) false
.5 => Ok(50) false
1. => Ok(100) false
-1310.71 => Ok(-131071) false
1.250000e+01 => Ok(1250) false
125E-1 => Ok(1250) false
-0.005 => Ok(-1) true
0.0049999 => Ok(0) true
1310.71 => Ok(131071) false
1310.714999 => Ok(131071) true
1310.715 => Err(OutOfRange) false
1e999 => Err(OutOfRange) false
1e-999 => Ok(0) true
0e999 => Ok(0) false
000000000000000000000001 => Ok(100) false
0.000000000000000000000000 => Err(TooManyDigits) false
1e => Err(Spelling) false
1e1000 => Err(Spelling) false
. => Err(Spelling) false
1.5  => Err(Spelling) false
 => Err(Spelling) false";

#[test]
fn reads_to_the_nearest(rt: HostRuntime) -> Result<(), Fail> {
    for row in NEAREST.lines() {
        tells_nearest(&rt, rt.alloc(), Unit::Hundredth, row)?;
    }
    Ok(())
}

const EXACT: &str = "\
1.250000e+01 => Ok(1250)
0.005 => Err(OffGrid)
1310.715 => Err(OffGrid)
1310.72 => Err(OutOfRange)
0e-999 => Ok(0)
1e-999 => Err(OffGrid)";

#[test]
fn reads_exactly(rt: HostRuntime) -> Result<(), Fail> {
    for row in EXACT.lines() {
        tells_exactly(&rt, rt.alloc(), Unit::Hundredth, row)?;
    }
    Ok(())
}

const NEAREST_THOUSANDTHS: &str = "\
0 => Ok(0) false
+2.5 => Ok(2500) false
-7.025 => Ok(-7025) false
1.250000e+01 => Ok(12500) false
1.2505 => Ok(1251) true
-0.0005 => Ok(-1) true
0.00049999 => Ok(0) true
524.287 => Ok(524287) false
524.2874999 => Ok(524287) true
524.2875 => Err(OutOfRange) false
9999999999999999 => Err(OutOfRange) false
5242875e-4 => Err(OutOfRange) false
1e-999 => Ok(0) true
1e => Err(Spelling) false";

#[test]
fn reads_thousandths_to_the_nearest(rt: HostRuntime) -> Result<(), Fail> {
    for row in NEAREST_THOUSANDTHS.lines() {
        tells_nearest(&rt, rt.alloc(), Unit::Thousandth, row)?;
    }
    Ok(())
}

const EXACT_THOUSANDTHS: &str = "\
12.345 => Ok(12345)
12.3450 => Ok(12345)
12.3455 => Err(OffGrid)
524.288 => Err(OutOfRange)
1e-3 => Ok(1)";

#[test]
fn reads_thousandths_exactly(rt: HostRuntime) -> Result<(), Fail> {
    for row in EXACT_THOUSANDTHS.lines() {
        tells_exactly(&rt, rt.alloc(), Unit::Thousandth, row)?;
    }
    Ok(())
}
