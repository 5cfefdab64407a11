//! What stands in the rows of tables.
use mill_tables::with_bytes;
use std::alloc::Global;
use std::process::Abort;
use std::test::Fail;

/// Looks that what is told of a row is what it wants.
pub(crate) fn same<R: Abort>(rt: &R, told: &str, wanted: &str, row: &str) {
    assert_eq!(rt; told, wanted, "{row}");
}

const BLANKS: &str =
    "                                                                                ";

/// A text in which `\n`, `\r` and `\t` stand for the byte, and `_` for 80 blanks.
pub(crate) fn with_blanks(alloc: Global, text: &str) -> Result<String, Fail> {
    let text = with_bytes(alloc, text)?;
    Ok(text.replace(alloc, '_', BLANKS)?)
}
