//! What stands in the rows of tables.
use mill_tables::{halves, with_lines};
use std::alloc::Global;
use std::process::Abort;
use std::test::Fail;

/// Looks that what is told of a row is what it wants.
pub(crate) fn same<R: Abort>(rt: &R, told: &str, wanted: &str, row: &str) {
    assert_eq!(rt; told, wanted, "{row}");
}

/// The text of a row `OLD => NEW => SAYS`, in which `\n` is a line's end, and what is said of it.
pub(crate) fn text_of_row<'a>(
    alloc: Global,
    from: &str,
    row: &'a str,
) -> Result<(String, &'a str), Fail> {
    let (old, rest) = halves(row)?;
    let (new, says) = halves(rest)?;
    let new = with_lines(alloc, new)?;
    Ok((from.replace(alloc, old, new.as_str())?, says))
}
