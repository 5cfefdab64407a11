//! What stands in the rows of tables.
use mill_sweep::Leaf;
use mill_tables::first_word;
use std::test::Fail;

/// The part of a move at which it is stopped, or `none`.
pub(crate) fn leaf(text: &str) -> Result<Option<Leaf>, Fail> {
    if text == "none" {
        return Ok(None);
    }
    let (d, k) = first_word(text)?;
    Ok(Some(Leaf {
        d: d.parse()?,
        k: k.parse()?,
    }))
}
