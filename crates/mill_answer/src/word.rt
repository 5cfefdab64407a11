use mill_base::Unit;

/// One word of a line.
#[derive(Clone, Copy, Debug)]
pub enum Word<'a> {
    /// These bytes, as they are.
    Text(&'a [u8]),
    /// A whole number, in decimal.
    Number(u64),
    /// A length of so many units, in millimetres, as `mill_decimal` writes it.
    Length(i32, Unit),
}
