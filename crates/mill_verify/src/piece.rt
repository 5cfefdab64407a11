use crate::block::Block;
use mill_dexel::Row;

/// A piece of the tests, with its number among all pieces: some moves to be tested against the part
/// and the fixtures, or a row of the stock.
#[derive(Drop)]
pub enum Piece {
    Block { number: u64, block: Block },
    Stock { number: u64, row: Row },
}
