ghost use Rattle.std.specs.Prelude.{◌≡◌, IfOk};
ghost use Rattle.std.specs.List.{flat_map};
ghost use Rattle.mill_verify.specs.inner.Pieces.{row_in};

use crate::piece::Piece;
use mill_base::WantOfMemory;
use mill_board::Held;
use mill_dexel::Row;
use std::alloc::Global;

/// The rows of the stock that are among the pieces, in order.
pub fn rows_of(alloc: Global, pieces: Vec<Held<Piece>>) -> Result<Vec<Row>, WantOfMemory>
    ensures { IfOk result (λ rows. rows.items ≡ flat_map row_in pieces.items) }
{
    let mut rows = Vec::new(alloc);
    for held in pieces {
        if let Piece::Stock { number: _, row } = held.piece {
            rows.push(row)?;
        }
    }
    Ok(rows)
}
