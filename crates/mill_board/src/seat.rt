ghost use Rattle.std.specs.Prelude.{◌≡◌};
ghost use Rattle.mill_board.specs.Seats.{carried_of};

use crate::rule::Pass;
use crate::work::Work;
use std::marker::Model;

/// A worker's access to a board. A seat that is dropped with a piece out loses that piece to the other
/// workers; closing the board makes it anew.
#[derive(Drop)]
pub struct Seat<W: Work> {
    pub(crate) pass: Pass<W>,
    pub(crate) ended: bool,
}

impl<W: Work> Model for Seat<W> {
    ghost use Rattle.mill_board.specs.Seats.{IsSeat, SeatShown};

    ghost Value = { SeatShown W };

    ghost view = { λ s. record { table = s.pass.table_id; view = s.pass.me.0 } };

    ghost invariant = { λ s. IsSeat s.ended s.pass.me.0 s.pass.me.1 };
}

impl<W: Work> Seat<W> {
    /// The seat as the board's table knows it, with its view and the slot that it has out.
    pub fn pass(&self) -> &Pass<W>
        ensures table { result.now.table_id ≡ self.now.table }
        ensures me { result.now.me ≡ (self.now.view, carried_of self.now.view.out) }
    {
        &self.pass
    }
}
