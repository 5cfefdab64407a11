use crate::view::View;
use crate::work::{Held, Terms, Work};
use atomic_table::{Seat, TableRule};
use std::marker::PhantomData;

/// The word of the number that is drawn next.
pub const CLAIM: usize = 0;

/// The word of the least turn at which a piece is known to fail.
pub const LEAST: usize = 1;

/// The word that counts the pieces that came back.
pub const BACK: usize = 2;

/// A slot of the table: the piece of its number, or nothing where a seat has it out.
pub type Slot<W> = Option<Held<<W as Work>::Piece>>;

/// A seat as the table knows it.
pub type Pass<W> = Seat<Slot<W>, View<W>>;

/// The rule of a board's table: what holds between any two steps of its seats, whatever the schedule.
pub struct Shares<W> {
    of: PhantomData<W>,
}

impl<W: Work> TableRule<Slot<W>, View<W>, Terms<W>> for Shares<W> {
    ghost use Rattle.mill_board.specs.Seats.{first_view};
    ghost use Rattle.mill_board.specs.Kept.{Kept};

    ghost holds = { Kept W.means };

    ghost first = { first_view };
}
