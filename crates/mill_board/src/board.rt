ghost use Rattle.std.specs.Prelude.{◌≡◌, ◌↔◌, ◌+◌, ◌^◌, ◌<◌, ◌≤◌, ◌++◌, [], ◌∷◌, true, IfOk, IfSome, IfNone, IsNone, IsSome, Some, None};
ghost use Rattle.mill_board.specs.Works.{HasSpans, IsFailure, IsTrueHeld, started};
ghost use Rattle.mill_board.specs.Seats.{FindsNone, IsFree, IsSeatOf, OnlySees, first_view, given_half, kept_half};
ghost use Rattle.mill_board.specs.Kept.{times};
ghost use Rattle.mill_board.specs.inner.Starts.{AreSpans, StartTrue, starts};

use crate::plays::{Drawing, Halving, Looking, Lowering, Putting};
use crate::rule::{BACK, CLAIM, LEAST, Shares, Slot};
use crate::seat::Seat;
use crate::turns::start;
use crate::view::View;
use crate::work::{Held, Terms, Work};
use atomic_table::{Refused, Table};
use mill_base::WantOfMemory;
use std::alloc::Global;
use std::marker::Model;

/// A table that workers share: a slot for each piece of the work, the number that is drawn next, the
/// least turn at which a piece is known to fail, and how many pieces came back.
#[derive(Drop)]
pub struct Board<W: Work> {
    pub(crate) pieces: u64,
    pub(crate) terms: Terms<W>,
    pub(crate) table: Table<Slot<W>, View<W>, Terms<W>, Shares<W>, Global>,
}

impl<W: Work> Model for Board<W> {
    ghost use Rattle.mill_board.specs.Seats.{BoardShown, IsBoard};

    ghost Value = { BoardShown W };

    ghost view = { λ b. record { table = b.table.shared.table_id; terms = b.terms } };

    ghost invariant = { λ b. IsBoard b.table.shared.table_id b.table.shared.key b.pieces b.terms };
}

impl<W: Work> Board<W> {
    /// A board with all pieces of the work in their slots, and its first seat. There are fewer than
    /// 2^32 pieces, and the turns of each lie under `turns`.
    pub fn new(
        alloc: Global,
        work: W,
        pieces: u64,
        turns: u64,
    ) -> Result<(Board<W>, Seat<W>), WantOfMemory>
        requires count { pieces ≡ W.means.pieces work }
        requires few { pieces < 2 ^ 32 }
        requires spans { HasSpans W.means work turns }
        ensures board { IfOk result (λ made. made.0.terms ≡ record { work = work; turns = turns }) }
        ensures table { IfOk result (λ made. made.1.table ≡ made.0.table) }
        ensures seat { IfOk result (λ made. made.1.view ≡ first_view made.0.terms) }
    {
        let slots = fresh_slots(alloc, &work, pieces)?;
        let terms = Terms { work, turns };
        let (table, pass) = match Table::new(alloc, &[0, turns, 0], slots, &terms) {
            Ok(made) => made,
            Err(Refused { slots: _ }) => return Err(WantOfMemory),
        };
        let board = Board {
            pieces,
            terms,
            table,
        };
        Ok((board, Seat { pass, ended: false }))
    }

    /// The table of the board's seats, under its rule, which holds between any two steps of theirs.
    pub fn table(&self) -> &Table<Slot<W>, View<W>, Terms<W>, Shares<W>, Global>
        ensures table { result.now.shared.table_id ≡ self.now.table }
        ensures told { result.now.shared.key ≡ self.now.terms }
    {
        &self.table
    }

    /// Draws the next number and takes the piece out of its slot, with no turn done; the seat has no
    /// piece out before. `None` exactly where that number is no piece's, and from then on. No other seat
    /// has drawn that number or will.
    pub fn draw(&self, seat: &mut Seat<W>) -> Option<Held<W::Piece>>
        requires { IsFree self.now seat.old }
        ensures table { seat.new.table ≡ seat.old.table }
        ensures held { IfSome result (IsTrueHeld W.means self.now.terms.work) }
        ensures untouched { IfSome result (λ held. held ≡ started W.means self.now.terms.work held.number) }
        ensures number { IfSome result (λ held. (held.number < W.means.pieces self.now.terms.work) × (times held.number seat.old.view.drawn ≡ 0)) }
        ensures drawn { IfSome result (λ held. seat.new.view ≡ record seat.old.view { drawn = seat.old.view.drawn ++ held.number ∷ []; out = Some held.number }) }
        ensures none { IfNone result (FindsNone W.means seat.old.view seat.new.view) }
        ensures ended { IsSome seat.old.view.ended → IsNone result }
        ensures exact { IsNone result ↔ IsSome seat.new.view.ended }
    {
        if seat.ended {
            return None;
        }
        let found = self
            .table
            .shared
            .fetch_add::<Drawing<W>>(&mut seat.pass, CLAIM, 1);
        if found >= self.pieces {
            seat.ended = true;
            return None;
        }
        self.table
            .shared
            .exchange(&mut seat.pass, found as usize, None)
    }

    /// Puts the piece that the seat has out back into its slot, as its turns have left it.
    pub fn put(&self, seat: &mut Seat<W>, held: Held<W::Piece>)
        requires seat { IsSeatOf self.now seat.old }
        requires out { seat.old.view.out ≡ Some held.number }
        requires held { IsTrueHeld W.means self.now.terms.work held }
        ensures table { seat.new.table ≡ seat.old.table }
        ensures view { seat.new.view ≡ record seat.old.view { out = None } }
    {
        let slot = held.number as usize;
        self.table.shared.exchange(&mut seat.pass, slot, Some(held));
        self.table
            .shared
            .fetch_add::<Putting<W>>(&mut seat.pass, BACK, 1);
    }

    /// The least turn at which a piece is known to fail, or the number of turns where none is. It isn't
    /// over what the seat has seen, and never under the least turn at which any piece fails.
    pub fn least(&self, seat: &mut Seat<W>) -> u64
        requires { IsSeatOf self.now seat.old }
        ensures seat { OnlySees seat.old seat.new }
        ensures seen { seat.new.view.seen ≡ result }
        ensures failure { IsFailure W.means self.now.terms result }
    {
        self.table.shared.load::<Looking<W>>(&mut seat.pass, LEAST)
    }

    /// Lowers the least turn to the one at which the piece that the seat has out has failed, where it
    /// isn't lower already, for all seats of the board to see.
    pub fn lower(&self, seat: &mut Seat<W>, held: &Held<W::Piece>)
        requires seat { IsSeatOf self.now seat.old }
        requires out { seat.old.view.out ≡ Some held.now.number }
        requires failed { held.now.failed ≡ true }
        requires held { IsTrueHeld W.means self.now.terms.work held.now }
        ensures seat { OnlySees seat.old seat.new }
        ensures seen { seat.new.view.seen ≤ held.now.next }
        ensures failure { IsFailure W.means self.now.terms seat.new.view.seen }
    {
        self.table
            .shared
            .fetch_min::<Lowering<W>>(&mut seat.pass, LEAST, held.next);
    }

    /// A seat for one worker more, with half of what this one has to spare. It has ended where this one
    /// has.
    pub fn split(&self, seat: &mut Seat<W>) -> Seat<W>
        requires seat { IsSeatOf self.now seat.old }
        requires spare { 2 ≤ seat.old.view.spare }
        ensures kept { seat.new ≡ record seat.old { view = kept_half seat.old.view } }
        ensures given { result ≡ record seat.old { view = given_half seat.old.view } }
    {
        let pass = self.table.shared.split_seat::<Halving<W>>(&mut seat.pass);
        Seat {
            pass,
            ended: seat.ended,
        }
    }
}

/// Each piece with no turn done, in the order of numbers.
fn fresh_slots<W: Work>(alloc: Global, work: &W, pieces: u64) -> Result<Vec<Slot<W>>, WantOfMemory>
    requires count { pieces ≡ W.means.pieces work.now }
    requires few { pieces < 2 ^ 32 }
    requires spans { AreSpans W.means work.now }
    ensures slots { IfOk result (λ slots. slots.items ≡ starts W.means work.now 0 pieces) }
    ensures are_true { IfOk result (λ slots. StartTrue W.means work.now pieces) }
{
    let mut slots = Vec::new(alloc);
    for number in 0..pieces {
        let held = start(alloc, work, number)?;
        slots.push(Some(held))?;
    }
    Ok(slots)
}
