ghost use Rattle.std.specs.Prelude.{◌≡◌, ◌^◌, ◌<◌, ◌≤◌, false, IfOk, Some};
ghost use denote.Param.Send.{IsSync};
ghost use Rattle.mill_board.specs.Works.{HasSpans, IsClosed, IsTrueHeld};
ghost use Rattle.mill_board.specs.Seats.{IsFree, IsSeatOf, OnlySees};

use crate::board::Board;
use crate::close::Closed;
use crate::seat::Seat;
use crate::turns::move_on;
use crate::work::{Held, Work};
use mill_base::WantOfMemory;
use std::alloc::Global;
use std::thread::{Threads, join};

impl<W: Work> Board<W> {
    /// Does the turns of a held piece, up to its last or its failure, or while they aren't over the
    /// least turn. It looks at that before each turn that it does, and once before those that it goes
    /// over together. Where the piece fails it lowers it.
    pub(crate) fn advance(&self, seat: &mut Seat<W>, mut held: Held<W::Piece>) -> Held<W::Piece>
        requires seat { IsSeatOf self.now seat.old }
        requires out { seat.old.view.out ≡ Some held.number }
        requires held { IsTrueHeld W.means self.now.terms.work held }
        requires going { held.failed ≡ false }
        ensures seat { OnlySees seat.old seat.new }
        ensures held { IsTrueHeld W.means self.now.terms.work result }
        ensures number { result.number ≡ held.number }
    {
        let (_, limit) = self.terms.work.span(held.number);
        while held.next < limit && held.next <= self.least(seat) {
            move_on(&self.terms.work, &mut held, limit);
            if held.failed {
                self.lower(seat, &held);
                break;
            }
        }
        held
    }

    /// Draws pieces, does their turns and puts them back, until none is left. No seat draws more pieces
    /// than there are.
    fn serve(&self, seat: &mut Seat<W>)
        requires { IsFree self.now seat.old }
        ensures { IsFree self.now seat.new }
    {
        for _ in 0..self.pieces {
            let Some(held) = self.draw(seat) else {
                return;
            };
            let held = self.advance(seat, held);
            self.put(seat, held);
        }
    }
}

/// So many workers serve, each on a thread of its own, by halves of halves. Where there is none, or one,
/// this thread serves.
fn share<W: Work, R: Threads + Sync>(
    rt: &R,
    board: &Board<W>,
    mut seat: Seat<W>,
    workers: u32,
) -> Seat<W>
    requires seat { IsFree board.now seat }
    requires room { workers ≤ seat.view.spare }
    ensures { IsFree board.now result }
{
    if workers <= 1 {
        board.serve(&mut seat);
        return seat;
    }
    let few = workers / 2;
    let many = workers - few;
    let other = board.split(&mut seat);
    let (seat, _) = join(
        rt,
        move || -> Seat<W>
            requires sync { IsSync R.row × IsSync W.row }
            requires seat { IsFree board.now seat }
            requires room { many ≤ seat.view.spare }
            ensures { IsFree board.entry.now result }
        { share(rt, board, seat, many) },
        move || -> Seat<W>
            requires sync { IsSync R.row × IsSync W.row }
            requires seat { IsFree board.now other }
            requires room { few ≤ other.view.spare }
            ensures { IsFree board.entry.now result }
        { share(rt, board, other, few) },
    );
    seat
}

/// What the work comes to, by so many workers, each on a thread of its own; where there is none or one,
/// as by [`run_alone`]. There are fewer than 2^32 pieces, and the turns of each lie under `turns`. No
/// word of the answer depends on the workers: it is what one of them alone would give.
pub fn run_all<W: Work, R: Threads + Sync>(
    rt: &R,
    alloc: Global,
    work: W,
    pieces: u64,
    turns: u64,
    workers: u32,
) -> Result<Closed<W::Piece>, WantOfMemory>
    requires count { pieces ≡ W.means.pieces work }
    requires few { pieces < 2 ^ 32 }
    requires spans { HasSpans W.means work turns }
    ensures { IfOk result (λ closed. IsClosed W.means (record { work = work; turns = turns }) closed.least closed.pieces.items) }
{
    if workers <= 1 {
        return run_alone(alloc, work, pieces, turns);
    }
    let (board, seat) = Board::new(alloc, work, pieces, turns)?;
    let seat = share(rt, &board, seat, workers);
    board.close(alloc, seat)
}

/// What the work comes to, by this thread alone, and with no runtime: the answer of [`run_all`]. There are
/// fewer than 2^32 pieces, and the turns of each lie under `turns`.
pub fn run_alone<W: Work>(
    alloc: Global,
    work: W,
    pieces: u64,
    turns: u64,
) -> Result<Closed<W::Piece>, WantOfMemory>
    requires count { pieces ≡ W.means.pieces work }
    requires few { pieces < 2 ^ 32 }
    requires spans { HasSpans W.means work turns }
    ensures { IfOk result (λ closed. IsClosed W.means (record { work = work; turns = turns }) closed.least closed.pieces.items) }
{
    let (board, mut seat) = Board::new(alloc, work, pieces, turns)?;
    board.serve(&mut seat);
    board.close(alloc, seat)
}
