ghost use Rattle.std.specs.Prelude.{◌≡◌, ◌<◌, ◌≤◌, [], length, min, if◌then◌else◌, false, true, vec_capacity, IfOk};
ghost use Rattle.std.specs.Slots.{IsFull, slots_items, slots_len};
ghost use Rattle.mill_board.specs.Works.{HasSpans, IsClosed, IsDone, IsFailure, IsThrough, IsTrueHeld};
ghost use Rattle.mill_board.specs.Seats.{IsSeatOf};
ghost use Rattle.mill_board.specs.inner.Closings.{HasTrue, HasTrueFrom, IsSound};

use crate::board::Board;
use crate::rule::{BACK, CLAIM, LEAST, Slot};
use crate::seat::Seat;
use crate::turns::{move_on, start};
use crate::work::{Held, Terms, Work};
use mill_base::WantOfMemory;
use std::alloc::Global;

/// What a work comes to.
#[derive(Drop)]
pub struct Closed<P> {
    /// The least turn at which a piece fails, or the number of turns where none does.
    pub least: u64,
    /// The pieces, in the order of their numbers. Each has done its turns up to the least one and that
    /// one too, or up to its own failure.
    pub pieces: Vec<Held<P>>,
}

impl<W: Work> Board<W> {
    /// Closes the board, which no other worker uses any more, and gives what the work comes to. A piece
    /// that came back and has nothing left to be done is kept as it is; any other is made anew, and its
    /// turns are done here. Where a piece is still out with a seat, every piece that was drawn is made
    /// anew. Where there isn't enough memory, the board is gone too.
    pub fn close(self, alloc: Global, seat: Seat<W>) -> Result<Closed<W::Piece>, WantOfMemory>
        requires { IsSeatOf self seat }
        ensures { IfOk result (λ closed. IsClosed W.means self.terms closed.least closed.pieces.items) }
    {
        let Board {
            pieces,
            terms,
            table,
        } = self;
        let room = Vec::with_capacity(alloc, pieces as usize)?;
        let Seat { pass, ended: _ } = seat;
        let closed = table.close_with(pass);
        let (claim, least, back) = (closed.word(CLAIM), closed.word(LEAST), closed.word(BACK));
        let slots = take_slots(closed, room);
        settle(
            alloc,
            &terms,
            slots,
            first_sound(claim, back, pieces),
            least,
        )
    }
}

/// The values of all slots, in order, in a list that has room for them.
fn take_slots<S: Drop>(mut closed: atomic_table::Closed<S, Global>, mut out: Vec<S>) -> Vec<S>
    requires full { IsFull closed.slots }
    requires empty { out.items ≡ [] }
    requires room { slots_len closed.slots ≤ vec_capacity out }
    ensures { result.items ≡ slots_items closed.slots }
{
    let mut i = 0;
    while i < closed.slot_count() {
        out.push_reserved(closed.take(i));
        i += 1;
    }
    closed.free();
    out
}

/// The number from which on each slot has its piece. Under the claim that is known only where as many
/// pieces came back as were drawn.
fn first_sound(claim: u64, back: u64, pieces: u64) -> u64
    ensures { IsSound claim back pieces result }
{
    if back == claim.min(pieces) { 0 } else { claim }
}

/// Each piece done up to the least turn at which any fails: the slots' from this number on where nothing
/// is left to be done for them, the others made anew.
fn settle<W: Work>(
    alloc: Global,
    terms: &Terms<W>,
    mut slots: Vec<Slot<W>>,
    from: u64,
    mut least: u64,
) -> Result<Closed<W::Piece>, WantOfMemory>
    requires spans { HasSpans W.means terms.now.work terms.now.turns }
    requires count { length slots.items ≡ W.means.pieces terms.now.work }
    requires slots { HasTrueFrom W.means terms.now.work from slots.items }
    requires least { IsFailure W.means terms.now least }
    ensures { IfOk result (λ closed. IsClosed W.means terms.now closed.least closed.pieces.items) }
{
    let mut pieces = Vec::new(alloc);
    for n in 0..slots.len() {
        let number = n as u64;
        let slot = slots[n].take();
        let held = finish(alloc, &terms.work, slot, number, from, least)?;
        least = least_with(&held, least);
        pieces.push(held)?;
    }
    Ok(Closed { least, pieces })
}

/// The lesser of this turn and the one at which the piece has failed, if it has.
fn least_with<P>(held: &Held<P>, least: u64) -> u64
    ensures { result ≡ (if held.now.failed then min least held.now.next else least) }
{
    if held.failed {
        least.min(held.next)
    } else {
        least
    }
}

/// The slot's piece where the slot can be relied on and nothing is left to be done for the piece, else
/// the piece made anew and done.
fn finish<W: Work>(
    alloc: Global,
    work: &W,
    slot: Slot<W>,
    number: u64,
    from: u64,
    least: u64,
) -> Result<Held<W::Piece>, WantOfMemory>
    requires number { number < W.means.pieces work.now }
    requires span { W.means.first work.now number ≤ W.means.limit work.now number }
    requires slot { from ≤ number → HasTrue W.means work.now number slot }
    ensures { IfOk result (IsDone W.means work.now least number) }
{
    if let Some(held) = slot {
        if from <= number && is_through(work, &held, least) {
            return Ok(held);
        }
    }
    make_anew(alloc, work, number, least)
}

/// Nothing is left to be done for a piece.
fn is_through<W: Work>(work: &W, held: &Held<W::Piece>, least: u64) -> bool
    requires { held.now.number < W.means.pieces work.now }
    ensures { result ≡ true → IsThrough W.means work.now least held.now }
{
    let (_, limit) = work.span(held.number);
    held.failed || limit <= held.next || least < held.next
}

/// The piece of this number, with its turns done up to the least one or its own failure.
fn make_anew<W: Work>(
    alloc: Global,
    work: &W,
    number: u64,
    least: u64,
) -> Result<Held<W::Piece>, WantOfMemory>
    requires number { number < W.means.pieces work.now }
    requires span { W.means.first work.now number ≤ W.means.limit work.now number }
    ensures { IfOk result (IsDone W.means work.now least number) }
{
    let (_, limit) = work.span(number);
    let mut held = start(alloc, work, number)?;
    while held.next < limit && held.next <= least {
        move_on(work, &mut held, limit);
        if held.failed {
            return Ok(held);
        }
    }
    Ok(held)
}
