//! Several seats on one thread.
ghost use Rattle.std.specs.Prelude.{◌≡◌, ◌≤◌, ℕ, false, true, Some, IfOk};
ghost use Rattle.mill_board.specs.Seats.{IsFree, IsSeatOf, OnlySees};
ghost use Rattle.mill_board.specs.Works.{IsTrueHeld};

use crate::runs::{Run, Runs, TURNS, Watch, told_closed};
use mill_board::{Board, Closed, Held, Seat, Work};
use std::process::Abort;
use std::test::Fail;

/// Does the turns of a held piece under this one, up to its failure.
fn done<W: Work>(work: &W, mut held: Held<W::Piece>, limit: u64) -> Held<W::Piece>
    requires held { IsTrueHeld W.means work.now held }
    requires going { held.failed ≡ false }
    requires limit { limit ≤ W.means.limit work.now held.number }
    ensures held { IsTrueHeld W.means work.now result }
    ensures number { result.number ≡ held.number }
{
    while held.next < limit {
        if !work.turn(&mut held.piece, held.next) {
            held.failed = true;
            return held;
        }
        held.next += 1;
    }
    held
}

/// Draws the next piece, does its turns under this one, up to its failure, and lowers the least turn to that.
fn drawn_and_done<W: Work>(
    board: &Board<W>,
    work: &W,
    seat: &mut Seat<W>,
    limit: u64,
) -> Result<Held<W::Piece>, Fail>
    requires seat { IsFree board.now seat.old }
    requires work { work.now ≡ board.now.terms.work }
    requires limit { (n : ℕ) → limit ≤ W.means.limit work.now n }
    ensures seat { IsSeatOf board.now seat.new }
    ensures spare { seat.new.view.spare ≡ seat.old.view.spare }
    ensures held { IfOk result (IsTrueHeld W.means work.now) }
    ensures out { IfOk result (λ held. seat.new.view.out ≡ Some held.number) }
{
    let held = board.draw(seat).ok_or("no piece is left")?;
    let held = done(work, held, limit);
    if held.failed {
        board.lower(seat, &held);
    }
    Ok(held)
}

/// Looks at the least turn that a seat sees.
fn look_at_least<W: Work, R: Abort>(rt: &R, board: &Board<W>, seat: &mut Seat<W>, wanted: u64)
    requires { IsSeatOf board.now seat.old }
    ensures { OnlySees seat.old seat.new }
{
    let least = board.least(seat);
    assert_eq!(rt; least, wanted);
}

/// Looks that a seat has no piece to draw.
fn look_at_end<W: Work, R: Abort>(rt: &R, board: &Board<W>, seat: &mut Seat<W>)
    requires { IsFree board.now seat.old }
    ensures free { IsFree board.now seat.new }
    ensures spare { seat.new.view.spare ≡ seat.old.view.spare }
{
    let held = board.draw(seat);
    assert!(rt; held.is_none());
}

/// Looks at what a work has come to.
fn look<R: Abort + AllocGlobal>(
    rt: &R,
    watch: &Watch,
    closed: &Closed<Run>,
    wanted: &str,
) -> Result<(), Fail> {
    let told = told_closed(rt.alloc(), watch, closed, TURNS)?;
    assert_eq!(rt; told.as_str(), wanted);
    Ok(())
}

// What one seat lowers, the other sees. Number 2 isn't drawn: it alone is made anew, and its turns are done.
#[test]
fn a_seat_sees_what_another_lowered(rt: HostRuntime) -> Result<(), Fail> {
    let watch = Watch::new(false);
    let work = Runs {
        fails: &[5, 9, 5],
        watch: &watch,
        leap: 0,
    };
    let (board, mut one) = Board::new(rt.alloc(), work, 3, TURNS)?;
    let mut two = board.split(&mut one);
    look_at_least(&rt, &board, &mut two, TURNS);
    let first = drawn_and_done(&board, &work, &mut one, TURNS)?;
    look_at_least(&rt, &board, &mut two, 5);
    let second = drawn_and_done(&board, &work, &mut two, 6)?;
    board.put(&mut one, first);
    board.put(&mut two, second);
    let closed = board.close(rt.alloc(), two)?;
    look(
        &rt,
        &watch,
        &closed,
        "made 4, least 5, 5 failed, 6 going, 5 failed",
    )
}

// A seat is dropped with a piece out: each piece that was drawn is made anew, and the answer is the same.
#[test]
fn a_lost_piece_is_made_anew(rt: HostRuntime) -> Result<(), Fail> {
    let watch = Watch::new(false);
    let work = Runs {
        fails: &[5, 9, 5],
        watch: &watch,
        leap: 0,
    };
    let (board, mut one) = Board::new(rt.alloc(), work, 3, TURNS)?;
    let mut two = board.split(&mut one);
    let kept = drawn_and_done(&board, &work, &mut one, TURNS)?;
    board.put(&mut one, kept);
    let _lost = board.draw(&mut two);
    drop(two);
    let closed = board.close(rt.alloc(), one)?;
    look(
        &rt,
        &watch,
        &closed,
        "made 6, least 5, 5 failed, 6 going, 5 failed",
    )
}

// A seat that found no piece left has ended, and so has one that is split from it.
#[test]
fn an_ended_seat_draws_no_more(rt: HostRuntime) -> Result<(), Fail> {
    let watch = Watch::new(false);
    let work = Runs {
        fails: &[TURNS],
        watch: &watch,
        leap: 0,
    };
    let (board, mut one) = Board::new(rt.alloc(), work, 1, TURNS)?;
    let held = board.draw(&mut one).ok_or("no piece is left")?;
    board.put(&mut one, held);
    look_at_end(&rt, &board, &mut one);
    let mut two = board.split(&mut one);
    look_at_end(&rt, &board, &mut two);
    let closed = board.close(rt.alloc(), two)?;
    look(&rt, &watch, &closed, "made 2, least 10, 10 going")
}

// The table that a board lends has its three words and a slot for each piece.
#[test]
fn a_board_lends_its_table(rt: HostRuntime) -> Result<(), Fail> {
    let watch = Watch::new(false);
    let work = Runs {
        fails: &[5, 9, 5],
        watch: &watch,
        leap: 0,
    };
    let (board, seat) = Board::new(rt.alloc(), work, 3, TURNS)?;
    let table = board.table();
    assert_eq!(rt; (table.word_count(), table.slot_count()), (3, 3));
    let _pass = seat.pass();
    Ok(())
}
