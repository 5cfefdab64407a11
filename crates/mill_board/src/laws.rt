ghost use Rattle.mill_board.specs.Laws.{OneOutcome};
ghost use Rattle.mill_board.specs.Rules.{DrawsAll, DrawsOnce, KeepsAll};
ghost use Rattle.mill_board.specs.Shows.{ShowsCore};
ghost use Rattle.mill_board.specs.Steps.{ShowsHeld, SplitsAddWorkers, StepsAreEvents, TurnsAreEvents};

use crate::rule::{Shares, Slot};
use crate::view::View;
use crate::work::{Terms, Work};
use atomic_table::TableRule;

/// A law: what a work comes to doesn't depend on who does it, or when. Two outcomes have one least turn,
/// the pieces that fail at it are the same, and where no piece fails, all are.
pub fn one_outcome<W: Work>()
    ensures { OneOutcome W.means }
{}

/// A law of the rule under which a board lends its table: between any two steps of the workers, over
/// every schedule and whatever seats there are, no number was drawn twice.
pub fn no_number_twice<W: Work>()
    ensures { DrawsOnce ⟦<Shares<W> as TableRule<Slot<W>, View<W>, Terms<W>>>⟧.holds }
{}

/// A law of that rule: the numbers that were drawn are the pieces' under the claim.
pub fn numbers_under_the_claim<W: Work>()
    ensures { DrawsAll W.means ⟦<Shares<W> as TableRule<Slot<W>, View<W>, Terms<W>>>⟧.holds }
{}

/// A law of that rule: it has all that `specs/Kept` says of the numbers, the least turn, the slots and
/// what the seats have to spare.
pub fn keeps_all<W: Work>()
    ensures { KeepsAll W.means ⟦<Shares<W> as TableRule<Slot<W>, View<W>, Terms<W>>>⟧.holds }
{}

/// A law of that rule: between any two steps of the workers the table shows a state of the machine of
/// events that mill_sched describes, with its workers and pieces placed and its pieces on their turns.
pub fn shows_core<W: Work>()
    ensures { ShowsCore W.means ⟦<Shares<W> as TableRule<Slot<W>, View<W>, Terms<W>>>⟧.holds }
{}

/// A law of that rule: whatever state of the machine the table shows, a step of a seat is one event of
/// its worker, since what the table shows then is the state that the event leaves. A worker that lowers
/// the least turn or puts its piece back holds the piece in the machine as far as it is.
///
/// A rule is of one state of a table, so no clause says that a seat makes no other steps. And the events
/// make no one run: `put` takes a piece that was gone over turns past the least one, and the machine does
/// no turn past that.
pub fn steps_are_events<W: Work>()
    ensures { StepsAreEvents W.means ⟦<Shares<W> as TableRule<Slot<W>, View<W>, Terms<W>>>⟧.holds }
{}

/// A law of that rule: what a worker does between two steps of its seat is an event each that the table
/// doesn't show.
pub fn turns_are_events<W: Work>()
    ensures { TurnsAreEvents W.means ⟦<Shares<W> as TableRule<Slot<W>, View<W>, Terms<W>>>⟧.holds }
{}

/// A law of that rule: the table shows a state of the machine in which a worker holds the piece that its
/// seat has out, as far as it is.
pub fn shows_held<W: Work>()
    ensures { ShowsHeld W.means ⟦<Shares<W> as TableRule<Slot<W>, View<W>, Terms<W>>>⟧.holds }
{}

/// A law of that rule: a seat that is split makes one worker more in the state that the table shows.
pub fn splits_add_workers<W: Work>()
    ensures { SplitsAddWorkers W.means ⟦<Shares<W> as TableRule<Slot<W>, View<W>, Terms<W>>>⟧.holds }
{}
