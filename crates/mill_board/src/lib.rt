//! A board from which threads share numbered pieces of work, with no lock.
//!
//! It stands on atomic_table, whose steps are single accesses to shared memory, so no call waits; on
//! mill_base, and in laws on mill_sched. `run_all`, and `run_alone` on the caller's thread, come to one
//! outcome, whoever does what: the least turn at which a piece fails, and each piece done up to there
//! (`specs/Works`, `specs/Laws`). Turns that are known to pass may be gone over many at once. A board
//! lends its table under the rule that holds between any two steps (`Shares`, `specs/Kept`): no number
//! is drawn twice (`specs/Rules`), the table shows a state of mill_sched's machine (`specs/Shows`), and
//! each step of a seat is one of its events (`specs/Steps`). `specs/Seats` is what a worker sees.
#![tactic(auto)]

mod board;
mod close;
mod laws;
mod plays;
mod rule;
mod seat;
mod turns;
mod view;
mod work;
mod workers;

pub use board::Board;
pub use close::Closed;
pub use laws::{
    keeps_all, no_number_twice, numbers_under_the_claim, one_outcome, shows_core, shows_held,
    splits_add_workers, steps_are_events, turns_are_events,
};
pub use rule::{Pass, Shares, Slot};
pub use seat::Seat;
pub use view::View;
pub use work::{Held, Terms, Work};
pub use workers::{run_all, run_alone};
