ghost use Rattle.std.specs.Prelude.{◌≡◌};
ghost use Rattle.mill_sched.specs.Steps.{looked, look_outcome};

use crate::event::Outcome;

/// What a piece is given: its turns, from `first` on and under `limit`, and the one at which it fails,
/// if there is one.
#[derive(Clone, Copy)]
pub struct Task {
    pub first: u64,
    pub limit: u64,
    pub fails: Option<u64>,
}

/// How far a piece is: its next turn, or the one at which it has failed; and the worker that holds it,
/// where it isn't home.
#[derive(Clone, Copy)]
pub struct Piece {
    pub task: Task,
    pub next: u64,
    pub failed: bool,
    pub holder: Option<u32>,
}

impl Piece {
    /// Does the next turn, if it has to be done: a piece that hasn't failed does each of its turns that
    /// isn't over the least value.
    pub fn look(&mut self, least: u64) -> Outcome
        ensures piece { self.new ≡ looked least self.old }
        ensures outcome { result ≡ look_outcome least self.old }
    {
        if self.failed || self.task.limit <= self.next || least < self.next {
            return Outcome::Stopped;
        }
        match self.task.fails {
            Some(turn) if turn == self.next => {
                self.failed = true;
                Outcome::Failed
            }
            _ => {
                self.next += 1;
                Outcome::Passed
            }
        }
    }
}
