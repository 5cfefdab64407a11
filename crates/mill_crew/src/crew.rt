ghost use Rattle.std.specs.Prelude.{◌≤◌, ⊤};
ghost use Rattle.mill_base.specs.declared.limits.TheConstants.{MAX_WORKERS as MOST};
ghost use denote.Param.Send.{IsSync};

use mill_base::MAX_WORKERS;
use std::thread::Threads;

/// Who does the parts of a work that don't wait for one another: threads of a runtime ([`Threaded`]), or the
/// calling thread alone ([`Alone`]). What is made doesn't depend on it.
pub trait Crew {
    /// What a crew asks of its threads: that they may share the runtime, as its bound says; and nothing
    /// where there is one thread.
    ghost ready: { Type 0 };

    /// How many share a work at most, from 1 to [`MAX_WORKERS`].
    fn workers(&self) -> u32
        ensures some { 1 ≤ result }
        ensures few { result ≤ MOST };
}

/// Threads of a runtime.
#[derive(Drop)]
pub struct Threaded<'a, R: Threads + Sync> {
    /// The runtime.
    pub rt: &'a R,
    /// How many share a work: 0 counts as 1, and more than [`MAX_WORKERS`] as so many. A list of values that
    /// don't wait for one another goes to as many as the machine has processors.
    pub workers: u32,
}

/// The calling thread alone: it starts no other.
#[derive(Clone, Copy, Debug, PartialEq, Eq)]
pub struct Alone;

impl<'a, R: Threads + Sync> Crew for Threaded<'a, R> {
    ghost ready = { IsSync R.row };

    fn workers(&self) -> u32 {
        self.workers.clamp(1, MAX_WORKERS)
    }
}

impl Crew for Alone {
    ghost ready = { ⊤ };

    fn workers(&self) -> u32 {
        1
    }
}
