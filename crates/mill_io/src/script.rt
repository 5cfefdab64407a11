ghost use Rattle.std.specs.Prelude.{◌≡◌, IfOk};

use mill_base::WantOfMemory;
use std::alloc::Global;

/// Which calls of an object are to fail, by their numbers from 0.
#[derive(Drop)]
pub(crate) struct Script {
    fails: Vec<u64>,
    calls: u64,
}

impl Script {
    ghost use Rattle.mill_io.specs.Memory.{IsFresh, CountsCall, is_next_listed};

    /// No call was made yet.
    pub(crate) fn new(alloc: Global, fails: &[u64]) -> Result<Script, WantOfMemory>
        ensures { IfOk result (IsFresh fails.now) }
    {
        Ok(Script {
            fails: Vec::from_slice(alloc, fails)?,
            calls: 0,
        })
    }

    /// Counts a call, and says whether it is to fail.
    pub(crate) fn fails_now(&mut self) -> bool
        ensures fails { result ≡ is_next_listed self.old }
        ensures counts { CountsCall self.old self.new }
    {
        let fails = self.fails.contains(&self.calls);
        self.calls = self.calls.saturating_add(1);
        fails
    }
}
