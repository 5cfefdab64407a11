ghost use Rattle.std.specs.Prelude.{◌≡◌, ◌<◌, ◌≤◌, [], Some, length, take, is_err, IfOk, OnErr};
ghost use Rattle.mill_io.specs.Memory.{IsFresh, CountsCall, sink_capacity, sink_script, sink_takes, sink_view, write_fails};
ghost use Rattle.mill_io.specs.Views.{IsWritten, IsPartWritten};

use crate::room::Room;
use crate::script::Script;
use crate::{Failed, Sink};
use mill_base::WantOfMemory;
use std::alloc::Global;

/// A sink in memory, which tells all that was written.
#[derive(Drop)]
pub struct MemSink {
    out: Room,
    script: Script,
    faults: u64,
}

impl MemSink {
    /// A sink with room for `capacity` bytes, taken now.
    ///
    /// The writes whose numbers are listed fail, counted from 0, and so does one of a piece that
    /// isn't empty and finds no room left. The only error is that there is no memory.
    pub fn new(alloc: Global, capacity: usize, fails: &[u64]) -> Result<MemSink, WantOfMemory>
        ensures written { IfOk result (λ s. (⟦<MemSink as Sink>⟧.shows s).written ≡ Some []) }
        ensures faults { IfOk result (λ s. (⟦<MemSink as Sink>⟧.shows s).faults ≡ 0) }
        ensures capacity { IfOk result (λ s. sink_capacity s ≡ capacity) }
        ensures script { IfOk result (λ s. IsFresh fails.now (sink_script s)) }
    {
        Ok(MemSink {
            out: Room::new(alloc, capacity)?,
            script: Script::new(alloc, fails)?,
            faults: 0,
        })
    }

    /// All bytes that were written.
    pub fn written(&self) -> &[u8]
        ensures { (⟦<MemSink as Sink>⟧.shows self.now).written ≡ Some result.now }
    {
        self.out.bytes()
    }
}

impl Sink for MemSink {
    ghost shows = { sink_view };

    fn write(&mut self, bytes: &[u8]) -> Result<usize, Failed>
        ensures within { IfOk result (λ n. n ≤ length bytes.now) }
        ensures some { 0 < length bytes.now → IfOk result (λ n. 0 < n) }
        ensures written { IfOk result (λ n.
            IsWritten (take n bytes.now) (sink_view self.old) (sink_view self.new)) }
        ensures part { OnErr result (
            IsPartWritten bytes.now (sink_view self.old) (sink_view self.new)) }

        // How much is taken, which writes fail, and that each is counted.
        ensures takes { IfOk result (λ n. n ≡ sink_takes self.old bytes.now) }
        ensures capacity { sink_capacity self.new ≡ sink_capacity self.old }
        ensures fails { is_err result ≡ write_fails self.old bytes.now }
        ensures counts { CountsCall (sink_script self.old) (sink_script self.new) }
    {
        if !self.script.fails_now() {
            if let Some(count) = self.out.add(bytes) {
                return Ok(count);
            }
        }
        self.faults = self.faults.saturating_add(1);
        Err(Failed)
    }
}
