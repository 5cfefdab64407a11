ghost use Rattle.std.specs.Prelude.{◌≡◌, ◌<◌, ◌≤◌, ◌++◌, [], length, take, is_none, IfOk, IfSome, IfNone, vec_capacity};

use mill_base::WantOfMemory;
use std::alloc::Global;

/// Bytes with a place of their own: at most `capacity`, or as many as it began with.
#[derive(Drop)]
pub(crate) struct Room {
    bytes: Vec<u8>,
    capacity: usize,
    ghost taken: { capacity ≤ vec_capacity bytes },
}

impl Room {
    ghost use Rattle.mill_io.specs.Memory.{finds_no_room, taken_of};

    /// Takes memory for `capacity` bytes, none of which is there yet.
    pub(crate) fn new(alloc: Global, capacity: usize) -> Result<Room, WantOfMemory>
        ensures bytes { IfOk result (λ r. r.bytes.items ≡ []) }
        ensures capacity { IfOk result (λ r. r.capacity ≡ capacity) }
    {
        Ok(Room {
            bytes: Vec::with_capacity(alloc, capacity)?,
            capacity,
        })
    }

    /// Takes memory for `capacity` bytes, or as many as these, and holds these.
    pub(crate) fn holding(
        alloc: Global,
        capacity: usize,
        bytes: &[u8],
    ) -> Result<Room, WantOfMemory>
        ensures bytes { IfOk result (λ r. r.bytes.items ≡ bytes.now) }
        ensures capacity { IfOk result (λ r. r.capacity ≡ capacity) }
    {
        let mut held = Vec::with_capacity(alloc, capacity.max(bytes.len()))?;
        held.extend_from_slice(bytes)?;
        Ok(Room {
            bytes: held,
            capacity,
        })
    }

    /// The bytes that are there.
    pub(crate) fn bytes(&self) -> &[u8]
        ensures { result.now ≡ self.now.bytes.items }
    {
        &self.bytes
    }

    /// Removes all bytes.
    pub(crate) fn clear(&mut self)
        ensures bytes { self.new.bytes.items ≡ [] }
        ensures capacity { self.new.capacity ≡ self.old.capacity }
    {
        self.bytes.clear();
    }

    /// Adds as many of the bytes as there is room for, and says how many. It is `None` where a
    /// piece that isn't empty finds no room left.
    pub(crate) fn add(&mut self, piece: &[u8]) -> Option<usize>
        ensures none { is_none result ≡ finds_no_room self.old piece.now }
        ensures within { IfSome result (λ n. n ≤ length piece.now) }
        ensures some { 0 < length piece.now → IfSome result (λ n. 0 < n) }
        ensures takes { IfSome result (λ n. n ≡ taken_of self.old piece.now) }
        ensures added { IfSome result (λ n. self.new.bytes.items ≡ self.old.bytes.items ++ take n piece.now) }
        ensures same { IfNone result (self.new.bytes.items ≡ self.old.bytes.items) }
        ensures capacity { self.new.capacity ≡ self.old.capacity }
    {
        let count = piece
            .len()
            .min(self.capacity.saturating_sub(self.bytes.len()));
        if count == 0 && !piece.is_empty() {
            return None;
        }
        match self.bytes.extend_from_slice(&piece[..count]) {
            Ok(()) => Some(count),
            // This can't come, since `new` or `holding` took the memory for `capacity` bytes.
            Err(_) => None,
        }
    }
}
