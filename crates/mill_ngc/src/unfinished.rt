//! The bytes of a line that isn't whole yet, in place.
ghost use Rattle.std.specs.Prelude.{◌≡◌, ◌++◌, List, ℕ, [], ◌+◌, ◌≤◌, length, take};

use std::marker::Model;

/// At most 256 bytes.
#[derive(Drop)]
pub(crate) struct UnfinishedLine {
    bytes: [u8; 256],
    count: usize,
}

impl Model for UnfinishedLine {
    ghost Value = { List ℕ };

    ghost view = { λ l. take l.count l.bytes };

    ghost invariant = { λ l. l.count ≤ 256 };
}

impl UnfinishedLine {
    pub fn new() -> Self
        ensures { result ≡ [] }
    {
        UnfinishedLine {
            bytes: [0; 256],
            count: 0,
        }
    }

    pub fn as_bytes(&self) -> &[u8]
        ensures bytes { result.now ≡ self.now }
        ensures few { length self.now ≤ 256 }
    {
        &self.bytes[..self.count]
    }

    pub fn len(&self) -> usize
        ensures value { result ≡ length self.now }
        ensures few { result ≤ 256 }
    {
        self.as_bytes().len()
    }

    /// Adds the next bytes of the line.
    pub fn extend(&mut self, bytes: &[u8])
        requires { length self.old + length bytes.now ≤ 256 }
        ensures { self.new ≡ self.old ++ bytes.now }
    {
        let from = self.count;
        self.count += bytes.len();
        self.bytes[from..self.count].copy_from_slice(bytes);
    }

    pub fn clear(&mut self)
        ensures { self.new ≡ [] }
    {
        self.count = 0;
    }
}
