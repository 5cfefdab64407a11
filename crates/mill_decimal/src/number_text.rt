ghost use Rattle.std.specs.Prelude.{◌≡◌, ◌+◌, ◌++◌, ◌<◌, ◌≤◌, length, [], ◌∷◌};

use std::marker::Model;

/// A text of at most 12 bytes, kept in place: room for any written decimal.
#[derive(Drop)]
pub struct NumText {
    bytes: [u8; 12],
    len: usize,
}

impl Model for NumText {
    ghost use Rattle.std.specs.Prelude.{ℕ, List, take, ◌≤◌};

    ghost Value = { List ℕ };

    ghost view = { λ t. take t.len t.bytes };

    ghost invariant = { λ t. t.len ≤ 12 };
}

impl NumText {
    /// An empty text.
    pub fn new() -> Self
        ensures { result ≡ [] }
    {
        NumText {
            bytes: [0; 12],
            len: 0,
        }
    }

    /// The bytes of the text.
    pub fn as_bytes(&self) -> &[u8]
        ensures text { result.now ≡ self.now }
        ensures short { length self.now ≤ 12 }
    {
        &self.bytes[..self.len]
    }

    /// Makes the text empty.
    pub(crate) fn clear(&mut self)
        ensures { self.new ≡ [] }
    {
        self.len = 0;
    }

    /// Adds a byte.
    pub(crate) fn push(&mut self, byte: u8)
        requires { length self.old < 12 }
        ensures text { self.new ≡ self.old ++ byte ∷ [] }
        ensures size { length self.new ≡ length self.old + 1 }
    {
        self.bytes[self.len] = byte;
        self.len += 1;
    }

    /// Adds the bytes of a text.
    pub(crate) fn push_all(&mut self, text: &[u8])
        requires { length self.old + length text.now ≤ 12 }
        ensures text { self.new ≡ self.old ++ text.now }
        ensures size { length self.new ≡ length self.old + length text.now }
    {
        for byte in text {
            self.push(*byte);
        }
    }
}
