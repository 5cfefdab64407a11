//! What a store's reads gave. It exists only in proofs, takes no memory, and its methods do nothing at
//! run time.
ghost use Rattle.std.specs.Prelude.{◌≡◌, [], List};
ghost use base.Fml.{ftrue};
ghost use Rattle.mill_io.specs.Readings.{Reading};

use std::marker::Model;

/// The reads so far, the last one first.
#[derive(Drop)]
pub(crate) struct Log {
    pub(crate) ghost reads: { List Reading },
}

// It owns nothing.
impl Model for Log {
    ghost also_owns = { λ _. ftrue };
}

/// One read, to be noted.
#[derive(Clone, Copy, Drop)]
pub(crate) enum Note<'a> {
    /// It gave so many bytes, with which this buffer begins.
    Gave(&'a str, u64, usize, &'a [u8]),
    /// It failed.
    Failed(&'a str, u64),
}

impl Log {
    ghost use Rattle.mill_io.specs.inner.Notes.{noted};

    pub(crate) fn new() -> Log
        ensures { result.reads ≡ [] }
    {
        Log {}
    }

    #[inline(always)]
    pub(crate) fn then(&self, _note: &Note<'_>) -> Log
        ensures { result.reads ≡ noted self.now.reads _note.now }
    {
        Log {}
    }
}
