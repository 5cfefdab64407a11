//! A text with its checksum.
ghost use Rattle.std.specs.Arc.{arc_value};
ghost use Rattle.std.specs.Prelude.{◌≡◌, IfOk};
ghost use Rattle.sha2.specs.Sha256.{sha256};

use mill_base::WantOfMemory;
use sha2::{Digest, Sha256};
use std::alloc::Global;
use std::marker::Model;
use std::snapshot::Snapshot;
use std::sync::Arc;
use std::thread::{Promise, PromisedHandle, Threads, spawn_with};

/// The fewest bytes whose checksum a thread of its own makes: of fewer it is made sooner than a
/// thread starts.
const LONG: usize = 16_384;

/// That a thread answers the SHA-256 of this text.
#[derive(Drop)]
struct SumOf(Snapshot<Vec<u8>>);

impl Promise<[u8; 32]> for SumOf {
    ghost kept_by = { λ promise sum. sum ≡ sha256 promise.0.value.items };
}

/// The text of a file, as it was read. While others read it too, a thread of its own makes its
/// SHA-256.
///
/// A contract sees the text.
#[derive(Drop)]
pub(crate) struct Source {
    text: Arc<Vec<u8>, Global>,
    /// The thread, if there is one.
    sum: Option<PromisedHandle<[u8; 32], SumOf>>,
}

impl Model for Source {
    ghost use Rattle.std.specs.Arc.{arc_value};
    ghost use Rattle.std.specs.Prelude.{◌≡◌, ℕ, IfSome, List};

    ghost Value = { List ℕ };

    ghost view = { λ source. (arc_value source.text).items };

    ghost invariant = { λ source.
        IfSome source.sum (λ handle. handle.promise.0.value ≡ arc_value source.text) };
}

impl Source {
    /// The text, whose checksum begins now. The only error is want of memory.
    ///
    /// Nobody waits for the checksum of a text that is let go before [`Source::sum`]: where a file
    /// is refused it is of no use.
    pub fn new<R: Threads>(rt: &R, alloc: Global, text: Vec<u8>) -> Result<Source, WantOfMemory>
        ensures { IfOk result (λ source. source ≡ text.items) }
    {
        let text = Arc::new(alloc, text)?;
        if text.len() < LONG {
            return Ok(Source { text, sum: None });
        }
        let theirs = Arc::try_clone(&text)?;
        let sum = spawn_with(
            rt,
            SumOf(Snapshot::of(&*text)),
            move || -> [u8; 32]
                ensures { result ≡ sha256 (arc_value theirs).items }
            { sum_of_shared(theirs) },
        );
        match sum {
            Ok(handle) => Ok(Source {
                text,
                sum: Some(handle),
            }),
            // No thread could be made, so `sum` makes it.
            Err(_) => Ok(Source { text, sum: None }),
        }
    }

    /// The bytes.
    pub fn text(&self) -> &[u8]
        ensures { result.now ≡ self.now }
    {
        &self.text
    }

    /// The SHA-256 of the text.
    pub fn sum<R: Threads>(self, rt: &R) -> [u8; 32]
        ensures { result ≡ sha256 self }
    {
        let Source { text, sum } = self;
        match sum {
            Some(handle) => handle.join(rt),
            None => sum_of(&text),
        }
    }
}

/// The SHA-256 of a text that another thread has too.
fn sum_of_shared(text: Arc<Vec<u8>, Global>) -> [u8; 32]
    ensures { result ≡ sha256 (arc_value text).items }
{
    sum_of(&text)
}

fn sum_of(text: &[u8]) -> [u8; 32]
    ensures { result ≡ sha256 text.now }
{
    Sha256::digest(text)
}
