ghost use Rattle.std.specs.Prelude.{◌≡◌, ◌+◌, ◌<◌, ◌≤◌, ℕ, List, Option, Err, length, OnOk, OnErr};
ghost use Rattle.mill_io.specs.Readings.{AreHeld, LastFails};
ghost use Rattle.mill_io.specs.Views.{ReadsOnly, IsWritten, IsPartWritten};
ghost use Rattle.mill_io.specs.Whole.{IsWhole, ReadEndsBy};
ghost use Rattle.mill_io.specs.declared.whole.ReadEnd.TheVariants.{ReadFault as AtRead, WantOfMemory};

use crate::{Failed, Shelf, Sink};
use std::alloc::{AllocError, Global};
use thiserror::Error;

/// How many bytes one read of a whole file asks for.
const PIECE: usize = 65536;

/// Why a whole read ended without the contents.
#[derive(Clone, Copy, Debug, PartialEq, Eq, Error)]
pub enum ReadEnd {
    /// A read failed: the count of read faults rose.
    #[error("a read failed")]
    ReadFault,
    /// The contents are longer than the limit.
    #[error("too long")]
    TooLong,
    /// There was not enough memory.
    #[error("out of memory")]
    WantOfMemory,
}

impl From<AllocError> for ReadEnd {
    ghost from_gives = { λ _ e. e ≡ WantOfMemory };

    fn from(_: AllocError) -> Self {
        ReadEnd::WantOfMemory
    }
}

/// All the bytes under a name, if they are at most `limit`.
///
/// This is right by whatever the files hold, if they hold what the reads gave: so it is by what the
/// store tells of them.
///
/// It is `ReadFault` where a read failed, `TooLong` where none did and more than `limit` bytes were
/// given, and `WantOfMemory` where there was no memory for them. It makes at most `limit + 2`
/// reads.
pub fn read_whole<S: Shelf>(
    alloc: Global,
    shelf: &mut S,
    name: &str,
    limit: u64,
) -> Result<Vec<u8>, ReadEnd>
    ensures whole { (contents : List ℕ → Option (List ℕ)) → AreHeld contents (S.shows shelf.old).log (S.shows shelf.new).log →
        IsWhole (contents name.now) limit result }
    ensures held { AreHeld (S.shows shelf.old).contents (S.shows shelf.old).log (S.shows shelf.new).log }
    ensures failed { result ≡ Err AtRead → LastFails name.now (S.shows shelf.new).log }
    ensures cause { ReadEndsBy (S.shows shelf.old).read_faults (S.shows shelf.new).read_faults result }
    ensures only { ReadsOnly (S.shows shelf.old) (S.shows shelf.new) }
    ensures few { length (S.shows shelf.new).log ≤ length (S.shows shelf.old).log + limit + 2 }
{
    let mut piece = vec![in alloc; 0u8; PIECE]?;
    read_pieces(alloc, shelf, name, limit, &mut piece)
}

// All the bytes under a name, if they are at most `limit`, read piece by piece through a buffer.
fn read_pieces<S: Shelf>(
    alloc: Global,
    shelf: &mut S,
    name: &str,
    limit: u64,
    buf: &mut [u8],
) -> Result<Vec<u8>, ReadEnd>
    requires { 0 < length buf.old }
    ensures whole { (contents : List ℕ → Option (List ℕ)) → AreHeld contents (S.shows shelf.old).log (S.shows shelf.new).log →
        IsWhole (contents name.now) limit result }
    ensures held { AreHeld (S.shows shelf.old).contents (S.shows shelf.old).log (S.shows shelf.new).log }
    ensures failed { result ≡ Err AtRead → LastFails name.now (S.shows shelf.new).log }
    ensures cause { ReadEndsBy (S.shows shelf.old).read_faults (S.shows shelf.new).read_faults result }
    ensures only { ReadsOnly (S.shows shelf.old) (S.shows shelf.new) }
    ensures few { length (S.shows shelf.new).log ≤ length (S.shows shelf.old).log + limit + 2 }
{
    let mut all = Vec::new(alloc);
    while all.len() as u64 <= limit {
        let count = match shelf.read(name, all.len() as u64, buf) {
            Ok(count) => count,
            Err(Failed) => return Err(ReadEnd::ReadFault),
        };
        if count == 0 {
            return Ok(all);
        }
        all.extend_from_slice(&buf[..count])?;
    }
    Err(ReadEnd::TooLong)
}

/// Writes all the bytes.
///
/// After a failure a prefix of them was written, which may be empty.
pub fn write_whole<O: Sink>(sink: &mut O, bytes: &[u8]) -> Result<(), Failed>
    ensures whole { OnOk result (IsWritten bytes.now (O.shows sink.old) (O.shows sink.new)) }
    ensures part { OnErr result (IsPartWritten bytes.now (O.shows sink.old) (O.shows sink.new)) }
{
    let mut done = 0;
    while done < bytes.len() {
        let count = sink.write(&bytes[done..])?;
        done += count;
    }
    Ok(())
}
