//! The contents under a name, piece by piece.
ghost use Rattle.std.specs.Prelude.{◌≡◌, ◌+◌, ◌<◌, ◌≤◌, ℕ, List, Option, Err, length, None, IfOk, IfSome};
ghost use Rattle.mill_io.specs.Pieces.{GivesNext, PieceEndsBy, answer_behind};
ghost use Rattle.mill_io.specs.Readings.{AreHeld, LastFails};
ghost use Rattle.mill_io.specs.Views.{ReadsOnly};
ghost use Rattle.mill_io.specs.declared.pieces.PieceEnd.TheVariants.{ReadFault as AtRead};

use crate::{Failed, Shelf};
use thiserror::Error;

/// Why a file isn't given to its end.
#[derive(Clone, Copy, Debug, PartialEq, Eq, Error)]
pub enum PieceEnd {
    /// A read failed: the count of read faults rose.
    #[error("a read failed")]
    ReadFault,
    /// The contents are longer than the limit.
    #[error("too long")]
    TooLong,
}

/// Reads the bytes under a name piece by piece, at most `limit` of them, with no memory but the
/// caller's buffer.
#[derive(Drop)]
pub struct Pieces<'a, S: Shelf> {
    shelf: &'a mut S,
    name: &'a str,
    limit: u64,
    /// How many bytes were given so far.
    given: u64,
    /// How the reading ended.
    end: Option<Result<(), PieceEnd>>,
    ghost within: { given ≤ limit },
}

impl<'a, S: Shelf> Pieces<'a, S> {
    ghost use Rattle.mill_io.specs.Pieces.{GivesNext, PieceEndsBy, answer_behind, bytes_given, end_by, reads_left};

    /// Before the first byte.
    pub fn new(shelf: &'a mut S, name: &'a str, limit: u64) -> Pieces<'a, S>
        ensures same_reference { result.shelf.ghost_name ≡ shelf.entry.ghost_name }
        ensures shelf { result.shelf.now ≡ shelf.old }
        ensures name { result.name.now ≡ name.now }
        ensures limit { result.limit ≡ limit }
        ensures given { result.given ≡ 0 }
        ensures going { result.end ≡ None }
    {
        Pieces {
            shelf,
            name,
            limit,
            given: 0,
            end: None,
        }
    }

    /// Reads the next piece into the buffer, and answers how many bytes it has.
    ///
    /// The buffer isn't to be empty. The pieces are the contents in their order. 0 says that they
    /// ended, `TooLong` that they are longer than the limit, and `ReadFault` that a read failed;
    /// from then on each call answers the same again and reads nothing. All calls together make at
    /// most `limit + 1` reads.
    pub fn next(&mut self, buf: &mut [u8]) -> Result<usize, PieceEnd>
        requires { 0 < length buf.old }
        ensures within { IfOk result (λ n. n ≤ length buf.new) }
        ensures next { (contents : List ℕ → Option (List ℕ)) → AreHeld contents (S.shows self.old.shelf.now).log (S.shows self.new.shelf.now).log →
            self.old.end ≡ None → GivesNext (contents self.old.name.now) self.old.limit self.old.given buf.new result }
        ensures held { AreHeld (S.shows self.old.shelf.now).contents (S.shows self.old.shelf.now).log (S.shows self.new.shelf.now).log }
        ensures ends { self.old.end ≡ None →
            PieceEndsBy (S.shows self.old.shelf.now).read_faults (S.shows self.new.shelf.now).read_faults result
            × (result ≡ Err AtRead → LastFails self.old.name.now (S.shows self.new.shelf.now).log) }
        ensures again { IfSome self.old.end (λ end.
            (result ≡ answer_behind end) × (self.new.shelf.now ≡ self.old.shelf.now)) }
        ensures moved { (self.new.given ≡ self.old.given + bytes_given result) × (self.new.end ≡ end_by result) }
        ensures only { ReadsOnly (S.shows self.old.shelf.now) (S.shows self.new.shelf.now) }
        ensures few { length (S.shows self.new.shelf.now).log + reads_left self.new.end self.new.limit self.new.given
            ≤ length (S.shows self.old.shelf.now).log + reads_left self.old.end self.old.limit self.old.given }
        ensures same { (self.new.shelf.ghost_name ≡ self.old.shelf.ghost_name)
            × ((self.new.name.now ≡ self.old.name.now) × (self.new.limit ≡ self.old.limit)) }
    {
        if let Some(end) = self.end {
            return answer_again(end);
        }
        match read_within(self.shelf, self.name, self.given, self.limit, buf) {
            Ok(0) => {
                self.end = Some(Ok(()));
                Ok(0)
            }
            Ok(count) => {
                self.given += count as u64;
                Ok(count)
            }
            Err(end) => {
                self.end = Some(Err(end));
                Err(end)
            }
        }
    }
}

fn answer_again(end: Result<(), PieceEnd>) -> Result<usize, PieceEnd>
    ensures { result ≡ answer_behind end }
{
    match end {
        Ok(()) => Ok(0),
        Err(end) => Err(end),
    }
}

// Reads the bytes under a name from a place on, if they don't go past the limit.
fn read_within<S: Shelf>(
    shelf: &mut S,
    name: &str,
    from: u64,
    limit: u64,
    buf: &mut [u8],
) -> Result<usize, PieceEnd>
    requires buf { 0 < length buf.old }
    requires from { from ≤ limit }
    ensures within { IfOk result (λ n. n ≤ length buf.new) }
    ensures next { (contents : List ℕ → Option (List ℕ)) → AreHeld contents (S.shows shelf.old).log (S.shows shelf.new).log →
        GivesNext (contents name.now) limit from buf.new result }
    ensures held { AreHeld (S.shows shelf.old).contents (S.shows shelf.old).log (S.shows shelf.new).log }
    ensures failed { result ≡ Err AtRead → LastFails name.now (S.shows shelf.new).log }
    ensures cause { PieceEndsBy (S.shows shelf.old).read_faults (S.shows shelf.new).read_faults result }
    ensures only { ReadsOnly (S.shows shelf.old) (S.shows shelf.new) }
    ensures counted { length (S.shows shelf.new).log ≤ length (S.shows shelf.old).log + 1 }
{
    let count = match shelf.read(name, from, buf) {
        Ok(count) => count,
        Err(Failed) => return Err(PieceEnd::ReadFault),
    };
    if count as u64 > limit - from {
        return Err(PieceEnd::TooLong);
    }
    Ok(count)
}
