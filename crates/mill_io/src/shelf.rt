ghost use Rattle.std.specs.Prelude.{◌≡◌, ◌<◌, ◌≤◌, [], ◌∷◌, Some, length, take, IsTrue, IfOk, IfSome, OnOk, OnErr};
ghost use Rattle.mill_io.specs.Causes.{HasCause};
ghost use Rattle.mill_io.specs.Contents.{GivesFrom, Appended, AppendedPart, Emptied};
ghost use Rattle.mill_io.specs.Readings.{reading_of};
ghost use Rattle.mill_io.specs.Views.{StoreView, SinkView, ReadsOnly, WritesOnly, IsWritten, IsPartWritten};

use thiserror::Error;

/// A call of the outside failed: its count of faults rose.
#[derive(Clone, Copy, Debug, PartialEq, Eq, Error)]
#[error("a call of the outside failed")]
pub struct Failed;

/// A store of named files, as the program sees the outside.
///
/// Clauses name what it holds only where it tells it. A counter of an implementation may be a
/// `u64`, which stops at its greatest value: from there on each failed call counts as one that
/// raised it.
pub trait Shelf {
    /// What the store shows: whether it tells its contents, and if so those of each name that was
    /// created; what it tells of each name; how often a read, and how often a create or an append,
    /// failed; and what each read gave.
    ghost shows: { Self → StoreView };

    /// Reads the bytes under a name, from a place on, into the buffer, and answers how many.
    ///
    /// A buffer that isn't empty gets 0 bytes exactly at or past the end. Nothing changes but the count
    /// of failed reads, and that this read is now the last.
    fn read(&mut self, name: &str, from: u64, buf: &mut [u8]) -> Result<usize, Failed>
        ensures within { IfOk result (λ n. n ≤ length buf.new) }
        ensures bytes { IfOk result (λ n.
            IfSome ((shows self.old).contents name.now) (λ bytes. GivesFrom bytes from n buf.new)) }
        ensures only { ReadsOnly (shows self.old) (shows self.new) }
        ensures cause { HasCause (shows self.old).read_faults (shows self.new).read_faults result }
        ensures logged { (shows self.new).log ≡ reading_of name.now from buf.new result ∷ (shows self.old).log };

    /// Makes the contents under a name empty, also where the name was absent.
    ///
    /// After a failure they are as before, or empty.
    fn create(&mut self, name: &str) -> Result<(), Failed>
        ensures emptied { Emptied ((shows self.old).contents name.now) ((shows self.new).contents name.now) result }
        ensures told { IsTrue (shows self.old).tells →
            OnOk result ((shows self.new).contents name.now ≡ Some []) }
        ensures only { WritesOnly name.now (shows self.old) (shows self.new) }
        ensures cause { HasCause (shows self.old).write_faults (shows self.new).write_faults result }
        ensures unread { (shows self.new).log ≡ (shows self.old).log };

    /// Adds bytes to the contents under a name, and answers how many of them.
    ///
    /// Of a piece that isn't empty it adds at least one. After a failure a prefix of the piece was
    /// added, which may be empty.
    fn append(&mut self, name: &str, bytes: &[u8]) -> Result<usize, Failed>
        ensures within { IfOk result (λ n. n ≤ length bytes.now) }
        ensures some { 0 < length bytes.now → IfOk result (λ n. 0 < n) }
        ensures appended { IfOk result (λ n. Appended (take n bytes.now)
            ((shows self.old).contents name.now) ((shows self.new).contents name.now)) }
        ensures part { OnErr result (AppendedPart bytes.now
            ((shows self.old).contents name.now) ((shows self.new).contents name.now)) }
        ensures only { WritesOnly name.now (shows self.old) (shows self.new) }
        ensures cause { HasCause (shows self.old).write_faults (shows self.new).write_faults result }
        ensures unread { (shows self.new).log ≡ (shows self.old).log };
}

/// Where bytes are written, one after another.
pub trait Sink {
    /// What the sink shows: what was written, where it tells it, and how often a write failed.
    ghost shows: { Self → SinkView };

    /// Writes bytes, and answers how many.
    ///
    /// Of a piece that isn't empty it writes at least one. After a failure a prefix of the piece
    /// was written, which may be empty.
    fn write(&mut self, bytes: &[u8]) -> Result<usize, Failed>
        ensures within { IfOk result (λ n. n ≤ length bytes.now) }
        ensures some { 0 < length bytes.now → IfOk result (λ n. 0 < n) }
        ensures written { IfOk result (λ n.
            IsWritten (take n bytes.now) (shows self.old) (shows self.new)) }
        ensures part { OnErr result (IsPartWritten bytes.now (shows self.old) (shows self.new)) };
}
