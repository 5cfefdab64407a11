ghost use Rattle.std.specs.Prelude.{◌≡◌, OnOk, OnErr};
ghost use Rattle.mill_io.specs.Causes.{HasCause};
ghost use Rattle.mill_io.specs.Contents.{Appended, AppendedPart};
ghost use Rattle.mill_io.specs.Views.{WritesOnly, IsStored, IsPartStored};

use crate::{Failed, Shelf};

/// Makes the bytes the whole contents under a name.
///
/// It creates the contents and appends until all the bytes are there, and takes no memory. After an
/// `Ok` a shelf that tells its contents tells these bytes, also where the name was absent. It is
/// `Failed` only where the create or an append failed. The contents are then as before, or a prefix
/// of the bytes, which may be empty. It makes no read.
pub fn store<S: Shelf>(shelf: &mut S, name: &str, bytes: &[u8]) -> Result<(), Failed>
    ensures whole { OnOk result (
        IsStored name.now bytes.now (S.shows shelf.old) (S.shows shelf.new)) }
    ensures part { OnErr result (
        IsPartStored name.now bytes.now (S.shows shelf.old) (S.shows shelf.new)) }
    ensures unread { (S.shows shelf.new).log ≡ (S.shows shelf.old).log }
{
    shelf.create(name)?;
    append_whole(shelf, name, bytes)
}

// Appends all the bytes. After a failure a prefix of them was appended, which may be empty.
fn append_whole<S: Shelf>(shelf: &mut S, name: &str, bytes: &[u8]) -> Result<(), Failed>
    ensures whole { OnOk result (Appended bytes.now
        ((S.shows shelf.old).contents name.now) ((S.shows shelf.new).contents name.now)) }
    ensures part { OnErr result (AppendedPart bytes.now
        ((S.shows shelf.old).contents name.now) ((S.shows shelf.new).contents name.now)) }
    ensures only { WritesOnly name.now (S.shows shelf.old) (S.shows shelf.new) }
    ensures cause { HasCause (S.shows shelf.old).write_faults (S.shows shelf.new).write_faults result }
    ensures unread { (S.shows shelf.new).log ≡ (S.shows shelf.old).log }
{
    let mut done = 0;
    while done < bytes.len() {
        let count = shelf.append(name, &bytes[done..])?;
        done += count;
    }
    Ok(())
}
