//! The line of a move, and the two that lead to a first place.
ghost use Rattle.std.specs.Prelude.{◌≡◌, ◌++◌, OnOk};
ghost use Rattle.std.specs.List.{flat_map};
ghost use Rattle.mill_ngc.specs.Writing.{ended, move_line, motion_word as motion_word_of, axis_word};
ghost use Rattle.mill_ngc.specs.Writing.{head_lines};

use mill_base::{Kind, Move, Pt3, Unit, WantOfMemory};
use mill_decimal::{NumText, write_decimal};

/// Adds the line of a move, with its line feed.
pub(crate) fn add_move(text: &mut Vec<u8>, made: Move, unit: Unit) -> Result<(), WantOfMemory>
    ensures { OnOk result (text.new.items ≡ text.old.items ++ ended (move_line unit made)) }
{
    add_text(text, motion_word(made.kind))?;
    add_axis(text, b'X', made.to.x, unit)?;
    add_axis(text, b'Y', made.to.y, unit)?;
    add_axis(text, b'Z', made.to.z, unit)?;
    text.push(b'\n')?;
    Ok(())
}

/// Adds the lines of the way to a first place, if there is one: straight up, and across. Each has
/// its line feed.
pub(crate) fn add_head(
    text: &mut Vec<u8>,
    begin: Option<Pt3>,
    unit: Unit,
) -> Result<(), WantOfMemory>
    ensures { OnOk result
        (text.new.items ≡ text.old.items ++ flat_map ended (head_lines unit begin)) }
{
    let Some(place) = begin else {
        return Ok(());
    };
    add_text(text, motion_word(Kind::Rapid))?;
    add_axis(text, b'Z', place.z, unit)?;
    text.push(b'\n')?;
    add_text(text, motion_word(Kind::Rapid))?;
    add_axis(text, b'X', place.x, unit)?;
    add_axis(text, b'Y', place.y, unit)?;
    text.push(b'\n')?;
    Ok(())
}

fn motion_word(kind: Kind) -> &'static [u8]
    ensures { result.now ≡ motion_word_of kind }
{
    match kind {
        Kind::Rapid | Kind::Dogleg => b"G0",
        Kind::Feed => b"G1",
    }
}

// Adds a space and the word of an axis.
fn add_axis(text: &mut Vec<u8>, letter: u8, units: i32, unit: Unit) -> Result<(), WantOfMemory>
    ensures { OnOk result (text.new.items ≡ text.old.items ++ axis_word unit letter units) }
{
    let mut number = NumText::new();
    write_decimal(units, unit, &mut number);
    text.push(b' ')?;
    text.push(letter)?;
    add_text(text, number.as_bytes())
}

/// Adds these bytes.
pub(crate) fn add_text(text: &mut Vec<u8>, bytes: &[u8]) -> Result<(), WantOfMemory>
    ensures { OnOk result (text.new.items ≡ text.old.items ++ bytes.now) }
{
    text.extend_from_slice(bytes)?;
    Ok(())
}
