ghost use Rattle.std.specs.Prelude.{◌≡◌, ◌+◌, ◌*◌, length, IfOk};
ghost use Rattle.mill_ngc.specs.Writing.{program_text};
ghost use Rattle.mill_ngc.specs.Readings.{ReadsBack};

use crate::line::{add_head, add_move, add_text};
use mill_base::{Move, Pt3, Unit, WantOfMemory};
use std::alloc::Global;

/// Writes a program text of moves.
///
/// It is a line `%`, a line `G17 G21 G90`, a line for each move, a line `M2` and a line `%`, each
/// with a line feed behind it (NISTIR 6556, 3.3 and 3.6.1). A move's line is `G0` or `G1` and the
/// words of x, y and z, parted by one space: where the move ends, in millimetres with as many decimals
/// as the unit has places, also where a coordinate stays.
///
/// With a place to `begin` at, the moves' lines come behind two that lead there from wherever the
/// tool is: `G0` and the word of z, straight up, and `G0` and the words of x and y, across. They
/// read as two moves of length 0 at that place.
///
/// Where the moves follow on each other, from that place if there is one, are in the unit's range
/// and with those two at most 1,000,000, the text reads back as exactly these moves, a dogleg as a
/// straight rapid.
pub fn write_program(
    alloc: Global,
    begin: Option<Pt3>,
    moves: &[Move],
    unit: Unit,
) -> Result<Vec<u8>, WantOfMemory>
    ensures text { IfOk result (λ text. text.items ≡ program_text unit begin moves.now) }
    ensures reads { IfOk result (λ text. ReadsBack unit begin moves.now text.items) }
{
    let mut text = Vec::with_capacity(alloc, room_for(moves))?;
    add_text(&mut text, b"%\nG17 G21 G90\n")?;
    add_head(&mut text, begin, unit)?;
    for made in moves {
        add_move(&mut text, *made, unit)?;
    }
    add_text(&mut text, b"M2\n%\n")?;
    Ok(text)
}

/// The most bytes of a move's line, where its coordinates are in range: `G0`, its line feed, and for
/// each axis a space, its letter and the eight bytes of `-1310.71` or `-524.287`.
const LONGEST: usize = 2 + 1 + 3 * (2 + 8);

/// The bytes of the lines before and behind those of the moves, with a way to a first place.
const FRAME: usize = 14 + 2 * (2 + 1) + 3 * (2 + 8) + 5;

// How many bytes to take memory for.
fn room_for(moves: &[Move]) -> usize
    ensures { result ≡ length moves.now * LONGEST + FRAME }
{
    moves.len() * LONGEST + FRAME
}
