//! A program's text, line by line.
ghost use Rattle.std.specs.Prelude.{◌≡◌, ◌+◌, ◌-◌, ◌^◌, ◌<◌, ◌≤◌, List, [], ◌∷◌, ◌++◌, IfOk, OnOk};
ghost use Rattle.std.specs.Prelude.{length, replicate};
ghost use Rattle.mill_base.specs.Ranges.{IsInUnitRange};
ghost use Rattle.mill_base.specs.declared.limits.TheConstants.{MAX_FILE_BYTES};
ghost use Rattle.mill_base.specs.declared.motion.Move.{Move as OneMove};
ghost use Rattle.mill_ngc.specs.Pieces.{fed, lines_read};
ghost use Rattle.mill_ngc.specs.Programs.{program_of};
ghost use Rattle.mill_ngc.specs.Lines.{ArePlaces};

use crate::line_end::line_end;
use crate::place::LineSpan;
use crate::{NgcFault, Reader, Rules};
use mill_base::{Move, Pt3, Unit, WantOfMemory};
use std::alloc::Global;

/// Where each move of a program's text stands, in the order of the moves.
///
/// The first move begins at `start`, and coordinates are read to whole units, as a [`Reader`] with
/// these rules reads them. A move stands on the line that makes it; where the tool may be anywhere
/// before the program, the line across makes the first two.
/// Where the text is refused, these are the moves before its first fault. The text has at most 2^26 bytes.
/// The only error is want of memory, for the moves and their places.
pub fn places(
    alloc: Global,
    text: &[u8],
    start: Pt3,
    unit: Unit,
    rules: Rules,
) -> Result<Vec<LineSpan>, WantOfMemory>
    requires start { IsInUnitRange unit start }
    requires fits { length text.now ≤ MAX_FILE_BYTES }
    ensures places { IfOk result (λ places. ArePlaces start unit rules text.now places.items) }

    // A program has a place for each of its moves.
    ensures all { IfOk result (λ places. (moves : List OneMove) →
        program_of start unit rules text.now ≡ Ok moves →
        length places.items ≡ length moves) }
{
    let mut walk = Walk {
        reader: Reader::new(start, unit, rules),
        moves: Vec::new(alloc),
        places: Vec::new(alloc),
    };
    let mut from = 0;
    let mut line = 1;
    loop {
        let end = line_end(text, from);
        let place = LineSpan {
            line,
            start: from as u32,
            end: end as u32,
        };
        read_line(&mut walk, &text[from..end], place)?;
        if end == text.len() {
            return Ok(walk.places);
        }
        from = end + 1;
        line += 1;
    }
}

/// A program that is read line by line: its reader, the moves of the lines so far, and their places.
#[derive(Drop)]
struct Walk {
    reader: Reader,
    moves: Vec<Move>,
    places: Vec<LineSpan>,
}

/// Reads the next line, with a line feed behind it. The moves that it makes stand at its place.
fn read_line(walk: &mut Walk, line: &[u8], place: LineSpan) -> Result<(), WantOfMemory>
    requires room { lines_read walk.old.reader + length line.now + 1 < 2 ^ 63 }
    requires even { length walk.old.places.items ≡ length walk.old.moves.items }
    ensures read { OnOk result ((walk.new.reader, walk.new.moves.items)
        ≡ fed (walk.old.reader, walk.old.moves.items) (line.now ++ 10 ∷ [])) }
    ensures lines { OnOk result
        (lines_read walk.new.reader ≤ lines_read walk.old.reader + length line.now + 1) }
    ensures more { OnOk result (length walk.old.moves.items ≤ length walk.new.moves.items) }
    ensures places { OnOk result (walk.new.places.items ≡ walk.old.places.items
        ++ replicate (length walk.new.moves.items - length walk.old.moves.items) place) }
{
    read_piece(&mut walk.reader, line, &mut walk.moves)?;
    read_piece(&mut walk.reader, b"\n", &mut walk.moves)?;
    note_place(&mut walk.places, walk.moves.len(), place)
}

/// Reads a piece of the text. A fault of the text ends the moves, and is no error here.
fn read_piece(reader: &mut Reader, piece: &[u8], moves: &mut Vec<Move>) -> Result<(), WantOfMemory>
    requires { lines_read reader.old + length piece.now < 2 ^ 63 }
    ensures read { OnOk result
        ((reader.new, moves.new.items) ≡ fed (reader.old, moves.old.items) piece.now) }
    ensures lines { lines_read reader.new ≤ lines_read reader.old + length piece.now }
    ensures more { length moves.old.items ≤ length moves.new.items }
{
    match reader.feed(piece, moves) {
        Err(NgcFault::WantOfMemory) => Err(WantOfMemory),
        _ => Ok(()),
    }
}

/// Adds this place until there are so many.
fn note_place(places: &mut Vec<LineSpan>, count: usize, place: LineSpan) -> Result<(), WantOfMemory>
    requires { length places.old.items ≤ count }
    ensures { OnOk result (places.new.items ≡ places.old.items
        ++ replicate (count - length places.old.items) place) }
{
    while places.len() < count {
        places.push(place)?;
    }
    Ok(())
}
