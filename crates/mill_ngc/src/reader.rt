//! Reads a program that comes in pieces.
ghost use Rattle.std.specs.Prelude.{◌≡◌, ◌≢◌, ◌<◌, ◌≤◌, ◌+◌, ◌^◌, [], length, Err};
ghost use Rattle.mill_base.specs.Ranges.{IsInUnitRange};
ghost use Rattle.mill_base.specs.declared.points.Pt3.{Pt3};
ghost use Rattle.mill_base.specs.declared.unit.Unit.{Unit};
ghost use Rattle.mill_said.specs.declared.rules.Rules.{Rules};
ghost use Rattle.mill_ngc.specs.Pieces.{Reading, reading_at, lines_read, fed, at_end, answer};
ghost use Rattle.mill_ngc.specs.Pieces.{last_answer, IsFront, MovesSoFar, AreSound};
ghost use Rattle.mill_ngc.specs.Texts.{shown, StandsInRange};
ghost use Rattle.mill_said.specs.declared.fault.NgcFault.TheVariants as faults;

use crate::text_reader::TextReader;
use mill_base::{Move, Pt3, Unit};
use mill_said::{NgcFault, Rules};
use std::marker::Model;

/// Reads a program's text, which comes in pieces, cut anywhere, as moves.
///
/// [`feed`](Reader::feed) takes the pieces in turn, and [`finish`](Reader::finish) ends the text.
/// The answer is exactly the moves of the joined text, or its first fault, which [`NgcFault`] tells
/// with its line. No piece is kept: a reader holds the bytes of one line, of which there are at most
/// 256.
///
/// Each line feed ends a line. Where the first line that isn't blank holds only `%`, the program
/// ends with the next such line; `M2` or `M30` ends it at the end of its line in any case (NISTIR
/// 6556, 3.6.1). What comes behind has no meaning.
///
/// A line with an axis word makes a move in the motion mode, `G0` or `G1` (3.5.1, 3.5.2), from the
/// present point to that point with the named coordinates replaced, which are millimetres (`G21`,
/// 3.5.7) and absolute (`G90`, 3.5.17). `F`, `S`, `T`, the other words of the profile's table and
/// line numbers have no effect on the moves.
#[derive(Drop)]
pub struct Reader {
    text: TextReader,
    fault: Option<NgcFault>,
}

impl Model for Reader {
    ghost Value = { Reading };

    ghost view = { λ r. shown r.fault r.text };

    ghost invariant = { λ r. StandsInRange (shown r.fault r.text) };
}

impl Reader {
    /// A reader before the first piece. The first move begins at `start`, and coordinates are read
    /// to whole units. `rules` says what is asked of the program beside what its words mean; where
    /// the tool may be anywhere before it, `start` says no more than the least height of the way
    /// up, and the moves begin where the way across ends.
    pub fn new(start: Pt3, unit: Unit, rules: Rules) -> Self
        requires { IsInUnitRange unit start }
        ensures reading { result ≡ reading_at start unit rules }
        ensures moves { MovesSoFar start unit rules result [] }
    {
        Reader {
            text: TextReader::new(start, unit, rules),
            fault: None,
        }
    }

    /// Takes the next piece of the text, and adds the moves of the lines that are whole now to
    /// `out`, up to the program's end.
    ///
    /// The answer is the first fault of the text so far, if it has one; the moves of the lines
    /// before it stand in `out` then. From then on each call answers it again and adds nothing.
    /// That holds for `WantOfMemory` too, which comes where `out` can't grow.
    ///
    /// The lines of the text and the bytes of the piece together are to be fewer than 2^63.
    pub fn feed(&mut self, piece: &[u8], out: &mut Vec<Move>) -> Result<(), NgcFault>
        requires { lines_read self.old + length piece.now < 2 ^ 63 }
        ensures fed { result ≢ Err faults.WantOfMemory →
            (self.new, out.new.items) ≡ fed (self.old, out.old.items) piece.now }
        ensures answer { result ≡ answer self.new }
        ensures front { IsFront out.new.items (fed (self.old, out.old.items) piece.now).1 }
        ensures grows { IsFront out.old.items out.new.items }
        ensures lines { lines_read self.new ≤ lines_read self.old + length piece.now }
        ensures moves { (start : Pt3) (unit : Unit) (rules : Rules) →
            MovesSoFar start unit rules self.old out.old.items →
            MovesSoFar start unit rules self.new out.new.items }
    {
        if let Some(fault) = self.fault {
            return Err(fault);
        }
        match self.text.read_piece(piece, out) {
            Ok(()) => Ok(()),
            Err(fault) => {
                self.fault = Some(fault);
                Err(fault)
            }
        }
    }

    /// Ends the text, and adds the moves of its last line to `out`.
    ///
    /// The answer is the text's first fault, if it has one: an earlier one again, one of the last
    /// line, or `NoEnd`.
    pub fn finish(self, out: &mut Vec<Move>) -> Result<(), NgcFault>
        requires { lines_read self < 2 ^ 63 }
        ensures moves_are { result ≢ Err faults.WantOfMemory →
            out.new.items ≡ (at_end (self, out.old.items)).1 }
        ensures answer { result ≢ Err faults.WantOfMemory →
            result ≡ last_answer (at_end (self, out.old.items)).0 }
        ensures front { IsFront out.new.items (at_end (self, out.old.items)).1 }
        ensures grows { IsFront out.old.items out.new.items }
        ensures moves { (start : Pt3) (unit : Unit) (rules : Rules) →
            MovesSoFar start unit rules self out.old.items →
            AreSound start unit rules out.new.items }
    {
        if let Some(fault) = self.fault {
            return Err(fault);
        }
        let mut text = self.text;
        text.finish(out)
    }
}
