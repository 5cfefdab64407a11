//! Reads a text piece by piece, up to its first fault.
ghost use Rattle.std.specs.Prelude.{◌≡◌, ◌≢◌, ◌++◌, ◌<◌, ◌≤◌, ◌+◌, ◌^◌, [], false, length, OnOk};
ghost use Rattle.std.specs.Prelude.{OnErr, IfErr, Ok, Err};
ghost use Rattle.mill_base.specs.Ranges.{IsInUnitRange};
ghost use Rattle.mill_base.specs.declared.points.Pt3.{Pt3};
ghost use Rattle.mill_base.specs.declared.unit.Unit.{Unit};
ghost use Rattle.mill_said.specs.declared.rules.Rules.{Rules};
ghost use Rattle.mill_block.specs.Lines.{after_line, start_at};
ghost use Rattle.mill_block.specs.Kept.{AddsLine};
ghost use Rattle.mill_said.specs.declared.fault.NgcFault.TheVariants as faults;
ghost use Rattle.mill_ngc.specs.Pieces.{Failed, after_begun, fed, at_end, last_answer, IsFront};
ghost use Rattle.mill_ngc.specs.Pieces.{SoFar, AreSound};
ghost use Rattle.mill_ngc.specs.Texts.{reading_of};

use crate::lines::split_line;
use crate::unfinished::UnfinishedLine;
use mill_base::{Move, Pt3, Unit};
use mill_block::{LONGEST_LINE, LineReader};
use mill_said::{NgcFault, Rules};

/// What the whole lines of a text have settled, and the bytes of the line behind them.
#[derive(Drop)]
pub(crate) struct TextReader {
    pub lines: LineReader,
    pub unfinished: UnfinishedLine,
}

impl TextReader {
    pub fn new(start: Pt3, unit: Unit, rules: Rules) -> Self
        requires { IsInUnitRange unit start }
        ensures lines { result.lines ≡ start_at start unit rules }
        ensures unfinished { result.unfinished ≡ [] }
    {
        TextReader {
            lines: LineReader::new(start, unit, rules),
            unfinished: UnfinishedLine::new(),
        }
    }

    /// Takes the next piece, and adds the moves of the lines that are whole now.
    pub fn read_piece(&mut self, piece: &[u8], out: &mut Vec<Move>) -> Result<(), NgcFault>
        requires here { IsInUnitRange self.old.lines.unit self.old.lines.here }
        requires number { self.old.lines.line + length piece.now < 2 ^ 63 }
        ensures ok { OnOk result (fed (reading_of self.old, out.old.items) piece.now
            ≡ (reading_of self.new, out.new.items)) }
        ensures fault { IfErr result (λ f. f ≢ faults.WantOfMemory →
            fed (reading_of self.old, out.old.items) piece.now ≡ (Failed f, out.new.items)) }
        ensures front { IsFront out.new.items (fed (reading_of self.old, out.old.items) piece.now).1 }
        ensures grows { IsFront out.old.items out.new.items }
        ensures sound { (start : Pt3) (unit : Unit) (rules : Rules) → SoFar start unit rules self.old.lines out.old.items → AreSound start unit rules out.new.items }
        ensures so_far { (start : Pt3) (unit : Unit) (rules : Rules) → SoFar start unit rules self.old.lines out.old.items → OnOk result (SoFar start unit rules self.new.lines out.new.items) }
        ensures here { OnOk result (IsInUnitRange self.new.lines.unit self.new.lines.here) }
        ensures number { OnOk result
            (self.new.lines.line ≤ self.old.lines.line + length piece.now) }
    {
        let mut rest = piece;
        while !self.lines.has_ended() {
            let (line, more) = split_line(rest);
            match more {
                Some(text) => {
                    self.end_line(line, out)?;
                    rest = text;
                }
                None => return self.keep(line),
            }
        }
        Ok(())
    }

    // Takes the bytes before a line end, reads the line that they end, and adds the moves that it
    // makes.
    #[inline(always)]
    fn end_line(&mut self, bytes: &[u8], out: &mut Vec<Move>) -> Result<(), NgcFault>
        requires here { IsInUnitRange self.old.lines.unit self.old.lines.here }
        requires number { self.old.lines.line < 2 ^ 63 }
        ensures ok { OnOk result (AddsLine self.old.lines (self.old.unfinished ++ bytes.now) out.old.items self.new.lines out.new.items) }
        ensures begins { OnOk result (self.new.unfinished ≡ []) }
        ensures fault { IfErr result (λ f. f ≢ faults.WantOfMemory →
            after_line self.old.lines (self.old.unfinished ++ bytes.now) ≡ Err f) }
        ensures kept { OnErr result (out.new.items ≡ out.old.items) }
    {
        if self.unfinished.len() == 0 {
            return self.lines.read_line(bytes, out);
        }
        self.end_begun_line(bytes, out)
    }

    // The same of a line that an earlier piece began. It is kept apart, since most lines stand in one
    // piece.
    #[inline(never)]
    fn end_begun_line(&mut self, bytes: &[u8], out: &mut Vec<Move>) -> Result<(), NgcFault>
        requires here { IsInUnitRange self.old.lines.unit self.old.lines.here }
        requires number { self.old.lines.line < 2 ^ 63 }
        ensures ok { OnOk result (AddsLine self.old.lines (self.old.unfinished ++ bytes.now) out.old.items self.new.lines out.new.items) }
        ensures begins { OnOk result (self.new.unfinished ≡ []) }
        ensures fault { IfErr result (λ f. f ≢ faults.WantOfMemory →
            after_line self.old.lines (self.old.unfinished ++ bytes.now) ≡ Err f) }
        ensures kept { OnErr result (out.new.items ≡ out.old.items) }
    {
        if self.unfinished.len() + bytes.len() > LONGEST_LINE {
            return Err(NgcFault::LongLine {
                line: self.lines.line() + 1,
            });
        }
        self.unfinished.extend(bytes);
        self.lines.read_any_line(self.unfinished.as_bytes(), out)?;
        self.unfinished.clear();
        Ok(())
    }

    // Keeps bytes of a line that isn't whole yet.
    fn keep(&mut self, bytes: &[u8]) -> Result<(), NgcFault>
        requires going { self.old.lines.ended ≡ false }
        requires number { self.old.lines.line < 2 ^ 63 }
        ensures ok { OnOk result (after_begun (reading_of self.old) (self.old.unfinished ++ bytes.now) ≡ reading_of self.new) }
        ensures fault { IfErr result (λ f.
            after_begun (reading_of self.old) (self.old.unfinished ++ bytes.now) ≡ Failed f) }
        ensures same { self.new.lines ≡ self.old.lines }
    {
        if self.unfinished.len() + bytes.len() > LONGEST_LINE {
            return Err(NgcFault::LongLine {
                line: self.lines.line() + 1,
            });
        }
        self.unfinished.extend(bytes);
        Ok(())
    }

    /// Reads the text's last line.
    pub fn finish(&mut self, out: &mut Vec<Move>) -> Result<(), NgcFault>
        requires here { IsInUnitRange self.old.lines.unit self.old.lines.here }
        requires number { self.old.lines.line < 2 ^ 63 }
        ensures ok { OnOk result (out.new.items ≡ (at_end (reading_of self.old, out.old.items)).1) }
        ensures ends { OnOk result
            (last_answer (at_end (reading_of self.old, out.old.items)).0 ≡ Ok tt) }
        ensures fault { IfErr result (λ f. f ≢ faults.WantOfMemory →
            out.new.items ≡ (at_end (reading_of self.old, out.old.items)).1) }
        ensures told { IfErr result (λ f. f ≢ faults.WantOfMemory →
            last_answer (at_end (reading_of self.old, out.old.items)).0 ≡ Err f) }
        ensures front { IsFront out.new.items (at_end (reading_of self.old, out.old.items)).1 }
        ensures grows { IsFront out.old.items out.new.items }
        ensures sound { (start : Pt3) (unit : Unit) (rules : Rules) → SoFar start unit rules self.old.lines out.old.items → AreSound start unit rules out.new.items }
    {
        if self.lines.has_ended() {
            return Ok(());
        }
        let last = self.unfinished.as_bytes();
        self.lines.read_any_line(last, out)?;
        if self.lines.has_ended() {
            return Ok(());
        }
        Err(NgcFault::NoEnd {
            line: self.lines.line(),
        })
    }
}
