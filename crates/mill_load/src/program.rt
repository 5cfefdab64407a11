//! Reading a program: a file in pieces, or a text that is held whole.
ghost use Rattle.std.specs.Prelude.{◌≡◌, ◌≢◌, ◌+◌, ◌<◌, ◌^◌, ◌++◌, ℕ, List, [], length, IfOk};
ghost use Rattle.std.specs.Prelude.{IfErr, OnOk, Err, Ok, Option, Some};
ghost use Rattle.mill_base.specs.Ranges.{IsInUnitRange};
ghost use Rattle.mill_base.specs.declared.points.Pt3.{Pt3 as Point};
ghost use Rattle.mill_base.specs.declared.unit.Unit.{Unit as LengthUnit};
ghost use Rattle.mill_io.specs.Readings.{AreHeld};
ghost use Rattle.mill_job.specs.Columns.{home};
ghost use Rattle.mill_ngc.specs.Pieces.{lines_read};
ghost use Rattle.mill_ngc.specs.Programs.{program_of};
ghost use Rattle.mill_said.specs.declared.fault.NgcFault.TheVariants.{WantOfMemory as NoMemory};
ghost use Rattle.mill_said.specs.declared.rules.Rules.{Rules as AskedRules};
ghost use Rattle.mill_load.specs.Loads.{LoadsProgram, NamesFault, OnlyLoads, AreMoves, CountsFault};
ghost use Rattle.mill_load.specs.inner.Steps.{HasTaken, TakesFile, LoadsNone, IsFirst};
ghost use Rattle.mill_load.specs.inner.Steps.{is_memory_fault};
ghost use Rattle.mill_load.specs.Programs.{SaysMoves, rules_of};
ghost use Rattle.mill_load.specs.Setup.{Fits};
ghost use Rattle.mill_load.specs.declared.file.File.{File as AnyFile};

use crate::file::File;
use crate::load::{LoadFault, Unfit};
use crate::rapids::run_moves;
use crate::rules::rules_for;
use mill_base::{MAX_FILE_BYTES, Move, Pt3, Unit, WantOfMemory};
use mill_io::{PieceEnd, Pieces, Shelf};
use mill_job::Job;
use mill_ngc::{NgcFault, Reader, Rules};
use std::alloc::Global;

/// How many bytes of a program are read at once.
const PIECE: usize = 65_536;

/// Reads the program that `name` names, from the job's home, in the job's unit and by the job's
/// rules, as moves of the job's machine. A fault is told as that of `file`.
///
/// Its text is never held whole. It is read to the file's end, also behind its first fault and
/// behind the program's end, so that a failed read and a file that is too long are told before a
/// fault of the text.
pub fn load_program<S: Shelf>(
    alloc: Global,
    shelf: &mut S,
    name: &str,
    job: &Job,
    file: File,
) -> Result<Vec<Move>, LoadFault>
    ensures told { (contents : List ℕ → Option (List ℕ)) →
        AreHeld contents (S.shows shelf.old).log (S.shows shelf.new).log →
        LoadsProgram job.now.fields (contents name.now) file result }
    ensures ready { IfOk result (λ moves. AreMoves job.now.fields moves.items) }
    ensures failed { (names : AnyFile → List ℕ) → names file ≡ name.now →
        IfErr result (NamesFault names (S.shows shelf.new).log) }
    ensures store { OnlyLoads (S.shows shelf.old) (S.shows shelf.new) result }
{
    let mut buf = vec![in alloc; 0u8; PIECE]?;
    let mut moves = Vec::new(alloc);
    let reader = match take_file(
        shelf,
        name,
        file,
        job.home(),
        job.fields.unit,
        rules_for(job),
        &mut buf,
        &mut moves,
    ) {
        Ok(reader) => reader,
        Err(fault) => return Err(fault),
    };
    match reader.finish(&mut moves) {
        Ok(()) => {
            run_moves(job.fields.rapids, &mut moves);
            Ok(moves)
        }
        Err(fault) if is_memory(fault) => Err(LoadFault::Memory),
        Err(fault) => Err(LoadFault::Unfit(Unfit::ProgramRefused(file, fault))),
    }
}

// Whether it is no fault of a program's.
fn is_memory(fault: NgcFault) -> bool
    ensures { result ≡ is_memory_fault fault }
{
    matches!(fault, NgcFault::WantOfMemory)
}

// A reader that has taken the whole text of a file, with the moves so far.
fn take_file<S: Shelf>(
    shelf: &mut S,
    name: &str,
    file: File,
    start: Pt3,
    unit: Unit,
    rules: Rules,
    buf: &mut [u8],
    moves: &mut Vec<Move>,
) -> Result<Reader, LoadFault>
    requires start { IsInUnitRange unit start }
    requires buf { 0 < length buf.old }
    requires moves { moves.old.items ≡ [] }
    ensures takes { (contents : List ℕ → Option (List ℕ)) →
        AreHeld contents (S.shows shelf.old).log (S.shows shelf.new).log →
        IfOk result (λ reader.
        TakesFile start unit rules (contents name.now) reader moves.new.items) }
    ensures fault { (contents : List ℕ → Option (List ℕ)) →
        AreHeld contents (S.shows shelf.old).log (S.shows shelf.new).log →
        IfErr result (LoadsNone (contents name.now) file) }
    ensures failed { (names : AnyFile → List ℕ) → names file ≡ name.now →
        IfErr result (NamesFault names (S.shows shelf.new).log) }
    ensures store { OnlyLoads (S.shows shelf.old) (S.shows shelf.new) result }
{
    let mut pieces = Pieces::new(shelf, name, MAX_FILE_BYTES);
    take_pieces(&mut pieces, file, start, unit, rules, buf, moves)
}

// The same, piece by piece.
fn take_pieces<S: Shelf>(
    pieces: &mut Pieces<'_, S>,
    file: File,
    start: Pt3,
    unit: Unit,
    rules: Rules,
    buf: &mut [u8],
    moves: &mut Vec<Move>,
) -> Result<Reader, LoadFault>
    requires start { IsInUnitRange unit start }
    requires buf { 0 < length buf.old }
    requires moves { moves.old.items ≡ [] }
    requires first { IsFirst pieces.old.limit pieces.old.given pieces.old.end }
    ensures takes { (contents : List ℕ → Option (List ℕ)) →
        AreHeld contents (S.shows pieces.old.shelf.now).log (S.shows pieces.new.shelf.now).log →
        IfOk result (λ reader.
        TakesFile start unit rules (contents pieces.old.name.now) reader moves.new.items) }
    ensures fault { (contents : List ℕ → Option (List ℕ)) →
        AreHeld contents (S.shows pieces.old.shelf.now).log (S.shows pieces.new.shelf.now).log →
        IfErr result (LoadsNone (contents pieces.old.name.now) file) }
    ensures failed { (names : AnyFile → List ℕ) → names file ≡ pieces.old.name.now →
        IfErr result (NamesFault names (S.shows pieces.new.shelf.now).log) }
    ensures store { OnlyLoads (S.shows pieces.old.shelf.now) (S.shows pieces.new.shelf.now) result }
    ensures same_reference { pieces.new.shelf.ghost_name ≡ pieces.old.shelf.ghost_name }
{
    let mut reader = Reader::new(start, unit, rules);
    loop {
        let count = match pieces.next(buf) {
            Ok(0) => return Ok(reader),
            Ok(count) => count,
            Err(PieceEnd::ReadFault) => return Err(LoadFault::ReadFault(file)),
            Err(PieceEnd::TooLong) => return Err(LoadFault::Unfit(Unfit::TooLong(file))),
        };
        take_piece(&mut reader, &buf[..count], moves)?;
    }
}

/// Takes the next piece of a program. A fault of the text isn't told now but at its end, where the
/// reader answers it again.
fn take_piece(reader: &mut Reader, piece: &[u8], moves: &mut Vec<Move>) -> Result<(), WantOfMemory>
    requires { lines_read reader.old + length piece.now < 2 ^ 63 }
    ensures { (start : Point) (unit : LengthUnit) (asked : AskedRules) (text : List ℕ) →
        HasTaken start unit asked reader.old moves.old.items text →
        OnOk result (HasTaken start unit asked reader.new moves.new.items (text ++ piece.now)) }
{
    match reader.feed(piece, moves) {
        Ok(()) => Ok(()),
        Err(NgcFault::WantOfMemory) => Err(WantOfMemory),
        Err(_fault) => Ok(()),
    }
}

/// The moves of a program's text within the limit of a file, from the job's home, in the job's
/// unit, by the job's rules and of its machine, or why there are none. A fault is told as that of
/// `file`.
pub fn moves_from(alloc: Global, text: &[u8], job: &Job, file: File) -> Result<Vec<Move>, LoadFault>
    requires { Fits text.now }
    ensures told { LoadsProgram job.now.fields (Some text.now) file result }
    ensures ready { IfOk result (λ moves. AreMoves job.now.fields moves.items) }
    ensures cause { CountsFault 0 0 result }
{
    match read_moves(alloc, text, job) {
        Ok(moves) => Ok(moves),
        Err(NgcFault::WantOfMemory) => Err(LoadFault::Memory),
        Err(fault) => Err(LoadFault::Unfit(Unfit::ProgramRefused(file, fault))),
    }
}

/// The moves of a program's text of any length, from the job's home, in the job's unit, by the
/// job's rules and of its machine, or its first fault.
pub fn read_moves(alloc: Global, text: &[u8], job: &Job) -> Result<Vec<Move>, NgcFault>
    ensures told { IfOk result (λ moves. SaysMoves job.now.fields text.now moves.items) }
    ensures fault { IfErr result (λ fault. fault ≢ NoMemory →
        program_of (home job.now.fields) job.now.fields.unit (rules_of job.now.fields)
        text.now ≡ Err fault) }
    ensures ready { IfOk result (λ moves. AreMoves job.now.fields moves.items) }
{
    let mut moves = Vec::new(alloc);
    let mut reader = Reader::new(job.home(), job.fields.unit, rules_for(job));
    let Ok(()) = take_piece(&mut reader, text, &mut moves) else {
        return Err(NgcFault::WantOfMemory);
    };
    reader.finish(&mut moves)?;
    run_moves(job.fields.rapids, &mut moves);
    Ok(moves)
}
