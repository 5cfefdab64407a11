//! The lines of refusals.
ghost use Rattle.std.specs.Prelude.{◌≡◌, [], ◌∷◌, codes, decimal, IfOk, map};
ghost use Rattle.std.specs.Option.{option_to_list};
ghost use Rattle.mill_answer.specs.Lines.{line};
ghost use Rattle.mill_answer.specs.Statuses.{status_code};
ghost use Rattle.mill_answer.specs.Faults.{coordinate_name, word_line, unfit_line, memory_line, fault_line, fault_status, file_words, job_fault_words, decimal_fault_code, part_fault_line, part_fault_code, program_fault_line, program_fault_code};

use crate::line::line_of;
use crate::status::Status;
use crate::word::Word::{Length, Number, Text};
use mill_base::{Unit, WantOfMemory};
use mill_decimal::DecFault;
use mill_job::JobFault;
use mill_load::{Coordinate, File, LoadFault, Unfit, WordFault};
use mill_ngc::NgcFault;
use mill_stl::StlFault;
use std::alloc::Global;

/// The line of a word that is refused.
pub fn line_of_word_fault(alloc: Global, refused: WordFault) -> Result<Vec<u8>, WantOfMemory>
    ensures { IfOk result (λ made. made.items ≡ word_line refused.coordinate refused.fault) }
{
    line_of(
        alloc,
        &[Text(b"refused"), Text(b"word")],
        &[
            Text(name_of_coordinate(refused.coordinate)),
            Text(code_of_decimal(refused.fault)),
        ],
    )
}

fn name_of_coordinate(coordinate: Coordinate) -> &'static [u8]
    ensures { result.now ≡ coordinate_name coordinate }
{
    match coordinate {
        Coordinate::X => b"x",
        Coordinate::Y => b"y",
        Coordinate::Z => b"z",
    }
}

/// The line of what keeps a command from its files.
pub fn line_of_fault(alloc: Global, fault: &LoadFault) -> Result<Vec<u8>, WantOfMemory>
    ensures { IfOk result (λ made. made.items ≡ fault_line fault.now) }
{
    match fault {
        LoadFault::Memory => line_of_memory(alloc),
        LoadFault::ReadFault(file) => line_of_file(alloc, b"read", b"fault", *file),
        LoadFault::Unfit(fault) => line_of_unfit(alloc, fault),
    }
}

/// The status of what keeps a command from its files.
pub fn status_of_fault(fault: &LoadFault) -> Status
    ensures { status_code result ≡ fault_status fault.now }
{
    match fault {
        LoadFault::Memory => Status::Memory,
        LoadFault::ReadFault(_) => Status::ReadFault,
        LoadFault::Unfit(_) => Status::Refused,
    }
}

// The line of too little memory.
fn line_of_memory(alloc: Global) -> Result<Vec<u8>, WantOfMemory>
    ensures { IfOk result (λ made. made.items ≡ memory_line) }
{
    line_of(alloc, &[Text(b"out")], &[Text(b"of"), Text(b"memory")])
}

/// The line of files that give a command nothing to work on.
pub fn line_of_unfit(alloc: Global, fault: &Unfit) -> Result<Vec<u8>, WantOfMemory>
    ensures { IfOk result (λ made. made.items ≡ unfit_line fault.now) }
{
    match fault {
        Unfit::TooLong(file) => line_of_file(alloc, b"refused", b"too-long", *file),
        Unfit::JobRefused(fault) => line_of_job_fault(alloc, b"job", fault),
        Unfit::PartRefused(fault) => line_of_part_fault(alloc, *fault),
        Unfit::ListRefused(fault) => line_of_job_fault(alloc, b"list", fault),
        Unfit::ProgramRefused(file, fault) => line_of_program_fault(alloc, *file, *fault),
        Unfit::PartTop { height, top, unit } => line_of_high_part(alloc, *height, *top, *unit),
    }
}

// The word that names a file, and of a program of a list its number.
fn words_of_file(file: File) -> (&'static [u8], Option<u32>)
    ensures { file_words file ≡ result.0.now ∷ map decimal (option_to_list result.1) }
{
    match file {
        File::Job => (b"job", None),
        File::Part => (b"part", None),
        File::Program => (b"program", None),
        File::List => (b"list", None),
        File::StepProgram(number) => (b"program", Some(number)),
    }
}

// The line of two words and of those that name a file.
fn line_of_file(
    alloc: Global,
    first: &[u8],
    second: &[u8],
    file: File,
) -> Result<Vec<u8>, WantOfMemory>
    ensures { IfOk result (λ made. made.items ≡ line (first.now ∷ second.now ∷ file_words file)) }
{
    let start = [Text(first), Text(second)];
    match words_of_file(file) {
        (name, None) => line_of(alloc, &start, &[Text(name)]),
        (name, Some(number)) => line_of(alloc, &start, &[Text(name), Number(u64::from(number))]),
    }
}

/// The line of the text of a job that is refused, or of a list: `file` is the word that names it.
fn line_of_job_fault(alloc: Global, file: &[u8], fault: &JobFault) -> Result<Vec<u8>, WantOfMemory>
    ensures { IfOk result (λ made. made.items ≡
        line (codes "refused" ∷ file.now ∷ job_fault_words fault.now)) }
{
    let start = [Text(b"refused"), Text(file)];
    match fault {
        JobFault::Syntax => line_of(alloc, &start, &[Text(b"syntax")]),
        JobFault::Unknown(name) => {
            line_of(alloc, &start, &[Text(b"unknown"), Text(name.as_bytes())])
        }
        JobFault::Missing(key) => {
            line_of(
                alloc,
                &start,
                &[Text(b"missing"), Text(key.name().as_bytes())],
            )
        }
        JobFault::WrongKind(key) => {
            line_of(alloc, &start, &[Text(b"kind"), Text(key.name().as_bytes())])
        }
        JobFault::Range(key) => {
            line_of(
                alloc,
                &start,
                &[Text(b"range"), Text(key.name().as_bytes())],
            )
        }
        JobFault::Relation(first, second) => line_of(
            alloc,
            &start,
            &[
                Text(b"relation"),
                Text(first.name().as_bytes()),
                Text(second.name().as_bytes()),
            ],
        ),
        JobFault::WantOfMemory => line_of(alloc, &start, &[Text(b"memory")]),
    }
}

/// The line of a part's text that is refused.
fn line_of_part_fault(alloc: Global, fault: StlFault) -> Result<Vec<u8>, WantOfMemory>
    ensures { IfOk result (λ made. made.items ≡ unfit_line (Unfit.PartRefused fault)) }
{
    line_of(
        alloc,
        &[Text(b"refused"), Text(b"part")],
        &[
            Text(b"line"),
            Number(line_of_part(fault)),
            Text(code_of_part(fault)),
        ],
    )
}

fn line_of_part(fault: StlFault) -> u64
    ensures { result ≡ part_fault_line fault }
{
    match fault {
        StlFault::Expected { line, .. } => line,
        StlFault::Coord { line, .. } => line,
        StlFault::TooManyTriangles { line } => line,
        StlFault::CutShort { line } => line,
        StlFault::WantOfMemory => 0,
    }
}

fn code_of_part(fault: StlFault) -> &'static [u8]
    ensures { result.now ≡ part_fault_code fault }
{
    match fault {
        StlFault::Expected { .. } => b"expected",
        StlFault::Coord { fault, .. } => code_of_decimal(fault),
        StlFault::TooManyTriangles { .. } => b"too-many-triangles",
        StlFault::CutShort { .. } => b"cut-short",
        StlFault::WantOfMemory => b"memory",
    }
}

fn code_of_decimal(fault: DecFault) -> &'static [u8]
    ensures { result.now ≡ decimal_fault_code fault }
{
    match fault {
        DecFault::Spelling => b"spelling",
        DecFault::TooManyDigits => b"too-many-digits",
        DecFault::OffGrid => b"off-grid",
        DecFault::OutOfRange => b"out-of-range",
    }
}

/// The line of a program's text that is refused.
fn line_of_program_fault(
    alloc: Global,
    file: File,
    fault: NgcFault,
) -> Result<Vec<u8>, WantOfMemory>
    ensures { IfOk result (λ made. made.items ≡ unfit_line (Unfit.ProgramRefused file fault)) }
{
    let more = [
        Text(b"line"),
        Number(line_of_program(fault)),
        Text(code_of_program(fault)),
    ];
    match words_of_file(file) {
        (name, None) => line_of(alloc, &[Text(b"refused"), Text(name)], &more),
        (name, Some(number)) => line_of(
            alloc,
            &[Text(b"refused"), Text(name), Number(u64::from(number))],
            &more,
        ),
    }
}

fn line_of_program(fault: NgcFault) -> u64
    ensures { result ≡ program_fault_line fault }
{
    match fault {
        NgcFault::LongLine { line } => line,
        NgcFault::Word { line, .. } => line,
        NgcFault::NotInProfile { line, .. } => line,
        NgcFault::LateTool { line } => line,
        NgcFault::Group { line, .. } => line,
        NgcFault::Twice { line, .. } => line,
        NgcFault::PathControl { line } => line,
        NgcFault::Start { line } => line,
        NgcFault::LateOffset { line } => line,
        NgcFault::NoUnits { line } => line,
        NgcFault::NoAbsolute { line } => line,
        NgcFault::NoMotion { line } => line,
        NgcFault::NoSpindle { line } => line,
        NgcFault::NoFeed { line } => line,
        NgcFault::Arc { line } => line,
        NgcFault::Cycle { line } => line,
        NgcFault::OffGrid { line } => line,
        NgcFault::OutOfRange { line } => line,
        NgcFault::TooManyMoves { line } => line,
        NgcFault::NoAxis { line } => line,
        NgcFault::NoEnd { line } => line,
        NgcFault::WantOfMemory => 0,
    }
}

fn code_of_program(fault: NgcFault) -> &'static [u8]
    ensures { result.now ≡ program_fault_code fault }
{
    match fault {
        NgcFault::LongLine { .. } => b"long-line",
        NgcFault::Word { .. } => b"word",
        NgcFault::NotInProfile { .. } => b"not-in-profile",
        NgcFault::LateTool { .. } => b"late-tool",
        NgcFault::Group { .. } => b"group",
        NgcFault::Twice { .. } => b"twice",
        NgcFault::PathControl { .. } => b"path-control",
        NgcFault::Start { .. } => b"start",
        NgcFault::LateOffset { .. } => b"late-offset",
        NgcFault::NoUnits { .. } => b"no-units",
        NgcFault::NoAbsolute { .. } => b"no-absolute",
        NgcFault::NoMotion { .. } => b"no-motion",
        NgcFault::NoSpindle { .. } => b"no-spindle",
        NgcFault::NoFeed { .. } => b"no-feed",
        NgcFault::Arc { .. } => b"arc",
        NgcFault::Cycle { .. } => b"cycle",
        NgcFault::OffGrid { .. } => b"off-grid",
        NgcFault::OutOfRange { .. } => b"out-of-range",
        NgcFault::TooManyMoves { .. } => b"too-many-moves",
        NgcFault::NoAxis { .. } => b"no-axis",
        NgcFault::NoEnd { .. } => b"no-end",
        NgcFault::WantOfMemory => b"memory",
    }
}

/// The line of a part whose greatest height is over the job's top.
fn line_of_high_part(
    alloc: Global,
    height: i32,
    top: i32,
    unit: Unit,
) -> Result<Vec<u8>, WantOfMemory>
    ensures { IfOk result (λ made. made.items ≡ unfit_line (Unfit.PartTop height top unit)) }
{
    line_of(
        alloc,
        &[Text(b"refused"), Text(b"part-top")],
        &[Length(height, unit), Text(b"top"), Length(top, unit)],
    )
}
