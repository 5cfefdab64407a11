//! What is printed, and the status that it ends with.
ghost use Rattle.std.specs.Prelude.{◌-◌, ◌^◌, ◌<◌, OnErr, OnOk};
ghost use Rattle.mill_io.specs.Views.{IsPartWritten, IsWritten};
ghost use Rattle.mill_answer.specs.Faults.{read_fault_line};
ghost use Rattle.mill_answer.specs.Prints.{Prints, PrintsFault, PrintsMade, PrintsShort};
ghost use Rattle.mill_answer.specs.Statuses.{status_code};

use crate::faults::line_of_unfit;
use crate::status::Status;
use itoa::Buffer;
use mill_base::WantOfMemory;
use mill_io::{Failed, Sink, write_whole};
use mill_load::{File, LoadFault};
use std::alloc::Global;

/// Prints what keeps a command from its files.
pub fn tell_fault<O: Sink>(alloc: Global, fault: LoadFault, out: &mut O) -> Status
    requires { (O.shows out.old).faults < 2 ^ 64 - 1 }
    ensures { PrintsFault fault (status_code result) (O.shows out.old) (O.shows out.new) }
{
    match fault {
        LoadFault::Memory => tell_memory(out),
        LoadFault::ReadFault(file) => tell_read_fault(file, out),
        LoadFault::Unfit(fault) => tell_made(line_of_unfit(alloc, &fault), Status::Refused, out),
    }
}

/// Prints that a file couldn't be read. It takes no memory, so that this is told where that is short too.
fn tell_read_fault<O: Sink>(file: File, out: &mut O) -> Status
    requires { (O.shows out.old).faults < 2 ^ 64 - 1 }
    ensures { Prints (read_fault_line file) 6 (status_code result)
        (O.shows out.old) (O.shows out.new) }
{
    match file {
        File::Job => tell(out, b"read fault job\n", Status::ReadFault),
        File::Part => tell(out, b"read fault part\n", Status::ReadFault),
        File::Program => tell(out, b"read fault program\n", Status::ReadFault),
        File::List => tell(out, b"read fault list\n", Status::ReadFault),
        File::StepProgram(number) => match write_read_fault(number, out) {
            Ok(()) => Status::ReadFault,
            Err(Failed) => Status::WriteFault,
        },
    }
}

// Writes, in three parts, that a list's program of this number couldn't be read. The first part that
// fails ends it.
fn write_read_fault<O: Sink>(number: u32, out: &mut O) -> Result<(), Failed>
    ensures whole { OnOk result (IsWritten (read_fault_line (File.StepProgram number))
        (O.shows out.old) (O.shows out.new)) }
    ensures part { OnErr result (IsPartWritten (read_fault_line (File.StepProgram number))
        (O.shows out.old) (O.shows out.new)) }
{
    let mut buffer = Buffer::new();
    write_whole(out, b"read fault program ")?;
    write_whole(out, buffer.format(number).as_bytes())?;
    write_whole(out, b"\n")
}

/// Prints a line with its status, or that there was no memory for it.
pub fn tell_made<O: Sink>(
    line: Result<Vec<u8>, WantOfMemory>,
    status: Status,
    out: &mut O,
) -> Status
    requires { (O.shows out.old).faults < 2 ^ 64 - 1 }
    ensures { PrintsMade line (status_code status) (status_code result)
        (O.shows out.old) (O.shows out.new) }
{
    match line {
        Ok(line) => tell(out, &line, status),
        Err(WantOfMemory) => tell_memory(out),
    }
}

/// Prints that memory was short. It takes none itself.
pub fn tell_memory<O: Sink>(out: &mut O) -> Status
    requires { (O.shows out.old).faults < 2 ^ 64 - 1 }
    ensures { PrintsShort (status_code result) (O.shows out.old) (O.shows out.new) }
{
    tell(out, b"out of memory\n", Status::Memory)
}

/// Prints a line, and answers the status unless the printing fails.
pub fn tell<O: Sink>(out: &mut O, line: &[u8], status: Status) -> Status
    requires { (O.shows out.old).faults < 2 ^ 64 - 1 }
    ensures { Prints line.now (status_code status) (status_code result)
        (O.shows out.old) (O.shows out.new) }
{
    match write_whole(out, line) {
        Ok(()) => status,
        Err(Failed) => Status::WriteFault,
    }
}
