ghost use Rattle.std.specs.Prelude.{◌≡◌};
ghost use Rattle.std.specs.Process.{exit_status};
ghost use Rattle.mill_answer.specs.Statuses.{status_code};

use std::process::ExitCode;

/// How a run ends.
#[derive(Clone, Copy, Debug, PartialEq, Eq)]
pub enum Status {
    /// The program, or each program of a list, is accepted, a planned program or a stock is stored, the
    /// drop height or the chains at a height are told, a sample's program is verified, or clap's help or
    /// version is shown.
    Done,
    /// The words aren't taken.
    Words,
    /// A written test fails.
    Rejected,
    /// A text is refused or too long, or the part stands over the stock.
    Refused,
    /// There was not enough memory.
    Memory,
    /// A file could not be read.
    ReadFault,
    /// A line could not be printed, or a program or a stock could not be stored.
    WriteFault,
    /// A plan leaves stock uncut, or its holder would touch stock that is still there.
    Uncut,
    /// A plan is larger than the planner goes, a lattice has too many nodes, or the surface of a stock
    /// has too many triangles.
    TooLarge,
}

impl Status {
    /// The exit status of the process.
    pub fn code(self) -> u8
        ensures { result ≡ status_code self }
    {
        match self {
            Status::Done => 0,
            Status::Words => 2,
            Status::Rejected => 3,
            Status::Refused => 4,
            Status::Memory => 5,
            Status::ReadFault => 6,
            Status::WriteFault => 7,
            Status::Uncut => 8,
            Status::TooLarge => 9,
        }
    }
}

/// The code that a process ends with that has this status.
pub fn exit_code_of(status: Status) -> ExitCode
    ensures { exit_status result ≡ status_code status }
{
    ExitCode::from(status.code())
}
