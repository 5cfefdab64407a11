ghost use Rattle.std.specs.Prelude.{◌≡◌};
ghost use Rattle.mill_ffi_data.specs.declared.fault.Fault.TheVariants as fault;

use mill_base::WantOfMemory;

/// Why a call answers nothing.
#[derive(Clone, Copy, Debug, PartialEq, Eq)]
pub enum Fault {
    /// There was not enough memory.
    Memory,
    /// The cutter is of no kind, or its radius or its slope is out of range.
    Cutter,
    /// The holder's radius or its stickout is out of range.
    Holder,
    /// A coordinate of a triangle is out of range.
    Triangle,
    /// There are more triangles than 32 bits number.
    TooManyTriangles,
    /// A coordinate of a place is out of range.
    Place,
    /// The floor is out of range.
    Floor,
    /// The array for the results is not as long as they are many.
    Room,
    /// The number of the unit is that of none.
    Unit,
    /// The number that says how a coordinate between two units is read says nothing.
    Snap,
    /// A word of a part's text is another one than the form has there.
    Word,
    /// A word in a coordinate's place of a part's text is refused as a decimal.
    Coordinate,
    /// A part's text has more than 200,000 triangles.
    LongText,
    /// A part's text ends before its first solid, or within a solid.
    CutShort,
    /// A number of a fiber is out of range, or its first position is after its last.
    Fiber,
    /// The array for the counts is not as long as the fibers are many.
    CountsRoom,
    /// A job's text is no TOML document, or isn't UTF-8.
    JobSyntax,
    /// A job's text has a key that no job has.
    JobUnknown,
    /// A job's text lacks a key.
    JobMissing,
    /// The value at a key of a job's text is of another type.
    JobKind,
    /// The value at a key of a job's text is out of its range.
    JobRange,
    /// The values at two keys of a job's text don't fit together.
    JobRelation,
    /// The part's greatest height is over the job's top.
    PartTop,
    /// A program's text is refused.
    Program,
    /// The height of a waterline is out of range.
    Height,
    /// An end of the lattice is out of range, its ends are the wrong way round, or its step is under a unit.
    Lattice,
    /// The lattice, or one that the paths of a plan go over, has more than 4,000,000 nodes.
    TooManyNodes,
    /// A plan has more than 1,000,000 moves.
    TooManyMoves,
    /// A plan leaves a column of the stock higher than it may.
    Uncut,
    /// On a move of a plan the holder would touch what the moves before it left of a column.
    Held,
}

impl Fault {
    ghost use Rattle.std.specs.Prelude.{◌<ℤ◌, pos};
    ghost use Rattle.mill_ffi_data.specs.Faults.{fault_code};

    /// The status that tells it, which is over 0.
    pub fn code(self) -> i32
        ensures value { result ≡ fault_code self }
        ensures some { pos 0 <ℤ result }
    {
        match self {
            Fault::Memory => 1,
            Fault::Cutter => 2,
            Fault::Holder => 3,
            Fault::Triangle => 4,
            Fault::TooManyTriangles => 5,
            Fault::Place => 6,
            Fault::Floor => 7,
            Fault::Room => 8,
            Fault::Unit => 9,
            Fault::Snap => 10,
            Fault::Word => 11,
            Fault::Coordinate => 12,
            Fault::LongText => 13,
            Fault::CutShort => 14,
            Fault::Fiber => 15,
            Fault::CountsRoom => 16,
            Fault::JobSyntax => 17,
            Fault::JobUnknown => 18,
            Fault::JobMissing => 19,
            Fault::JobKind => 20,
            Fault::JobRange => 21,
            Fault::JobRelation => 22,
            Fault::PartTop => 23,
            Fault::Program => 24,
            Fault::Height => 25,
            Fault::Lattice => 26,
            Fault::TooManyNodes => 27,
            Fault::TooManyMoves => 28,
            Fault::Uncut => 29,
            Fault::Held => 30,
        }
    }
}

impl From<WantOfMemory> for Fault {
    ghost from_gives = { λ _ told. told ≡ fault.Memory };

    fn from(_: WantOfMemory) -> Self {
        Fault::Memory
    }
}
