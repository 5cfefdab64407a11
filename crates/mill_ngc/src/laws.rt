//! Laws of what is read.
ghost use Rattle.mill_ngc.specs.Pieces.{PiecesJoin, ReadsProgram};
ghost use Rattle.mill_ngc.specs.RealWays.{ProgramIsForeseen};
ghost use Rattle.mill_ngc.specs.TextPaths.{ProgramIsRounded};

/// What is read doesn't depend on where the text is cut.
pub fn pieces_join()
    ensures { PiecesJoin }
{}

/// What is read of a whole text is what it means.
pub fn pieces_read_program()
    ensures { ReadsProgram }
{}

/// A law: the moves of a program in a machine's words are the ways that its own numbers give, one
/// by one, with each coordinate of their ends rounded to the nearest unit. Under a control that
/// rounds nothing they are exactly these ways.
pub fn program_is_rounded()
    ensures { ProgramIsRounded }
{}

/// A law: wherever the tool is before a program in a machine's words, each move that the machine
/// makes on it is one of the ways that the program's own numbers give, or lies at or over the
/// height of the start, or straight over an end of such a way, or goes straight up or down to that
/// height from where the tool is.
pub fn program_is_foreseen()
    ensures { ProgramIsForeseen }
{}
