//! Reads one line of a program after another: what it settles, the moves that it makes, or its
//! fault.
//!
//! It stands on `mill_words` for the words of a line, on `mill_said` for what they say and on
//! `mill_base` for the moves, and takes no memory but theirs. It promises exactly what
//! `specs/Lines.antt` says of a line, after a profile of NISTIR 6556 (RS274/NGC version 3), and
//! that a refused line adds nothing (`specs/Kept.antt`). `specs/Motion.antt` has what a line does
//! that says this, and what is asked of it beside (`src/rules.rt` of `mill_said`).
//!
//! A program for a machine may have more words, whose settings and lines
//! `specs/MachineSettings.antt` and `specs/MachineLines.antt` tell of in the same way, over the
//! tables of `mill_control`. `specs/TextPaths.antt` has where such a line leads by its own numbers,
//! before they are rounded, and `specs/RealWays.antt` where a machine goes on it, wherever its tip
//! is before.
#![tactic(auto)]

mod line_reader;
mod machine;
mod machine_arc;
mod machine_hole;
mod machine_line;
mod machine_settings;
mod motion;
mod plain_move;
mod progress;
mod quick_line;

pub use line_reader::{LONGEST_LINE, LineReader};
