//! What the words of a program's line say, by the tables of words, or the first fault among them.
//!
//! It stands on `mill_words` for the words of a line and on `mill_base` for the kinds of moves, and
//! takes no memory. It promises exactly what `specs/Said.antt` says of a line, after a profile of
//! NISTIR 6556 (RS274/NGC version 3), whose table of words `specs/Profile.antt` has.
//!
//! A program for a machine may have more words, which `specs/MachineTable.antt`,
//! `specs/MachineTakes.antt` and `specs/MachineSaid.antt` tell of in the same way, over the tables
//! of `mill_control`. What a line does that says this is no part of it, but `src/rules.rt` has what
//! a reader of lines may ask, and `src/fault.rt` all that may be wrong with a program.
#![tactic(auto)]

mod before;
mod fault;
mod groups;
mod machine_said;
mod machine_table;
mod machine_takes;
mod numbers;
mod profile;
mod rules;
mod said;

pub use before::Before;
pub use fault::NgcFault;
pub use machine_said::{MachineSaid, Motion, Up};
pub use machine_table::{Meaning, Row};
pub use machine_takes::{Takes, is_at_most};
pub use numbers::{is_at_or_over, is_nought, is_over_zero, signed, units_of};
pub use profile::{Effect, Entry, Mode};
pub use rules::{Control, Rules, Words};
pub use said::Said;
