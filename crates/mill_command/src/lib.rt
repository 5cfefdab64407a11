//! Reads the words of the command line: which command they ask for, with its words.
//!
//! It stands on the kit's `clap` and `thiserror`. [`read_words`] promises a command exactly where
//! clap's own test takes the words for this set of commands, with the values that clap's
//! definition gives; else it says whether clap answers help or a mistake. `specs/Set.antt` defines
//! the set, `specs/Requests.antt` what words ask for. [`place`], [`workers`], [`with_arg`],
//! [`value`], [`number`] and [`refusal_of`] serve another program's words.
#![tactic(auto)]

mod command;
mod refusal;
mod set;
mod words;

pub use command::{Command, number, value};
pub use refusal::Refusal;
pub use set::{VERSION, place, with_arg, workers};
pub use words::{read_words, refusal_of};
