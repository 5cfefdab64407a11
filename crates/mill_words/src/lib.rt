//! Reads one line of a program: whether a slash and a line number stand there, and its words.
//!
//! It stands on nothing but std, and takes no memory. `read_line` promises exactly what the line
//! says, or its first fault with the place, after NISTIR 6556 (RS274/NGC version 3), 3.3;
//! `plain_number_behind` takes the number of one word alone. `specs/Marks.antt` defines what
//! counts of a line, `specs/Lines.antt` what words that makes, `specs/Plain.antt` which numbers
//! are plain.
#![tactic(auto)]

mod decimals;
mod line;
mod line_words;
mod marks;
mod open_word;
mod plain;
mod stage;
mod word;

pub use decimals::{decimal_behind, digit_behind};
pub use line::{read_line, read_line_into};
pub use line_words::LineWords;
pub use plain::{LetterNumber, plain_number_behind};
pub use word::{Num, Word, WordFault};
