//! All that camreport does: the report on a job, a part and a program.
//!
//! It stands on `mill_load` for the files, on `mill_answer` for lines and statuses, on
//! `mill_report` and `mill_document` for what a report tells, and on `clap` for the words. `run`
//! takes the words of a call, reads the three files that they name, over any store of files, and
//! prints one document to any sink; `end` gives the process its exit status. What `run` promises
//! goes from bytes to bytes, whatever the files hold, if they hold what the reads gave.
//! `one_document` is the law that files that are told have one document. Definitions:
//! `specs/Words`, what words ask for; `specs/Reports`, what a report tells; `specs/Outcomes`, what
//! a call comes to and how it is told; `specs/Headline`, what that means. What stands in
//! `specs/inner` serves the functions within.
#![tactic(auto)]

mod ending;
mod failing;
mod fault;
mod laws;
mod lifts;
mod line;
mod lists;
mod load;
mod program;
mod source;
mod sources;
mod tell;
mod whole;
mod words;

pub use ending::end;
pub use laws::one_document;
pub use program::run;
