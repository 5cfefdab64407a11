/// One of the files that a command reads. The first three are in the order of work of `verify`.
#[derive(Clone, Copy, Debug, PartialEq, Eq)]
pub enum File {
    Job,
    Part,
    Program,
    /// The list of programs of `rest`.
    List,
    /// The program of this step of that list, counted from 0.
    StepProgram(u32),
}
