/// A program that was planned, and what the verifier says of it.
#[derive(Drop)]
pub struct Planned {
    /// Its text: G-codes as `mill_ngc` writes them.
    pub program: Vec<u8>,
    /// How many moves it has.
    pub moves: u64,
    /// How many columns the job has.
    pub columns: u64,
    /// The most that any column's top stands over its greatest covered height, in units.
    pub most_left: i32,
}
