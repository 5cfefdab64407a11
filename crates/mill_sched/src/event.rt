/// Something that a worker does, with the worker's number. Workers are counted from 0.
#[derive(Clone, Copy, PartialEq, Eq, Debug)]
pub enum Event {
    /// A free worker draws the next number.
    Draw(u32),
    /// A worker that has drawn a number takes the piece of that number.
    Take(u32),
    /// A worker looks at the least value, and does the next turn of the piece that it holds, if there
    /// is one that it has to do.
    Look(u32),
    /// A worker lowers the least value to the turn at which the piece that it holds has failed.
    Lower(u32),
    /// A worker puts the piece that it holds back.
    Put(u32),
}

/// What came of an event.
#[derive(Clone, Copy, PartialEq, Eq, Debug)]
pub enum Outcome {
    /// The worker has drawn this number.
    Drew(u64),
    /// There was no number left, and the worker has ended.
    Ended,
    /// The worker holds its piece.
    Took,
    /// The turn was done and has passed.
    Passed,
    /// The turn was done, and the piece has failed at it.
    Failed,
    /// The piece has no turn that has to be done.
    Stopped,
    /// The least value is now at most the turn at which the piece has failed.
    Lowered,
    /// The piece is home again, and the worker is free.
    Back,
    /// That worker can't do that now, or isn't there.
    Idle,
}
