ghost use Rattle.std.specs.Prelude.{◌≡◌, slice_index_or};

/// What a worker is about.
#[derive(Clone, Copy)]
pub enum Worker {
    Free,
    /// It has drawn this number, and has not yet taken the piece.
    Drawn(u64),
    /// It holds the piece of this number.
    Holding(u64),
    /// It found no number left, and does nothing more.
    Done,
}

/// The worker of this number. One that isn't there can do no more than one that has ended.
pub fn worker_of(workers: &[Worker], number: u32) -> Worker
    ensures { result ≡ slice_index_or workers.now number Worker.Done }
{
    match workers.get(number as usize) {
        Some(worker) => *worker,
        None => Worker::Done,
    }
}
