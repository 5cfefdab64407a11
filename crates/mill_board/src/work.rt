ghost use Rattle.std.specs.Prelude.{◌≡◌, ℕ, ◌+◌, ◌<◌, ◌≤◌, false, IfOk, IsTrue};
ghost use Rattle.mill_board.specs.Works.{HasPassedTo, IsDue, Means};

use mill_base::WantOfMemory;
use std::alloc::Global;

/// A work, and how many turns there are. The turns of each piece lie under that number.
#[derive(Drop)]
pub struct Terms<W> {
    pub work: W,
    pub turns: u64,
}

/// A piece of work on its way: its number, the piece itself, its next turn, and whether it has failed.
/// Where it has, `next` is the turn at which it did.
#[derive(Drop)]
pub struct Held<P> {
    pub number: u64,
    pub piece: P,
    pub next: u64,
    pub failed: bool,
}

/// Work that workers share, in numbered pieces. Each piece has a span of turns, and may fail at one of
/// them; its later turns are then not done.
///
/// A work means how many pieces it has, their spans, what each is at the start, whether a turn of it
/// passes, and when a piece is as its turns leave it. Nothing else may come of a turn, whichever worker
/// does it.
pub trait Work: Drop + Send + Sync {
    /// What a turn changes.
    type Piece: Drop + Send;

    ghost means: { Means Self Self.Piece };

    /// The turns of the piece of this number: from the first on, and under the second.
    fn span(&self, number: u64) -> (u64, u64)
        requires { number < means.pieces self.now }
        ensures first { result.0 ≡ means.first self.now number }
        ensures limit { result.1 ≡ means.limit self.now number };

    /// The piece of this number, with no turn done.
    fn fresh(&self, alloc: Global, number: u64) -> Result<Self::Piece, WantOfMemory>
        requires { number < means.pieces self.now }
        ensures start { IfOk result (λ piece. piece ≡ means.start self.now number) }
        ensures is_at { IfOk result (means.IsAt self.now number (means.first self.now number)) };

    /// Goes over turns of a piece that are known to pass, from this one on, and says which turn is then
    /// next: this one where it goes over none, as it does unless a work says otherwise. The piece is as
    /// the turns before the next one leave it. Turns that are gone over pass whenever they are done and
    /// whoever does them, so no worker looks at the least failing turn before each of them.
    fn pass_over(&self, _piece: &mut Self::Piece, turn: u64) -> u64
        requires { (n : ℕ) × IsDue means self.now n turn _piece.old }
        ensures onward { turn ≤ result }
        ensures passed { (n : ℕ) → IsDue means self.now n turn _piece.old → HasPassedTo means self.now n result _piece.new }
    {
        turn
    }

    /// Does a turn of a piece that is as the turns before it have left it, where none of them has
    /// failed. It says whether the turn passes.
    fn turn(&self, piece: &mut Self::Piece, turn: u64) -> bool
        requires { (n : ℕ) × IsDue means self.now n turn piece.old }
        ensures passed { IsTrue result → (n : ℕ) → IsDue means self.now n turn piece.old → means.Passes self.now n turn × means.IsAt self.now n (turn + 1) piece.new }
        ensures failed { result ≡ false → (n : ℕ) → IsDue means self.now n turn piece.old → (¬ means.Passes self.now n turn) × means.IsFailed self.now n turn piece.new };
}
