ghost use Rattle.std.specs.Prelude.{◌≡◌, ◌*◌, ◌<◌, ◌≤◌, false, length, None, IsTrue};
ghost use Rattle.mill_base.specs.Ranges.{MovesInRange};
ghost use Rattle.mill_dexel.specs.Turns.{move_at};
ghost use Rattle.mill_verify.specs.Blocks.{IsBlockStopped, block_count, block_of, turned};
ghost use Rattle.mill_verify.specs.Clashes.{IsClear};

use crate::clash::{Clash, first_clash};
use mill_base::Move;
use mill_job::Job;
use mill_part::SortedPart;
use std::marker::Model;

/// How many moves stand in a block.
const LENGTH: u64 = 64;

/// Some moves of a program, up to 64 that follow on each other, for the tests against the part
/// and the fixtures. It goes through them one by one, up to one on which cutter or holder clashes.
/// Moves are counted from 0.
#[derive(Drop)]
pub struct Block {
    first: u64,
    limit: u64,
    next: u64,
    failed: Option<Clash>,
}

impl Model for Block {
    ghost use Rattle.mill_verify.specs.Blocks.{BlockState};

    ghost Value = { BlockState };

    ghost view = { λ b. record { first = b.first; limit = b.limit; next = b.next; failed = b.failed } };
}

impl Block {
    /// In how many blocks the first `turns` moves stand.
    pub fn count(turns: u64) -> u64
        ensures { result ≡ block_count turns }
    {
        turns.div_ceil(LENGTH)
    }

    /// The block of this number, of those in which the first `turns` moves stand, before its first turn.
    /// Blocks are counted from 0, and each but the last has 64 moves.
    pub fn new(number: u64, turns: u64) -> Block
        requires { number * 64 < turns }
        ensures { result ≡ block_of turns number }
    {
        let first = number * LENGTH;
        Block {
            first,
            limit: first + LENGTH.min(turns - first),
            next: first,
            failed: None,
        }
    }

    /// The number of the block's first move.
    pub fn first(&self) -> u64
        ensures { result ≡ self.now.first }
    {
        self.first
    }

    /// The number of the move after the block's last one.
    pub fn limit(&self) -> u64
        ensures { result ≡ self.now.limit }
    {
        self.limit
    }

    /// The number of the next move that has its turn, or of the one that failed.
    pub fn next(&self) -> u64
        ensures { result ≡ self.now.next }
    {
        self.next
    }

    /// How a move of the block failed, if one did.
    pub fn failed(&self) -> Option<Clash>
        ensures { result ≡ self.now.failed }
    {
        self.failed
    }

    /// The turn of move `t`, the block's next one, in a block that hasn't failed: the move is
    /// tested against the part and then against the fixtures, each for the cutter and then for the
    /// holder, where the job has one. The answer is true where both clear them; where they don't,
    /// how it failed is noted, and the answer is false.
    pub fn turn(&mut self, job: &Job, part: &SortedPart, moves: &[Move], t: u64) -> bool
        requires moves_ok { MovesInRange moves.now }
        requires unfailed { self.old.failed ≡ None }
        requires next { t ≡ self.old.next }
        requires there { t < self.old.limit }
        requires within { self.old.limit ≤ length moves.now }
        ensures clears { IsTrue result → IsClear job.now.fields part.now (move_at moves.now t) }
        ensures passed { IsTrue result → self.new ≡ turned self.old }
        ensures stopped { result ≡ false → IsBlockStopped job.now.fields part.now moves.now self.old self.new }
    {
        if let Some(clash) = first_clash(job, part, &moves[t as usize]) {
            self.failed = Some(clash);
            return false;
        }
        self.next = t + 1;
        true
    }
}
