ghost use Rattle.std.specs.Prelude.{◌≡◌, ◌≤◌, ◌≤ℤ◌, length};
ghost use Rattle.mill_dexel.specs.Bands.{IsBand};

use mill_base::Move;

/// Where some of a program's moves go in y: those from number `first` on, before `end`, go from
/// `low` to `high`.
#[derive(Clone, Copy)]
pub(crate) struct Band {
    pub first: u64,
    pub end: u64,
    pub low: i32,
    pub high: i32,
}

/// The band of the moves from number `first` on, before `end`.
pub(crate) fn band_of(moves: &[Move], first: u64, end: u64) -> Band
    requires { end ≤ length moves.now }
    ensures first { result.first ≡ first }
    ensures end { result.end ≡ end }
    ensures band { IsBand moves.now result }
{
    let mut low = i32::MAX;
    let mut high = i32::MIN;
    for t in first..end {
        let step = &moves[t as usize];
        low = low_of(low, step.from.y, step.to.y);
        high = high_of(high, step.from.y, step.to.y);
    }
    Band {
        first,
        end,
        low,
        high,
    }
}

/// The least of three places.
fn low_of(a: i32, b: i32, c: i32) -> i32
    ensures first { result ≤ℤ a }
    ensures second { result ≤ℤ b }
    ensures third { result ≤ℤ c }
{
    a.min(b).min(c)
}

/// The greatest of three places.
fn high_of(a: i32, b: i32, c: i32) -> i32
    ensures first { a ≤ℤ result }
    ensures second { b ≤ℤ result }
    ensures third { c ≤ℤ result }
{
    a.max(b).max(c)
}
