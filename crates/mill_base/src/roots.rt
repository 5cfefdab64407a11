ghost use Rattle.std.specs.Prelude.{◌≡◌, ◌+◌, ◌-◌, ◌*◌, ◌^◌, ◌<◌, ◌≤◌};

use crate::rounding::power_of_two;

/// The greatest number whose square is at most `n`.
pub fn floor_root(n: u64) -> u64
    ensures below { result * result ≤ n }
    ensures above { n < (result + 1) * (result + 1) }
{
    if n <= 1 {
        return n;
    }
    let low = power_at_root(n);
    root_from(n, low, 2 * low)
}

/// The greatest power of two whose square is at most `n`.
fn power_at_root(n: u64) -> u64
    requires { 0 < n }
    ensures below { result * result ≤ n }
    ensures above { n < (2 * result) * (2 * result) }
    ensures bound { result ≤ 2 ^ 31 }
{
    power_of_two(n.ilog2() / 2)
}

/// The root of `n`, rounded down, which is at least `low` and less than `high`, by halving.
fn root_from(n: u64, low: u64, high: u64) -> u64
    requires low_ok { low * low ≤ n }
    requires high_ok { n < high * high }
    requires high_most { high ≤ 2 ^ 32 }
    ensures below { result * result ≤ n }
    ensures above { n < (result + 1) * (result + 1) }
{
    let mut low = low;
    let mut high = high;
    while low + 1 < high {
        let middle = (low + high) / 2;
        if middle * middle <= n {
            low = middle;
        } else {
            high = middle;
        }
    }
    low
}

/// The least number whose square is at least `n`.
pub fn ceil_root(n: u64) -> u64
    ensures reaches { n ≤ result * result }
    ensures least { 0 < result → (result - 1) * (result - 1) < n }
{
    let root = floor_root(n);
    if root * root == n { root } else { root + 1 }
}
