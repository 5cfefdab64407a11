ghost use Rattle.std.specs.Prelude.{◌≡◌, ◌+◌, ◌-◌, ◌*◌, ◌^◌, ◌<◌, ◌≤◌, ◌≤ℤ◌, pos};
ghost use Rattle.mill_sweep.specs.Leaves.{diagonal_of};
ghost use Rattle.mill_sweep.specs.Widths.{longest};

/// The least whole number whose square is at least the sum of the squares.
pub(crate) fn diagonal(ex: u32, ey: u32) -> i32
    requires ex_ok { ex ≤ longest }
    requires ey_ok { ey ≤ longest }
    ensures value { result ≡ pos (diagonal_of ex ey) }
    ensures bound { pos 0 ≤ℤ result }
    ensures most { result ≤ℤ pos (2 * longest) }
{
    hypotenuse(ex.max(ey), ex.min(ey)) as i32
}

/// The least whole number whose square is at least the sum of the squares of two lengths, of which
/// it is known which is the longer.
///
/// The root is from the longer one on, and at most half of the shorter one over it.
fn hypotenuse(longer: u32, shorter: u32) -> u64
    requires longer_ok { longer ≤ longest }
    requires order { shorter ≤ longer }
    ensures reaches { longer * longer + shorter * shorter ≤ result * result }
    ensures least { 0 < result → (result - 1) * (result - 1) < longer * longer + shorter * shorter }
    ensures bound { result ≤ 2 * longest }
{
    if shorter == 0 {
        return u64::from(longer);
    }
    root_between(
        square(longer) + square(shorter),
        u64::from(longer),
        u64::from(longer + shorter.div_ceil(2)),
    )
}

/// The least number whose square is at least `square`, where that of `under` is less and that of
/// `over` isn't.
fn root_between(square: u64, under: u64, over: u64) -> u64
    requires under_ok { under * under < square }
    requires over_ok { square ≤ over * over }
    requires order { under < over }
    requires bound { over ≤ 2 * longest }
    ensures reaches { square ≤ result * result }
    ensures least { (result - 1) * (result - 1) < square }
    ensures bound { result ≤ over }
{
    let mut low = under;
    let mut high = over;
    while low + 1 < high {
        let middle = (low + high) / 2;
        if middle * middle < square {
            low = middle;
        } else {
            high = middle;
        }
    }
    high
}

/// The square of a length.
fn square(length: u32) -> u64
    requires { length ≤ longest }
    ensures value { result ≡ length * length }
    ensures bound { result ≤ longest * longest }
{
    u64::from(length) * u64::from(length)
}
