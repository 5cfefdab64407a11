ghost use Rattle.std.specs.Prelude.{◌≡◌, ◌*◌, ◌^◌, ◌<◌, ◌≤◌, max};
ghost use Rattle.mill_base.specs.Ranges.{MoveInRange};
ghost use Rattle.mill_base.specs.declared.limits.TheConstants.{MAX_DEPTH};
ghost use Rattle.mill_sweep.specs.Leaves.{depth_of, length_x, length_y, length_z};

use mill_base::Move;

/// How often the move is halved at most: the least `d` for which its lengths in x, y and z are each
/// at most 2 to the power `d`.
pub fn depth(step: &Move) -> u32
    ensures value { result ≡ depth_of step.now }
    ensures most { MoveInRange step.now → result ≤ MAX_DEPTH }
{
    halvings(longest(step))
}

/// The greatest of the move's lengths in x, y and z.
fn longest(step: &Move) -> u32
    ensures { result ≡ max (max (length_x step.now) (length_y step.now)) (length_z step.now) }
{
    let x = step.to.x.abs_diff(step.from.x);
    let y = step.to.y.abs_diff(step.from.y);
    let z = step.to.z.abs_diff(step.from.z);
    x.max(y).max(z)
}

/// The least `d` for which the length is at most 2 to the power `d`.
fn halvings(length: u32) -> u32
    ensures reaches { length ≤ 2 ^ result }
    ensures least { 0 < result → 2 ^ result < 2 * length }
    ensures most { result ≤ 32 }
{
    if length <= 1 {
        return 0;
    }
    32 - (length - 1).leading_zeros()
}
