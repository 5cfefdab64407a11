//! Where the search for a triangle's stretch begins.
ghost use Rattle.std.specs.Prelude.{◌≤ℤ◌, IfSome};
ghost use Rattle.mill_base.specs.Numbers.{Within};
ghost use Rattle.mill_base.specs.declared.limits.TheConstants.{MAX_COORDINATE};
ghost use Rattle.mill_push.specs.inner.Known.{HasRoom, IsAt, IsRunInRange};

use crate::fiber::Run;
use mill_hints::Aims;

/// How many touches near the aim of each end a triangle may take besides those of a search by halves
/// in the rest of its window, and one at the start: the fewer positions of those from `from` to `to`
/// are left, the more. There is none where more than half are left: the search by halves takes all
/// the touches that a triangle may.
pub fn spare_touches(rest: Run, from: i32, to: i32) -> Option<u32>
    requires rest_ok { IsRunInRange rest }
    requires order { rest.first ≤ℤ rest.last }
    requires from_ok { Within MAX_COORDINATE from }
    requires to_ok { Within MAX_COORDINATE to }
    requires from_to { from ≤ℤ to }
    ensures { IfSome result (HasRoom from to rest) }
{
    let count = rest.last.abs_diff(rest.first) + 1;
    let all = to.abs_diff(from) + 1;
    if 32 * count <= all {
        Some(4)
    } else if 16 * count <= all {
        Some(3)
    } else if 8 * count <= all {
        Some(2)
    } else if 2 * count <= all {
        Some(0)
    } else {
        None
    }
}

/// Where the search in the rest of a window begins: at the end that was cut off, since a triangle
/// mostly reaches on from what is known; else in the middle of where its stretch is expected.
pub fn start_in(rest: Run, window: Run, middle: i32) -> i32
    requires order { rest.first ≤ℤ rest.last }
    requires middle { IsAt rest middle }
    ensures { IsAt rest result }
{
    if window.first < rest.first {
        return rest.first;
    }
    if rest.last < window.last {
        return rest.last;
    }
    middle
}

/// The middle of where a stretch in the rest of a window is expected: halfway between its aims, or in
/// the middle of the rest.
pub fn middle_of(rest: Run, aims: Aims) -> i32
    requires rest_ok { IsRunInRange rest }
    requires order { rest.first ≤ℤ rest.last }
    ensures { IsAt rest result }
{
    match aims.middle() {
        Some(at) => at.clamp(rest.first, rest.last),
        None => rest.first + (rest.last - rest.first) / 2,
    }
}
