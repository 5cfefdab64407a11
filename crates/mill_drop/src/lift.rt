ghost use Rattle.std.specs.Prelude.{◌≡◌, ◌⊎◌, ◌+ℤ◌, ◌-ℤ◌, ◌≤ℤ◌};
ghost use Rattle.mill_drop.specs.Drops.{IsToolHeight};
ghost use Rattle.mill_drop.specs.inner.Spindles.{IsTipHeight};

use mill_base::{MAX_COORDINATE, Solid};

/// The height at which the search for the solid's own tip begins, with the tool's tip from `z` on:
/// that of the solid's tip itself, or the greatest coordinate, over which there is no part point.
pub fn tip_from(solid: Solid, z: i32) -> i32
    requires { IsToolHeight z }
    ensures under { result ≤ℤ (z +ℤ solid.lift) }
    ensures bound { IsTipHeight result }
{
    let tip = z + solid.lift();
    tip.min(MAX_COORDINATE as i32)
}

/// The least height of the tool's tip, from `z` on, with the solid's own tip at `tip` or over it.
pub fn tool_from(solid: Solid, tip: i32, z: i32) -> i32
    requires tip_ok { IsTipHeight tip }
    requires z_ok { IsToolHeight z }
    ensures kept { z ≤ℤ result }
    ensures over { (tip -ℤ solid.lift) ≤ℤ result }
    ensures least { (result ≡ z) ⊎ (result ≡ tip -ℤ solid.lift) }
    ensures bound { IsToolHeight result }
{
    let height = tip - solid.lift();
    height.max(z)
}
