ghost use Rattle.std.specs.Prelude.{◌≡◌, false, IsTrue, IfOk, OnOk, IfErr, Some};
ghost use Rattle.mill_base.specs.declared.limits.TheConstants.{MAX_RADIUS};
ghost use Rattle.mill_base.specs.Sizes.{HasRadius, IsCutter, IsSlope};
ghost use Rattle.mill_ffi_data.specs.Raw.{IsSoundTool, IsStickout, SaysHolder};
ghost use Rattle.mill_ffi_data.specs.Raw.{cutter_of, holder_of, tool_of};
ghost use Rattle.mill_ffi_data.specs.Tests.{IsToolCause};

use crate::fault::Fault;
use crate::raw::RawTool;
use mill_base::{Cutter, MAX_COORDINATE, MAX_RADIUS, Solid, Tool};

/// The tool of these numbers.
pub fn tool_from(raw: &RawTool) -> Result<Tool, Fault>
    ensures tool { IfOk result (λ tool. tool_of raw.now ≡ Some tool) }
    ensures sound { OnOk result (IsSoundTool raw.now) }
    ensures cause { IfErr result (IsToolCause raw.now) }
{
    let Some(cutter) = cutter_from(raw) else {
        return Err(Fault::Cutter);
    };
    if !is_cutter(cutter) {
        return Err(Fault::Cutter);
    }
    Ok(Tool {
        cutter: Solid::at_tip(cutter),
        holder: holder_from(raw)?,
    })
}

/// The cutter of these numbers, which may be out of range; none where the kind is none.
fn cutter_from(raw: &RawTool) -> Option<Cutter>
    ensures { result ≡ cutter_of raw.now }
{
    let RawTool {
        radius,
        rise,
        run,
        ..
    } = *raw;
    match raw.kind {
        1 => Some(Cutter::Flat { radius }),
        2 => Some(Cutter::Ball { radius }),
        3 => Some(Cutter::Cone { radius, rise, run }),
        _ => None,
    }
}

/// The holder of these numbers; none where both are 0.
fn holder_from(raw: &RawTool) -> Result<Option<Solid>, Fault>
    ensures holder { IfOk result (λ holder. holder ≡ holder_of raw.now) }
    ensures sound { OnOk result (SaysHolder raw.now) }
    ensures cause { IfErr result (IsToolCause raw.now) }
{
    let (radius, stickout) = (raw.holder_radius, raw.stickout);
    if radius == 0 && stickout == 0 {
        return Ok(None);
    }
    if !is_radius(radius) || !is_stickout(stickout) {
        return Err(Fault::Holder);
    }
    Ok(Some(Solid::new(Cutter::Flat { radius }, stickout)))
}

/// Whether the numbers of a cutter are in their ranges.
fn is_cutter(cutter: Cutter) -> bool
    ensures yes { IsTrue result → IsCutter cutter }
    ensures no { result ≡ false → ¬ IsCutter cutter }
{
    match cutter {
        Cutter::Flat { radius } => is_radius(radius),
        Cutter::Ball { radius } => is_radius(radius),
        Cutter::Cone { radius, rise, run } => is_radius(radius) && is_slope(rise, run),
    }
}

fn is_radius(radius: i32) -> bool
    ensures yes { IsTrue result → HasRadius radius MAX_RADIUS }
    ensures no { result ≡ false → ¬ HasRadius radius MAX_RADIUS }
{
    1 <= radius && radius <= MAX_RADIUS
}

fn is_slope(rise: i32, run: i32) -> bool
    ensures yes { IsTrue result → IsSlope rise run }
    ensures no { result ≡ false → ¬ IsSlope rise run }
{
    if rise < 1 || 100 < rise {
        return false;
    }
    if run < 1 || 100 < run {
        return false;
    }
    rise <= 16 * run
}

fn is_stickout(stickout: i32) -> bool
    ensures yes { IsTrue result → IsStickout stickout }
    ensures no { result ≡ false → ¬ IsStickout stickout }
{
    1 <= stickout && stickout <= MAX_COORDINATE as i32
}
