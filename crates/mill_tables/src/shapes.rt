//! Cutters, holders and tools.
ghost use Rattle.std.specs.Prelude.{◌≡◌, ◌≤ℤ◌, pos, IfOk, IfSome};
ghost use Rattle.mill_base.specs.Sizes.{IsCutter, IsCutterUpTo, IsSlope, IsWideCutter};

use crate::values::number;
use crate::words::first_word;
use mill_base::{Cutter, MAX_COORDINATE, MAX_RADIUS, MAX_WIDE_RADIUS, Solid, Tool};
use std::test::Fail;

/// A cone's rise and run.
fn slope(text: &str) -> Result<(i32, i32), Fail>
    ensures { IfOk result (λ slope. IsSlope slope.0 slope.1) }
{
    let (rise, run) = first_word(text)?;
    let (rise, run) = (number(rise, 1, 100)?, number(run, 1, 100)?);
    if rise > 16 * run {
        return Err(Fail::from("out of range"));
    }
    Ok((rise, run))
}

/// A cutter whose radius is at most this.
fn cutter_up_to(most: i32, text: &str) -> Result<Cutter, Fail>
    ensures { IfOk result (λ cutter. IsCutterUpTo most cutter) }
{
    let (kind, sizes) = first_word(text)?;
    let (size, others) = sizes.split_once(' ').unwrap_or((sizes, ""));
    let radius = number(size, 1, most)?;
    match (kind, others) {
        ("flat", "") => Ok(Cutter::Flat { radius }),
        ("ball", "") => Ok(Cutter::Ball { radius }),
        ("cone", _) => {
            let (rise, run) = slope(others)?;
            Ok(Cutter::Cone { radius, rise, run })
        }
        _ => Err(Fail::from("no such cutter")),
    }
}

/// A cutter of a job by its kind and its radius; of a cone the rise and the run follow.
pub fn cutter(text: &str) -> Result<Cutter, Fail>
    ensures { IfOk result (λ cutter. IsCutter cutter) }
{
    cutter_up_to(MAX_RADIUS, text)
}

/// The same, but as wide as a cutter of a contact's test may be.
pub fn wide_cutter(text: &str) -> Result<Cutter, Fail>
    ensures { IfOk result (λ cutter. IsWideCutter cutter) }
{
    cutter_up_to(MAX_WIDE_RADIUS, text)
}

/// A holder by its radius and its stickout.
pub fn holder(text: &str) -> Result<Solid, Fail>
    ensures { IfOk result (λ holder. pos 1 ≤ℤ holder.lift) }
{
    let (size, stickout) = first_word(text)?;
    let radius = number(size, 1, MAX_RADIUS)?;
    let stickout = number(stickout, 1, MAX_COORDINATE as i32)?;
    Ok(Solid::new(Cutter::Flat { radius }, stickout))
}

/// A cutter, or one in what holds it, as `flat 100 in 200 50`.
pub fn tool(text: &str) -> Result<Tool, Fail>
    ensures cutter { IfOk result (λ tool. tool.cutter.lift ≡ pos 0) }
    ensures holder { IfOk result (λ tool. IfSome tool.holder (λ holder. pos 1 ≤ℤ holder.lift)) }
{
    match text.split_once(" in ") {
        None => Ok(Tool::bare(Solid::at_tip(cutter(text)?))),
        Some((held, around)) => Ok(Tool {
            cutter: Solid::at_tip(cutter(held)?),
            holder: Some(holder(around)?),
        }),
    }
}
