ghost use Rattle.mill_base.specs.Covers.{IsUnder};

use mill_part::Part;

/// The height of the part's highest corner, in units; any where the part has none.
pub fn lid(part: &Part) -> i32
    ensures { IsUnder part.now result }
{
    part.top().unwrap_or(0)
}
