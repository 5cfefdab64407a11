ghost use Rattle.mill_base.specs.Covers.{CoveredBelow};

/// If a height of a column is covered, so is every lesser one.
///
/// It has no code: what it promises is its contract.
pub fn covered_below()
    ensures { CoveredBelow }
{}
