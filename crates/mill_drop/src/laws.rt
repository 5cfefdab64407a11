ghost use Rattle.mill_drop.specs.Paths.{OnePath, PathsAreHalved};
ghost use Rattle.mill_drop.specs.Unique.{OneListOfHeights};

/// A lattice has one list of drop heights at most, for a tool, a part and a floor.
///
/// It has no code: what it promises is its contract.
pub fn drop_heights_are_unique()
    ensures { OneListOfHeights }
{}

/// The places of a path are found by halving: those after one place up to another are the other alone
/// where the tool may go straight to it, else those up to the place in the middle and those after it.
///
/// It has no code: what it promises is its contract.
pub fn paths_are_halved()
    ensures { PathsAreHalved }
{}

/// A row has one path at most, for a tool, a part, a floor and a tolerance.
///
/// It has no code: what it promises is its contract.
pub fn one_path()
    ensures { OnePath }
{}
