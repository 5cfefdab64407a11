use mill_base::Pt3;

/// A place that the cutter comes to with its tip. Lengths are in the job's units.
#[derive(Clone, Copy, Debug, PartialEq, Eq)]
pub struct Visit {
    /// Where the tip is then.
    pub at: Pt3,
    /// How far it may lie from where a straight feed to it starts: at most twice this, in x and in y. It is
    /// the step of the lattice whose path the visit is on; along a row's path by a tolerance the way in x
    /// from the point before it, where that is greater.
    pub step: i32,
}
