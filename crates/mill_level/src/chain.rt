use mill_base::Pt3;

/// A line of a waterline: the places of the tip, in the order in which the blocked ones are on the
/// left. Lengths are in units.
#[derive(Drop)]
pub struct Chain {
    /// Whether the last point is joined to the first.
    pub closed: bool,
    pub points: Vec<Pt3>,
}
