ghost use Rattle.std.specs.Prelude.{◌≡◌, ◌^◌, ◌<◌, ◌≤ℤ◌, pos, length, slice_index_or};
ghost use Rattle.mill_base.specs.Numbers.{Within};
ghost use Rattle.mill_base.specs.declared.limits.TheConstants.{MAX_COORDINATE};
ghost use Rattle.mill_base.specs.Lattices.{IsLattice, lattice_positions, lattice_xs, lattice_ys, node_at, node_count, nodes_of};

use crate::points::Box2;

/// The nodes over an area: the positions in x are `x0`, `x0 + step`, `x0 + 2 * step` and so on up
/// to `x1`, and `x1` itself where it isn't one of them; likewise in y. Each x with each y is a node.
/// Lengths are in units.
#[derive(Clone, Copy, Debug, PartialEq, Eq)]
pub struct Lattice {
    pub area: Box2,
    pub step: i32,
}

impl Lattice {
    /// How many nodes the lattice has.
    pub fn nodes(&self) -> u64
        requires { IsLattice self.now }
        ensures { result ≡ node_count self.now }
    {
        u64::from(self.node_columns()) * u64::from(self.node_rows())
    }

    /// How many nodes each row of the lattice has: its positions in x.
    pub fn node_columns(&self) -> u32
        requires { IsLattice self.now }
        ensures value { result ≡ length (lattice_xs self.now) }
        ensures some { 0 < result }
        ensures bound { result < 2 ^ 21 }
    {
        positions(self.area.x0, self.area.x1, self.step)
    }

    /// How many rows of nodes the lattice has: its positions in y.
    pub fn node_rows(&self) -> u32
        requires { IsLattice self.now }
        ensures value { result ≡ length (lattice_ys self.now) }
        ensures some { 0 < result }
        ensures bound { result < 2 ^ 21 }
    {
        positions(self.area.y0, self.area.y1, self.step)
    }

    /// The place of the node of this number, in x and y. Nodes are counted from 0, row by row with
    /// y ascending, and with x ascending along each row.
    pub fn node(&self, number: u32) -> (i32, i32)
        requires lattice_ok { IsLattice self.now }
        requires number_ok { number < length (nodes_of self.now) }
        ensures place { result ≡ node_at self.now number }
        ensures x_ok { Within MAX_COORDINATE result.0 }
        ensures y_ok { Within MAX_COORDINATE result.1 }
    {
        let Box2 { x0, y0, x1, y1 } = self.area;
        let columns = positions(x0, x1, self.step);
        let x = position(x0, x1, self.step, number % columns);
        let y = position(y0, y1, self.step, number / columns);
        (x, y)
    }
}

/// How many positions there are from `first` to `last`.
fn positions(first: i32, last: i32, step: i32) -> u32
    requires first_ok { Within MAX_COORDINATE first }
    requires last_ok { Within MAX_COORDINATE last }
    requires order { first ≤ℤ last }
    requires step_ok { pos 1 ≤ℤ step }
    ensures value { result ≡ length (lattice_positions first last step) }
    ensures some { 0 < result }
    ensures bound { result < 2 ^ 21 }
{
    let length = last.abs_diff(first);
    length.div_ceil(step.unsigned_abs()) + 1
}

/// The position of this number: as many steps from `first` on, but not past `last`.
fn position(first: i32, last: i32, step: i32, number: u32) -> i32
    requires first_ok { Within MAX_COORDINATE first }
    requires last_ok { Within MAX_COORDINATE last }
    requires order { first ≤ℤ last }
    requires step_ok { pos 1 ≤ℤ step }
    requires number_ok { number < length (lattice_positions first last step) }
    ensures value { result ≡ slice_index_or (lattice_positions first last step) number (pos 0) }
    ensures bound { Within MAX_COORDINATE result }
{
    let length = last.abs_diff(first);
    let stepped = u64::from(number) * u64::from(step.unsigned_abs());
    first + stepped.min(u64::from(length)) as i32
}
