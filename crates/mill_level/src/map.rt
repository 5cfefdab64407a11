//! Finds which nodes of a lattice are blocked at a height, and where its crossings are.
ghost use Rattle.std.specs.Prelude.{◌≡◌, IfOk};
ghost use Rattle.mill_base.specs.Numbers.{Within};
ghost use Rattle.mill_base.specs.declared.limits.TheConstants.{MAX_COORDINATE};
ghost use Rattle.mill_base.specs.Lattices.{lattice_xs, lattice_ys, IsMapLattice};
ghost use Rattle.mill_level.specs.inner.Maps.{IsMapOf};

use crate::cut::Cut;
use crate::fiber::{add_column, add_row};
use crate::grid::LevelMap;
use mill_base::{Lattice, WantOfMemory};
use mill_push::Ends;
use std::alloc::Global;

/// Which nodes of the lattice are blocked at the cut's height, and where its crossings are: by the
/// runs of one fiber for each row and for each column. From one row to the next, and from one column to
/// the next, it is kept where the ends of each triangle's stretch were.
pub fn level_map(alloc: Global, cut: &Cut<'_>, lattice: &Lattice) -> Result<LevelMap, WantOfMemory>
    requires z_ok { Within MAX_COORDINATE cut.now.z }
    requires lattice_ok { IsMapLattice lattice.now }
    ensures { IfOk result (IsMapOf cut.now.tool cut.now.part.now cut.now.z lattice.now) }
{
    let xs = xs_of(alloc, lattice)?;
    let ys = ys_of(alloc, lattice)?;
    let nodes = xs.len() * ys.len();
    let mut blocked = Vec::with_capacity(alloc, nodes)?;
    let mut places = Vec::with_capacity(alloc, 2 * nodes)?;
    let mut ends = Ends::new(alloc, cut.part.part().tris().len())?;
    for y in &ys {
        add_row(alloc, cut, *y, &xs, &mut ends, &mut blocked, &mut places)?;
    }
    ends.forget();
    for x in &xs {
        add_column(alloc, cut, *x, &ys, &mut ends, &mut places)?;
    }
    Ok(LevelMap {
        columns: lattice.node_columns(),
        rows: lattice.node_rows(),
        xs,
        ys,
        blocked,
        places,
    })
}

/// The lattice's positions in x.
fn xs_of(alloc: Global, lattice: &Lattice) -> Result<Vec<i32>, WantOfMemory>
    requires { IsMapLattice lattice.now }
    ensures { IfOk result (λ xs. xs.items ≡ lattice_xs lattice.now) }
{
    let columns = lattice.node_columns();
    let mut xs = Vec::with_capacity(alloc, columns as usize)?;
    for column in 0..columns {
        xs.push(lattice.node(column).0)?;
    }
    Ok(xs)
}

/// The lattice's positions in y.
fn ys_of(alloc: Global, lattice: &Lattice) -> Result<Vec<i32>, WantOfMemory>
    requires { IsMapLattice lattice.now }
    ensures { IfOk result (λ ys. ys.items ≡ lattice_ys lattice.now) }
{
    let columns = lattice.node_columns();
    let rows = lattice.node_rows();
    let mut ys = Vec::with_capacity(alloc, rows as usize)?;
    for row in 0..rows {
        ys.push(lattice.node(row * columns).1)?;
    }
    Ok(ys)
}
