ghost use Rattle.std.specs.Prelude.{◌≡◌, false, IsTrue, IfOk, OnOk, IfErr};
ghost use Rattle.mill_base.specs.Lattices.{IsLattice, IsMapLattice};
ghost use Rattle.mill_ffi_data.specs.Raw.{lattice_of};
ghost use Rattle.mill_ffi_data.specs.Tests.{IsLatticeCause};
ghost use Rattle.mill_ffi_data.specs.inner.Testing.{IsCorners, IsInOrder};

use crate::fault::Fault;
use crate::part::is_coordinate;
use crate::raw::RawLattice;
use mill_base::{Box2, Lattice, MAX_NODES};

/// The lattice of these numbers, which has at most 4,000,000 nodes.
pub fn lattice_from(raw: &RawLattice) -> Result<Lattice, Fault>
    ensures is { IfOk result (λ lattice. lattice ≡ lattice_of raw.now) }
    ensures sound { OnOk result (IsMapLattice (lattice_of raw.now)) }
    ensures cause { IfErr result (IsLatticeCause raw.now) }
{
    if !is_lattice(raw) {
        return Err(Fault::Lattice);
    }
    let RawLattice {
        x0,
        y0,
        x1,
        y1,
        step,
    } = *raw;
    let lattice = Lattice {
        area: Box2 { x0, y0, x1, y1 },
        step,
    };
    if lattice.nodes() > MAX_NODES {
        return Err(Fault::TooManyNodes);
    }
    Ok(lattice)
}

/// Whether the ends are in range and the right way round, and the step is at least a unit.
fn is_lattice(raw: &RawLattice) -> bool
    ensures yes { IsTrue result → IsLattice (lattice_of raw.now) }
    ensures no { result ≡ false → ¬ IsLattice (lattice_of raw.now) }
{
    if !are_corners(raw) {
        return false;
    }
    is_in_order(raw)
}

/// Whether the ends are the right way round, and the step is at least a unit.
fn is_in_order(raw: &RawLattice) -> bool
    ensures yes { IsTrue result → IsInOrder raw.now }
    ensures no { result ≡ false → ¬ IsInOrder raw.now }
{
    raw.x0 <= raw.x1 && raw.y0 <= raw.y1 && 1 <= raw.step
}

/// Whether the ends are in range.
fn are_corners(raw: &RawLattice) -> bool
    ensures yes { IsTrue result → IsCorners raw.now }
    ensures no { result ≡ false → ¬ IsCorners raw.now }
{
    is_coordinate(raw.x0) && is_coordinate(raw.x1) && is_coordinate(raw.y0) && is_coordinate(raw.y1)
}
