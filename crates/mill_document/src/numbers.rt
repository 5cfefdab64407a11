//! The numbers that a finding names.
ghost use Rattle.std.specs.Prelude.{◌≡◌};
ghost use Rattle.mill_document.specs.Details.{column_numbers as column_numbers_of, fixture_number as fixture_number_of, leaf_of as leaf_of_reason, test_of as test_of_reason, triangle_number as triangle_number_of};
ghost use Rattle.mill_report.specs.Findings.{move_of};

use crate::failure::Test;
use mill_sweep::Leaf;
use mill_verify::Reason;

/// The number of the move.
pub(crate) fn move_number(reason: &Reason) -> u64
    ensures { result ≡ move_of reason.now }
{
    match *reason {
        Reason::Floor { at }
        | Reason::Gouge { at, .. }
        | Reason::Holder { at, .. }
        | Reason::Fixture { at, .. }
        | Reason::HolderFixture { at, .. }
        | Reason::Rapid { at, .. }
        | Reason::Cut { at, .. }
        | Reason::HolderStock { at, .. } => at,
        Reason::Left { .. } => 0,
    }
}

/// The test that it fails.
pub(crate) fn test_of(reason: &Reason) -> Test
    ensures { result ≡ test_of_reason reason.now }
{
    match *reason {
        Reason::Gouge { .. } => Test::Gouge,
        Reason::Holder { .. } => Test::Holder,
        Reason::Fixture { .. } => Test::Fixture,
        Reason::HolderFixture { .. } => Test::HolderFixture,
        Reason::Rapid { .. } => Test::Rapid,
        Reason::Cut { .. } => Test::Cut,
        Reason::HolderStock { .. } => Test::HolderStock,
        Reason::Floor { .. } | Reason::Left { .. } => Test::Floor,
    }
}

/// The number of the triangle, where one is in the way.
pub(crate) fn triangle_number(reason: &Reason) -> Option<u32>
    ensures { result ≡ triangle_number_of reason.now }
{
    match *reason {
        Reason::Gouge { tri, .. } | Reason::Holder { tri, .. } => Some(tri),
        _ => None,
    }
}

/// The number of the fixture, where one is in the way.
pub(crate) fn fixture_number(reason: &Reason) -> Option<u32>
    ensures { result ≡ fixture_number_of reason.now }
{
    match *reason {
        Reason::Fixture { fixture, .. } | Reason::HolderFixture { fixture, .. } => Some(fixture),
        _ => None,
    }
}

/// The numbers of the row and the column, where a column is in the way.
pub(crate) fn column_numbers(reason: &Reason) -> Option<(u32, u32)>
    ensures { result ≡ column_numbers_of reason.now }
{
    match *reason {
        Reason::Rapid { row, col, .. }
        | Reason::Cut { row, col, .. }
        | Reason::HolderStock { row, col, .. } => Some((row, col)),
        _ => None,
    }
}

/// The leaf of the move that fails, where one is named.
pub(crate) fn leaf_of(reason: &Reason) -> Option<Leaf>
    ensures { result ≡ leaf_of_reason reason.now }
{
    match *reason {
        Reason::Gouge { leaf, .. }
        | Reason::Holder { leaf, .. }
        | Reason::Fixture { leaf, .. }
        | Reason::HolderFixture { leaf, .. }
        | Reason::Rapid { leaf, .. }
        | Reason::Cut { leaf, .. }
        | Reason::HolderStock { leaf, .. } => Some(leaf),
        Reason::Floor { .. } | Reason::Left { .. } => None,
    }
}
