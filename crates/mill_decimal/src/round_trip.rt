ghost use Rattle.std.specs.Prelude.{◌≡◌, ℤ, Ok};
ghost use Rattle.mill_base.specs.Numbers.{Within};
ghost use Rattle.mill_base.specs.Units.{greatest_of};
ghost use Rattle.mill_base.specs.declared.unit.Unit.{Unit};
ghost use Rattle.mill_decimal.specs.Decimals.{read_as, canonical};
ghost use Rattle.mill_decimal.specs.declared.snap.Snap.{Snap};

/// A law: in each unit, the canonical form of each number of units in range reads back as that
/// number.
pub fn written_reads_back()
    ensures { (snap : Snap) (unit : Unit) (z : ℤ) → Within (greatest_of unit) z
        → read_as snap unit (canonical unit z) ≡ Ok z }
{}
