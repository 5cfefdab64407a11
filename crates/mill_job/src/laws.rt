ghost use Rattle.std.specs.Prelude.{◌≡◌};
ghost use Rattle.mill_base.specs.Units.{greatest_of};
ghost use Rattle.mill_base.specs.declared.unit.Unit.TheVariants.{Hundredth};
ghost use Rattle.mill_job.specs.NoUnit.{IsInHundredths, MeansWithout};

/// A law: a text whose document has no key `unit` means exactly what the format says without that
/// key, the same job in hundredths or the same first fault. Its coordinates go up to 131,071.
pub fn unit_left_out()
    ensures same { MeansWithout }
    ensures unit { IsInHundredths }
    ensures greatest { greatest_of Hundredth ≡ 131071 }
{}
