//! Reading the words that say where.
ghost use Rattle.std.specs.Prelude.{IfOk};
ghost use Rattle.mill_base.specs.Numbers.{Within};
ghost use Rattle.mill_base.specs.Units.{greatest_of};
ghost use Rattle.mill_load.specs.inner.Steps.{CoordinateFrom};
ghost use Rattle.mill_load.specs.Places.{HeightFrom, PlaceFrom};
ghost use Rattle.mill_job.specs.Tables.{IsPlace};

use mill_base::Unit;
use mill_decimal::{DecFault, Snap, read_decimal};
use mill_job::Place;

/// One of the words that say where.
#[derive(Clone, Copy, Debug, PartialEq, Eq)]
pub enum Coordinate {
    X,
    Y,
    Z,
}

/// The first of a command's words for coordinates that is refused, and why.
#[derive(Clone, Copy, Debug, PartialEq, Eq)]
pub struct WordFault {
    pub coordinate: Coordinate,
    pub fault: DecFault,
}

/// Reads the words of the place to drop the cutter at, in millimetres, x first. A coordinate finer
/// than a unit is refused.
pub fn read_place(x: &str, y: &str, unit: Unit) -> Result<Place, WordFault>
    ensures told { PlaceFrom unit x.now y.now result }
    ensures in_range { IfOk result (IsPlace unit) }
{
    let x = read_coordinate(x, Coordinate::X, unit)?;
    let y = read_coordinate(y, Coordinate::Y, unit)?;
    Ok(Place { x, y })
}

/// Reads the word of a height, in millimetres, as units. One finer than a unit is refused.
pub fn read_height(z: &str, unit: Unit) -> Result<i32, WordFault>
    ensures told { HeightFrom unit z.now result }
    ensures in_range { IfOk result (Within (greatest_of unit)) }
{
    read_coordinate(z, Coordinate::Z, unit)
}

fn read_coordinate(word: &str, coordinate: Coordinate, unit: Unit) -> Result<i32, WordFault>
    ensures told { CoordinateFrom unit word.now coordinate result }
    ensures in_range { IfOk result (Within (greatest_of unit)) }
{
    match read_decimal(word.as_bytes(), Snap::Exact, unit) {
        Ok(units) => Ok(units),
        Err(fault) => Err(WordFault { coordinate, fault }),
    }
}
