ghost use Rattle.std.specs.Prelude.{◌≡◌, ◌*◌, ◌<◌, ◌≤◌, length, IfOk};
ghost use Rattle.mill_dexel.specs.Bands.{AreBands, IsBandAt};
ghost use Rattle.mill_dexel.specs.inner.Passing.{IsBandAround};

use crate::band::{Band, band_of};
use mill_base::{Move, WantOfMemory};
use std::alloc::Global;
use std::marker::Model;

/// How many moves stand in a band.
const LENGTH: u64 = 64;

/// Where the first `count` moves of a program go in y, 64 by 64. Rows go over many moves at once by
/// them, and any number of rows may share them.
#[derive(Drop)]
pub struct Bands<'a> {
    moves: &'a [Move],
    count: u64,
    bands: Vec<Band>,
}

impl<'a> Model for Bands<'a> {
    ghost use Rattle.mill_dexel.specs.Bands.{AreBands, Banded};

    ghost Value = { Banded };

    ghost view = { λ b. record { moves = b.moves.now; count = b.count } };

    ghost invariant = { λ b. AreBands b.moves.now b.count b.bands.items };
}

impl<'a> Bands<'a> {
    /// The bands of the first `count` moves. The only error is want of memory.
    pub fn new(alloc: Global, moves: &'a [Move], count: u64) -> Result<Bands<'a>, WantOfMemory>
        requires { count ≤ length moves.now }
        ensures { IfOk result (λ bands. bands ≡ record { moves = moves.now; count = count }) }
    {
        let bands = bands_of(alloc, moves, count)?;
        Ok(Bands {
            moves,
            count,
            bands,
        })
    }

    /// The whole program.
    pub fn moves(&self) -> &'a [Move]
        ensures { result.now ≡ self.now.moves }
    {
        self.moves
    }

    /// How many of its moves the bands are of.
    pub fn count(&self) -> u64
        ensures value { result ≡ self.now.count }
        ensures there { result ≤ length self.now.moves }
    {
        self.count
    }

    /// The band that move `t` stands in.
    pub(crate) fn around(&self, t: u64) -> &Band
        requires { t < self.now.count }
        ensures { IsBandAround self.now.moves self.now.count t result.now }
    {
        &self.bands[(t / LENGTH) as usize]
    }
}

/// The bands that the first `count` moves stand in.
fn bands_of(alloc: Global, moves: &[Move], count: u64) -> Result<Vec<Band>, WantOfMemory>
    requires { count ≤ length moves.now }
    ensures { IfOk result (λ bands. AreBands moves.now count bands.items) }
{
    let number = count.div_ceil(LENGTH);
    let mut bands = Vec::with_capacity(alloc, number as usize)?;
    for i in 0..number {
        bands.push(band_at(moves, count, i))?;
    }
    Ok(bands)
}

/// Band number `i` of those that the first `count` moves stand in.
fn band_at(moves: &[Move], count: u64, i: u64) -> Band
    requires there { count ≤ length moves.now }
    requires some { i * 64 < count }
    ensures { IsBandAt moves.now count i result }
{
    let first = i * LENGTH;
    band_of(moves, first, first + LENGTH.min(count - first))
}
