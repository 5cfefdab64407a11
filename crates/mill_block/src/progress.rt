//! How far a program is read.
ghost use Rattle.std.specs.Prelude.{◌≡◌, IsTrue, OnOk, IfErr, Ok, Err};
ghost use Rattle.mill_block.specs.Drives.{driven, drive_fault, full_drive};

use crate::machine::Machine;
use mill_base::{Kind, Pt3, Unit};
use mill_said::{Mode, NgcFault, Rules, Said};

/// Whether a program is framed by `%` lines.
#[derive(Clone, Copy)]
pub(crate) enum Frame {
    /// No line but blank ones has come.
    Unknown,
    Framed,
    Plain,
}

/// What is known of the tool's place, where the rules say that it may be anywhere before the
/// program.
#[derive(Clone, Copy)]
pub(crate) enum Known {
    /// Nothing: no line has had an axis word.
    Nothing,
    /// Its height: one line had.
    Height,
    /// All of it.
    All,
}

/// What there is of what a feed needs.
#[derive(Clone, Copy)]
pub(crate) struct Drive {
    /// The spindle turns: `M3` or `M4` is in force.
    pub turns: bool,
    /// The last `S` is over 0.
    pub speed: bool,
    /// The last `F` is over 0.
    pub rate: bool,
}

impl Drive {
    /// Before the first line.
    pub const NONE: Drive = Drive {
        turns: false,
        speed: false,
        rate: false,
    };

    /// What there is behind a line that says this.
    pub fn behind(self, said: &Said) -> Drive
        ensures { result ≡ driven self said.now }
    {
        Drive {
            turns: said.spindle.unwrap_or(self.turns && !said.changes),
            speed: said.speed.unwrap_or(self.speed),
            rate: said.rate.unwrap_or(self.rate),
        }
    }

    /// Whether a move of this kind may come with so much of it. The fault is that of this line.
    pub fn check(self, kind: Kind, line: u64) -> Result<(), NgcFault>
        ensures ok { OnOk result (drive_fault kind self line ≡ Ok tt) }
        ensures fault { IfErr result (λ f. drive_fault kind self line ≡ Err f) }
    {
        match kind {
            Kind::Rapid | Kind::Dogleg => Ok(()),
            Kind::Feed => {
                if !(self.turns && self.speed) {
                    return Err(NgcFault::NoSpindle { line });
                }
                if !self.rate {
                    return Err(NgcFault::NoFeed { line });
                }
                Ok(())
            }
        }
    }

    /// Whether it is all there.
    pub fn is_all(&self) -> bool
        ensures { IsTrue result → self.now ≡ full_drive }
    {
        self.turns && self.speed && self.rate
    }
}

/// What the lines so far have settled.
#[derive(Clone, Copy)]
pub(crate) struct Progress {
    /// What is asked of it.
    pub rules: Rules,
    /// The unit of its coordinates.
    pub unit: Unit,
    /// The least height of the way to the first place, and the safe height of a machine.
    pub clear: i32,
    /// The end of the last move, or the start.
    pub here: Pt3,
    /// How much of that is so, if the tool may be anywhere before the program.
    pub known: Known,
    /// What words for a machine have settled.
    pub machine: Machine,
    /// What a feed needs, if it is asked to have a spindle.
    pub drive: Drive,
    pub mode: Mode,
    /// A line had `G21`.
    pub millimetres: bool,
    /// A line had `G90`.
    pub absolute: bool,
    /// A line had an axis word.
    pub positioned: bool,
    pub frame: Frame,
    /// The program has ended.
    pub ended: bool,
    /// How many moves the lines have made.
    pub moves: u64,
    /// How many lines are read: the number of the last one.
    pub line: u64,
}
