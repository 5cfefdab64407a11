//! The words of a program for a machine: each one's group, and its meaning.
ghost use Rattle.std.specs.Prelude.{◌≡◌, ◌<◌, IsTrue};
ghost use Rattle.mill_words.specs.Words.{FitsNum, FitsWord};
ghost use Rattle.mill_said.specs.MachineTable.{tenths_of as tenths_of_number};
ghost use Rattle.mill_said.specs.MachineTable.{row_of as row_of_word};
ghost use Rattle.mill_said.specs.MachineTable.{machine_g_row, machine_m_row, machine_letter_row};
ghost use Rattle.mill_said.specs.MachineTable.{motion_row as motion_row_of};
ghost use Rattle.mill_said.specs.MachineTable.{in_group as row_in_group};
ghost use Rattle.mill_said.specs.MachineTable.{number_row as number_row_of};
ghost use Rattle.mill_said.specs.MachineTable.{plane_row as plane_row_of};
ghost use Rattle.mill_said.specs.MachineTable.{once_row as once_row_of, other_row as other_row_of};
ghost use Rattle.mill_said.specs.MachineTable.{is_zero as is_zero_number};

use crate::numbers::{power, whole_of};
use mill_base::Kind;
use mill_control::{Cycle, LengthUnit, Plane, Return, Turn};
use mill_words::{Num, Word};

/// What a word means.
#[derive(Clone, Copy)]
pub enum Meaning {
    /// Nothing.
    Nothing,
    /// A straight motion.
    Straight(Kind),
    /// An arc.
    Turn(Turn),
    /// No motion mode.
    Still,
    /// A drilling cycle.
    Drill(Cycle),
    /// Coordinates are absolute, or incremental.
    Absolute(bool),
    /// The unit of lengths.
    Lengths(LengthUnit),
    /// A tool length is in force, or none.
    Length(bool),
    /// A part's zero, by ten times the word's number.
    Zero(u16),
    /// How high a cycle's hole ends.
    Returns(Return),
    /// The plane of arcs.
    Plane(Plane),
    /// The tolerance of the path.
    Tolerance,
    /// No tolerance of it.
    Exact,
    /// Turns off what isn't on, and goes with no axis word.
    Cancel,
    /// Rests for a while, and goes with no axis word.
    Rest,
    /// Up to the machine's place, or across to it.
    Home,
    /// The same, by the machine's coordinates.
    MachinePlace,
    /// Stops the program for a while, and the spindle with it.
    Stop,
    /// Ends the program with its line.
    End,
    /// Changes the tool, and stops the spindle.
    Change,
    /// Starts the spindle, or stops it.
    Spindle(bool),
    /// Selects the tool.
    Tool,
    /// Sets the spindle's speed.
    Speed,
    /// Sets the feed rate.
    Rate,
    /// Names the program.
    Name,
    /// Names the x of the move's end.
    X,
    /// Names its y.
    Y,
    /// Names its z.
    Z,
    /// Where an arc's centre is from its start, along each axis.
    I,
    J,
    K,
    /// Where a cycle's hole begins.
    R,
    /// How deep a peck is.
    Q,
    /// A tolerance, or how long to rest.
    P,
    /// The number of a tool length.
    H,
}

/// A word's row in the table.
#[derive(Clone, Copy)]
pub struct Row {
    /// The modal group of its number, 0 for letters other than `G` and `M`.
    pub group: u8,
    /// What it means.
    pub meaning: Meaning,
}

/// The row of a word, if it is of the table.
#[tactic(auto, unfolding(crate::specs::MachineTable::row_of))]
pub(crate) fn row_of(word: &Word) -> Option<Row>
    requires { FitsWord word.now }
    ensures { result ≡ row_of_word word.now }
{
    match word.letter {
        b'G' => g_row(tenths_of(word.num)?),
        b'M' => m_row(whole_of(word.num)?),
        letter => letter_row(letter),
    }
}

// Ten times a number, if that is a whole one and isn't less than 0.
#[tactic(auto, unfolding(crate::specs::MachineTable::tenths_of))]
fn tenths_of(num: Num) -> Option<u64>
    requires { FitsNum 18 num }
    ensures { result ≡ tenths_of_number num }
{
    let unit = power(num.scale);
    let tenfold = 10 * num.mant;
    if tenfold % unit != 0 {
        return None;
    }
    if num.neg && num.mant > 0 {
        return None;
    }
    Some(tenfold / unit)
}

// The G words, by ten times their number.
fn g_row(tenths: u64) -> Option<Row>
    ensures { result ≡ machine_g_row tenths }
{
    if let Some(row) = motion_row(tenths) {
        return Some(row);
    }
    if let Some(row) = plane_row(tenths) {
        return Some(row);
    }
    if let Some(row) = number_row(tenths) {
        return Some(row);
    }
    if let Some(row) = once_row(tenths) {
        return Some(row);
    }
    other_row(tenths)
}

// The motion modes.
fn motion_row(tenths: u64) -> Option<Row>
    ensures { result ≡ motion_row_of tenths }
{
    match tenths {
        0 => in_group(1, Meaning::Straight(Kind::Rapid)),
        10 => in_group(1, Meaning::Straight(Kind::Feed)),
        20 => in_group(1, Meaning::Turn(Turn::Clockwise)),
        30 => in_group(1, Meaning::Turn(Turn::Counterclockwise)),
        800 => in_group(1, Meaning::Still),
        810 => in_group(1, Meaning::Drill(Cycle::Drill)),
        820 => in_group(1, Meaning::Drill(Cycle::Dwell)),
        830 => in_group(1, Meaning::Drill(Cycle::Peck)),
        730 => in_group(1, Meaning::Drill(Cycle::Break)),
        _ => None,
    }
}

// The plane of arcs.
fn plane_row(tenths: u64) -> Option<Row>
    ensures { result ≡ plane_row_of tenths }
{
    match tenths {
        170 => in_group(2, Meaning::Plane(Plane::Xy)),
        180 => in_group(2, Meaning::Plane(Plane::Zx)),
        190 => in_group(2, Meaning::Plane(Plane::Yz)),
        _ => None,
    }
}

// How numbers are read.
fn number_row(tenths: u64) -> Option<Row>
    ensures { result ≡ number_row_of tenths }
{
    match tenths {
        900 => in_group(3, Meaning::Absolute(true)),
        910 => in_group(3, Meaning::Absolute(false)),
        200 | 700 => in_group(6, Meaning::Lengths(LengthUnit::Inches)),
        210 | 710 => in_group(6, Meaning::Lengths(LengthUnit::Millimetres)),
        430 => in_group(8, Meaning::Length(true)),
        490 => in_group(8, Meaning::Length(false)),
        zero if is_zero(zero) => in_group(12, Meaning::Zero(zero as u16)),
        980 => in_group(10, Meaning::Returns(Return::Level)),
        990 => in_group(10, Meaning::Returns(Return::Clearance)),
        _ => None,
    }
}

// Whether it is a part's zero: `G54` to `G59`, and `G59.1` to `G59.3`.
fn is_zero(tenths: u64) -> bool
    ensures value { result ≡ is_zero_number tenths }
    ensures few { IsTrue result → tenths < 600 }
{
    (540 <= tenths && tenths <= 590 && tenths % 10 == 0) || (591 <= tenths && tenths <= 593)
}

// What stands for one line.
fn once_row(tenths: u64) -> Option<Row>
    ensures { result ≡ once_row_of tenths }
{
    match tenths {
        40 => in_group(0, Meaning::Rest),
        280 | 300 => in_group(0, Meaning::Home),
        530 => in_group(0, Meaning::MachinePlace),
        _ => None,
    }
}

// What changes nothing, or turns off what isn't on, and how exactly the path is followed.
fn other_row(tenths: u64) -> Option<Row>
    ensures { result ≡ other_row_of tenths }
{
    match tenths {
        940 => in_group(5, Meaning::Nothing),
        400 => in_group(7, Meaning::Nothing),
        610 | 611 => in_group(13, Meaning::Exact),
        640 => in_group(13, Meaning::Tolerance),
        911 => in_group(16, Meaning::Nothing),
        150 => in_group(17, Meaning::Cancel),
        500 => in_group(11, Meaning::Cancel),
        690 => in_group(19, Meaning::Cancel),
        _ => None,
    }
}

// The M words.
fn m_row(number: u64) -> Option<Row>
    ensures { result ≡ machine_m_row number }
{
    match number {
        0 | 1 => in_group(4, Meaning::Stop),
        2 | 30 => in_group(4, Meaning::End),
        6 => in_group(6, Meaning::Change),
        3 | 4 => in_group(7, Meaning::Spindle(true)),
        5 => in_group(7, Meaning::Spindle(false)),
        7 | 8 | 9 => in_group(8, Meaning::Nothing),
        _ => None,
    }
}

// The other letters.
fn letter_row(letter: u8) -> Option<Row>
    ensures { result ≡ machine_letter_row letter }
{
    match letter {
        b'X' => in_group(0, Meaning::X),
        b'Y' => in_group(0, Meaning::Y),
        b'Z' => in_group(0, Meaning::Z),
        b'F' => in_group(0, Meaning::Rate),
        b'S' => in_group(0, Meaning::Speed),
        b'T' => in_group(0, Meaning::Tool),
        b'H' => in_group(0, Meaning::H),
        b'I' => in_group(0, Meaning::I),
        b'J' => in_group(0, Meaning::J),
        b'K' => in_group(0, Meaning::K),
        b'O' => in_group(0, Meaning::Name),
        b'P' => in_group(0, Meaning::P),
        b'Q' => in_group(0, Meaning::Q),
        b'R' => in_group(0, Meaning::R),
        _ => None,
    }
}

// A row of the table.
fn in_group(group: u8, meaning: Meaning) -> Option<Row>
    ensures { result ≡ row_in_group group meaning }
{
    Some(Row { group, meaning })
}
