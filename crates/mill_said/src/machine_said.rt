//! What the words of a line for a machine say, from left to right.
ghost use Rattle.std.specs.Prelude.{◌≡◌, ◌<◌, ◌≤◌, ◌+◌, length, All, OnOk, IfErr, Ok, Err};
ghost use Rattle.mill_words.specs.Words.{FitsNum, FitsWord};
ghost use Rattle.mill_said.specs.MachineSaid.{nothing_told, names_axis as names_axis_said};
ghost use Rattle.mill_said.specs.MachineSaid.{is_drills as is_drills_motion};
ghost use Rattle.mill_said.specs.MachineSaid.{is_turns as is_turns_motion};
ghost use Rattle.mill_said.specs.MachineSaid.{names_centre as names_centre_said};
ghost use Rattle.mill_said.specs.MachineSaid.{motions_clash as motions_clash_said};
ghost use Rattle.mill_said.specs.MachineSaid.{other_lengths as other_lengths_said};
ghost use Rattle.mill_said.specs.MachineSaid.{is_alone as is_alone_meaning};
ghost use Rattle.mill_said.specs.MachineSaid.{is_axis as is_axis_meaning};
ghost use Rattle.mill_said.specs.MachineSaid.{is_repeated as is_repeated_row, clash_of};
ghost use Rattle.mill_said.specs.MachineSaid.{alone_fault};
ghost use Rattle.mill_said.specs.MachineSaid.{told_number, told_once, told_by};
ghost use Rattle.mill_said.specs.MachineSaid.{first_of as first_of_two};
ghost use Rattle.mill_said.specs.MachineSaid.{may_name_program as may_name_program_said};
ghost use Rattle.mill_said.specs.MachineSaid.{may_tolerate as may_tolerate_meaning};
ghost use Rattle.mill_said.specs.MachineSaid.{told_row, told_word, told_from, told_line};
ghost use Rattle.mill_said.specs.MachineSaid.{group_of_row};
ghost use Rattle.mill_said.specs.declared.fault.NgcFault.TheVariants as faults;
ghost use Rattle.mill_said.specs.Bounds.{FitsTold};

use crate::before::Before;
use crate::fault::NgcFault;
use crate::groups::{Group, Groups};
use crate::machine_table::{Meaning, Row, row_of};
use crate::machine_takes::Takes;
use crate::numbers::{is_over_zero, whole_of};
use crate::rules::Control;
use crate::said::{may_repeat, repeated};
use mill_base::Kind;
use mill_control::{Cycle, LengthUnit, Plane, Return, Turn};
use mill_words::{LineWords, Num, Word};

/// The motion mode that a line sets.
#[derive(Clone, Copy)]
pub enum Motion {
    /// A straight motion.
    Goes(Kind),
    /// A drilling cycle.
    Drills(Cycle),
    Turns(Turn),
}

/// A way up to the machine's place, or across to it.
#[derive(Clone, Copy)]
pub struct Up {
    /// By the machine's coordinates: `G53`. Else `G28` or `G30`.
    pub by_machine: bool,
    /// The number of its word.
    pub num: Num,
}

/// What the words of a line have said so far.
#[derive(Drop)]
pub struct MachineSaid {
    /// It has a word.
    pub begun: bool,
    pub(crate) groups: Groups,
    /// The motion mode that it sets, but for that of `G80`.
    pub motion: Option<Motion>,
    /// It has a `G80`.
    pub still: bool,
    /// It says that coordinates are absolute, or incremental.
    pub absolute: Option<bool>,
    /// The unit of lengths that it sets.
    pub lengths: Option<LengthUnit>,
    /// It has a `G43`, or a `G49`.
    pub length: Option<bool>,
    /// The part's zero that it sets, by ten times its word's number.
    pub zero: Option<u16>,
    /// How high a cycle's hole ends, as it sets that.
    pub returns: Option<Return>,
    /// The plane of arcs that it sets.
    pub plane: Option<Plane>,
    /// Its way up to the machine's place, or across to it.
    pub up: Option<Up>,
    /// The group of its first word that goes with no axis word.
    pub alone: Option<u8>,
    /// It has a `G64`.
    pub tolerates: bool,
    /// It has a `G61` or `G61.1`.
    pub exact: bool,
    /// It has a `G4`.
    pub rests: bool,
    /// It ends the program.
    pub ends: bool,
    /// It has an `M0` or `M1`.
    pub stops: bool,
    /// It has an `M6`.
    pub changes: bool,
    /// It has a `T`.
    pub selects: bool,
    /// It starts the spindle, or stops it.
    pub spindle: Option<bool>,
    /// It has an `S`, which is over 0 or not.
    pub speed: Option<bool>,
    /// It has an `F`, which is over 0 or not.
    pub rate: Option<bool>,
    /// The number of its `X`, and so on.
    pub x: Option<Num>,
    pub y: Option<Num>,
    pub z: Option<Num>,
    pub r: Option<Num>,
    pub q: Option<Num>,
    pub p: Option<Num>,
    pub h: Option<Num>,
    pub i: Option<Num>,
    pub j: Option<Num>,
    pub k: Option<Num>,
}

impl MachineSaid {
    /// Before the first word.
    pub fn new() -> Self
        ensures { result ≡ nothing_told }
    {
        MachineSaid {
            begun: false,
            groups: Groups::new(),
            motion: None,
            still: false,
            absolute: None,
            lengths: None,
            length: None,
            zero: None,
            returns: None,
            plane: None,
            up: None,
            alone: None,
            tolerates: false,
            exact: false,
            rests: false,
            ends: false,
            stops: false,
            changes: false,
            selects: false,
            spindle: None,
            speed: None,
            rate: None,
            x: None,
            y: None,
            z: None,
            r: None,
            q: None,
            p: None,
            h: None,
            i: None,
            j: None,
            k: None,
        }
    }

    fn clear(&mut self)
        ensures { self.new ≡ nothing_told }
    {
        self.begun = false;
        self.groups.clear();
        self.motion = None;
        self.still = false;
        self.absolute = None;
        self.lengths = None;
        self.length = None;
        self.zero = None;
        self.returns = None;
        self.plane = None;
        self.up = None;
        self.alone = None;
        self.tolerates = false;
        self.exact = false;
        self.rests = false;
        self.ends = false;
        self.stops = false;
        self.changes = false;
        self.selects = false;
        self.spindle = None;
        self.speed = None;
        self.rate = None;
        self.x = None;
        self.y = None;
        self.z = None;
        self.r = None;
        self.q = None;
        self.p = None;
        self.h = None;
        self.i = None;
        self.j = None;
        self.k = None;
    }

    /// Whether the line has an axis word.
    pub fn names_axis(&self) -> bool
        ensures { result ≡ names_axis_said self.now }
    {
        self.x.is_some() || self.y.is_some() || self.z.is_some()
    }

    /// Whether it has a word of where an arc's centre is.
    pub fn names_centre(&self) -> bool
        ensures { result ≡ names_centre_said self.now }
    {
        self.i.is_some() || self.j.is_some() || self.k.is_some()
    }

    /// Takes what a line says behind the lines before it, in place of what was said.
    pub fn read(
        &mut self,
        control: Control,
        before: &Before,
        words: &LineWords,
    ) -> Result<(), NgcFault>
        ensures ok { OnOk result (told_line control before.now words.now ≡ Ok self.new) }
        ensures fault { IfErr result (λ f. told_line control before.now words.now ≡ Err f) }
        ensures fits { OnOk result (FitsTold self.new) }
    {
        self.clear();
        if words.has_slash() {
            return Err(NgcFault::NotInProfile {
                line: before.line,
                letter: b'/',
                number: Num {
                    neg: false,
                    mant: 0,
                    scale: 0,
                },
            });
        }
        let takes = Takes::of(control, before, words.words());
        self.take_words(before, takes, words.words())
    }

    // Takes all words of a line.
    fn take_words(&mut self, before: &Before, takes: Takes, words: &[Word]) -> Result<(), NgcFault>
        requires said { self.old ≡ nothing_told }
        requires words { All FitsWord words.now }
        requires few { length words.now ≤ 32 }
        ensures ok { OnOk result
            (told_from before.now takes nothing_told words.now ≡ Ok self.new) }
        ensures fault { IfErr result (λ f.
            told_from before.now takes nothing_told words.now ≡ Err f) }
        ensures fits { OnOk result (FitsTold self.new) }
    {
        for word in words {
            self.take_word(before, takes, word)?;
        }
        Ok(())
    }

    // Takes the next word.
    fn take_word(&mut self, before: &Before, takes: Takes, word: &Word) -> Result<(), NgcFault>
        requires said { FitsTold self.old }
        requires word { FitsWord word.now }
        requires room { length self.old.groups < 32 }
        ensures ok { OnOk result (told_word before.now takes self.old word.now ≡ Ok self.new) }
        ensures fault { IfErr result (λ f.
            told_word before.now takes self.old word.now ≡ Err f) }
        ensures fits { OnOk result (FitsTold self.new) }
        ensures few { length self.new.groups ≤ length self.old.groups + 1 }
    {
        match row_of(word) {
            Some(row) => self.take_row(before, takes, word, row),
            None => Err(not_in_profile(before.line, word)),
        }
    }

    #[tactic(auto, unfolding(crate::specs::MachineSaid::told_row))]
    fn take_row(
        &mut self,
        before: &Before,
        takes: Takes,
        word: &Word,
        row: Row,
    ) -> Result<(), NgcFault>
        requires said { FitsTold self.old }
        requires word { FitsWord word.now }
        requires room { length self.old.groups < 32 }
        ensures ok { OnOk result
            (told_row before.now takes self.old word.now row ≡ Ok self.new) }
        ensures fault { IfErr result (λ f.
            told_row before.now takes self.old word.now row ≡ Err f) }
        ensures fits { OnOk result (FitsTold self.new) }
        ensures few { length self.new.groups ≤ length self.old.groups + 1 }
    {
        let may_come = takes.allows(row.meaning, word.num)
            && self.may_name_program(before, row.meaning, word.num);
        if !may_come {
            return Err(not_in_profile(before.line, word));
        }
        if let Some(fault) = self.clash(before, word, row) {
            return Err(fault);
        }
        if !may_tolerate(takes, row.meaning) {
            return Err(NgcFault::PathControl { line: before.line });
        }
        self.begun = true;
        self.groups.push(group_of(word, row));
        self.note(row.meaning, row.group, word.num);
        Ok(())
    }

    // Whether the line may have a program's name here, if this is one.
    fn may_name_program(&self, before: &Before, meaning: Meaning, num: Num) -> bool
        requires { FitsNum 18 num }
        ensures { result ≡ may_name_program_said before.now self.now meaning num }
    {
        match meaning {
            Meaning::Name => !self.begun && !before.positioned && whole_of(num).is_some(),
            _ => true,
        }
    }

    // The first fault of a word beside those before it.
    fn clash(&self, before: &Before, word: &Word, row: Row) -> Option<NgcFault>
        ensures { result ≡ clash_of before.now self.now word.now row }
    {
        let line = before.line;
        if self.motions_clash(row.meaning) {
            return Some(same_group(line, row.group));
        }
        if self.is_repeated(word, row) {
            return Some(repeated(line, group_of(word, row)));
        }
        if other_lengths(before, row.meaning) {
            return Some(same_group(line, row.group));
        }
        if is_alone(row.meaning) && self.names_axis() {
            return Some(same_group(line, row.group));
        }
        if is_axis(row.meaning) {
            return self.alone_clash(line);
        }
        None
    }

    // `G80` may stand beside one `G0` or `G1`, and no other two words of the motion modes may.
    fn motions_clash(&self, meaning: Meaning) -> bool
        ensures { result ≡ motions_clash_said self.now meaning }
    {
        match meaning {
            Meaning::Straight(_) => self.motion.is_some(),
            Meaning::Turn(_) => self.still || self.motion.is_some(),
            Meaning::Still => { self.still || (is_drills(self.motion) || is_turns(self.motion)) }
            Meaning::Drill(_) => self.still || self.motion.is_some(),
            _ => false,
        }
    }

    // Whether the line has had a word of its group. Those of the motion modes have rules of their
    // own.
    fn is_repeated(&self, word: &Word, row: Row) -> bool
        ensures { result ≡ is_repeated_row self.now word.now row }
    {
        let group = group_of(word, row);
        let is_motion = group.letter == b'G' && group.number == 1;
        !may_repeat(group) && !is_motion && self.groups.contains(group)
    }

    // The fault of an axis word beside one that goes with none.
    fn alone_clash(&self, line: u64) -> Option<NgcFault>
        ensures { result ≡ alone_fault line self.now.alone }
    {
        match self.alone {
            Some(group) => Some(same_group(line, group)),
            None => None,
        }
    }

    // Takes what a word of this meaning says.
    fn note(&mut self, meaning: Meaning, group: u8, num: Num)
        requires said { FitsTold self.old }
        requires num { FitsNum 18 num }
        ensures value { self.new ≡ told_by self.old meaning group num }
        ensures fits { FitsTold self.new }
        ensures same { self.new.groups ≡ self.old.groups }
    {
        match meaning {
            Meaning::Straight(kind) => self.motion = Some(Motion::Goes(kind)),
            Meaning::Turn(turn) => self.motion = Some(Motion::Turns(turn)),
            Meaning::Plane(plane) => self.plane = Some(plane),
            Meaning::Still => self.still = true,
            Meaning::Drill(cycle) => self.motion = Some(Motion::Drills(cycle)),
            Meaning::Absolute(absolute) => self.absolute = Some(absolute),
            Meaning::Lengths(lengths) => self.lengths = Some(lengths),
            Meaning::Length(on) => self.length = Some(on),
            Meaning::Zero(zero) => self.zero = Some(zero),
            Meaning::Returns(returns) => self.returns = Some(returns),
            Meaning::Tolerance => self.tolerates = true,
            Meaning::Exact => self.exact = true,
            _ => self.note_once(meaning, group, num),
        }
    }

    // The same of those that set no mode.
    fn note_once(&mut self, meaning: Meaning, group: u8, num: Num)
        requires said { FitsTold self.old }
        requires num { FitsNum 18 num }
        ensures value { self.new ≡ told_once self.old meaning group num }
        ensures fits { FitsTold self.new }
        ensures same { self.new.groups ≡ self.old.groups }
    {
        match meaning {
            Meaning::Cancel => self.alone = first_of(self.alone, group),
            Meaning::Rest => {
                self.alone = first_of(self.alone, group);
                self.rests = true;
            }
            Meaning::Home => {
                self.up = Some(Up {
                    by_machine: false,
                    num,
                });
            }
            Meaning::MachinePlace => {
                self.up = Some(Up {
                    by_machine: true,
                    num,
                });
            }
            Meaning::Stop => self.stops = true,
            Meaning::End => self.ends = true,
            Meaning::Change => self.changes = true,
            Meaning::Spindle(turns) => self.spindle = Some(turns),
            Meaning::Tool => self.selects = true,
            _ => self.note_number(meaning, num),
        }
    }

    // The same of those that name a number.
    fn note_number(&mut self, meaning: Meaning, num: Num)
        requires said { FitsTold self.old }
        requires num { FitsNum 18 num }
        ensures value { self.new ≡ told_number self.old meaning num }
        ensures fits { FitsTold self.new }
        ensures same { self.new.groups ≡ self.old.groups }
    {
        match meaning {
            Meaning::Speed => self.speed = Some(is_over_zero(num)),
            Meaning::Rate => self.rate = Some(is_over_zero(num)),
            Meaning::X => self.x = Some(num),
            Meaning::Y => self.y = Some(num),
            Meaning::Z => self.z = Some(num),
            Meaning::R => self.r = Some(num),
            Meaning::Q => self.q = Some(num),
            Meaning::P => self.p = Some(num),
            Meaning::H => self.h = Some(num),
            Meaning::I => self.i = Some(num),
            Meaning::J => self.j = Some(num),
            Meaning::K => self.k = Some(num),
            _ => {}
        }
    }
}

fn not_in_profile(line: u64, word: &Word) -> NgcFault
    ensures { result ≡ faults.NotInProfile line word.now.letter word.now.num }
{
    NgcFault::NotInProfile {
        line,
        letter: word.letter,
        number: word.num,
    }
}

fn same_group(line: u64, group: u8) -> NgcFault
    ensures { result ≡ faults.Group line group }
{
    NgcFault::Group { line, group }
}

fn group_of(word: &Word, row: Row) -> Group
    ensures { result ≡ group_of_row word.now row }
{
    Group {
        letter: word.letter,
        number: row.group,
    }
}

fn is_drills(motion: Option<Motion>) -> bool
    ensures { result ≡ is_drills_motion motion }
{
    matches!(motion, Some(Motion::Drills(_)))
}

fn is_turns(motion: Option<Motion>) -> bool
    ensures { result ≡ is_turns_motion motion }
{
    matches!(motion, Some(Motion::Turns(_)))
}

// Whether lengths aren't in the unit in force, and an axis word has come on a line before.
fn other_lengths(before: &Before, meaning: Meaning) -> bool
    ensures { result ≡ other_lengths_said before.now meaning }
{
    match meaning {
        Meaning::Lengths(LengthUnit::Inches) => before.positioned && before.millimetres,
        Meaning::Lengths(LengthUnit::Millimetres) => { before.positioned && before.inches }
        _ => false,
    }
}

// Whether a word goes with no axis word.
fn is_alone(meaning: Meaning) -> bool
    ensures { result ≡ is_alone_meaning meaning }
{
    matches!(meaning, Meaning::Cancel | Meaning::Rest)
}

fn is_axis(meaning: Meaning) -> bool
    ensures { result ≡ is_axis_meaning meaning }
{
    matches!(meaning, Meaning::X | Meaning::Y | Meaning::Z)
}

fn first_of(first: Option<u8>, other: u8) -> Option<u8>
    ensures { result ≡ first_of_two first other }
{
    match first {
        Some(group) => Some(group),
        None => Some(other),
    }
}

// Whether the line may ask for its tolerance of the path, if this asks for one.
fn may_tolerate(takes: Takes, meaning: Meaning) -> bool
    ensures { result ≡ may_tolerate_meaning takes meaning }
{
    match meaning {
        Meaning::Tolerance => takes.tolerance,
        _ => true,
    }
}
