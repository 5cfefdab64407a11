//! What the words of a line say, from left to right.
ghost use Rattle.std.specs.Prelude.{◌≡◌, ◌<◌, ◌≤◌, ◌+◌, length, OnOk, IfErr, Ok, Err, Some, None};
ghost use Rattle.mill_words.specs.Words.{FitsNum, FitsWord};
ghost use Rattle.mill_words.specs.Words.{Line};
ghost use Rattle.mill_said.specs.Profile.{is_tool as is_tool_effect};
ghost use Rattle.mill_said.specs.Profile.{may_repeat as may_repeat_group};
ghost use Rattle.mill_said.specs.Profile.{repeated as repeated_group};
ghost use Rattle.mill_said.specs.Said.{nothing_said, noted, once as once_in, after_entry};
ghost use Rattle.mill_said.specs.Said.{after_word, said_from, said_by, has_axis as has_axis_said};
ghost use Rattle.mill_said.specs.Said.{has_motion as has_motion_mode};
ghost use Rattle.mill_said.specs.Bounds.{FitsSaid};

use crate::fault::NgcFault;
use crate::groups::{Group, Groups};
use crate::numbers::is_over_zero;
use crate::profile::{Effect, Entry, Mode, entry_of, row};
use mill_words::{LineWords, Num, Word};

/// What the words of a line have said so far.
#[derive(Drop)]
pub struct Said {
    pub(crate) groups: Groups,
    /// The motion mode that it sets.
    pub mode: Option<Mode>,
    /// It has a `G21`.
    pub millimetres: bool,
    /// It has a `G90`.
    pub absolute: bool,
    /// It ends the program.
    pub ends: bool,
    /// It changes the tool.
    pub changes: bool,
    /// It starts the spindle, or stops it.
    pub spindle: Option<bool>,
    /// It has an `S`, which is over 0 or not.
    pub speed: Option<bool>,
    /// It has an `F`, which is over 0 or not.
    pub rate: Option<bool>,
    /// The number of its `X`, and so on.
    pub x: Option<Num>,
    pub y: Option<Num>,
    pub z: Option<Num>,
}

impl Said {
    /// Before the first word.
    pub fn new() -> Self
        ensures { result ≡ nothing_said }
    {
        Said {
            groups: Groups::new(),
            mode: None,
            millimetres: false,
            absolute: false,
            ends: false,
            changes: false,
            spindle: None,
            speed: None,
            rate: None,
            x: None,
            y: None,
            z: None,
        }
    }

    fn clear(&mut self)
        ensures { self.new ≡ nothing_said }
    {
        self.groups.clear();
        self.mode = None;
        self.millimetres = false;
        self.absolute = false;
        self.ends = false;
        self.changes = false;
        self.spindle = None;
        self.speed = None;
        self.rate = None;
        self.x = None;
        self.y = None;
        self.z = None;
    }

    /// Whether the line has an axis word.
    pub fn has_axis(&self) -> bool
        ensures { result ≡ has_axis_said self.now }
    {
        self.x.is_some() || self.y.is_some() || self.z.is_some()
    }

    /// Whether the line has a `G0` or `G1`.
    pub fn has_motion(&self) -> bool
        ensures { result ≡ has_motion_mode self.now.mode }
    {
        matches!(self.mode, Some(Mode::On(_)))
    }

    /// Takes what a line says, in place of what was said. `positioned` tells that a line before had
    /// an axis word.
    pub fn read(&mut self, line: u64, positioned: bool, words: &LineWords) -> Result<(), NgcFault>
        ensures ok { OnOk result (said_by line positioned words.now ≡ Ok self.new) }
        ensures fault { IfErr result (λ f. said_by line positioned words.now ≡ Err f) }
        ensures fits { OnOk result (FitsSaid self.new) }
    {
        self.clear();
        if words.has_slash() {
            return Err(NgcFault::NotInProfile {
                line,
                letter: b'/',
                number: Num {
                    neg: false,
                    mant: 0,
                    scale: 0,
                },
            });
        }
        for word in words.words() {
            self.take_word(line, positioned, word)?;
        }
        Ok(())
    }

    // Takes the next word. Most words name a coordinate, and are taken without the table.
    fn take_word(&mut self, line: u64, positioned: bool, word: &Word) -> Result<(), NgcFault>
        requires said { FitsSaid self.old }
        requires word { FitsWord word.now }
        requires room { length self.old.groups < 32 }
        ensures ok { OnOk result (after_word line positioned self.old word.now ≡ Ok self.new) }
        ensures fault { IfErr result (λ f. after_word line positioned self.old word.now ≡ Err f) }
        ensures fits { OnOk result (FitsSaid self.new) }
        ensures few { length self.new.groups ≤ length self.old.groups + 1 }
    {
        match word.letter {
            b'X' => self.take_entry(line, positioned, word, row(0, Effect::X)),
            b'Y' => self.take_entry(line, positioned, word, row(0, Effect::Y)),
            b'Z' => self.take_entry(line, positioned, word, row(0, Effect::Z)),
            _ => self.take_any_word(line, positioned, word),
        }
    }

    // The same by the table.
    fn take_any_word(&mut self, line: u64, positioned: bool, word: &Word) -> Result<(), NgcFault>
        requires said { FitsSaid self.old }
        requires word { FitsWord word.now }
        requires room { length self.old.groups < 32 }
        ensures ok { OnOk result (after_word line positioned self.old word.now ≡ Ok self.new) }
        ensures fault { IfErr result (λ f. after_word line positioned self.old word.now ≡ Err f) }
        ensures fits { OnOk result (FitsSaid self.new) }
        ensures few { length self.new.groups ≤ length self.old.groups + 1 }
    {
        match entry_of(word) {
            Some(entry) => self.take_entry(line, positioned, word, entry),
            None => Err(NgcFault::NotInProfile {
                line,
                letter: word.letter,
                number: word.num,
            }),
        }
    }

    #[inline(always)]
    #[tactic(auto, unfolding(crate::specs::Said::after_entry))]
    fn take_entry(
        &mut self,
        line: u64,
        positioned: bool,
        word: &Word,
        entry: Entry,
    ) -> Result<(), NgcFault>
        requires said { FitsSaid self.old }
        requires word { FitsWord word.now }
        requires room { length self.old.groups < 32 }
        ensures ok { OnOk result
            (after_entry line positioned self.old word.now entry ≡ Ok self.new) }
        ensures fault { IfErr result (λ f.
            after_entry line positioned self.old word.now entry ≡ Err f) }
        ensures fits { OnOk result (FitsSaid self.new) }
        ensures few { length self.new.groups ≤ length self.old.groups + 1 }
    {
        if positioned && is_tool(entry.effect) {
            return Err(NgcFault::LateTool { line });
        }
        let group = Group {
            letter: word.letter,
            number: entry.group,
        };
        take_group(&mut self.groups, line, group)?;
        self.note(entry.effect, &word.num);
        Ok(())
    }

    // Takes what a word of this effect says.
    fn note(&mut self, effect: Effect, num: &Num)
        requires said { FitsSaid self.old }
        requires num { FitsNum 18 num.now }
        ensures value { self.new ≡ noted self.old effect num.now }
        ensures fits { FitsSaid self.new }
        ensures same { self.new.groups ≡ self.old.groups }
    {
        match effect {
            Effect::Motion(mode) => self.mode = Some(mode),
            Effect::Absolute => self.absolute = true,
            Effect::Millimetres => self.millimetres = true,
            Effect::End => self.ends = true,
            Effect::Change => self.changes = true,
            Effect::Spindle(turns) => self.spindle = Some(turns),
            Effect::Speed => self.speed = Some(is_over_zero(*num)),
            Effect::Rate => self.rate = Some(is_over_zero(*num)),
            Effect::X => self.x = Some(*num),
            Effect::Y => self.y = Some(*num),
            Effect::Z => self.z = Some(*num),
            _ => {}
        }
    }
}

// Takes a word's group, which the line may have had only if its words may stand together.
fn take_group(groups: &mut Groups, line: u64, group: Group) -> Result<(), NgcFault>
    requires { length groups.old < 32 }
    ensures ok { OnOk result (once_in line group groups.old ≡ Ok groups.new) }
    ensures fault { IfErr result (λ f. once_in line group groups.old ≡ Err f) }
    ensures few { length groups.new ≤ length groups.old + 1 }
{
    if may_repeat(group) {
        return Ok(());
    }
    if groups.contains(group) {
        return Err(repeated(line, group));
    }
    groups.push(group);
    Ok(())
}

/// Whether words of a group may stand together.
pub(crate) fn may_repeat(group: Group) -> bool
    ensures { result ≡ may_repeat_group group }
{
    group.letter == b'M' && group.number == 8
}

/// The fault of a second word of a group.
pub(crate) fn repeated(line: u64, group: Group) -> NgcFault
    ensures { result ≡ repeated_group line group }
{
    if group.letter == b'G' || group.letter == b'M' {
        return NgcFault::Group {
            line,
            group: group.number,
        };
    }
    NgcFault::Twice {
        line,
        letter: group.letter,
    }
}

fn is_tool(effect: Effect) -> bool
    ensures { result ≡ is_tool_effect effect }
{
    matches!(effect, Effect::Tool | Effect::Change)
}
