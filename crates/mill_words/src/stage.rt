//! How far the words of a line are read, byte by byte.
ghost use Rattle.std.specs.Prelude.{◌≡◌, ◌<◌, ◌≤◌, length, IfOk, IfErr, OnOk, Ok, Err, false};
ghost use Rattle.mill_words.specs.Lines.{grown, grown_number, grows, finished, started, started_word, started_front, begun, joined, taken};
ghost use Rattle.mill_words.specs.inner.Bounds.{FitsStage};
ghost use Rattle.mill_words.specs.inner.Places.{IsApart};

use crate::line_words::{LineWords, MOST_WORDS};
use crate::marks::Mark;
use crate::open_word::{OpenWord, is_sign};
use crate::word::{Word, WordFault};

/// How far a line is read.
#[derive(Clone, Copy)]
pub(crate) enum Stage {
    /// Nothing but comments stood there.
    Start,
    /// Behind the slash at its start.
    Slashed,
    /// In the line number whose `N` stands at this place, behind so many digits.
    InLineNumber(u32, u8),
    /// Behind a line number or a word that has ended.
    Between,
    /// In a word.
    InWord(OpenWord),
}

/// The most digits of a line number. NISTIR 6556, 3.3.1, has five at most.
const MOST_NUMBER_DIGITS: u8 = 9;

/// Takes what counts of a line next, if anything.
#[tactic(auto, unfolding(crate::specs::Lines::taken))]
pub(crate) fn take_mark(
    mark: Option<Mark>,
    stage: &mut Stage,
    words: &mut LineWords,
) -> Result<(), WordFault>
    requires { FitsStage (length words.old.words) stage.old }
    ensures ok { OnOk result (taken mark stage.old words.old ≡ Ok (stage.new, words.new)) }
    ensures fits { OnOk result (FitsStage (length words.new.words) stage.new) }
    ensures fault { IfErr result (λ f. taken mark stage.old words.old ≡ Err f) }
{
    match mark {
        None => Ok(()),
        Some(Mark::Gap) => finish(stage, words),
        Some(Mark::Broken(from)) => Err(WordFault::Comment(from)),
        Some(Mark::Byte(place, byte)) => take_byte(stage, words, place, byte),
    }
}

fn take_byte(
    stage: &mut Stage,
    words: &mut LineWords,
    place: u32,
    byte: u8,
) -> Result<(), WordFault>
    requires { FitsStage (length words.old.words) stage.old }
    ensures ok { OnOk result (joined (grown stage.old byte) place byte stage.old words.old ≡ Ok (stage.new, words.new)) }
    ensures fits { OnOk result (FitsStage (length words.new.words) stage.new) }
    ensures fault { IfErr result (λ f. joined (grown stage.old byte) place byte stage.old words.old ≡ Err f) }
{
    if grow(stage, byte, words.count())? {
        return Ok(());
    }
    finish(stage, words)?;
    begin(stage, words, place, byte)
}

// Whether the byte goes on with what has begun, which it is added to then.
fn grow(stage: &mut Stage, byte: u8, count: usize) -> Result<bool, WordFault>
    requires { FitsStage count stage.old }
    ensures value { grown stage.old byte ≡ grows result stage.new }
    ensures fits { FitsStage count stage.new }
    ensures stays { result ≡ Ok false → stage.new ≡ stage.old }
{
    match stage {
        Stage::InLineNumber(place, digits) => grow_number(*place, digits, byte),
        Stage::InWord(word) => word.grow(byte),
        _ => Ok(false),
    }
}

// The same of a line number.
#[tactic(auto, unfolding(crate::specs::Lines::grown_number))]
fn grow_number(place: u32, digits: &mut u8, byte: u8) -> Result<bool, WordFault>
    requires { digits.old ≤ 9 }
    ensures value { grown_number place digits.old byte ≡ grows result digits.new }
    ensures fits { digits.new ≤ 9 }
    ensures stays { result ≡ Ok false → digits.new ≡ digits.old }
{
    if byte.is_ascii_digit() {
        if *digits == MOST_NUMBER_DIGITS {
            return Err(WordFault::LineNumber(place));
        }
        *digits += 1;
        return Ok(true);
    }
    if byte == b'.' || is_sign(byte) {
        return Err(WordFault::LineNumber(place));
    }
    Ok(false)
}

/// Ends what has begun.
#[tactic(auto, unfolding(crate::specs::Lines::finished))]
pub(crate) fn finish(stage: &mut Stage, words: &mut LineWords) -> Result<(), WordFault>
    requires { FitsStage (length words.old.words) stage.old }
    ensures ok { OnOk result (finished stage.old words.old ≡ Ok (stage.new, words.new)) }
    ensures apart { OnOk result (IsApart stage.new) }
    ensures fits { OnOk result (FitsStage (length words.new.words) stage.new) }
    ensures fault { IfErr result (λ f. finished stage.old words.old ≡ Err f) }
{
    match *stage {
        Stage::InLineNumber(place, digits) => {
            if digits == 0 {
                return Err(WordFault::LineNumber(place));
            }
            *stage = Stage::Between;
            Ok(())
        }
        Stage::InWord(word) => {
            if word.digits == 0 {
                return Err(WordFault::NoNumber(word.place));
            }
            words.push(Word {
                letter: word.letter,
                num: word.num,
            });
            *stage = Stage::Between;
            Ok(())
        }
        _ => Ok(()),
    }
}

// Begins what the byte begins, where nothing has begun that it goes on with.
fn begin(stage: &mut Stage, words: &mut LineWords, place: u32, byte: u8) -> Result<(), WordFault>
    ensures ok { OnOk result (begun place byte (stage.old, words.old) ≡ Ok (stage.new, words.new)) }
    ensures fits { OnOk result (FitsStage (length words.new.words) stage.new) }
    ensures fault { IfErr result (λ f. begun place byte (stage.old, words.old) ≡ Err f) }
{
    let next = start(*stage, words.count(), place, byte)?;
    words.note(next);
    *stage = next;
    Ok(())
}

#[tactic(auto, unfolding(crate::specs::Lines::started))]
fn start(stage: Stage, count: usize, place: u32, byte: u8) -> Result<Stage, WordFault>
    requires { count ≤ 32 }
    ensures value { result ≡ started stage count place byte }
    ensures fits { IfOk result (FitsStage count) }
{
    match stage {
        Stage::Start => {
            if byte == b'/' {
                return Ok(Stage::Slashed);
            }
            start_front(count, place, byte)
        }
        Stage::Slashed => start_front(count, place, byte),
        _ => start_word(count, place, byte),
    }
}

// Where a line number may stand.
fn start_front(count: usize, place: u32, byte: u8) -> Result<Stage, WordFault>
    requires { count ≤ 32 }
    ensures value { result ≡ started_front count place byte }
    ensures fits { IfOk result (FitsStage count) }
{
    if byte.to_ascii_uppercase() == b'N' {
        return Ok(Stage::InLineNumber(place, 0));
    }
    start_word(count, place, byte)
}

fn start_word(count: usize, place: u32, byte: u8) -> Result<Stage, WordFault>
    requires { count ≤ 32 }
    ensures value { result ≡ started_word count place byte }
    ensures fits { IfOk result (FitsStage count) }
{
    if !byte.is_ascii_alphabetic() {
        return Err(WordFault::BadByte(place));
    }
    let letter = byte.to_ascii_uppercase();
    if letter == b'N' {
        return Err(WordFault::LineNumber(place));
    }
    if count == MOST_WORDS {
        return Err(WordFault::TooManyWords);
    }
    Ok(Stage::InWord(OpenWord::new(letter, place)))
}
