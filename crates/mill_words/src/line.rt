ghost use Rattle.std.specs.Prelude.{◌≡◌, ◌<◌, ◌≤◌, ◌+◌, ◌^◌, length, slice_index, true, IsTrue, OnOk, IfOk, IfErr, Ok, Err};
ghost use Rattle.mill_words.specs.Lines.{line_of, read_marks};
ghost use Rattle.mill_words.specs.Marks.{end_marks};
ghost use Rattle.mill_words.specs.declared.marks.Region.TheVariants.{Outside};
ghost use Rattle.mill_words.specs.inner.Bounds.{FitsStage};
ghost use Rattle.mill_words.specs.inner.Places.{rest_of, begins_word_in};

use crate::line_words::LineWords;
use crate::marks::{Region, scan};
use crate::plain::take_plain_words;
use crate::stage::{Stage, finish, take_mark};
use crate::word::WordFault;

/// Reads a line, without its line end (NISTIR 6556, 3.3).
///
/// Space, tab and CR outside comments have no meaning, even inside numbers. A comment is `(` up to
/// the next `)`, or `;` up to the line's end; it parts a number from further digits, and a letter
/// from its number. Outside comments stand an optional `/`, an optional line number, which is `N`
/// and 1 to 9 digits, and words: a letter of either case other than `N`, and a number, which is an
/// optional sign and 1 to 18 digits with at most one point.
///
/// The fault is that of the least place, as [`WordFault`] says for each.
pub fn read_line(line: &[u8]) -> Result<LineWords, WordFault>
    requires { length line.now < 2 ^ 32 }
    ensures { result ≡ line_of line.now }
{
    let mut words = LineWords::new();
    read_line_into(line, &mut words)?;
    Ok(words)
}

/// Reads a line into `words`, in place of what it says so far.
///
/// It answers as [`read_line`] does. After a fault `words` may say anything, and may be read into
/// again.
pub fn read_line_into(line: &[u8], words: &mut LineWords) -> Result<(), WordFault>
    requires { length line.now < 2 ^ 32 }
    ensures ok { OnOk result (line_of line.now ≡ Ok words.new) }
    ensures fault { IfErr result (λ f. line_of line.now ≡ Err f) }
{
    words.clear();
    if !begins_with_word(line) {
        return read_bytes(line, 0, Stage::Start, words);
    }
    let behind = take_plain_words(line, 0, words);
    if behind == line.len() {
        return Ok(());
    }
    read_bytes(line, behind, Stage::Between, words)
}

// Whether the line begins with the letter of a word.
fn begins_with_word(line: &[u8]) -> bool
    ensures some { IsTrue result → 0 < length line.now }
    ensures letter { IsTrue result → begins_word_in Outside (slice_index line.now 0) ≡ true }
{
    !line.is_empty() && begins_word(Region::Outside, line[0])
}

// Reads the line from a place on, outside comments, where this has begun. Most lines are plain words
// alone, and don't come here.
#[inline(never)]
fn read_bytes(
    line: &[u8],
    from: usize,
    begun: Stage,
    words: &mut LineWords,
) -> Result<(), WordFault>
    requires small { length line.now < 2 ^ 32 }
    requires within { from ≤ length line.now }
    requires fits { FitsStage (length words.old.words) begun }
    ensures ok { OnOk result (rest_of Outside begun words.old line.now from ≡ Ok words.new) }
    ensures fault { IfErr result (λ f. rest_of Outside begun words.old line.now from ≡ Err f) }
{
    let mut region = Region::Outside;
    let mut stage = begun;
    let mut place = from;
    while place < line.len() {
        place = take_next(line, place, &mut region, &mut stage, words)?;
    }
    end_line(region, &mut stage, words)
}

// Takes the plain words at a place, or its byte. The answer is the place behind.
fn take_next(
    line: &[u8],
    place: usize,
    region: &mut Region,
    stage: &mut Stage,
    words: &mut LineWords,
) -> Result<usize, WordFault>
    requires small { length line.now < 2 ^ 32 }
    requires within { place < length line.now }
    requires fits { FitsStage (length words.old.words) stage.old }
    ensures ok { IfOk result (λ behind. rest_of region.new stage.new words.new line.now behind ≡ rest_of region.old stage.old words.old line.now place) }
    ensures fault { IfErr result (λ f. rest_of region.old stage.old words.old line.now place ≡ Err f) }
    ensures fits { OnOk result (FitsStage (length words.new.words) stage.new) }
    ensures forward { IfOk result (λ behind. place < behind) }
    ensures within { IfOk result (λ behind. behind ≤ length line.now) }
{
    if !begins_word(*region, line[place]) {
        return take_byte(line, place, region, stage, words);
    }
    finish(stage, words)?;
    *stage = Stage::Between;
    let behind = take_plain_words(line, place, words);
    if behind > place {
        return Ok(behind);
    }
    take_byte(line, place, region, stage, words)
}

// Whether the byte is the letter of a word outside comments.
fn begins_word(region: Region, byte: u8) -> bool
    ensures { result ≡ begins_word_in region byte }
{
    match region {
        Region::Outside => byte.is_ascii_alphabetic() && byte.to_ascii_uppercase() != b'N',
        _ => false,
    }
}

// Takes the byte at a place.
fn take_byte(
    line: &[u8],
    place: usize,
    region: &mut Region,
    stage: &mut Stage,
    words: &mut LineWords,
) -> Result<usize, WordFault>
    requires small { length line.now < 2 ^ 32 }
    requires within { place < length line.now }
    requires fits { FitsStage (length words.old.words) stage.old }
    ensures ok { IfOk result (λ behind. rest_of region.new stage.new words.new line.now behind ≡ rest_of region.old stage.old words.old line.now place) }
    ensures fault { IfErr result (λ f. rest_of region.old stage.old words.old line.now place ≡ Err f) }
    ensures fits { OnOk result (FitsStage (length words.new.words) stage.new) }
    ensures behind { IfOk result (λ behind. behind ≡ place + 1) }
{
    let (next, mark) = scan(*region, place as u32, line[place]);
    *region = next;
    take_mark(mark, stage, words)?;
    Ok(place + 1)
}

#[tactic(auto, unfolding(crate::specs::Lines::read_marks))]
fn end_line(region: Region, stage: &mut Stage, words: &mut LineWords) -> Result<(), WordFault>
    requires { FitsStage (length words.old.words) stage.old }
    ensures ok { OnOk result (read_marks stage.old words.old (end_marks region) ≡ Ok words.new) }
    ensures fault { IfErr result (λ f. read_marks stage.old words.old (end_marks region) ≡ Err f) }
{
    match region {
        Region::Comment(from) => Err(WordFault::Comment(from)),
        _ => finish(stage, words),
    }
}
