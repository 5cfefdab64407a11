ghost use Rattle.std.specs.Prelude.{◌≡◌, ◌++◌, decimal, IfOk, OnOk, map};
ghost use Rattle.std.specs.List.{flat_map};
ghost use Rattle.mill_decimal.specs.Decimals.{canonical};
ghost use Rattle.mill_answer.specs.Lines.{line, spaced, word_text};

use crate::word::Word;
use itoa::Buffer;
use mill_base::{Unit, WantOfMemory};
use mill_decimal::{NumText, write_decimal};
use std::alloc::Global;

/// The line of the words `start` and then `more`, parted by spaces and ended by a line feed.
///
/// Only want of memory keeps it from the line.
pub fn line_of(
    alloc: Global,
    start: &[Word<'_>],
    more: &[Word<'_>],
) -> Result<Vec<u8>, WantOfMemory>
    ensures { IfOk result (λ made.
        made.items ≡ line (map word_text start.now ++ map word_text more.now)) }
{
    let mut made = Vec::new(alloc);
    add_line(&mut made, start, more)?;
    Ok(made)
}

/// Adds that line to a text.
///
/// Only want of memory keeps it from the line. The text may then have a part of it.
pub fn add_line(
    text: &mut Vec<u8>,
    start: &[Word<'_>],
    more: &[Word<'_>],
) -> Result<(), WantOfMemory>
    ensures { OnOk result (text.new.items ≡
        text.old.items ++ line (map word_text start.now ++ map word_text more.now)) }
{
    let before = text.len();
    add_words(text, start)?;
    add_words(text, more)?;

    // The space behind the last word, if there is one, gives way to the line's end.
    if text.len() > before {
        text.pop();
    }
    text.push(b'\n')?;
    Ok(())
}

// Adds words, and a space behind each of them.
fn add_words(text: &mut Vec<u8>, words: &[Word<'_>]) -> Result<(), WantOfMemory>
    ensures { OnOk result (text.new.items ≡ text.old.items ++ flat_map spaced words.now) }
{
    for word in words {
        add_word(text, *word)?;
        text.push(b' ')?;
    }
    Ok(())
}

// Adds a word.
fn add_word(text: &mut Vec<u8>, word: Word<'_>) -> Result<(), WantOfMemory>
    ensures { OnOk result (text.new.items ≡ text.old.items ++ word_text word.entry) }
{
    match word {
        Word::Text(bytes) => add_text(text, bytes),
        Word::Number(number) => add_number(text, number),
        Word::Length(units, unit) => add_length(text, units, unit),
    }
}

// Adds bytes as they are.
fn add_text(text: &mut Vec<u8>, bytes: &[u8]) -> Result<(), WantOfMemory>
    ensures { OnOk result (text.new.items ≡ text.old.items ++ bytes.now) }
{
    text.extend_from_slice(bytes)?;
    Ok(())
}

// Adds a whole number.
fn add_number(text: &mut Vec<u8>, number: u64) -> Result<(), WantOfMemory>
    ensures { OnOk result (text.new.items ≡ text.old.items ++ decimal number) }
{
    let mut buffer = Buffer::new();
    add_text(text, buffer.format(number).as_bytes())
}

// Adds a length of so many units, in millimetres.
fn add_length(text: &mut Vec<u8>, units: i32, unit: Unit) -> Result<(), WantOfMemory>
    ensures { OnOk result (text.new.items ≡ text.old.items ++ canonical unit units) }
{
    let mut number = NumText::new();
    write_decimal(units, unit, &mut number);
    add_text(text, number.as_bytes())
}
