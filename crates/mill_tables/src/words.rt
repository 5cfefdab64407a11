//! The words of a row, and what is told of one.
ghost use Rattle.std.specs.Prelude.{◌≡◌, ◌==◌, ◌≤◌, ◌++◌, [], ◌∷◌, if◌then◌else◌, List, ℕ};
ghost use Rattle.std.specs.Prelude.{IfOk, OnOk, codes, length, vec_len};
ghost use Rattle.std.specs.List.{after_first, before_first};
ghost use Rattle.std.specs.String.{string_bytes, string_len};
ghost use Rattle.mill_tables.specs.Rows.{Replaced};

use std::alloc::Global;
use std::test::Fail;

/// What stands before the first `=>` of a row, and what behind it. A row without one is refused.
pub fn halves(row: &str) -> Result<(&str, &str), Fail>
    ensures { IfOk result (λ halves. row.now ≡ halves.0.now ++ (codes " => " ++ halves.1.now)) }
{
    Ok(row.split_once(" => ").ok_or("a row without =>")?)
}

/// The first word and the others. A text of one word is refused.
pub fn first_word(text: &str) -> Result<(&str, &str), Fail>
    ensures first { IfOk result (λ words. words.0.now ≡ before_first (λ b. b == 32) text.now) }
    ensures others { IfOk result (λ words. words.1.now ≡ after_first (λ b. b == 32) text.now) }
{
    Ok(text.split_once(' ').ok_or("a row with too few words")?)
}

/// The words of a text, each as a text of its own.
pub fn owned_words(alloc: Global, text: &str) -> Result<Vec<String>, Fail>
    ensures { IfOk result (λ words. vec_len words ≤ length text.now) }
{
    let mut words = Vec::new(alloc);
    for word in text.split_whitespace() {
        words.push(String::from_str(alloc, word)?)?;
    }
    Ok(words)
}

/// A text with line ends in the place of `\n`.
pub fn with_lines(alloc: Global, text: &str) -> Result<String, Fail>
    ensures { IfOk result (λ lines.
        Replaced (92 ∷ 110 ∷ []) (10 ∷ []) text.now (string_bytes lines)) }
{
    Ok(text.replace(alloc, "\\n", "\n")?)
}

/// A text in which `\n`, `\r` and `\t` stand for the byte.
pub fn with_bytes(alloc: Global, text: &str) -> Result<String, Fail>
    ensures { IfOk result (λ bytes. (lines : List ℕ) × (returns : List ℕ)
        × Replaced (92 ∷ 110 ∷ []) (10 ∷ []) text.now lines
        × Replaced (92 ∷ 114 ∷ []) (13 ∷ []) lines returns
        × Replaced (92 ∷ 116 ∷ []) (9 ∷ []) returns (string_bytes bytes)) }
{
    let text = with_lines(alloc, text)?;
    let text = text.replace(alloc, "\\r", "\r")?;
    Ok(text.replace(alloc, "\\t", "\t")?)
}

/// Adds to what is told, behind a mark where something stands there.
fn add_behind(told: &mut String, mark: &str, more: &str) -> Result<(), Fail>
    ensures { OnOk result (string_bytes told.new ≡ string_bytes told.old
        ++ ((if string_len told.old == 0 then [] else mark.now) ++ more.now)) }
{
    if !told.is_empty() {
        told.push_str(mark)?;
    }
    told.push_str(more)?;
    Ok(())
}

/// Adds to what is told, with a semicolon between the one and the other.
pub fn add(told: &mut String, more: &str) -> Result<(), Fail>
    ensures { OnOk result (string_bytes told.new ≡ string_bytes told.old
        ++ ((if string_len told.old == 0 then [] else codes "; ") ++ more.now)) }
{
    add_behind(told, "; ", more)
}

/// Adds to what is told, with a comma between the one and the other.
pub fn add_with_comma(told: &mut String, more: &str) -> Result<(), Fail>
    ensures { OnOk result (string_bytes told.new ≡ string_bytes told.old
        ++ ((if string_len told.old == 0 then [] else codes ", ") ++ more.now)) }
{
    add_behind(told, ", ", more)
}
