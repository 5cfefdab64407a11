//! Lines that several commands print.
ghost use Rattle.std.specs.Prelude.{◌≡◌, ◌∷◌, ◌++◌, IfOk, map};
ghost use Rattle.mill_answer.specs.Lines.{line, word_text};
ghost use Rattle.mill_answer.specs.Printed.{column_words, is_exact, margin_words, nodes_line};

use crate::line::line_of;
use crate::word::Word;
use crate::word::Word::{Length, Number, Text};
use mill_base::{Unit, WantOfMemory};
use std::alloc::Global;

/// The line of the words `start`, of `what`, and of a column of the stock that is left with this top.
pub fn line_of_column(
    alloc: Global,
    start: &[Word<'_>],
    what: &[u8],
    row: u32,
    column: u32,
    top: i32,
    unit: Unit,
) -> Result<Vec<u8>, WantOfMemory>
    ensures { IfOk result (λ made. made.items ≡
        line (map word_text start.now ++ what.now ∷ column_words unit row column top)) }
{
    line_of(
        alloc,
        start,
        &[
            Text(what),
            Text(b"row"),
            Number(u64::from(row)),
            Text(b"column"),
            Number(u64::from(column)),
            Text(b"top"),
            Length(top, unit),
        ],
    )
}

/// The line of these words and, where one of them isn't 0, of the overcut and the slack with which
/// a program was accepted.
pub fn line_with_margins(
    alloc: Global,
    words: &[Word<'_>],
    overcut: i32,
    slack: i32,
    unit: Unit,
) -> Result<Vec<u8>, WantOfMemory>
    ensures { IfOk result (λ made. made.items ≡
        line (map word_text words.now ++ margin_words unit overcut slack)) }
{
    if has_no_margin(overcut, slack) {
        return line_of(alloc, words, &[]);
    }
    line_of(
        alloc,
        words,
        &[
            Text(b"overcut"),
            Length(overcut, unit),
            Text(b"slack"),
            Length(slack, unit),
        ],
    )
}

// Whether an overcut and a slack are both 0.
fn has_no_margin(overcut: i32, slack: i32) -> bool
    ensures { result ≡ is_exact overcut slack }
{
    overcut == 0 && slack == 0
}

/// The line of a lattice of too many nodes.
pub fn line_of_nodes(alloc: Global, nodes: u64) -> Result<Vec<u8>, WantOfMemory>
    ensures { IfOk result (λ made. made.items ≡ nodes_line nodes) }
{
    line_of(alloc, &[Text(b"over"), Text(b"nodes")], &[Number(nodes)])
}
