//! Reads a whole part text.

ghost use Rattle.std.specs.Prelude.{◌≡◌, ◌≤◌, ◌<◌, ◌*◌, [], length, IfOk, OnOk, IfErr, Ok};
ghost use Rattle.mill_base.specs.declared.limits.TheConstants.{MAX_TRIANGLES};
ghost use Rattle.mill_base.specs.declared.unit.Unit.{Unit};
ghost use Rattle.mill_base.specs.Ranges.{TrisInUnitRange};
ghost use Rattle.mill_stl.specs.Parts.{is_end as is_end_stage, start, reached_at, with_tri, with_word, whole_part, part_of, Fails, GivesPart};
ghost use Rattle.mill_stl.specs.inner.Bounds.{FitsProgress, IsSound, IsBeforeWord, meaning_from};

use crate::facet::take_word;
use crate::fault::StlFault;
use crate::scan::{behind_spaces, word_end};
use crate::state::{Cursor, Progress, Stage, StlRead};
use mill_base::{Tri, Unit};
use mill_decimal::Snap;
use std::alloc::Global;

fn is_end(stage: Stage) -> bool
    ensures { result ≡ is_end_stage stage }
{
    match stage {
        Stage::SolidOrEnd => true,
        _ => false,
    }
}

fn at_start() -> Progress
    ensures value { result ≡ start }
    ensures sound { (unit : Unit) → IsSound unit result [] }
{
    Progress {
        stage: Stage::Solid,
        name_line: 0,
        coords: [0; 9],
        facets: 0,
        rounded: 0,
    }
}

// Adds the triangle that a word has ended, if it has.
fn add(tris: &mut Vec<Tri>, tri: Option<Tri>) -> Result<(), StlFault>
    ensures ok { OnOk result (tris.new.items ≡ with_tri tris.old.items tri) }
    ensures fault { IfErr result (λ f. f ≡ StlFault.WantOfMemory) }
{
    if let Some(tri) = tri {
        tris.push(tri).map_err(|_| StlFault::WantOfMemory)?;
    }
    Ok(())
}

// Takes a word that has ended.
#[tactic(auto, using(crate::proofs::Steps::with_word_some))]
fn end_word(
    snap: Snap,
    unit: Unit,
    progress: &mut Progress,
    tris: &mut Vec<Tri>,
    line: u64,
    word: &[u8],
) -> Result<(), StlFault>
    requires some { 0 < length word.now }
    requires sound { IsSound unit progress.old tris.old.items }
    ensures ok { OnOk result (
        with_word snap unit (reached_at progress.old tris.old.items) line word.now
        ≡ Ok (reached_at progress.new tris.new.items)) }
    ensures sound { OnOk result (IsSound unit progress.new tris.new.items) }
    ensures fault { IfErr result (λ f.
        Fails f (with_word snap unit (reached_at progress.old tris.old.items) line word.now)) }
{
    let tri = take_word(snap, unit, progress, line, word)?;
    add(tris, tri)?;
    Ok(())
}

// Takes the word at the cursor, and passes over the white space behind it.
fn take_next(
    snap: Snap,
    unit: Unit,
    text: &[u8],
    cursor: Cursor,
    progress: &mut Progress,
    tris: &mut Vec<Tri>,
) -> Result<Cursor, StlFault>
    requires some { cursor.from < length text.now }
    requires placed { IsBeforeWord text.now cursor }
    requires sound { IsSound unit progress.old tris.old.items }
    ensures meaning { IfOk result (λ next.
        meaning_from snap unit text.now next progress.new tris.new.items
        ≡ meaning_from snap unit text.now cursor progress.old tris.old.items) }
    ensures forward { IfOk result (λ next. cursor.from < next.from) }
    ensures placed { IfOk result (λ next. IsBeforeWord text.now next) }
    ensures sound { OnOk result (IsSound unit progress.new tris.new.items) }
    ensures fault { IfErr result (λ f.
        Fails f (meaning_from snap unit text.now cursor progress.old tris.old.items)) }
{
    let end = word_end(text, cursor.from);
    let word = &text[cursor.from..end];
    end_word(snap, unit, progress, tris, cursor.line, word)?;
    Ok(behind_spaces(
        text,
        Cursor {
            line: cursor.line,
            from: end,
        },
    ))
}

// The text ends.
fn end_text(line: u64, progress: Progress, tris: Vec<Tri>) -> Result<StlRead, StlFault>
    requires fits { FitsProgress progress }
    requires count { length tris.items ≡ progress.facets }
    ensures gives { GivesPart result (whole_part line (reached_at progress tris.items)) }
    ensures same { IfOk result (λ read. read.tris ≡ tris) }
    ensures few { IfOk result (λ read. length read.tris.items ≤ MAX_TRIANGLES) }
    ensures few_rounded { IfOk result (λ read. read.rounded ≤ 9 * length read.tris.items) }
{
    if !is_end(progress.stage) {
        return Err(StlFault::CutShort { line });
    }
    Ok(StlRead {
        tris,
        rounded: progress.rounded,
    })
}

/// The triangles of a part text in ASCII STL, in the order of the text, and how many of its
/// coordinates were rounded.
///
/// The text is one solid or several, read as words that white space parts: `solid` and a name,
/// facets, `endsolid` and a name. A name is the rest of its line, whatever it is. Keywords are in
/// any letter case, and a normal's three words may be any words. Coordinates are decimals of
/// millimetres, read by `snap` to whole units.
///
/// A text of another form is refused for its first bad place; [`StlFault`] says which there are.
#[tactic(auto, unfolding(crate::specs::Parts::part_of))]
pub fn read_stl(alloc: Global, text: &[u8], snap: Snap, unit: Unit) -> Result<StlRead, StlFault>
    ensures gives { GivesPart result (part_of snap unit text.now) }
    ensures in_range { IfOk result (λ read. TrisInUnitRange unit read.tris.items) }
    ensures few { IfOk result (λ read. length read.tris.items ≤ MAX_TRIANGLES) }
    ensures few_rounded { IfOk result (λ read. read.rounded ≤ 9 * length read.tris.items) }
{
    let mut tris = Vec::new(alloc);
    let mut progress = at_start();
    let mut cursor = behind_spaces(text, Cursor { line: 1, from: 0 });
    while cursor.from < text.len() {
        cursor = take_next(snap, unit, text, cursor, &mut progress, &mut tris)?;
    }
    end_text(cursor.line, progress, tris)
}
