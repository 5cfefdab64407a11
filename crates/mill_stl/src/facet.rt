//! What a word does.

ghost use Rattle.std.specs.Prelude.{◌≡◌, ◌+◌, ◌*◌, ◌^◌, ◌≤◌, ◌<◌, IfOk, IsTrue, ℕ};
ghost use Rattle.mill_base.specs.Numbers.{Within};
ghost use Rattle.mill_base.specs.declared.limits.TheConstants.{MAX_TRIANGLES};
ghost use Rattle.mill_base.specs.declared.unit.Unit.{Unit};
ghost use Rattle.mill_base.specs.Units.{greatest_of};
ghost use Rattle.mill_base.specs.Ranges.{TriInUnitRange};
ghost use Rattle.mill_stl.specs.Facets.{is_keyword as is_keyword_of, moved_to, with_name, after_keyword, after_solid, begun_facet, after_facet_or_end, stage_after_ignored as stage_after_ignored_of, stage_after_coord as stage_after_coord_of, rounded_after as rounded_after_of, with_coord, after_coord, tri_of as tri_of_coords, after_end_facet, at_stage as at_stage_of, after_word};
ghost use Rattle.mill_stl.specs.inner.Bounds.{FitsStage, CoordsInRange, FitsProgress, IsStep, stepped, Does};

use crate::fault::{StlFault, What};
use crate::state::{Progress, Stage};
use mill_base::{MAX_TRIANGLES, Pt3, Tri, Unit};
use mill_decimal::{Reading, Snap, read_with_rounding};

// Most files spell a keyword as the form does, so that comparison is tried first.
fn is_keyword(word: &[u8], keyword: &[u8]) -> bool
    ensures { result ≡ is_keyword_of word.now keyword.now }
{
    if is_exactly(word, keyword) {
        return true;
    }
    word.eq_ignore_ascii_case(keyword)
}

// Inlined, so that the bytes of a keyword are compared as constants.
#[inline(always)]
fn is_exactly(word: &[u8], keyword: &[u8]) -> bool
    ensures { IsTrue result → word.now ≡ keyword.now }
{
    if word.len() != keyword.len() {
        return false;
    }
    for place in 0..keyword.len() {
        if word[place] != keyword[place] {
            return false;
        }
    }
    true
}

fn move_to(progress: &mut Progress, next: Stage)
    requires fits { FitsProgress progress.old }
    requires next_fits { FitsStage next progress.old.facets progress.old.rounded }
    ensures value { stepped progress.new None ≡ moved_to progress.old next }
    ensures step { (unit : Unit) → IsStep unit progress.old (stepped progress.new None) }
{
    progress.stage = next;
}

fn begin_name(progress: &mut Progress, line: u64, next: Stage)
    requires fits { FitsProgress progress.old }
    requires next_fits { FitsStage next progress.old.facets progress.old.rounded }
    ensures value { stepped progress.new None ≡ with_name progress.old line next }
    ensures step { (unit : Unit) → IsStep unit progress.old (stepped progress.new None) }
{
    progress.stage = next;
    progress.name_line = line;
}

fn expect(
    progress: &mut Progress,
    line: u64,
    word: &[u8],
    keyword: &[u8],
    what: What,
    next: Stage,
) -> Result<Option<Tri>, StlFault>
    requires fits { FitsProgress progress.old }
    requires next_fits { FitsStage next progress.old.facets progress.old.rounded }
    ensures value { Does progress.new result (after_keyword progress.old line word.now keyword.now what next) }
    ensures step { (unit : Unit) → IfOk result (λ tri. IsStep unit progress.old (stepped progress.new tri)) }
{
    if is_keyword(word, keyword) {
        move_to(progress, next);
        return Ok(None);
    }
    Err(StlFault::Expected { line, what })
}

fn begin_solid(
    progress: &mut Progress,
    line: u64,
    word: &[u8],
    what: What,
) -> Result<Option<Tri>, StlFault>
    requires fits { FitsProgress progress.old }
    requires next_fits { FitsStage Stage.FacetOrEnd progress.old.facets progress.old.rounded }
    ensures value { Does progress.new result (after_solid progress.old line word.now what) }
    ensures step { (unit : Unit) → IfOk result (λ tri. IsStep unit progress.old (stepped progress.new tri)) }
{
    if is_keyword(word, b"solid") {
        begin_name(progress, line, Stage::FacetOrEnd);
        return Ok(None);
    }
    Err(StlFault::Expected { line, what })
}

fn begin_facet(progress: &mut Progress, line: u64) -> Result<Option<Tri>, StlFault>
    requires fits { FitsProgress progress.old }
    requires stage { progress.old.stage ≡ Stage.FacetOrEnd }
    ensures value { Does progress.new result (begun_facet progress.old line) }
    ensures step { (unit : Unit) → IfOk result (λ tri. IsStep unit progress.old (stepped progress.new tri)) }
{
    if progress.facets >= MAX_TRIANGLES as u64 {
        return Err(StlFault::TooManyTriangles { line });
    }
    move_to(progress, Stage::Normal);
    Ok(None)
}

fn facet_or_end(progress: &mut Progress, line: u64, word: &[u8]) -> Result<Option<Tri>, StlFault>
    requires fits { FitsProgress progress.old }
    requires stage { progress.old.stage ≡ Stage.FacetOrEnd }
    ensures value { Does progress.new result (after_facet_or_end progress.old line word.now) }
    ensures step { (unit : Unit) → IfOk result (λ tri. IsStep unit progress.old (stepped progress.new tri)) }
{
    if is_keyword(word, b"facet") {
        return begin_facet(progress, line);
    }
    if is_keyword(word, b"endsolid") {
        begin_name(progress, line, Stage::SolidOrEnd);
        return Ok(None);
    }
    Err(StlFault::Expected {
        line,
        what: What::FacetOrEnd,
    })
}

fn stage_after_ignored(number: u8) -> Stage
    requires { number ≤ 2 }
    ensures value { result ≡ stage_after_ignored_of number }
    ensures fits { (facets rounded : ℕ) → facets < MAX_TRIANGLES → rounded ≤ 9 * facets
        → FitsStage result facets rounded }
{
    if number < 2 {
        return Stage::Ignored(number + 1);
    }
    Stage::Outer
}

fn stage_after_coord(number: u8) -> Stage
    requires { number ≤ 8 }
    ensures value { result ≡ stage_after_coord_of number }
    ensures fits { (facets rounded : ℕ) → facets < MAX_TRIANGLES → rounded ≤ 9 * facets + number + 1
        → FitsStage result facets rounded }
{
    if number == 2 {
        return Stage::Vertex(3);
    }
    if number == 5 {
        return Stage::Vertex(6);
    }
    if number < 8 {
        return Stage::Coord(number + 1);
    }
    Stage::EndLoop
}

fn rounded_after(count: u64, rounded: bool) -> u64
    requires { count < 2 ^ 63 }
    ensures value { result ≡ rounded_after_of count rounded }
    ensures small { result ≤ count + 1 }
{
    if rounded { count + 1 } else { count }
}

fn put_coord(progress: &mut Progress, number: u8, units: i32, rounded: bool)
    requires fits { FitsProgress progress.old }
    requires stage { progress.old.stage ≡ Stage.Coord number }
    ensures value { stepped progress.new None ≡ with_coord progress.old number units rounded }
    ensures step { (unit : Unit) → Within (greatest_of unit) units
        → IsStep unit progress.old (stepped progress.new None) }
{
    progress.coords[usize::from(number)] = units;
    progress.stage = stage_after_coord(number);
    progress.rounded = rounded_after(progress.rounded, rounded);
}

fn take_coord(
    snap: Snap,
    unit: Unit,
    progress: &mut Progress,
    line: u64,
    number: u8,
    word: &[u8],
) -> Result<Option<Tri>, StlFault>
    requires fits { FitsProgress progress.old }
    requires stage { progress.old.stage ≡ Stage.Coord number }
    ensures value { Does progress.new result (after_coord snap unit progress.old line number word.now) }
    ensures step { IfOk result (λ tri. IsStep unit progress.old (stepped progress.new tri)) }
{
    match read_with_rounding(word, snap, unit) {
        Ok(Reading { units, rounded }) => {
            put_coord(progress, number, units, rounded);
            Ok(None)
        }
        Err(fault) => Err(StlFault::Coord { line, fault }),
    }
}

fn tri_of(coords: [i32; 9]) -> Tri
    ensures value { result ≡ tri_of_coords coords }
    ensures in_range { (unit : Unit) → CoordsInRange unit coords → TriInUnitRange unit result }
{
    let [ax, ay, az, bx, by, bz, cx, cy, cz] = coords;
    Tri {
        a: Pt3 {
            x: ax,
            y: ay,
            z: az,
        },
        b: Pt3 {
            x: bx,
            y: by,
            z: bz,
        },
        c: Pt3 {
            x: cx,
            y: cy,
            z: cz,
        },
    }
}

fn end_facet(progress: &mut Progress, line: u64, word: &[u8]) -> Result<Option<Tri>, StlFault>
    requires fits { FitsProgress progress.old }
    requires stage { progress.old.stage ≡ Stage.EndFacet }
    ensures value { Does progress.new result (after_end_facet progress.old line word.now) }
    ensures step { (unit : Unit) → IfOk result (λ tri. IsStep unit progress.old (stepped progress.new tri)) }
{
    if !is_keyword(word, b"endfacet") {
        return Err(StlFault::Expected {
            line,
            what: What::EndFacet,
        });
    }
    progress.stage = Stage::FacetOrEnd;
    progress.facets += 1;
    Ok(Some(tri_of(progress.coords)))
}

fn at_stage(
    snap: Snap,
    unit: Unit,
    stage: Stage,
    progress: &mut Progress,
    line: u64,
    word: &[u8],
) -> Result<Option<Tri>, StlFault>
    requires fits { FitsProgress progress.old }
    requires stage { stage ≡ progress.old.stage }
    ensures value { Does progress.new result (at_stage_of snap unit stage progress.old line word.now) }
    ensures step { IfOk result (λ tri. IsStep unit progress.old (stepped progress.new tri)) }
{
    match stage {
        Stage::Solid => begin_solid(progress, line, word, What::Solid),
        Stage::SolidOrEnd => begin_solid(progress, line, word, What::SolidOrEnd),
        Stage::FacetOrEnd => facet_or_end(progress, line, word),
        Stage::Normal => {
            let next = Stage::Ignored(0);
            expect(progress, line, word, b"normal", What::Normal, next)
        }
        Stage::Ignored(number) => {
            move_to(progress, stage_after_ignored(number));
            Ok(None)
        }
        Stage::Outer => expect(progress, line, word, b"outer", What::Outer, Stage::Loop),
        Stage::Loop => expect(progress, line, word, b"loop", What::Loop, Stage::Vertex(0)),
        Stage::Vertex(number) => {
            let next = Stage::Coord(number);
            expect(progress, line, word, b"vertex", What::Vertex, next)
        }
        Stage::Coord(number) => take_coord(snap, unit, progress, line, number, word),
        Stage::EndLoop => {
            let next = Stage::EndFacet;
            expect(progress, line, word, b"endloop", What::EndLoop, next)
        }
        Stage::EndFacet => end_facet(progress, line, word),
    }
}

/// What a word of a line does: the triangle of the facet that it ends, if it ends one.
#[tactic(auto, unfolding(crate::specs::Facets::after_word))]
pub(crate) fn take_word(
    snap: Snap,
    unit: Unit,
    progress: &mut Progress,
    line: u64,
    word: &[u8],
) -> Result<Option<Tri>, StlFault>
    requires { FitsProgress progress.old }
    ensures value { Does progress.new result (after_word snap unit progress.old line word.now) }
    ensures step { IfOk result (λ tri. IsStep unit progress.old (stepped progress.new tri)) }
{
    if line == progress.name_line {
        return Ok(None);
    }
    at_stage(snap, unit, progress.stage, progress, line, word)
}
