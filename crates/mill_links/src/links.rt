ghost use Rattle.std.specs.Prelude.{◌≡◌, List, [], ◌∷◌, ◌++◌, ◌-ℤ◌, ◌*ℤ◌, ◌<◌, ◌<ℤ◌, ◌≤ℤ◌, pos, false, take, All, OnOk, OnErr, IsTrue};
ghost use Rattle.mill_base.specs.Ranges.{IsInRange, MovesInRange};
ghost use Rattle.mill_base.specs.declared.motion.Move.{Move as OneMove};
ghost use Rattle.mill_base.specs.declared.points.Tri.{Tri};
ghost use Rattle.mill_dexel.specs.Rows.{IsRowOf};
ghost use Rattle.mill_links.specs.Links.{AddsLink, FollowStock, IsClear, IsNearBy, SaysClear};
ghost use Rattle.mill_links.specs.Links.{at_height as at_height_of, climb as climb_of};
ghost use Rattle.mill_links.specs.Links.{cross as cross_of, descend as descend_of};
ghost use Rattle.mill_links.specs.Links.{detour as detour_of, distance, feed_to as feed_of};
ghost use Rattle.mill_links.specs.Links.{over_stock as over_stock_of, peck_count as peck_count_of};
ghost use Rattle.mill_links.specs.Links.{plunge as plunge_of, rapid_to as rapid_of, way_home};
ghost use Rattle.mill_links.specs.inner.Linking.{GoesOn, SaysStraight, link_moves};

use crate::visit::Visit;
use mill_base::{Kind, Move, Pt3, WantOfMemory};
use mill_dexel::{Row, cut_rows, keeps_depth};
use mill_gouge::tool_clears;
use mill_job::Job;
use mill_part::SortedPart;

/// Adds the moves that link the place `from`, where the cutter is, to the visit.
///
/// There are none where the cutter is at the visit already. A visit that is at most twice its step
/// away in x and in y is fed to straight, where on that feed the cutter, and its holder if it has
/// one, passes each triangle of the part, and no column of the stock is cut deeper than the job
/// allows. Whether the holder passes the stock isn't looked at. To each other visit the cutter goes
/// round: up to the clear height, across, down to where the cutter is just over the stock, and then
/// by feeds straight down to the visit, none of which is longer than the job's greatest depth of
/// cut.
///
/// Where the job limits the depth of cut, the rows are to be those of the stock as the moves so far
/// leave it, and then they are as the added moves leave it. Where it doesn't, they aren't looked at,
/// stay as they are and may be none.
///
/// Coordinates are in the job's units, of at most 524,287 in magnitude.
///
/// # Errors
///
/// Only want of memory. The moves and the rows are as they were then.
pub fn link(
    job: &Job,
    part: &SortedPart,
    rows: &mut [Row],
    from: Pt3,
    to: Visit,
    out: &mut Vec<Move>,
) -> Result<(), WantOfMemory>
    requires rows_ok { All (IsRowOf job.now.fields) rows.old }
    requires from_ok { IsInRange from }
    requires to_ok { IsInRange to.at }
    ensures ok { (done : List OneMove) → FollowStock job.now.fields done rows.old
        → OnOk result (AddsLink job.now.fields part.now done from to out.old.items out.new.items) }
    ensures stock { (done added : List OneMove) → FollowStock job.now.fields done rows.old → out.new.items ≡ out.old.items ++ added
        → OnOk result (FollowStock job.now.fields (done ++ added) rows.new) }
    ensures untested { job.now.fields.max_cut ≡ pos 0 → rows.new ≡ rows.old }
    ensures rows_ok { All (IsRowOf job.now.fields) rows.new }
    ensures err { OnErr result (out.new.items ≡ out.old.items) }
    ensures err_rows { OnErr result (rows.new ≡ rows.old) }
{
    let clear = goes_clear(job, part, from, to);
    link_known(job, rows, from, to, clear, out)
}

/// Whether nothing but the stock may stand in the way of the link from the place `from`, where the
/// cutter is, to the visit: it is no move, or the straight feed is short enough, and on it the cutter, and
/// its holder if it has one, passes the part.
///
/// Coordinates are in the job's units, of at most 524,287 in magnitude.
pub fn goes_clear(job: &Job, part: &SortedPart, from: Pt3, to: Visit) -> bool
    requires from_ok { IsInRange from }
    requires to_ok { IsInRange to.at }
    ensures { SaysClear job.now.fields part.now from to result }
{
    if to.at == from {
        return true;
    }
    is_clear(job, part, from, to)
}

/// Adds the moves that `link` adds, where it is known what `goes_clear` says of the link: for each part
/// of which `clear` says it, they are the link's. The rows are those that `link` takes, and become
/// what it makes of them.
///
/// # Errors
///
/// Only want of memory. The moves and the rows are as they were then.
pub fn link_known(
    job: &Job,
    rows: &mut [Row],
    from: Pt3,
    to: Visit,
    clear: bool,
    out: &mut Vec<Move>,
) -> Result<(), WantOfMemory>
    requires rows_ok { All (IsRowOf job.now.fields) rows.old }
    requires from_ok { IsInRange from }
    requires to_ok { IsInRange to.at }
    ensures ok { (part : List Tri) (done : List OneMove) → SaysClear job.now.fields part from to clear → FollowStock job.now.fields done rows.old
        → OnOk result (AddsLink job.now.fields part done from to out.old.items out.new.items) }
    ensures stock { (done added : List OneMove) → FollowStock job.now.fields done rows.old → out.new.items ≡ out.old.items ++ added
        → OnOk result (FollowStock job.now.fields (done ++ added) rows.new) }
    ensures untested { job.now.fields.max_cut ≡ pos 0 → rows.new ≡ rows.old }
    ensures rows_ok { All (IsRowOf job.now.fields) rows.new }
    ensures err { OnErr result (out.new.items ≡ out.old.items) }
    ensures err_rows { OnErr result (rows.new ≡ rows.old) }
{
    let straight = goes_straight(job, rows, from, to, clear);
    let first = out.len();
    add_link(job, from, to, straight, out)?;
    cut(job, rows, &out[first..]);
    Ok(())
}

/// Adds the way home from the place `from`: up to the clear height, and across.
///
/// # Errors
///
/// Only want of memory. The moves are as they were then.
pub fn home(job: &Job, from: Pt3, out: &mut Vec<Move>) -> Result<(), WantOfMemory>
    ensures ok { OnOk result (out.new.items ≡ out.old.items ++ way_home job.now.fields from) }
    ensures err { OnErr result (out.new.items ≡ out.old.items) }
{
    let first = out.len();
    let added = go_home(job, from, out);
    all_or_none(added, first, out)
}

/// Whether the straight feed to the visit is clear.
fn is_clear(job: &Job, part: &SortedPart, from: Pt3, to: Visit) -> bool
    requires from_ok { IsInRange from }
    requires to_ok { IsInRange to.at }
    ensures yes { IsTrue result → IsClear job.now.fields part.now from to }
    ensures no { result ≡ false → ¬ IsClear job.now.fields part.now from to }
{
    if !is_near_by(from, to) {
        return false;
    }
    tool_clears(&job.tool(), part, &feed_to(from, to.at))
}

/// Whether the visit is at most twice its step away from the place, in x and in y.
fn is_near_by(from: Pt3, to: Visit) -> bool
    ensures yes { IsTrue result → IsNearBy from to }
    ensures no { result ≡ false → ¬ IsNearBy from to }
{
    if !is_within(to.at.x, from.x, to.step) {
        return false;
    }
    is_within(to.at.y, from.y, to.step)
}

/// Whether two coordinates lie at most two steps apart.
fn is_within(a: i32, b: i32, step: i32) -> bool
    ensures yes { IsTrue result → distance a b ≤ℤ (pos 2 *ℤ step) }
    ensures no { result ≡ false → ¬ (distance a b ≤ℤ (pos 2 *ℤ step)) }
{
    i64::from(a.abs_diff(b)) <= 2 * i64::from(step)
}

/// Whether the link needs no way round, where `clear` says what `goes_clear` says of it, and the rows are
/// the stock's.
fn goes_straight(job: &Job, rows: &[Row], from: Pt3, to: Visit, clear: bool) -> bool
    requires rows_ok { All (IsRowOf job.now.fields) rows.now }
    requires from_ok { IsInRange from }
    requires to_ok { IsInRange to.at }
    ensures { (part : List Tri) (done : List OneMove) → SaysClear job.now.fields part from to clear → FollowStock job.now.fields done rows.now
        → SaysStraight job.now.fields part done from to result }
{
    if !clear {
        return false;
    }
    if job.fields.max_cut == 0 || to.at == from {
        return true;
    }
    keeps_depth(job, rows, &feed_to(from, to.at))
}

/// Lowers the rows of the stock to what the cutter leaves after these moves, where the job limits the
/// depth of cut.
fn cut(job: &Job, rows: &mut [Row], moves: &[Move])
    requires rows_ok { All (IsRowOf job.now.fields) rows.old }
    requires moves_ok { MovesInRange moves.now }
    ensures stock { (done : List OneMove) → FollowStock job.now.fields done rows.old → FollowStock job.now.fields (done ++ moves.now) rows.new }
    ensures untested { job.now.fields.max_cut ≡ pos 0 → rows.new ≡ rows.old }
    ensures rows_ok { All (IsRowOf job.now.fields) rows.new }
{
    if job.fields.max_cut == 0 {
        return;
    }
    for step in moves {
        cut_rows(job, rows, step);
    }
}

/// Adds the moves of a link, where it is known whether it goes straight.
fn add_link(
    job: &Job,
    from: Pt3,
    to: Visit,
    straight: bool,
    out: &mut Vec<Move>,
) -> Result<(), WantOfMemory>
    requires { IsInRange to.at }
    ensures ok { OnOk
        result
        (out.new.items ≡ out.old.items ++ link_moves job.now.fields from to straight) }
    ensures err { OnErr result (out.new.items ≡ out.old.items) }
{
    if to.at == from {
        return Ok(());
    }
    if straight {
        return add(feed_to(from, to.at), out);
    }
    let first = out.len();
    let added = go_round(job, from, to.at, out);
    all_or_none(added, first, out)
}

/// Takes back what was added from the move of number `first` on, where not all was added.
fn all_or_none(
    added: Result<(), WantOfMemory>,
    first: usize,
    out: &mut Vec<Move>,
) -> Result<(), WantOfMemory>
    ensures same { result ≡ added }
    ensures ok { OnOk result (out.new.items ≡ out.old.items) }
    ensures err { OnErr result (out.new.items ≡ take first out.old.items) }
{
    if added.is_err() {
        out.truncate(first);
    }
    added
}

/// Adds the first moves of the way home, and where the memory suffices all of them.
fn go_home(job: &Job, from: Pt3, out: &mut Vec<Move>) -> Result<(), WantOfMemory>
    ensures ok { OnOk result (out.new.items ≡ out.old.items ++ way_home job.now.fields from) }
    ensures on { GoesOn out.old.items out.new.items }
{
    climb(job, from, out)?;
    cross(job, from, job.home(), out)
}

/// Adds the first moves of the way round over everything to a place, and where the memory suffices all
/// of them: up, across, down to just over the stock, and from there to the place.
fn go_round(job: &Job, from: Pt3, at: Pt3, out: &mut Vec<Move>) -> Result<(), WantOfMemory>
    requires { IsInRange at }
    ensures ok { OnOk result (out.new.items ≡ out.old.items ++ detour_of job.now.fields from at) }
    ensures on { GoesOn out.old.items out.new.items }
{
    climb(job, from, out)?;
    cross(job, from, at, out)?;
    descend(job, at, out)?;
    plunge(job, at, out)
}

/// Adds the rapid up to the clear height, where the place is under it.
fn climb(job: &Job, from: Pt3, out: &mut Vec<Move>) -> Result<(), WantOfMemory>
    ensures ok { OnOk result (out.new.items ≡ out.old.items ++ climb_of job.now.fields from) }
    ensures err { OnErr result (out.new.items ≡ out.old.items) }
{
    if from.z >= job.fields.clear {
        return Ok(());
    }
    add(rapid_to(from, at_height(from, job.fields.clear)), out)
}

/// Adds the rapid across at the clear height, as the job's machine makes it, where the places
/// differ in x or y.
fn cross(job: &Job, from: Pt3, at: Pt3, out: &mut Vec<Move>) -> Result<(), WantOfMemory>
    ensures ok { OnOk result (out.new.items ≡ out.old.items ++ cross_of job.now.fields from at) }
    ensures err { OnErr result (out.new.items ≡ out.old.items) }
{
    let start = at_height(from, job.fields.clear);
    let end = at_height(at, job.fields.clear);
    if start == end {
        return Ok(());
    }
    add(job.fields.rapids.made(rapid_to(start, end)), out)
}

/// The lowest height of the tool's tip at which nothing of the cutter, with the slack around it, is
/// under the top of the stock.
fn over_stock(job: &Job) -> i32
    ensures value { result ≡ over_stock_of job.now.fields }
    ensures least { job.now.fields.top ≤ℤ result }
    ensures most { result ≤ℤ job.now.fields.clear }
{
    job.fields.top - job.outer().lift()
}

/// Adds the rapid down from the clear height to where the tool is just over the stock, where that
/// is lower.
fn descend(job: &Job, at: Pt3, out: &mut Vec<Move>) -> Result<(), WantOfMemory>
    ensures ok { OnOk result (out.new.items ≡ out.old.items ++ descend_of job.now.fields at) }
    ensures err { OnErr result (out.new.items ≡ out.old.items) }
{
    let low = over_stock(job);
    if low >= job.fields.clear {
        return Ok(());
    }
    add(
        rapid_to(at_height(at, job.fields.clear), at_height(at, low)),
        out,
    )
}

/// Adds the first feeds of those from over the stock straight down to a place, and where the memory
/// suffices all of them. Each goes no deeper under the top of the stock, or under the one before
/// it, than the job's greatest depth of cut.
fn plunge(job: &Job, at: Pt3, out: &mut Vec<Move>) -> Result<(), WantOfMemory>
    requires { IsInRange at }
    ensures ok { OnOk result (out.new.items ≡ out.old.items ++ plunge_of job.now.fields at) }
    ensures on { GoesOn out.old.items out.new.items }
{
    let mut start = over_stock(job);
    let mut low = job.fields.top;
    for _ in 0..peck_count(job, at) {
        low -= job.fields.max_cut;
        add(feed_to(at_height(at, start), at_height(at, low)), out)?;
        start = low;
    }
    add(feed_to(at_height(at, start), at), out)
}

/// How many feeds down to a place end over it, where each ends the job's greatest depth of cut
/// under the one before it, and the first so far under the top of the stock.
fn peck_count(job: &Job, at: Pt3) -> u32
    requires { IsInRange at }
    ensures value { result ≡ peck_count_of job.now.fields.max_cut (job.now.fields.top -ℤ at.z) }
    ensures under { 0 < result → at.z <ℤ job.now.fields.top }
{
    let top = job.fields.top;
    if job.fields.max_cut == 0 || at.z >= top {
        return 0;
    }
    (top.abs_diff(at.z) - 1) / job.fields.max_cut.unsigned_abs()
}

/// Adds one move.
fn add(step: Move, out: &mut Vec<Move>) -> Result<(), WantOfMemory>
    ensures ok { OnOk result (out.new.items ≡ out.old.items ++ step ∷ []) }
    ensures err { OnErr result (out.new.items ≡ out.old.items) }
{
    out.push(step)?;
    Ok(())
}

/// The feed from one place to another.
fn feed_to(from: Pt3, to: Pt3) -> Move
    ensures { result ≡ feed_of from to }
{
    Move {
        kind: Kind::Feed,
        from,
        to,
    }
}

/// The rapid from one place to another.
pub(crate) fn rapid_to(from: Pt3, to: Pt3) -> Move
    ensures { result ≡ rapid_of from to }
{
    Move {
        kind: Kind::Rapid,
        from,
        to,
    }
}

/// The place at this height over or under another.
fn at_height(place: Pt3, z: i32) -> Pt3
    ensures { result ≡ at_height_of place z }
{
    Pt3 { z, ..place }
}
