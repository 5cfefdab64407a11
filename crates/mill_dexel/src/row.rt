ghost use Rattle.std.specs.Prelude.{◌≡◌, ℕ, ◌-◌, ◌<◌, ◌≤◌, ◌+ℤ◌, ◌≤ℤ◌, false, length, None, Some, IfOk, IfSome, IsTrue, MatchOption};
ghost use Rattle.mill_base.specs.Ranges.{MoveInRange, MovesInRange};
ghost use Rattle.mill_base.specs.Solids.{IsLift};
ghost use Rattle.mill_base.specs.declared.motion.Kind.TheVariants.{Rapid, Feed};
ghost use Rattle.mill_job.specs.Columns.{row_count, column_count};
ghost use Rattle.mill_job.specs.Jobs.{IsFrom, IsJob};
ghost use Rattle.mill_dexel.specs.inner.Passing.{PassesBeside, PassesOver, trying};
ghost use Rattle.mill_dexel.specs.inner.Readiness.{IsNext};
ghost use Rattle.mill_dexel.specs.inner.Cuts.{IsCutAt};
ghost use Rattle.mill_dexel.specs.Tops.{IsTested, tested_height as tested_height_of, tops_after_move};
ghost use Rattle.mill_dexel.specs.Rows.{IsRowOf, cutting, PassesRow, HolderClearsRow, IsFirstStop, IsColumnBlocked, IsFirstHolderStop, restarted, row_point, top_at, uncut_row, uncut_tri};
ghost use Rattle.mill_dexel.specs.Turns.{ClearsRow, CutClearsRow, CutStopsAt, IsLeftBy, IsRowStopped, StopsRow, move_at, row_before, turned};

use crate::band::Band;
use crate::bands::Bands;
use crate::cut::cut_move;
use crate::fail::{RowFail, RowTest};
use crate::reach::{Reach, is_apart, is_away, reach_of};
use mill_base::{Kind, Move, Pt3, Solid, Tri, WantOfMemory};
use mill_job::Job;
use mill_sweep::{Leaf, Sweep, passes_tri};
use std::alloc::Global;
use std::marker::Model;

/// A row of the stock's columns: for each, the height up to which it is still there, in units. It goes
/// through the moves of a program one by one, up to a rapid that would cut it, a feed that would cut too
/// deep, or a move on which the holder would touch it; or, by `turn_through`, past these too.
#[derive(Drop)]
pub struct Row {
    number: u32,
    tops: Vec<i32>,
    done: u64,
    failed: Option<RowFail>,
}

impl Model for Row {
    ghost use Rattle.mill_dexel.specs.Rows.{RowState};

    ghost Value = { RowState };

    ghost view = { λ r. record { row = r.number; tops = r.tops.items; done = r.done; failed = r.failed } };
}

impl Row {
    /// The uncut row of this number, before the first move.
    pub fn new(alloc: Global, job: &Job, number: u64) -> Result<Row, WantOfMemory>
        requires { number < row_count job.now.fields }
        ensures row { IfOk result (λ r. IsRowOf job.now.fields r) }
        ensures uncut { IfOk result (λ r. r ≡ uncut_row job.now.fields number) }
    {
        let tops = vec![in alloc; job.fields.top; job.columns() as usize]?;
        Ok(Row {
            number: number as u32,
            tops,
            done: 0,
            failed: None,
        })
    }

    /// The row with the same tops before the first move of another list of moves: no move is done, and none
    /// has failed. The only error is want of memory, for the tops.
    pub fn again(&self, alloc: Global) -> Result<Row, WantOfMemory>
        ensures { IfOk result (λ r. r ≡ restarted self.now) }
    {
        let tops = Vec::from_slice(alloc, &self.tops)?;
        Ok(Row {
            number: self.number,
            tops,
            done: 0,
            failed: None,
        })
    }

    /// The top of each column, from the first on.
    pub fn tops(&self) -> &[i32]
        ensures { result.now ≡ self.now.tops }
    {
        &self.tops
    }

    /// How many moves have had their turn and passed, and so the number of the next one.
    pub fn done(&self) -> u64
        ensures { result ≡ self.now.done }
    {
        self.done
    }

    /// Where the row stopped a move, if it did.
    pub fn failed(&self) -> Option<RowFail>
        ensures { result ≡ self.now.failed }
    {
        self.failed
    }

    /// The first column whose top the move doesn't pass at every moment, with the segment of the move at
    /// which the test fails; none where it passes them all.
    pub fn rapid_turn(&self, job: &Job, step: &Move) -> Option<(u32, Leaf)>
        requires row { IsRowOf job.now.fields self.now }
        requires step { MoveInRange step.now }
        ensures first { MatchOption result (PassesRow job.now.fields (cutting job.now.fields Rapid step.now) self.now) (λ s. IsFirstStop job.now.fields (cutting job.now.fields Rapid step.now) self.now s.0 s.1) }
        ensures blocked { IfSome result (λ s. IsColumnBlocked job.now.fields (cutting job.now.fields Rapid step.now) self.now s.0 s.1) }
    {
        if self.is_passed_uncut(job, step) {
            return None;
        }
        self.first_stop(job, job.stock_solid(), Kind::Rapid, step)
    }

    /// The first column in which the move, as a feed, would cut too deep, with the segment of the move at
    /// which the test fails; none where it does so in no column, or the job doesn't limit the depth.
    ///
    /// A feed may remove no point that lies the job's `max_cut` or more under the column's top. So it
    /// has to pass the point as far under the top as that, or the one at the floor where that is higher.
    pub fn cut_test(&self, job: &Job, step: &Move) -> Option<(u32, Leaf)>
        requires row { IsRowOf job.now.fields self.now }
        requires step { MoveInRange step.now }
        ensures none { result ≡ None → IsTested job.now.fields Feed → PassesRow job.now.fields (cutting job.now.fields Feed step.now) self.now }
        ensures tested { IfSome result (λ s. IsTested job.now.fields Feed) }
        ensures first { IfSome result (λ s. IsFirstStop job.now.fields (cutting job.now.fields Feed step.now) self.now s.0 s.1) }
        ensures blocked { IfSome result (λ s. IsColumnBlocked job.now.fields (cutting job.now.fields Feed step.now) self.now s.0 s.1) }
    {
        if job.fields.max_cut == 0 {
            return None;
        }
        self.first_stop(job, job.stock_solid(), Kind::Feed, step)
    }

    /// The first column whose top the job's holder doesn't pass at every moment of the move, with the segment
    /// of the move at which the test fails; none where it passes them all, or the job has no holder.
    ///
    /// A segment of the holder's way is one of the cutter's, since both are halved at the same moments.
    pub fn holder_test(&self, job: &Job, step: &Move) -> Option<(u32, Leaf)>
        requires row { IsRowOf job.now.fields self.now }
        requires step { MoveInRange step.now }
        ensures { MatchOption result (HolderClearsRow job.now.fields self.now step.now) (λ s. IsFirstHolderStop job.now.fields self.now step.now s.0 s.1) }
    {
        match job.holder_solid() {
            None => None,
            Some(holder) => self.first_stop(job, holder, Kind::Rapid, step),
        }
    }

    /// Lowers the tops to what is left after the move for sure.
    pub fn cut_turn(&mut self, job: &Job, step: &Move)
        requires row { IsRowOf job.now.fields self.old }
        requires step { MoveInRange step.now }
        ensures tops { self.new ≡ record self.old { tops = tops_after_move job.now.fields self.old.row 0 step.now self.old.tops } }
        ensures row { IsRowOf job.now.fields self.new }
    {
        self.cut_after(job, step, None);
    }

    /// The turn of move `t`, the row's next one, in a row that hasn't failed. A rapid is tested first, and
    /// a feed where the job limits the depth of cut; then the holder is tested, where the job has one. A
    /// move that passes cuts, and the answer is true; where one fails, the first test that it fails is
    /// noted, nothing is cut, and the answer is false.
    pub fn turn(&mut self, job: &Job, moves: &[Move], t: u64) -> bool
        requires moves_ok { MovesInRange moves.now }
        requires row { IsRowOf job.now.fields self.old }
        requires unfailed { self.old.failed ≡ None }
        requires next { t ≡ self.old.done }
        requires there { t < length moves.now }
        ensures clears { IsTrue result → ClearsRow job.now.fields self.old (move_at moves.now t) }
        ensures cut { IsTrue result → self.new ≡ turned job.now.fields (move_at moves.now t) self.old }
        ensures stopped { result ≡ false → IsRowStopped job.now.fields (move_at moves.now t) self.old self.new }
        ensures row { IsRowOf job.now.fields self.new }
    {
        self.turn_after(job, moves, t, None)
    }

    /// The turn of move `t`, as `turn` makes it, in a row that all moves before it have cut. Where the
    /// move starts at the end of the one before, its first sample is left out, which would cut nothing.
    pub fn turn_on(&mut self, job: &Job, moves: &[Move], t: u64) -> bool
        requires moves_ok { MovesInRange moves.now }
        requires row { IsRowOf job.now.fields self.old }
        requires unfailed { self.old.failed ≡ None }
        requires next { t ≡ self.old.done }
        requires there { t < length moves.now }
        requires left { IsLeftBy job.now.fields moves.now t self.old }
        ensures clears { IsTrue result → ClearsRow job.now.fields self.old (move_at moves.now t) }
        ensures cut { IsTrue result → self.new ≡ turned job.now.fields (move_at moves.now t) self.old }
        ensures stopped { result ≡ false → IsRowStopped job.now.fields (move_at moves.now t) self.old self.new }
        ensures row { IsRowOf job.now.fields self.new }
    {
        self.turn_after(job, moves, t, end_before(moves, t))
    }

    /// The turn of move `t`, as `turn_on` makes it, but the move cuts whether it passes or not, and the row
    /// goes on. The answer is the first test that the move fails, if it fails one; nothing is noted in the row.
    pub fn turn_through(&mut self, job: &Job, moves: &[Move], t: u64) -> Option<RowFail>
        requires moves_ok { MovesInRange moves.now }
        requires row { IsRowOf job.now.fields self.old }
        requires unfailed { self.old.failed ≡ None }
        requires next { t ≡ self.old.done }
        requires there { t < length moves.now }
        requires left { IsLeftBy job.now.fields moves.now t self.old }
        ensures told { MatchOption
            result
            (ClearsRow job.now.fields self.old (move_at moves.now t))
            (StopsRow job.now.fields self.old (move_at moves.now t)) }
        ensures cut { self.new ≡ turned job.now.fields (move_at moves.now t) self.old }
        ensures row { IsRowOf job.now.fields self.new }
    {
        let step = &moves[t as usize];
        let fail = self.stop(job, step);
        self.cut_after(job, step, end_before(moves, t));
        self.done = t + 1;
        fail
    }

    /// Lets the row go over its next moves, from `t` on, where they stay so far away that none of them
    /// touches it, and says which move is next then. It goes band by band, up to the first band that
    /// comes near, so that a row far away from a whole program goes over it at once.
    pub fn go_over(&mut self, job: &Job, bands: &Bands, t: u64) -> u64
        requires moves_ok { MovesInRange bands.now.moves }
        requires row { IsRowOf job.now.fields self.old }
        requires unfailed { self.old.failed ≡ None }
        requires next { t ≡ self.old.done }
        requires there { t < bands.now.count }
        ensures onward { t ≤ result }
        ensures within { result ≤ bands.now.count }
        ensures clears { (k : ℕ) → t ≤ k → k < result → ClearsRow job.now.fields (row_before job.now.fields bands.now.moves self.old k) (move_at bands.now.moves k) }
        ensures is { self.new ≡ row_before job.now.fields bands.now.moves self.old result }
        ensures row { IsRowOf job.now.fields self.new }
    {
        let count = bands.count();
        let mut next = t;
        while next < count {
            let band = bands.around(next);
            if !self.pass_over(job, band) {
                return next;
            }
            next = band.end;
        }
        next
    }

    /// The turn of move `t`, as `turn` makes it, in a row that is known to be cut at the point `last`, if
    /// one is given.
    pub(crate) fn turn_after(
        &mut self,
        job: &Job,
        moves: &[Move],
        t: u64,
        last: Option<Pt3>,
    ) -> bool
        requires moves_ok { MovesInRange moves.now }
        requires row { IsRowOf job.now.fields self.old }
        requires next { IsNext moves.now self.old t }
        requires last { IfSome last (λ tip. IsCutAt job.now.fields self.old.row tip self.old.tops) }
        ensures clears { IsTrue result → ClearsRow job.now.fields self.old (move_at moves.now t) }
        ensures cut { IsTrue result → self.new ≡ turned job.now.fields (move_at moves.now t) self.old }
        ensures stopped { result ≡ false → IsRowStopped job.now.fields (move_at moves.now t) self.old self.new }
        ensures row { IsRowOf job.now.fields self.new }
    {
        let step = &moves[t as usize];
        if let Some(fail) = self.stop(job, step) {
            self.failed = Some(fail);
            return false;
        }
        self.cut_after(job, step, last);
        self.done = t + 1;
        true
    }

    /// Lets the row go over the moves of a band at once, and says whether it did: where its next move is
    /// one of them, and the band is so far away that none of them touches the row.
    pub(crate) fn pass_over(&mut self, job: &Job, band: &Band) -> bool
        requires { IsRowOf job.now.fields self.old }
        ensures passed { IsTrue result → PassesOver job.now.fields band.now self.old self.new }
        ensures kept { result ≡ false → self.new ≡ self.old }
    {
        if self.done < band.first || self.done > band.end {
            return false;
        }
        if !is_away(job, job.row_y(self.number), band.low, band.high) {
            return false;
        }
        self.done = band.end;
        true
    }

    /// Lowers the tops to what is left after the move for sure, where they are known to be cut at
    /// the point `last`, if one is given.
    fn cut_after(&mut self, job: &Job, step: &Move, last: Option<Pt3>)
        requires row { IsRowOf job.now.fields self.old }
        requires step { MoveInRange step.now }
        requires last { IfSome last (λ tip. IsCutAt job.now.fields self.old.row tip self.old.tops) }
        ensures tops { self.new ≡ record self.old { tops = tops_after_move job.now.fields self.old.row 0 step.now self.old.tops } }
        ensures row { IsRowOf job.now.fields self.new }
    {
        let number = self.number;
        cut_move(&mut self.tops, job, number, step, last);
    }

    /// The failure of the next move, where the row stops it. The test of the move's kind comes before
    /// the holder's.
    fn stop(&self, job: &Job, step: &Move) -> Option<RowFail>
        requires row { IsRowOf job.now.fields self.now }
        requires step { MoveInRange step.now }
        ensures { MatchOption result (ClearsRow job.now.fields self.now step.now) (StopsRow job.now.fields self.now step.now) }
    {
        if let Some((col, leaf)) = self.kind_test(job, step) {
            return Some(RowFail {
                at: self.done,
                col,
                leaf,
                test: RowTest::Cut,
            });
        }
        if let Some((col, leaf)) = self.holder_test(job, step) {
            return Some(RowFail {
                at: self.done,
                col,
                leaf,
                test: RowTest::Holder,
            });
        }
        None
    }

    /// What the test of the move's kind finds: the first column that the cutter doesn't pass, and the
    /// segment of the move.
    fn kind_test(&self, job: &Job, step: &Move) -> Option<(u32, Leaf)>
        requires row { IsRowOf job.now.fields self.now }
        requires step { MoveInRange step.now }
        ensures { MatchOption result (CutClearsRow job.now.fields self.now step.now) (λ s. CutStopsAt job.now.fields self.now step.now s.0 s.1) }
    {
        match step.kind {
            Kind::Rapid => self.rapid_turn(job, step),
            Kind::Feed => self.cut_test(job, step),
            Kind::Dogleg => self.rapid_turn(job, step),
        }
    }

    /// The first column that the solid doesn't pass at every moment of the move, at the point at which a move
    /// of this kind is tested, with the segment of the move at which the test fails; none where it passes
    /// them all. Most moves are far away in y, and that is seen first, and then whether the solid stays over
    /// the uncut row.
    fn first_stop(&self, job: &Job, solid: Solid, kind: Kind, step: &Move) -> Option<(u32, Leaf)>
        requires row { IsRowOf job.now.fields self.now }
        requires step { MoveInRange step.now }
        ensures first { MatchOption result (PassesRow job.now.fields (trying solid kind step.now) self.now) (λ s. IsFirstStop job.now.fields (trying solid kind step.now) self.now s.0 s.1) }
        ensures blocked { IfSome result (λ s. IsColumnBlocked job.now.fields (trying solid kind step.now) self.now s.0 s.1) }
    {
        let cutter = solid.cutter();
        let lift = solid.lift();
        if is_apart(cutter, job.row_y(self.number), step.from.y, step.to.y) {
            return None;
        }
        let low = lower_end(step, lift);
        if tested_height(job, kind, job.fields.top) <= low {
            return None;
        }
        let reach = reach_of(job, cutter, step.from, step.to);
        let first = self.first_over(job, kind, low, reach);
        if first >= reach.end {
            return None;
        }
        self.first_tried(job, solid, kind, step, Reach { first, ..reach })
    }

    /// The first column that the solid doesn't pass, as `first_stop` finds it. Only these columns are tried; it
    /// is known to pass the others.
    fn first_tried(
        &self,
        job: &Job,
        solid: Solid,
        kind: Kind,
        step: &Move,
        columns: Reach,
    ) -> Option<(u32, Leaf)>
        requires row { IsRowOf job.now.fields self.now }
        requires step { MoveInRange step.now }
        requires within { columns.end ≤ column_count job.now.fields }
        requires beside { PassesBeside job.now.fields (trying solid kind step.now) self.now columns.first columns.end }
        ensures first { MatchOption result (PassesRow job.now.fields (trying solid kind step.now) self.now) (λ s. IsFirstStop job.now.fields (trying solid kind step.now) self.now s.0 s.1) }
        ensures blocked { IfSome result (λ s. IsColumnBlocked job.now.fields (trying solid kind step.now) self.now s.0 s.1) }
    {
        let sweep = Sweep::new(solid, step);
        for column in columns.first..columns.end {
            let point = self.tested_point(job, kind, column);
            if let Some(leaf) = sweep.first_block_point(point) {
                return Some((column, leaf));
            }
        }
        None
    }

    /// The first of these columns whose tested point is over this height; the end of them where there is
    /// none. A solid whose tip stays that high passes those before it. Most feeds go where the column's top was
    /// cut near to them already, so all their points are as low, and nothing else has to be known of the move.
    fn first_over(&self, job: &Job, kind: Kind, low: i32, reach: Reach) -> u32
        requires row { IsRowOf job.now.fields self.now }
        requires columns { reach.end ≤ column_count job.now.fields }
        ensures bound { result ≤ reach.end }
        ensures before { (k : ℕ) → reach.first ≤ k → k < result → tested_height_of job.now.fields kind (top_at self.now.tops k) ≤ℤ low }
    {
        for column in reach.first..reach.end {
            if low < self.height_at(job, kind, column) {
                return column;
            }
        }
        reach.end
    }

    /// Whether a rapid passes even the uncut row, and so every column of this one. Most rapids are far away
    /// in y, and that is seen first.
    ///
    /// A feed, or a holder, seldom passes the uncut row but by its height, so neither is halved for that.
    fn is_passed_uncut(&self, job: &Job, step: &Move) -> bool
        requires row { IsRowOf job.now.fields self.now }
        requires step { MoveInRange step.now }
        ensures { IsTrue result → PassesRow job.now.fields (cutting job.now.fields Rapid step.now) self.now }
    {
        let solid = job.stock_solid();
        if is_apart(
            solid.cutter(),
            job.row_y(self.number),
            step.from.y,
            step.to.y,
        ) {
            return true;
        }
        passes_tri(solid, step, &uncut_triangle(job, self.number))
    }

    /// The point of a column at which a move of this kind is tested.
    fn tested_point(&self, job: &Job, kind: Kind, column: u32) -> Pt3
        requires row { IsRowOf job.now.fields self.now }
        requires column { column < column_count job.now.fields }
        ensures { result ≡ row_point job.now.fields kind self.now column }
    {
        Pt3 {
            x: job.column_x(column),
            y: job.row_y(self.number),
            z: self.height_at(job, kind, column),
        }
    }

    /// The height at which a move of this kind is tested at a column.
    fn height_at(&self, job: &Job, kind: Kind, column: u32) -> i32
        requires row { IsRowOf job.now.fields self.now }
        requires column { column < column_count job.now.fields }
        ensures { result ≡ tested_height_of job.now.fields kind (top_at self.now.tops column) }
    {
        tested_height(job, kind, self.tops[column as usize])
    }
}

/// The height of the lower end of a solid's way on the move, whose tip is `lift` over the move.
fn lower_end(step: &Move, lift: i32) -> i32
    requires step { MoveInRange step.now }
    requires lift { IsLift lift }
    ensures from { result ≤ℤ (step.now.from.z +ℤ lift) }
    ensures to { result ≤ℤ (step.now.to.z +ℤ lift) }
{
    step.from.z.min(step.to.z) + lift
}

/// Where the move before move `t` ends; none before the first.
fn end_before(moves: &[Move], t: u64) -> Option<Pt3>
    requires { t < length moves.now }
    ensures first { t ≡ 0 → result ≡ None }
    ensures later { 0 < t → result ≡ Some (move_at moves.now (t - 1)).to }
{
    if t == 0 {
        return None;
    }
    Some(moves[(t - 1) as usize].to)
}

/// The height at which a move of this kind is tested at a column with this top: a rapid, straight or not,
/// at the top, and a feed as far under it as it may cut, or at the floor where that is higher.
fn tested_height(job: &Job, kind: Kind, top: i32) -> i32
    requires { IsFrom job.now.fields.floor job.now.fields.top top }
    ensures value { result ≡ tested_height_of job.now.fields kind top }
    ensures low { job.now.fields.floor ≤ℤ result }
    ensures high { result ≤ℤ top }
{
    match kind {
        Kind::Rapid => top,
        Kind::Feed => job.fields.floor.max(top - job.fields.max_cut),
        Kind::Dogleg => top,
    }
}

/// The tops of the uncut row, as a flat triangle.
fn uncut_triangle(job: &Job, number: u32) -> Tri
    requires { number < row_count job.now.fields }
    ensures { result ≡ uncut_tri job.now.fields number }
{
    let y = job.row_y(number);
    let z = job.fields.top;
    let west = Pt3 {
        x: job.fields.area.x0,
        y,
        z,
    };
    let east = Pt3 {
        x: job.fields.area.x1,
        y,
        z,
    };
    Tri {
        a: west,
        b: east,
        c: east,
    }
}
