ghost use Rattle.std.specs.Prelude.{◌≡◌};
ghost use Rattle.mill_job.specs.inner.Facts.{job_props};
ghost use Rattle.mill_job.specs.Jobs.{IsJob};
ghost use Rattle.mill_job.specs.Solids.{solids_of};

use crate::fields::JobFields;
use crate::fixtures::Fixture;
use crate::limits::SPARE_ARC;
use crate::positions::{count, position};
use crate::slack::graze;
use crate::solids::{Solids, solids_by};
use mill_base::{Pt3, Solid, Tool, Unit};

/// A job: its numbers, each in its range, with the relations between them; and the solids of its
/// tool.
#[derive(Clone, Copy, Debug, PartialEq, Eq)]
pub struct Job {
    pub fields: JobFields,
    solids: Solids,
    pub ghost is_job: { IsJob fields } by { Prim.hlevel job_props },
    pub ghost are_solids: { solids ≡ solids_of fields } by { Prim.hlevel job_props },
}

impl Job {
    ghost use Rattle.std.specs.Prelude.{◌≡◌, ◌+◌, ◌<◌, ◌≤◌, ◌≤ℤ◌, ◌*◌, pos, All, length};
    ghost use Rattle.mill_base.specs.Numbers.{Within};
    ghost use Rattle.mill_base.specs.declared.limits.TheConstants.{MAX_COLUMNS};
    ghost use Rattle.mill_base.specs.Ranges.{IsInUnitRange};
    ghost use Rattle.mill_base.specs.Units.{greatest_of};
    ghost use Rattle.mill_job.specs.Columns.{row_count, column_count, column_x as x_of_column, column_y, home as home_of};
    ghost use Rattle.mill_job.specs.Fixtures.{IsFixture, IsUnder};
    ghost use Rattle.mill_job.specs.Habits.{arc_room_of, arc_tolerance_of, clearance_of};
    ghost use Rattle.mill_job.specs.Jobs.{part_tool_of, tool_of};
    ghost use Rattle.mill_job.specs.Solids.{holder_solid_of, inner_of, outer_of, part_solid_of, stock_solid_of};
    ghost use Rattle.mill_job.specs.Slack.{graze_of};
    ghost use Rattle.mill_job.specs.declared.limits.TheConstants.{MAX_ARC_TOL, MAX_DISTANCE};
    ghost use Rattle.mill_job.specs.declared.limits.TheConstants.{MAX_FIXTURES};
    ghost use Rattle.mill_margin.specs.Margins.{IsMargin, offset_of};

    /// The job of these numbers, with the solids of its tool.
    pub fn new(fields: JobFields) -> Job
        requires { IsJob fields }
        ensures { result.fields ≡ fields }
    {
        let solids = solids_by(&fields);
        Job { fields, solids }
    }

    /// What the cutter may touch.
    pub fn outer(&self) -> Solid
        ensures { result ≡ outer_of self.now.fields }
    {
        self.solids.outer
    }

    /// What the cutter removes for sure.
    pub fn inner(&self) -> Solid
        ensures { result ≡ inner_of self.now.fields }
    {
        self.solids.inner
    }

    /// What is tested against the part: what may lie deeper in the cutter than the overcut.
    pub fn part_solid(&self) -> Solid
        ensures { result ≡ part_solid_of self.now.fields }
    {
        self.solids.part
    }

    /// What is tested against the stock: what may lie deeper in the cutter than the graze.
    pub fn stock_solid(&self) -> Solid
        ensures { result ≡ stock_solid_of self.now.fields }
    {
        self.solids.stock
    }

    /// What the holder may touch, if there is one.
    pub fn holder_solid(&self) -> Option<Solid>
        ensures { result ≡ holder_solid_of self.now.fields }
    {
        self.solids.holder
    }

    /// What the tool may touch, by its cutter and by its holder, if it has one: each with the slack
    /// around it.
    pub fn tool(&self) -> Tool
        ensures { result ≡ tool_of self.now.fields }
    {
        Tool {
            cutter: self.outer(),
            holder: self.holder_solid(),
        }
    }

    /// What of the tool is tested against the part.
    pub fn part_tool(&self) -> Tool
        ensures { result ≡ part_tool_of self.now.fields }
    {
        Tool {
            cutter: self.part_solid(),
            holder: self.holder_solid(),
        }
    }

    /// How deep a stock point may lie inside the cutter and be shaved off by a rapid, and count as
    /// no depth, in units: as given, else 0 without a slack, and 5 more than twice the slack with
    /// one.
    pub fn graze(&self) -> i32
        ensures value { result ≡ graze_of self.now.fields }
        ensures in_range { IsMargin result }
    {
        graze(&self.fields)
    }

    /// What stands on the machine beside the stock: at most 64 boxes, each in range, and such that
    /// the cutter with the slack around it passes over it at the clear height.
    pub fn fixtures(&self) -> &[Fixture]
        ensures list { result.now ≡ self.now.fields.keep_out }
        ensures few { length result.now ≤ MAX_FIXTURES }
        ensures in_range { All (IsFixture self.now.fields.unit) result.now }
        ensures under { All (IsUnder self.now.fields.clear
            (offset_of self.now.fields.cutter self.now.fields.slack)) result.now }
    {
        self.fields.keep_out.as_slice()
    }

    /// How many rows of columns the stock has.
    pub fn rows(&self) -> u32
        ensures value { result ≡ row_count self.now.fields }
        ensures some { 1 ≤ result }
        ensures bound { result ≤ 1048575 }
        ensures in_unit { result ≤ 2 * greatest_of self.now.fields.unit + 1 }
    {
        count(self.fields.area.y0, self.fields.area.y1, self.fields.pitch)
    }

    /// How many columns each row has.
    pub fn columns(&self) -> u32
        ensures value { result ≡ column_count self.now.fields }
        ensures some { 1 ≤ result }
        ensures bound { result ≤ 1048575 }
        ensures in_unit { result ≤ 2 * greatest_of self.now.fields.unit + 1 }
    {
        count(self.fields.area.x0, self.fields.area.x1, self.fields.pitch)
    }

    /// How many columns the stock has in all, at most 4,000,000.
    pub fn column_total(&self) -> u64
        ensures value { result ≡ row_count self.now.fields * column_count self.now.fields }
        ensures some { 1 ≤ result }
        ensures bound { result ≤ MAX_COLUMNS }
    {
        u64::from(self.rows()) * u64::from(self.columns())
    }

    /// Where the columns of number `i` in their rows stand, in units.
    pub fn column_x(&self, i: u32) -> i32
        requires { i < column_count self.now.fields }
        ensures value { result ≡ x_of_column self.now.fields i }
        ensures in_range { Within (greatest_of self.now.fields.unit) result }
    {
        position(
            self.fields.area.x0,
            self.fields.area.x1,
            self.fields.pitch,
            i,
        )
    }

    /// Where the columns of row `j` stand, in units.
    pub fn row_y(&self, j: u32) -> i32
        requires { j < row_count self.now.fields }
        ensures value { result ≡ column_y self.now.fields j }
        ensures in_range { Within (greatest_of self.now.fields.unit) result }
    {
        position(
            self.fields.area.y0,
            self.fields.area.y1,
            self.fields.pitch,
            j,
        )
    }

    /// How far over the depth before a peck's way back down ends at least, in units: a quarter of a
    /// millimetre where the document doesn't say.
    pub fn peck_clearance(&self) -> i32
        ensures value { result ≡ clearance_of self.now.fields }
        ensures least { pos 0 ≤ℤ result }
        ensures most { result ≤ℤ MAX_DISTANCE }
    {
        match self.fields.peck_clearance {
            Some(clearance) => clearance,
            None => match self.fields.unit {
                Unit::Hundredth => 25,
                Unit::Thousandth => 250,
            },
        }
    }

    /// By how many units the distances of an arc's start and end from its centre may differ: where
    /// the document doesn't say 1, and 3 where a unit is a thousandth of a millimetre.
    pub fn arc_tolerance(&self) -> i32
        ensures value { result ≡ arc_tolerance_of self.now.fields }
        ensures least { pos 1 ≤ℤ result }
        ensures most { result ≤ℤ MAX_ARC_TOL }
    {
        match self.fields.arc_tol {
            Some(tolerance) => tolerance,
            None => match self.fields.unit {
                Unit::Hundredth => 1,
                Unit::Thousandth => 3,
            },
        }
    }

    /// How many units of the slack an arc leaves for the machine: those that are over its tolerance
    /// and two units. It has no room for arcs where that is under 0; where the document gives their
    /// tolerance it isn't.
    pub fn arc_room(&self) -> i32
        ensures { result ≡ arc_room_of self.now.fields }
    {
        self.fields.slack - (self.arc_tolerance() + SPARE_ARC)
    }

    /// Where a program starts: over home, at the clear height.
    pub fn home(&self) -> Pt3
        ensures value { result ≡ home_of self.now.fields }
        ensures in_range { IsInUnitRange self.now.fields.unit result }
    {
        Pt3 {
            x: self.fields.home.x,
            y: self.fields.home.y,
            z: self.fields.clear,
        }
    }
}
