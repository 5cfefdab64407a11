//! Jobs, parts and moves, for the tests.
ghost use Rattle.std.specs.Prelude.{◌≡◌, ◌<ℤ◌, ◌≤ℤ◌, pos, IfOk, IfSome};
ghost use Rattle.mill_base.specs.Numbers.{Within};
ghost use Rattle.mill_base.specs.declared.limits.TheConstants.{MAX_COORDINATE};
ghost use Rattle.mill_base.specs.Points.{point_at};
ghost use Rattle.mill_base.specs.Covers.{IsUnder};
ghost use Rattle.mill_base.specs.Ranges.{MoveInRange};
ghost use Rattle.mill_base.specs.Sizes.{radius_of};
ghost use Rattle.mill_base.specs.Solids.{IsSolid};
ghost use Rattle.mill_job.specs.Columns.{home};

use mill_base::{Box2, Cutter, Kind, Move, Pt3, Solid, Unit};
use mill_decimal::Snap;
use mill_job::{Fixtures, Job, JobFields, Levels, Place, Rapids, Start, ToolLengths, Words};
use mill_part::SortedPart;
use mill_tables::part_under;
use std::alloc::Global;
use std::test::Fail;

/// A block of stock from 0 to 300 over a square of 200, and nine columns in it, 100 apart. The
/// cutter is so narrow that it cuts one column at a time. A feed may cut this deep and no deeper; 0
/// is no limit.
#[tactic(auto, using(mill_job::proofs::NoSlack::no_slack_holder), unfolding(mill_job::specs::Fixtures::AreFixtures, mill_job::specs::Jobs::HasRoom, mill_job::specs::Slack::graze_of))]
pub(crate) fn block_job(max_cut: u8, holder: Option<Solid>) -> Job
    requires holder_ok { IfSome holder IsSolid }
    requires stickout { IfSome holder (λ around. pos 1 ≤ℤ around.lift) }
    requires wider { IfSome holder (λ around. pos 50 <ℤ radius_of around.cutter) }
    ensures top { result.fields.top ≡ pos 300 }
    ensures start { home result.fields ≡ point_at (pos 100) (pos 100) (pos 400) }
{
    Job::new(JobFields {
        unit: Unit::Hundredth,
        cutter: Cutter::Flat { radius: 50 },
        floor: 0,
        top: 300,
        clear: 400,
        area: Box2 {
            x0: 0,
            y0: 0,
            x1: 200,
            y1: 200,
        },
        home: Place { x: 100, y: 100 },
        pitch: 100,
        sample: 50,
        allowance: 0,
        band: 0,
        lift: 0,
        raster: 100,
        rough_raster: 100,
        layer: 0,
        rough_stock: 0,
        levels: Levels::NONE,
        snap: Snap::Nearest,
        max_cut: i32::from(max_cut),
        holder,
        path_tol: None,
        slack: 0,
        overcut: 0,
        graze: None,
        keep_out: Fixtures::NONE,
        rapids: Rapids::Straight,
        start: Start::Home,
        spindle: false,
        words: Words::Strict,
        peck_clearance: None,
        lengths: ToolLengths::Table,
        arc_tol: None,
    })
}

/// A plate at the height 200 over the square, of two triangles: the first on the side of y = 0, and
/// the second on that of x = 0.
pub(crate) fn plate(alloc: Global) -> Result<SortedPart, Fail>
    ensures { IfOk result (λ part. IsUnder part (pos 300)) }
{
    part_under(
        alloc,
        300,
        "0 0 200, 200 0 200, 200 200 200; 0 0 200, 200 200 200, 0 200 200",
    )
}

/// One triangle at the height 200 whose edge lies at x = 160, along the whole square.
pub(crate) fn edge(alloc: Global) -> Result<SortedPart, Fail>
    ensures { IfOk result (λ part. IsUnder part (pos 300)) }
{
    part_under(alloc, 300, "160 0 200, 160 200 200, 200 200 200")
}

/// A move straight down over this place, from 400 to a height.
pub(crate) fn down(kind: Kind, x: i32, y: i32, height: i32) -> Move
    requires x_ok { Within MAX_COORDINATE x }
    requires y_ok { Within MAX_COORDINATE y }
    requires height_ok { Within MAX_COORDINATE height }
    ensures range { MoveInRange result }
    ensures from { result.from ≡ point_at x y (pos 400) }
    ensures to { result.to ≡ point_at x y height }
{
    Move {
        kind,
        from: Pt3 { x, y, z: 400 },
        to: Pt3 { x, y, z: height },
    }
}

/// A rapid straight up over this place, from a height to 400.
pub(crate) fn up(x: i32, y: i32, height: i32) -> Move
    requires x_ok { Within MAX_COORDINATE x }
    requires y_ok { Within MAX_COORDINATE y }
    requires height_ok { Within MAX_COORDINATE height }
    ensures range { MoveInRange result }
    ensures from { result.from ≡ point_at x y height }
    ensures to { result.to ≡ point_at x y (pos 400) }
{
    Move {
        kind: Kind::Rapid,
        from: Pt3 { x, y, z: height },
        to: Pt3 { x, y, z: 400 },
    }
}
