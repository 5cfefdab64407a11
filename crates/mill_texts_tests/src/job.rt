// Jobs that are read, and the faults for which others are refused.
//
// Each table is one text: the proof of a test then costs the same however many rows there are. A
// row is a line `OLD => NEW => SAYS`: EXAMPLE with NEW in the place of OLD, and what is said of it.
// There `\n` is a line's end.
use crate::tables::{same, text_of_row};
use mill_base::{Box2, Cutter, Pt3, Solid, Tool, Unit};
use mill_decimal::Snap;
use mill_job::{
    Fixtures, JobFault, JobFields, Key, Levels, Name, Place, Rapids, Start, ToolLengths, Words,
    read_job,
};
use mill_tables::halves;
use std::alloc::Global;
use std::process::Abort;
use std::test::Fail;

pub(crate) const EXAMPLE: &str = "cutter = \"flat\"
radius = 150
floor = 0
top = 300
clear = 400
area = [0, 0, 200, 200]
home = [100, 90]
pitch = 100
sample = 50
allowance = 0
band = 0
";

const FAULTY: &str = "cutter = 1
depth = 1
radius = 0
run = \"1\"
floor = 131072
top = 300
area = [0, 9, 131071, 0]
home = [1.5, 90]
pitch = 50
sample = 50
allowance = 0
band = -1
lift = 2.5
layer = 1
rough_stock = 10001
levels = [300, 300]
snap = \"near\"
max_cut = -9
holder_radius = -1
path_tol = \"0\"
";

/// 64 heights, from the highest to the lowest.
const LADDER: &str =
    "63, 62, 61, 60, 59, 58, 57, 56, 55, 54, 53, 52, 51, 50, 49, 48, 47, 46, 45, 44, 43, 42, 41, \
    40, 39, 38, 37, 36, 35, 34, 33, 32, 31, 30, 29, 28, 27, 26, 25, 24, 23, 22, 21, 20, 19, 18, \
    17, 16, 15, 14, 13, 12, 11, 10, 9, 8, 7, 6, 5, 4, 3, 2, 1, 0";

const JOB: JobFields = JobFields {
    unit: Unit::Hundredth,
    cutter: Cutter::Flat { radius: 150 },
    floor: 0,
    top: 300,
    clear: 400,
    area: Box2 {
        x0: 0,
        y0: 0,
        x1: 200,
        y1: 200,
    },
    home: Place { x: 100, y: 90 },
    pitch: 100,
    sample: 50,
    allowance: 0,
    band: 0,
    lift: 0,
    raster: 100,
    rough_raster: 100,
    layer: 0,
    rough_stock: 0,
    levels: Levels::NONE,
    snap: Snap::Nearest,
    max_cut: 0,
    holder: None,
    path_tol: None,
    slack: 0,
    overcut: 0,
    graze: None,
    keep_out: Fixtures::NONE,
    rapids: Rapids::Straight,
    start: Start::Home,
    spindle: false,
    words: Words::Strict,
    peck_clearance: None,
    lengths: ToolLengths::Table,
    arc_tol: None,
};

/// What is said of a text: the job as it is, its levels and its fixtures, or its fault.
pub(crate) fn answer(alloc: Global, text: &str) -> Result<String, Fail> {
    match read_job(alloc, text.as_bytes()) {
        Ok(job) => {
            let fields = job.fields;
            let levels = fields.levels.as_slice();
            let boxes = fields.keep_out.as_slice();
            Ok(format!(in alloc; "{fields:?} with levels {levels:?} and fixtures {boxes:?}")?)
        }
        Err(fault) => Ok(format!(in alloc; "{fault}")?),
    }
}

fn is_refused<R: Abort>(rt: &R, alloc: Global, from: &str, row: &str) -> Result<(), Fail> {
    let (text, says) = text_of_row(alloc, from, row)?;
    same(rt, &answer(alloc, &text)?, says, row);
    Ok(())
}

pub(crate) fn each_is_refused<R: Abort>(
    rt: &R,
    alloc: Global,
    from: &str,
    table: &str,
) -> Result<(), Fail> {
    for row in table.lines() {
        is_refused(rt, alloc, from, row)?;
    }
    Ok(())
}

/// The row's job has this among its values.
fn is_read<R: Abort>(rt: &R, alloc: Global, from: &str, row: &str) -> Result<(), Fail> {
    let (text, says) = text_of_row(alloc, from, row)?;
    let told = answer(alloc, &text)?;
    assert!(rt; told.contains(says), "{row}: {told}");
    Ok(())
}

pub(crate) fn each_is_read<R: Abort>(
    rt: &R,
    alloc: Global,
    from: &str,
    table: &str,
) -> Result<(), Fail> {
    for row in table.lines() {
        is_read(rt, alloc, from, row)?;
    }
    Ok(())
}

#[test]
fn reads_a_job(rt: HostRuntime) -> Result<(), Fail> {
    let job = read_job(rt.alloc(), EXAMPLE.as_bytes())?;
    assert_eq!(rt; job.fields, JOB);
    Ok(())
}

#[test]
fn a_job_has_columns(rt: HostRuntime) -> Result<(), Fail> {
    let job = read_job(rt.alloc(), EXAMPLE.as_bytes())?;
    let counts = (job.rows(), job.columns(), job.column_total());
    assert_eq!(rt; counts, (3, 3, 9));
    assert!(rt; 2 < job.columns() && 1 < job.rows());
    assert_eq!(rt; (job.column_x(2), job.row_y(1)), (200, 100));
    Ok(())
}

#[test]
fn a_job_has_a_home_and_a_tool(rt: HostRuntime) -> Result<(), Fail> {
    let job = read_job(rt.alloc(), EXAMPLE.as_bytes())?;
    let home = Pt3 {
        x: 100,
        y: 90,
        z: 400,
    };
    let found = (job.home(), job.tool());
    assert_eq!(rt; found, (home, Tool::bare(Solid::at_tip(JOB.cutter))));
    Ok(())
}

/// The last rows: with a layer of 2 the stock may be 1,001 high, and without roughing too.
const READ: &str =
    r#"band = 0 => band = 150 => band: 150, lift: 0, raster: 100, rough_raster: 100, layer: 0, rough_stock: 0, levels
"flat" => "ball" => cutter: Ball { radius: 150 }, floor
band = 0 => band = 0\nsnap = "exact" => snap: Exact, max_cut: 0
band = 0 => band = 0\nlift = 10000 => lift: 10000, raster: 100, rough_raster: 100, layer: 0, rough_stock: 0
band = 0 => band = 0\nraster = 1 => lift: 0, raster: 1, rough_raster: 1, layer: 0, rough_stock: 0
band = 0 => band = 0\nrough_raster = 10000 => lift: 0, raster: 100, rough_raster: 10000, layer: 0, rough_stock: 0
band = 0 => band = 0\nraster = 10000\nrough_raster = 1 => lift: 0, raster: 10000, rough_raster: 1, layer: 0, rough_stock: 0
band = 0 => band = 0\nlayer = 131071 => lift: 0, raster: 100, rough_raster: 100, layer: 131071, rough_stock: 0
band = 0 => band = 0\nrough_stock = 10000 => lift: 0, raster: 100, rough_raster: 100, layer: 0, rough_stock: 10000
band = 0 => band = 0\nlift = 0\nlayer = 0\nrough_stock = 0 => lift: 0, raster: 100, rough_raster: 100, layer: 0, rough_stock: 0
band = 0 => band = 0\nmax_cut = 131071 => snap: Nearest, max_cut: 131071
band = 0 => band = 0\nmax_cut = 0 => snap: Nearest, max_cut: 0
band = 0 => band = 0\nstickout = 131071\nholder_radius = 151 => holder: Some(Solid { cutter: Flat { radius: 151 }, lift: 131071 })
band = 0 => band = 0\nholder_radius = 10000\nstickout = 1 => holder: Some(Solid { cutter: Flat { radius: 10000 }, lift: 1 })
band = 0 => band = 0\nmax_cut = 0 => path_tol: None, slack: 0, overcut: 0, graze: None
band = 0 => band = 0\npath_tol = 0 => holder: None, path_tol: Some(0), slack: 0
band = 0 => band = 0\npath_tol = 10000 => holder: None, path_tol: Some(10000), slack: 0
band = 0 => band = 0\nslack = 0\novercut = 0\ngraze = 0 => slack: 0, overcut: 0, graze: Some(0)
band = 0 => band = 0\nslack = 72 => slack: 72, overcut: 0, graze: None
band = 0 => band = 0\novercut = 149 => slack: 0, overcut: 149, graze: None
band = 0 => band = 0\ngraze = 149 => slack: 0, overcut: 0, graze: Some(149)
band = 0 => band = 0\nslack = 10\ngraze = 20 => slack: 10, overcut: 0, graze: Some(20)
"flat" => "cone"\nrise = 4\nrun = 3\nslack = 2\ngraze = 5 => slack: 2, overcut: 0, graze: Some(5)
"flat" => "cone"\nrise = 4\nrun = 3\nslack = 60 => slack: 60, overcut: 0, graze: None
band = 0 => band = 0\nholder_radius = 151\nstickout = 51\nslack = 50 => slack: 50, overcut: 0
band = 0 => band = 0\nlevels = [] => with levels []
band = 0 => band = 0\nlevels = [0] => with levels [0]
band = 0 => band = 0\nlevels = [299] => with levels [299]
band = 0 => band = 0\nlevels = [299, 298, 1, 0] => with levels [299, 298, 1, 0]
band = 0 => band = 0\nunit = "hundredth" => unit: Hundredth, cutter: Flat { radius: 150 }, floor: 0, top: 300, clear: 400
floor = 0 => floor = -700\nlayer = 1 => layer: 1
floor = 0 => floor = -701\nlayer = 2 => layer: 2
floor = 0 => floor = -701\nlayer = 0 => floor: -701"#;

#[test]
fn reads_other_values(rt: HostRuntime) -> Result<(), Fail> {
    each_is_read(&rt, rt.alloc(), EXAMPLE, READ)
}

const REFUSED: &str = r#"radius = 150 => clear = 400 => syntax
radius = 150 => # => missing radius
clear = 400 => clear = 200 => top doesn't fit clear
band = 0 => band = 0\ndepth = 1 => unknown depth
= 150 => = 1.5 => wrong kind of radius
= 150 => = 10001 => radius out of range
= 150 => = 99999999999999999999 => syntax
"flat" => "disc" => cutter out of range
"flat" => "flat"\nrise = 1 => cutter doesn't fit rise
"flat" => "ball"\nrun = 1 => cutter doesn't fit run
"flat" => "ball"\nrise = 99\nrun = 1 => cutter doesn't fit rise
"flat" => "ball"\nrise = 101 => rise out of range
[0, 0, 200, 200] => [0, 0, 200] => area out of range
[0, 0, 200, 200] => [0, 0, 200, "200"] => wrong kind of area
[100, 90] => [100, 131072] => home out of range
band = 0 => band = 10001 => band out of range
band = 0 => band = 151 => band doesn't fit radius
band = 0 => band = 0\nsnap = "near" => snap out of range
band = 0 => band = 0\nsnap = 1 => wrong kind of snap
band = 0 => snap = 1\nsnaps = 1 => unknown snaps
band = 0 => band = 0\nlift = true => wrong kind of lift
band = 0 => band = 0\nlift = -1 => lift out of range
band = 0 => band = 0\nlift = 10001 => lift out of range
band = 0 => band = 0\nraster = [1] => wrong kind of raster
band = 0 => band = 0\nraster = 0 => raster out of range
band = 0 => band = 0\nraster = 10001 => raster out of range
band = 0 => band = 0\nrough_raster = "1" => wrong kind of rough_raster
band = 0 => band = 0\nrough_raster = 0 => rough_raster out of range
band = 0 => band = 0\nrough_raster = 10001 => rough_raster out of range
band = 0 => band = 0\nlayer = 1.0 => wrong kind of layer
band = 0 => band = 0\nlayer = -1 => layer out of range
band = 0 => band = 0\nlayer = 131072 => layer out of range
band = 0 => band = 0\nrough_stock = {} => wrong kind of rough_stock
band = 0 => band = 0\nrough_stock = -1 => rough_stock out of range
band = 0 => band = 0\nrough_stock = 10001 => rough_stock out of range
band = 0 => band = 0\nmax_cut = 1.5 => wrong kind of max_cut
band = 0 => band = 0\nmax_cut = -1 => max_cut out of range
band = 0 => band = 0\nmax_cut = 131072 => max_cut out of range
band = 0 => band = 0\nsnap = 1\nmax_cut = -1 => wrong kind of snap
band = 0 => band = 0\nholder_radius = 200 => missing stickout
band = 0 => band = 0\nstickout = 0 => missing holder_radius
band = 0 => band = 0\nholder_radius = 200.0 => wrong kind of holder_radius
band = 0 => band = 0\nholder_radius = 10001\nstickout = 0 => holder_radius out of range
band = 0 => band = 0\nholder_radius = 0\nstickout = 50 => holder_radius out of range
band = 0 => band = 0\nholder_radius = 200\nstickout = [50] => wrong kind of stickout
band = 0 => band = 0\nholder_radius = 200\nstickout = 0 => stickout out of range
band = 0 => band = 0\nholder_radius = 200\nstickout = 131072 => stickout out of range
band = 0 => band = 0\nholder_radius = 150\nstickout = 50 => radius doesn't fit holder_radius
band = 0 => band = 0\npath_tol = 1.0 => wrong kind of path_tol
band = 0 => band = 0\npath_tol = "1" => wrong kind of path_tol
band = 0 => band = 0\npath_tol = -1 => path_tol out of range
band = 0 => band = 0\npath_tol = 10001 => path_tol out of range
band = 0 => band = 0\nholder_radius = 200\npath_tol = -1 => missing stickout
band = 0 => band = 151\npath_tol = 10001 => path_tol out of range
band = 0 => band = 0\nslack = 1.0 => wrong kind of slack
band = 0 => band = 0\nslack = -1\novercut = -1 => slack out of range
band = 0 => band = 0\nslack = 201 => slack out of range
band = 0 => band = 0\npath_tol = -1\nslack = 201 => path_tol out of range
band = 0 => band = 0\novercut = "1" => wrong kind of overcut
band = 0 => band = 0\novercut = -1\ngraze = -1 => overcut out of range
band = 0 => band = 0\novercut = 501 => overcut out of range
band = 0 => band = 0\ngraze = [1] => wrong kind of graze
band = 0 => band = 0\ngraze = -1 => graze out of range
band = 0 => band = 151\ngraze = 501 => graze out of range
band = 0 => band = 0\nslack = 150\novercut = 150 => slack doesn't fit radius
band = 0 => band = 0\novercut = 150\ngraze = 150 => overcut doesn't fit radius
band = 0 => band = 0\ngraze = 150 => graze doesn't fit radius
band = 0 => band = 0\nslack = 73 => graze doesn't fit radius
band = 0 => band = 0\nslack = 76\ngraze = 150 => graze doesn't fit radius
band = 0 => band = 0\nslack = 10\ngraze = 19 => graze doesn't fit slack
"flat" => "cone"\nrise = 4\nrun = 3\nslack = 2\ngraze = 4 => graze doesn't fit slack
"flat" => "cone"\nrise = 4\nrun = 3\nslack = 61 => slack doesn't fit clear
band = 0 => band = 0\nholder_radius = 151\nstickout = 50\nslack = 50 => slack doesn't fit stickout
band = 0 => band = 0\nholder_radius = 150\nstickout = 9\nslack = 9 => radius doesn't fit holder_radius
band = 0 => band = 0\nlevel = [1] => unknown level
band = 0 => band = 0\nlevels = 5 => wrong kind of levels
band = 0 => band = 0\nlevels = [5, 4.0] => wrong kind of levels
band = 0 => band = 0\nlevels = [5, "4"] => wrong kind of levels
band = 0 => band = 0\nlevels = [5, 5, [4]] => wrong kind of levels
band = 0 => band = 0\nlevels = [5, 5] => levels out of range
band = 0 => band = 0\nlevels = [5, 3, 4] => levels out of range
band = 0 => band = 0\nlevels = [131072] => levels out of range
band = 0 => band = 0\nlevels = [5, -131072] => levels out of range
band = 0 => band = 0\nlevels = [131071] => levels doesn't fit top
band = 0 => band = 0\nlevels = [301, 299] => levels doesn't fit top
band = 0 => band = 0\nlevels = [300, 299] => levels doesn't fit top
band = 0 => band = 0\nlevels = [299, -1] => levels doesn't fit top
floor = 0 => floor = -701\nlayer = 1 => layer doesn't fit top"#;

#[test]
fn refuses_other_texts(rt: HostRuntime) -> Result<(), Fail> {
    each_is_refused(&rt, rt.alloc(), EXAMPLE, REFUSED)
}

/// A job with the greatest slack, and with the greatest radius and the least clear height for it.
const LOOSE: &str = "cutter = \"flat\"
radius = 9800
floor = 0
top = 300
clear = 500
area = [0, 0, 200, 200]
home = [100, 90]
pitch = 100
sample = 50
allowance = 0
band = 0
slack = 200
";

const LOOSE_READ: &str = r#"slack = 200 => slack = 200 => slack: 200, overcut: 0, graze: None
slack = 200 => slack = 200\novercut = 500\ngraze = 500 => overcut: 500, graze: Some(500)
slack = 200 => slack = 200\ngraze = 400 => slack: 200, overcut: 0, graze: Some(400)
9800 => 406 => slack: 200, overcut: 0, graze: None
9800 => 406\nholder_radius = 9800\nstickout = 201 => Flat { radius: 9800 }, lift: 201 })"#;

const LOOSE_REFUSED: &str = r#"9800 => 9801 => slack doesn't fit radius
9800 => 200 => slack doesn't fit radius
9800 => 405 => graze doesn't fit radius
slack = 200 => slack = 200\ngraze = 399 => graze doesn't fit slack
9800 => 406\nholder_radius = 9801\nstickout = 201 => slack doesn't fit stickout
9800 => 406\nholder_radius = 9800\nstickout = 200 => slack doesn't fit stickout
clear = 500 => clear = 499 => slack doesn't fit clear
clear = 500 => clear = 499\nholder_radius = 10000\nstickout = 1 => slack doesn't fit stickout"#;

#[test]
fn reads_the_greatest_slack(rt: HostRuntime) -> Result<(), Fail> {
    each_is_read(&rt, rt.alloc(), LOOSE, LOOSE_READ)
}

#[test]
fn refuses_too_much_slack(rt: HostRuntime) -> Result<(), Fail> {
    each_is_refused(&rt, rt.alloc(), LOOSE, LOOSE_REFUSED)
}

/// The graze of EXAMPLE, and of others.
const GRAZES: &str = r#"band = 0 => band = 0 => 0
band = 0 => band = 0\nslack = 1 => 7
band = 0 => band = 0\nslack = 72 => 149
band = 0 => band = 0\nslack = 1\ngraze = 2 => 2
band = 0 => band = 0\ngraze = 149 => 149"#;

fn has_graze<R: Abort>(rt: &R, alloc: Global, row: &str) -> Result<(), Fail> {
    let (text, says) = text_of_row(alloc, EXAMPLE, row)?;
    let graze = read_job(alloc, text.as_bytes())?.graze();
    same(rt, &format!(in alloc; "{graze}")?, says, row);
    Ok(())
}

#[test]
fn a_job_has_a_graze(rt: HostRuntime) -> Result<(), Fail> {
    for row in GRAZES.lines() {
        has_graze(&rt, rt.alloc(), row)?;
    }
    Ok(())
}

/// EXAMPLE with another area and pitch.
fn fine_and_wide(alloc: Global) -> Result<String, Fail> {
    let wide = EXAMPLE.replace(alloc, "[0, 0, 200, 200]", "[0, 0, 131071, 131071]")?;
    Ok(wide.replace(alloc, "pitch = 100", "pitch = 1")?)
}

#[test]
fn refuses_too_many_columns(rt: HostRuntime) -> Result<(), Fail> {
    let text = fine_and_wide(rt.alloc())?;
    same(
        &rt,
        &answer(rt.alloc(), &text)?,
        "area doesn't fit pitch",
        "",
    );
    Ok(())
}

#[test]
fn refuses_bytes_that_are_no_text(rt: HostRuntime) {
    let read = read_job(rt.alloc(), &[0xFF]);
    assert!(rt; matches!(read, Err(JobFault::Syntax)));
}

/// The first and the last of a text's levels, and how many they are.
fn levels_of(alloc: Global, text: &str) -> Result<(Option<i32>, Option<i32>, usize), Fail> {
    let job = read_job(alloc, text.as_bytes())?;
    let heights = job.fields.levels.as_slice();
    Ok((
        heights.first().copied(),
        heights.last().copied(),
        heights.len(),
    ))
}

#[test]
fn takes_64_levels(rt: HostRuntime) -> Result<(), Fail> {
    let most = format!(in rt.alloc(); "{EXAMPLE}levels = [{LADDER}]\n")?;
    let found = levels_of(rt.alloc(), &most)?;
    assert_eq!(rt; found, (Some(63), Some(0), 64));
    Ok(())
}

#[test]
fn refuses_65_levels(rt: HostRuntime) -> Result<(), Fail> {
    let more = format!(in rt.alloc(); "{EXAMPLE}levels = [64, {LADDER}]\n")?;
    same(&rt, &answer(rt.alloc(), &more)?, "levels out of range", "");
    Ok(())
}

/// FAULTY's first fault, what mends it, and so on: each repair mends the first of those that are
/// left.
const REPAIRS: &str = r#"unknown depth => depth = 1 => #
wrong kind of cutter => cutter = 1 => cutter = "cone"
radius out of range => radius = 0 => radius = 150
missing rise => floor => rise = 0\nfloor
rise out of range => rise = 0 => rise = 17
wrong kind of run => run = "1" => run = 1
floor out of range => 131072 => 301
missing clear => area => clear = 200\narea
area out of range => 9, 131071, 0] => 0, 131071, 131071]
wrong kind of home => 1.5 => 100
band out of range => band = -1 => band = 151
wrong kind of lift => 2.5 => 10000
rough_stock out of range => 10001 => 10000
levels out of range => [300, 300] => [300, 1]
snap out of range => "near" => "nearest"
max_cut out of range => -9 => 9
holder_radius out of range => radius = -1 => radius = 150
missing stickout => holder => stickout = 0\nholder
stickout out of range => stickout = 0 => stickout = 131071
wrong kind of path_tol => path_tol = "0" => path_tol = 0
rise doesn't fit run => rise = 17 => rise = 16
floor doesn't fit top => floor = 301 => floor = -701
top doesn't fit clear => clear = 200 => clear = 400
area doesn't fit pitch => 131071, 131071 => 200, 200
band doesn't fit radius => band = 151 => band = 0
layer doesn't fit top => floor = -701 => floor = -700
levels doesn't fit top => [300, 1] => [299, 1]
radius doesn't fit holder_radius => holder_radius = 150 => holder_radius = 151"#;

/// Looks at the first fault of a text, and mends it.
fn mended<R: Abort>(rt: &R, alloc: Global, text: &str, row: &str) -> Result<String, Fail> {
    let (fault, repair) = halves(row)?;
    same(rt, &answer(alloc, text)?, fault, row);
    let repair = format!(in alloc; "{repair} => ")?;
    let (text, _) = text_of_row(alloc, text, &repair)?;
    Ok(text)
}

/// FAULTY without its faults.
fn mended_at_all<R: Abort>(rt: &R, alloc: Global) -> Result<String, Fail> {
    let mut text = FAULTY.to_string(alloc)?;
    for row in REPAIRS.lines() {
        text = mended(rt, alloc, &text, row)?;
    }
    Ok(text)
}

/// The job of the text that is left.
fn mended_job() -> JobFields {
    let mut levels = Levels::NONE;
    levels.push(299);
    levels.push(1);
    JobFields {
        cutter: Cutter::Cone {
            radius: 150,
            rise: 16,
            run: 1,
        },
        floor: -700,
        pitch: 50,
        lift: 10000,
        raster: 50,
        rough_raster: 50,
        layer: 1,
        rough_stock: 10000,
        levels,
        max_cut: 9,
        holder: Some(Solid::new(Cutter::Flat { radius: 151 }, 131071)),
        path_tol: Some(0),
        ..JOB
    }
}

#[test]
fn first_fault_decides(rt: HostRuntime) -> Result<(), Fail> {
    let text = mended_at_all(&rt, rt.alloc())?;
    let job = read_job(rt.alloc(), text.as_bytes())?;
    assert_eq!(rt; job.fields, mended_job());
    Ok(())
}

#[test]
fn names_keep_their_bytes(rt: HostRuntime) -> Result<(), Fail> {
    let name = Name::new(String::from_str(rt.alloc(), "depth")?);
    assert_eq!(rt; name.as_bytes(), b"depth".as_slice());
    assert_eq!(rt; name.into_bytes().as_slice(), b"depth".as_slice());
    Ok(())
}

#[test]
fn keys_have_names(rt: HostRuntime) {
    assert_eq!(rt; Key::Home.name(), "home");
}

/// Of EXAMPLE in thousandths.
const FINE: &str =
    r#"clear = 400 => clear = 524287\nlayer = 524287 => unit: Thousandth, cutter: Flat { radius: 150 }, floor: 0, top: 300, clear: 524287
band = 0 => band = 0\nlayer = 524287 => layer: 524287
band = 0 => band = 0\nmax_cut = 524287 => max_cut: 524287
band = 0 => band = 0\nholder_radius = 151\nstickout = 524287 => holder: Some(Solid { cutter: Flat { radius: 151 }, lift: 524287 })"#;

const NOT_FINE: &str = r#""thousandth" => "inch" => unit out of range
"thousandth" => 3 => wrong kind of unit
clear = 400 => clear = 524288 => clear out of range
[100, 90] => [-524288, 90] => home out of range
band = 0 => band = 0\nlayer = 524288 => layer out of range
band = 0 => band = 0\nlevels = [524288] => levels out of range
band = 0 => band = 0\nmax_cut = 524288 => max_cut out of range
band = 0 => band = 0\nholder_radius = 151\nstickout = 524288 => stickout out of range
unit = "thousandth" => clears = 131072 => unknown clears"#;

/// EXAMPLE in thousandths.
fn fine(alloc: Global) -> Result<String, Fail> {
    Ok(format!(in alloc; "{EXAMPLE}unit = \"thousandth\"\n")?)
}

#[test]
fn reads_thousandths(rt: HostRuntime) -> Result<(), Fail> {
    let text = fine(rt.alloc())?;
    let job = read_job(rt.alloc(), text.as_bytes())?;
    let want = JobFields {
        unit: Unit::Thousandth,
        ..JOB
    };
    assert_eq!(rt; job.fields, want);
    Ok(())
}

#[test]
fn reads_other_values_in_thousandths(rt: HostRuntime) -> Result<(), Fail> {
    let text = fine(rt.alloc())?;
    each_is_read(&rt, rt.alloc(), &text, FINE)
}

#[test]
fn refuses_other_texts_in_thousandths(rt: HostRuntime) -> Result<(), Fail> {
    let text = fine(rt.alloc())?;
    each_is_refused(&rt, rt.alloc(), &text, NOT_FINE)
}

/// A row of texts in thousandths with two faults, of which the unit's comes first.
const NO_DISC: &str = "\"flat\" => \"disc\" => ";

#[test]
fn the_unit_is_read_first(rt: HostRuntime) -> Result<(), Fail> {
    let (text, _) = text_of_row(rt.alloc(), &fine(rt.alloc())?, NO_DISC)?;
    let row = "\"thousandth\" => \"inch\" => unit out of range";
    is_refused(&rt, rt.alloc(), &text, row)
}
