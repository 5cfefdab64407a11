// Jobs that say what stands on the machine and what its habits are, and the faults for which others
// are refused.
//
// The tables are as in job.rt: a row is `OLD => NEW => SAYS`.
use crate::job::{EXAMPLE, answer, each_is_read, each_is_refused};
use crate::tables::same;
use mill_job::read_job;
use std::alloc::Global;
use std::test::Fail;

/// EXAMPLE, with a line in the place of which more keys stand.
fn open(alloc: Global) -> Result<String, Fail> {
    Ok(format!(in alloc; "{EXAMPLE}#\n")?)
}

/// The offset of a flat cutter is its slack, that of the cone twice its slack.
const READ: &str = r#"# => keep_out = [] => and fixtures []
# => keep_out = [[-5, 0, 5, 1, 400]] => area: Box2 { x0: -5, y0: 0, x1: 5, y1: 1 }, height: 400 }]
# => keep_out = [[7, 7, 7, 7, 7], [131071, -131071, 131071, 0, -131071]] => height: -131071 }]
# => unit = "thousandth"\nkeep_out = [[-524287, 0, 524287, 0, -524287]] => height: -524287 }]
# => slack = 20\nkeep_out = [[0, 0, 0, 0, 380]] => height: 380 }]
"flat" => "cone"\nrise = 4\nrun = 3\nslack = 2\nkeep_out = [[0, 0, 0, 0, 396]] => height: 396 }]
# => # => rapids: Straight, start: Home, spindle: false, words: Strict, peck_clearance: None, lengths: Table, arc_tol: None } with
# => rapids = "straight" => rapids: Straight, start: Home
# => rapids = "axes" => rapids: Axes, start: Home
# => start = "change"\nrapids = "axes" => rapids: Axes, start: Change
# => spindle = true => start: Home, spindle: true, words: Strict
# => start = "anywhere" => start: Anywhere, spindle: false, words
# => start = "change"\nspindle = false => start: Change, spindle: false, words
# => start = "home" => start: Home, spindle: false, words
# => words = "strict" => words: Strict, peck_clearance: None, lengths: Table, arc_tol: None }
# => start = "anywhere"\nwords = "machine" => start: Anywhere, spindle: false, words: Machine, peck
# => start = "change"\nwords = "machine" => start: Change, spindle: false, words: Machine, peck
# => peck_clearance = 0 => words: Strict, peck_clearance: Some(0), lengths: Table, arc_tol: None }
# => peck_clearance = 10000 => peck_clearance: Some(10000), lengths: Table, arc_tol: None }
# => lengths = "table" => lengths: Table, arc_tol: None }
# => lengths = "one" => words: Strict, peck_clearance: None, lengths: One, arc_tol: None }
# => slack = 3\narc_tol = 1 => peck_clearance: None, lengths: Table, arc_tol: Some(1) }
# => slack = 72\narc_tol = 70 => lengths: Table, arc_tol: Some(70) }"#;

#[test]
fn reads_what_the_machine_is(rt: HostRuntime) -> Result<(), Fail> {
    each_is_read(&rt, rt.alloc(), &open(rt.alloc())?, READ)
}

const REFUSED: &str = r#"# => keep_out = 5 => wrong kind of keep_out
# => keep_out = {} => wrong kind of keep_out
# => keep_out = [5] => wrong kind of keep_out
# => keep_out = [0, 0, 1, 1, 0] => wrong kind of keep_out
# => keep_out = [[0, 0, 1, 1, 1.5]] => wrong kind of keep_out
# => keep_out = [[[0], 0, 0, 0, 0]] => wrong kind of keep_out
# => keep_out = [[0, 0, 1], 5] => wrong kind of keep_out
# => keep_out = [[9, 0, 0, 0, 0], [0, 0, 0, 0, "0"]] => wrong kind of keep_out
# => keep_out = [[]] => keep_out out of range
# => keep_out = [[0, 0, 1, 1]] => keep_out out of range
# => keep_out = [[0, 0, 1, 1, 1, 1]] => keep_out out of range
# => keep_out = [[0, 0, 1, 1, 0], [1, 0, 0, 1, 0]] => keep_out out of range
# => keep_out = [[0, 1, 1, 0, 0], [0, 0, 1, 1, 0]] => keep_out out of range
# => keep_out = [[-131072, 0, 0, 0, 0]] => keep_out out of range
# => keep_out = [[0, 0, 0, 0, 131072]] => keep_out out of range
# => keep_out = [[0, 0, 0, 0, -131072]] => keep_out out of range
# => unit = "thousandth"\nkeep_out = [[0, 0, 0, 524288, 0]] => keep_out out of range
# => keep_out = [[0, 0, 0, 0, 0], [0, 0, 0, 0, 401]] => keep_out doesn't fit clear
# => slack = 20\nkeep_out = [[0, 0, 0, 0, 381]] => keep_out doesn't fit clear
"flat" => "cone"\nrise=4\nrun=3\nslack=2\nkeep_out=[[0,0,0,0,397]] => keep_out doesn't fit clear
"flat" => "cone"\nrise=4\nrun=3\nslack=61\nkeep_out=[[0,0,0,0,401]] => slack doesn't fit clear
# => graze = -1\nkeep_out = 5 => graze out of range
# => keep_out = [[0, 0, 0, 0, 401]]\nstart = "there" => start out of range
# => keep_out = 5\nstart = 5 => wrong kind of keep_out
# => rapids = "Axes" => rapids out of range
# => rapids = "axes "\nstart = 5 => rapids out of range
# => rapids = ["axes"]\nstart = "there" => wrong kind of rapids
# => rapids = 1 => wrong kind of rapids
# => keep_out = 5\nrapids = 5 => wrong kind of keep_out
# => rapid = "axes" => unknown rapid
# => start = "Anywhere" => start out of range
# => start = ["home"]\nspindle = "x" => wrong kind of start
# => start = "home "\nspindle = 1 => start out of range
# => start = 0 => wrong kind of start
# => spindle = 1 => wrong kind of spindle
# => spindle = 1\nwords = 1 => wrong kind of spindle
# => words = "Machine" => words out of range
# => words = 1\npeck_clearance = -1 => wrong kind of words
# => words = "machine" => words doesn't fit start
# => start = "home"\nwords = "machine" => words doesn't fit start
# => words = "machine"\nkeep_out = [[0, 0, 0, 0, 401]] => keep_out doesn't fit clear
# => peck_clearance = -1 => peck_clearance out of range
# => peck_clearance = 10001\nlengths = 1 => peck_clearance out of range
# => peck_clearance = "0" => wrong kind of peck_clearance
# => lengths = "two" => lengths out of range
# => lengths = 1 => wrong kind of lengths
# => lengths = 1\nwords = "machine" => wrong kind of lengths
# => slack = 10\narc_tol = 0 => arc_tol out of range
# => slack = 10\narc_tol = 101 => arc_tol out of range
# => slack = 10\narc_tol = "1" => wrong kind of arc_tol
# => arc_tol = 0\nlengths = 1 => wrong kind of lengths
# => arc_tol = 1 => arc_tol doesn't fit slack
# => slack = 2\narc_tol = 1 => arc_tol doesn't fit slack
# => slack = 71\narc_tol = 70 => arc_tol doesn't fit slack
# => slack = 72\narc_tol = 100 => arc_tol doesn't fit slack
# => words = "machine"\narc_tol = 1 => words doesn't fit start
# => length = "one" => unknown length
band = 0 => band = 151\nspindle = "true" => wrong kind of spindle
# => keep_outs = [] => unknown keep_outs"#;

#[test]
fn refuses_another_machine(rt: HostRuntime) -> Result<(), Fail> {
    each_is_refused(&rt, rt.alloc(), &open(rt.alloc())?, REFUSED)
}

/// The tolerance of arcs, and whether the slack has room for it, of EXAMPLE with more keys.
fn arcs(alloc: Global, keys: &str) -> Result<(i32, bool), Fail> {
    let text = format!(in alloc; "{EXAMPLE}{keys}\n")?;
    let job = read_job(alloc, text.as_bytes())?;
    Ok((job.arc_tolerance(), job.arc_room() >= 0))
}

#[test]
fn tells_the_tolerance_of_arcs(rt: HostRuntime) -> Result<(), Fail> {
    assert_eq!(rt; arcs(rt.alloc(), "slack = 2")?, (1, false));
    assert_eq!(rt; arcs(rt.alloc(), "slack = 3")?, (1, true));
    let fine = "unit = \"thousandth\"\nslack = 4";
    assert_eq!(rt; arcs(rt.alloc(), fine)?, (3, false));
    assert_eq!(rt; arcs(rt.alloc(), "slack = 9\narc_tol = 7")?, (7, true));
    Ok(())
}

/// EXAMPLE with so many fixtures, and this one behind them.
fn boxes(alloc: Global, count: usize, last: &str) -> Result<String, Fail> {
    let mut text = format!(in alloc; "{EXAMPLE}keep_out = [")?;
    for height in 0..count {
        text.push_str(&format!(in alloc; "[0, 0, 9, 9, {height}], ")?)?;
    }
    text.push_str(last)?;
    text.push_str("]\n")?;
    Ok(text)
}

#[test]
fn takes_64_fixtures(rt: HostRuntime) -> Result<(), Fail> {
    let most = boxes(rt.alloc(), 63, "[1, 2, 3, 4, 5]")?;
    let job = read_job(rt.alloc(), most.as_bytes())?;
    let boxes = job.fixtures();
    assert_eq!(rt; boxes.len(), 64);
    assert_eq!(rt; boxes.first().map(|fixture| fixture.height), Some(0));
    assert_eq!(rt; boxes.last().map(|fixture| fixture.area.y1), Some(4));
    Ok(())
}

#[test]
fn refuses_65_fixtures(rt: HostRuntime) -> Result<(), Fail> {
    let more = boxes(rt.alloc(), 64, "[1, 2, 3, 4, 5]")?;
    same(
        &rt,
        &answer(rt.alloc(), &more)?,
        "keep_out out of range",
        "",
    );
    let other = boxes(rt.alloc(), 64, "[1, 2, 3, 4, 5.0]")?;
    same(
        &rt,
        &answer(rt.alloc(), &other)?,
        "wrong kind of keep_out",
        "",
    );
    Ok(())
}
