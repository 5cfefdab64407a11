// Lists of steps that are read, and the faults for which others are refused.
//
// Each table is one text, as in job.rt: a row is `OLD => NEW => SAYS`, and is tried on EXAMPLE.
use crate::tables::{same, text_of_row};
use mill_base::Cutter;
use mill_job::{Job, Key, MAX_STEPS, Step, read_job, read_list};
use std::alloc::Global;
use std::process::Abort;
use std::test::Fail;

const JOB: &str = "cutter = \"flat\"
radius = 150
floor = 0
top = 300
clear = 400
area = [0, 0, 200, 200]
home = [100, 90]
pitch = 100
sample = 50
allowance = 0
band = 100
holder_radius = 160
stickout = 50
";

/// A job with a slack, an overcut, a graze and a fixture, in which there is no band.
const LOOSE: &str = "cutter = \"flat\"
radius = 150
floor = 0
top = 300
clear = 400
area = [0, 0, 200, 200]
home = [100, 90]
pitch = 100
sample = 50
allowance = 0
band = 0
holder_radius = 160
stickout = 50
slack = 20
overcut = 30
graze = 40
keep_out = [[500, 0, 600, 200, 375]]
";

const EXAMPLE: &str =
    r#"steps = [{ program = "rough.ngc", cutter = "ball", radius = 150 }, { program = "b/2.ngc", cutter = "cone", radius = 100, rise = 16, run = 1 }]"#;

fn add(alloc: Global, told: &mut String, step: &Step) -> Result<(), Fail> {
    told.push_str(&format!(in alloc; "{} by {:?};", step.program, step.cutter)?)?;
    Ok(())
}

/// Each step's program and cutter.
fn told(alloc: Global, steps: &[Step]) -> Result<String, Fail> {
    let mut told = String::new(alloc);
    for step in steps {
        add(alloc, &mut told, step)?;
    }
    Ok(told)
}

/// What is said of a list for a job: its steps, or the fault.
fn answer_for(alloc: Global, job: &str, text: &[u8]) -> Result<String, Fail> {
    let job = read_job(alloc, job.as_bytes())?;
    match read_list(alloc, text, &job) {
        Ok(steps) => told(alloc, &steps),
        Err(fault) => Ok(format!(in alloc; "{fault}")?),
    }
}

/// What is said of a list for JOB.
fn answer(alloc: Global, text: &[u8]) -> Result<String, Fail> {
    answer_for(alloc, JOB, text)
}

fn is_answered<R: Abort>(rt: &R, alloc: Global, text: &[u8], says: &str) -> Result<(), Fail> {
    same(rt, &answer(alloc, text)?, says, says);
    Ok(())
}

fn row_is_answered<R: Abort>(rt: &R, alloc: Global, row: &str) -> Result<(), Fail> {
    let (text, says) = text_of_row(alloc, EXAMPLE, row)?;
    same(rt, &answer(alloc, text.as_bytes())?, says, row);
    Ok(())
}

const ROWS: &str =
    r#"steps => steps => rough.ngc by Ball { radius: 150 };b/2.ngc by Cone { radius: 100, rise: 16, run: 1 };
"rough.ngc" => "" =>  by Ball { radius: 150 };b/2.ngc by Cone { radius: 100, rise: 16, run: 1 };
"ball", radius = 150 => "flat", radius = 159 => rough.ngc by Flat { radius: 159 };b/2.ngc by Cone { radius: 100, rise: 16, run: 1 };
steps = [{ => [[steps]]\nprogram = "1"\ncutter = "flat"\nradius = 100\n#  => 1 by Flat { radius: 100 };
}] => } => syntax
steps = => steps = 1\nsteps = => syntax
steps = => step = => unknown step
steps = => depth = 1\nangle = 1\nsteps = => unknown angle
steps = => # => missing steps
steps = [ => steps = { step = 1 } # => wrong kind of steps
steps = [ => steps = "" # => wrong kind of steps
steps = [{ => steps = [{ depth = 1 }, { depth = 1 }, 1, { => wrong kind of steps
run = 1 }] => run = 1 }, []] => wrong kind of steps
steps = [{ => steps = [0, 0, 0, 0, 0, 0, 0, 0, 0, 0, 0, 0, 0, 0, 0, 0, { => wrong kind of steps
steps = [ => steps = [] # => steps out of range
steps = [{ => steps = [{}, {}, {}, {}, {}, {}, {}, {}, {}, {}, {}, {}, {}, {}, {}, { => steps out of range
steps = [{ => steps = [{}, {}, {}, {}, {}, {}, {}, {}, {}, {}, {}, {}, {}, {}, { => missing program
rough.ngc", => rough.ngc", floor = 0, => unknown floor
rough.ngc", => rough.ngc", steps = [], band = 0, => unknown band
program = "rough.ngc", cutter = "ball" => cutter = 1 => missing program
program = "rough.ngc" => program = 1, depth = 1 => unknown depth
"rough.ngc" => ["rough.ngc"] => wrong kind of program
"rough.ngc", cutter = "ball" => 1, cutter = 1 => wrong kind of program
cutter = "ball", radius = 150 => radius = 0 => missing cutter
"ball" => 1 => wrong kind of cutter
"ball", radius = 150 => "disc", radius = 0 => cutter out of range
, radius = 150 => , rise = 0 => missing radius
150 => 150.0 => wrong kind of radius
150 => 10001 => radius out of range
150 => 0, rise = 0 => radius out of range
rise = 16, run = 1 => run = 0 => missing rise
rise = 16, run = 1 => rise = "16" => wrong kind of rise
rise = 16, run = 1 => rise = 0, run = 0 => rise out of range
rise = 16, run = 1 => rise = 101, run = "1" => rise out of range
radius = 100, rise = 16, run = 1 => radius = 99, rise = 17 => missing run
run = 1 => run = [] => wrong kind of run
run = 1 => run = 0 => run out of range
run = 1 => run = 101 => run out of range
radius = 150 => radius = 99, run = 101 => run out of range
radius = 150 => radius = 99, rise = 1, run = 1 => cutter doesn't fit rise
radius = 150 => radius = 99, run = 1 => cutter doesn't fit run
radius = 100, rise = 16 => radius = 99, rise = 17 => rise doesn't fit run
radius = 150 => radius = 99 => band doesn't fit radius
radius = 150 => radius = 160 => radius doesn't fit holder_radius
radius = 100 => radius = 99 => band doesn't fit radius
radius = 150 }, { => radius = 160 }, { depth = 1, => radius doesn't fit holder_radius
radius = 150 }, { => radius = 150 }, { depth = 1, => unknown depth"#;

#[test]
fn answers_lists(rt: HostRuntime) -> Result<(), Fail> {
    for row in ROWS.lines() {
        row_is_answered(&rt, rt.alloc(), row)?;
    }
    Ok(())
}

/// Lists for LOOSE.
const LOOSE_ROWS: &str =
    r#"rise = 16, run = 1 => rise = 3, run = 4 => rough.ngc by Ball { radius: 150 };b/2.ngc by Cone { radius: 100, rise: 3, run: 4 };
150 => 160 => radius doesn't fit holder_radius
150 => 20 => slack doesn't fit radius
150 => 30 => overcut doesn't fit radius
150 => 40 => graze doesn't fit radius
rise = 16, run = 1 => rise = 4, run = 3 => graze doesn't fit slack
rise = 16, run = 1 => rise = 12, run = 5 => keep_out doesn't fit clear
steps => steps => slack doesn't fit clear"#;

fn loose_row_is_answered<R: Abort>(rt: &R, alloc: Global, row: &str) -> Result<(), Fail> {
    let (text, says) = text_of_row(alloc, EXAMPLE, row)?;
    same(rt, &answer_for(alloc, LOOSE, text.as_bytes())?, says, row);
    Ok(())
}

#[test]
fn answers_lists_with_slack(rt: HostRuntime) -> Result<(), Fail> {
    for row in LOOSE_ROWS.lines() {
        loose_row_is_answered(&rt, rt.alloc(), row)?;
    }
    Ok(())
}

/// A list of so many steps.
fn list_of(alloc: Global, count: usize) -> Result<String, Fail> {
    let mut text = String::new(alloc);
    for _ in 0..count {
        text.push_str("[[steps]]\nprogram = \"a\"\ncutter = \"ball\"\nradius = 150\n")?;
    }
    Ok(text)
}

fn count_of(alloc: Global, text: &[u8]) -> Result<usize, Fail> {
    let job = read_job(alloc, JOB.as_bytes())?;
    Ok(read_list(alloc, text, &job)?.len())
}

#[test]
fn takes_16_steps(rt: HostRuntime) -> Result<(), Fail> {
    let most = list_of(rt.alloc(), MAX_STEPS)?;
    assert_eq!(rt; count_of(rt.alloc(), most.as_bytes())?, 16);
    Ok(())
}

#[test]
fn refuses_17_steps(rt: HostRuntime) -> Result<(), Fail> {
    let more = list_of(rt.alloc(), MAX_STEPS + 1)?;
    is_answered(&rt, rt.alloc(), more.as_bytes(), "steps out of range")
}

#[test]
fn refuses_an_empty_text_and_other_bytes(rt: HostRuntime) -> Result<(), Fail> {
    is_answered(&rt, rt.alloc(), &[], "missing steps")?;
    is_answered(&rt, rt.alloc(), &[b'#', 0xFF], "syntax")
}

#[test]
fn keys_have_names(rt: HostRuntime) {
    let names = (Key::Steps.name(), Key::Program.name());
    assert_eq!(rt; names, ("steps", "program"));
}

#[test]
fn a_job_has_a_fault_with_a_narrow_cutter(rt: HostRuntime) -> Result<(), Fail> {
    let job = read_job(rt.alloc(), JOB.as_bytes())?;
    let narrow = Cutter::Ball { radius: 99 };
    assert!(rt; job.cutter_fault(&narrow).is_some());
    Ok(())
}

/// The job that has this cutter among its keys.
fn job_with(alloc: Global, cutter: &str) -> Result<Job, Fail> {
    let text = JOB.replace(alloc, "\"flat\"\nradius = 150", cutter)?;
    Ok(read_job(alloc, text.as_bytes())?)
}

#[test]
fn a_job_takes_a_steps_cutter(rt: HostRuntime) -> Result<(), Fail> {
    let job = read_job(rt.alloc(), JOB.as_bytes())?;
    let other = job_with(rt.alloc(), "\"ball\"\nradius = 120")?;
    let ball = Cutter::Ball { radius: 120 };
    assert!(rt; job.cutter_fault(&ball).is_none());
    assert_eq!(rt; job.with_cutter(ball), other);
    Ok(())
}
