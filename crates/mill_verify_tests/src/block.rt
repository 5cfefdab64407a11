ghost use Rattle.std.specs.Prelude.{◌≡◌, ◌≤◌, length, IfOk, IsTrue};
ghost use Rattle.mill_base.specs.Ranges.{MoveInRange, MovesInRange};

use crate::samples::{FLAT_BLOCK, LINE, NARROW_BLOCK, PLATE, job_of, same, step_from};
use mill_base::{Move, Pt3};
use mill_job::Job;
use mill_part::SortedPart;
use mill_tables::{add, halves, part_of, step_fits};
use mill_verify::{Block, Clash};
use std::alloc::Global;
use std::process::Abort;
use std::test::Fail;

fn told_count(alloc: Global, turns: &str) -> Result<String, Fail> {
    let turns: u64 = turns.parse()?;
    Ok(format!(in alloc; "{}", Block::count(turns))?)
}

fn look_at_count<R: Abort + AllocGlobal>(rt: &R, row: &str) -> Result<(), Fail> {
    let (turns, wanted) = halves(row)?;
    same(rt, &told_count(rt.alloc(), turns)?, wanted, row);
    Ok(())
}

const COUNTS: &str = "\
0 => 0
1 => 1
64 => 1
65 => 2
128 => 2
150 => 3";

#[test]
fn counts_blocks(rt: HostRuntime) -> Result<(), Fail> {
    for row in COUNTS.lines() {
        look_at_count(&rt, row)?;
    }
    Ok(())
}

/// Looks at a block of 150 moves: where it begins and ends, and its next move.
fn look_at_ends<R: Abort>(rt: &R, number: u64, first: u64, limit: u64)
    requires { number ≤ 2 }
{
    let block = Block::new(number, 150);
    let found = (block.first(), block.limit(), block.next());
    assert_eq!(rt; found, (first, limit, first));
}

// 150 moves stand in the blocks from 0, from 64 and from 128 on, the last of which isn't full.
#[test]
fn blocks_have_ends(rt: HostRuntime) {
    look_at_ends(&rt, 0, 0, 64);
    look_at_ends(&rt, 1, 64, 128);
    look_at_ends(&rt, 2, 128, 150);
}

/// Whether a block's turn passes, its ends and its next move, and what stopped it.
fn told_block(alloc: Global, block: &Block, passes: bool) -> Result<String, Fail> {
    let word = if passes { "passes" } else { "fails" };
    let ends = (block.first(), block.limit(), block.next());
    match block.failed() {
        None => Ok(format!(in alloc; "{word} {ends:?}")?),
        Some(Clash::Cutter(gouge)) => {
            Ok(format!(in alloc;
                "{word} {ends:?}, cutter at {}, {:?}",
                gouge.tri, gouge.leaf
            )?)
        }
        Some(Clash::Holder(gouge)) => {
            Ok(format!(in alloc;
                "{word} {ends:?}, holder at {}, {:?}",
                gouge.tri, gouge.leaf
            )?)
        }
        Some(Clash::Fixture(hit)) => {
            Ok(format!(in alloc;
                "{word} {ends:?}, cutter at box {}, {:?}",
                hit.fixture, hit.leaf
            )?)
        }
        Some(Clash::HolderFixture(hit)) => {
            Ok(format!(in alloc;
                "{word} {ends:?}, holder at box {}, {:?}",
                hit.fixture, hit.leaf
            )?)
        }
    }
}

/// Over the middle of the block, where each plunge begins.
const OVER: Pt3 = Pt3 {
    x: 100,
    y: 100,
    z: 400,
};

/// 100 plunges in the middle to the plate, of which those numbered 65 and 66 scrape it.
fn hundred(alloc: Global) -> Result<String, Fail> {
    let mut ends = String::new(alloc);
    for number in 0..100 {
        let end = if number == 65 || number == 66 {
            "feed 100 100 199"
        } else {
            "feed 100 100 200"
        };
        add(&mut ends, end)?;
    }
    Ok(ends)
}

fn all_plunges(alloc: Global, ends: &str) -> Result<Vec<Move>, Fail> {
    let mut moves = Vec::new(alloc);
    for end in ends.split("; ") {
        moves.push(step_from(OVER, end)?)?;
    }
    Ok(moves)
}

/// Whether a move is in range, as a function of this crate, which a search of a list can take.
fn fits(step: &Move) -> bool
    ensures { IsTrue result → MoveInRange step.now }
{
    step_fits(step)
}

/// So many plunges by their ends.
fn plunges(alloc: Global, ends: &str, count: usize) -> Result<Vec<Move>, Fail>
    ensures moves_ok { IfOk result (λ moves. MovesInRange moves.items) }
    ensures count { IfOk result (λ moves. length moves.items ≡ count) }
{
    let moves = all_plunges(alloc, ends)?;
    if moves.len() != count || !moves.iter().all(fits) {
        return Err(Fail::from("too many or too few moves"));
    }
    Ok(moves)
}

/// The second block of 100 moves after up to two turns, and whether the last of them passes.
fn second_block(job: &Job, part: &SortedPart, moves: &[Move], turns: u64) -> (Block, bool)
    requires moves_ok { MovesInRange moves.now }
    requires count { length moves.now ≡ 100 }
{
    let mut block = Block::new(1, 100);
    if turns == 0 {
        return (block, true);
    }
    if !block.turn(job, part, moves, 64) {
        return (block, false);
    }
    if turns == 1 {
        return (block, true);
    }
    let passes = block.turn(job, part, moves, 65);
    (block, passes)
}

fn told_turns(alloc: Global, job: &Job, moves: &[Move], turns: u64) -> Result<String, Fail>
    requires moves_ok { MovesInRange moves.now }
    requires count { length moves.now ≡ 100 }
{
    let part = part_of(alloc, PLATE)?;
    let (block, passes) = second_block(job, &part, moves, turns);
    told_block(alloc, &block, passes)
}

fn look_at_turns<R: Abort + AllocGlobal>(rt: &R, moves: &[Move], row: &str) -> Result<(), Fail>
    requires moves_ok { MovesInRange moves.now }
    requires count { length moves.now ≡ 100 }
{
    let (turns, wanted) = halves(row)?;
    let turns: u64 = turns.parse()?;
    let job = job_of(rt.alloc(), FLAT_BLOCK, "")?;
    let told = told_turns(rt.alloc(), &job, moves, turns)?;
    same(rt, &told, wanted, row);
    Ok(())
}

// After no turn, after one that passes, and after the one that fails.
const TURNS: &str = "\
0 => passes (64, 100, 64)
1 => passes (64, 100, 65)
2 => fails (64, 100, 65), cutter at 0, Leaf { d: 8, k: 254 }";

#[test]
fn keeps_the_gouge_of_the_move_that_fails(rt: HostRuntime) -> Result<(), Fail> {
    let ends = hundred(rt.alloc())?;
    let moves = plunges(rt.alloc(), &ends, 100)?;
    for row in TURNS.lines() {
        look_at_turns(&rt, &moves, row)?;
    }
    Ok(())
}

/// The block of one move after its turn, and whether that passes.
fn only_block(job: &Job, part: &SortedPart, moves: &[Move]) -> (Block, bool)
    requires moves_ok { MovesInRange moves.now }
    requires count { length moves.now ≡ 1 }
{
    let mut block = Block::new(0, 1);
    let passes = block.turn(job, part, moves, 0);
    (block, passes)
}

fn told_held(alloc: Global, job: &Job) -> Result<String, Fail> {
    let part = part_of(alloc, LINE)?;
    let moves = plunges(alloc, "feed 100 100 100", 1)?;
    let (block, passes) = only_block(job, &part, &moves);
    told_block(alloc, &block, passes)
}

const HELD: &str = "fails (0, 1, 0), holder at 0, Leaf { d: 9, k: 426 }";

// The holder's face comes down to the line where the tip is at 150.
#[test]
fn keeps_the_gouge_of_the_holder(rt: HostRuntime) -> Result<(), Fail> {
    look_at_held(&rt)
}

fn look_at_held<R: Abort + AllocGlobal>(rt: &R) -> Result<(), Fail> {
    let job = job_of(rt.alloc(), NARROW_BLOCK, "")?;
    same(rt, &told_held(rt.alloc(), &job)?, HELD, "held");
    Ok(())
}
