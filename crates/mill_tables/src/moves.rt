//! Moves.
ghost use Rattle.std.specs.Prelude.{◌≡◌, ◌↔◌, IfOk, IsTrue, codes};
ghost use Rattle.mill_base.specs.Ranges.{MoveInRange, MovesInRange};
ghost use Rattle.mill_base.specs.declared.motion.Kind.TheVariants.{Rapid};

use crate::points::{fits, point};
use crate::words::first_word;
use mill_base::{Kind, Move};
use std::alloc::Global;
use std::test::Fail;

/// A rapid or a dogleg by its word; any other is a feed.
pub fn kind(word: &str) -> Kind
    ensures { (result ≡ Rapid) ↔ (word.now ≡ codes "rapid") }
{
    if word == "rapid" {
        Kind::Rapid
    } else if word == "dogleg" {
        Kind::Dogleg
    } else {
        Kind::Feed
    }
}

/// A move from one point to another, with `to` between them.
pub fn step(kind: Kind, text: &str) -> Result<Move, Fail>
    ensures { IfOk result (λ step. MoveInRange step) }
{
    let (from, to) = text.split_once(" to ").ok_or("a move without an end")?;
    let (from, to) = (point(from)?, point(to)?);
    Ok(Move { kind, from, to })
}

/// A feed from one point to another, with `to` between them.
pub fn feed(text: &str) -> Result<Move, Fail>
    ensures { IfOk result (λ step. MoveInRange step) }
{
    step(Kind::Feed, text)
}

/// Whether a move is in the range of coordinates. A loop that reads moves keeps no such fact of
/// them.
pub fn step_fits(step: &Move) -> bool
    ensures { IsTrue result → MoveInRange step.now }
{
    fits(step.from) && fits(step.to)
}

/// A move by its kind and its ends.
fn any_step(text: &str) -> Result<Move, Fail>
    ensures { IfOk result (λ step. MoveInRange step) }
{
    let (word, ends) = first_word(text)?;
    step(kind(word), ends)
}

fn all_steps(alloc: Global, text: &str) -> Result<Vec<Move>, Fail> {
    let mut moves = Vec::new(alloc);
    for each in text.split(" then ") {
        moves.push(any_step(each)?)?;
    }
    Ok(moves)
}

/// The moves of a program, each by its kind and its ends, with `then` between them.
pub fn moves_of(alloc: Global, text: &str) -> Result<Vec<Move>, Fail>
    ensures { IfOk result (λ moves. MovesInRange moves.items) }
{
    let moves = all_steps(alloc, text)?;
    if !moves.iter().all(step_fits) {
        return Err(Fail::from("out of range"));
    }
    Ok(moves)
}
