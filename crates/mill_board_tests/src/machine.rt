//! The machine of events: what comes of each, and the state that they leave.
ghost use Rattle.std.specs.Prelude.{◌≡◌, length, IfOk};

use mill_sched::{Core, Event};
use mill_tables::{add_with_comma, halves};
use std::alloc::Global;
use std::process::Abort;
use std::test::Fail;

/// A piece by its first turn, its limit and, behind a colon, the turn at which it fails.
fn piece(word: &str) -> Result<((u64, u64), Option<u64>), Fail> {
    let (span, fails) = match word.split_once(':') {
        Some((span, turn)) => (span, Some(turn.parse()?)),
        None => (word, None),
    };
    let (first, limit) = span.split_once('-').ok_or("a piece without a limit")?;
    Ok(((first.parse()?, limit.parse()?), fails))
}

/// The spans of pieces, and the turns at which these fail.
fn pieces(alloc: Global, words: &str) -> Result<(Vec<(u64, u64)>, Vec<Option<u64>>), Fail> {
    let (mut spans, mut fails) = (Vec::new(alloc), Vec::new(alloc));
    if words == "none" {
        return Ok((spans, fails));
    }
    for word in words.split(' ') {
        let (span, turn) = piece(word)?;
        spans.push(span)?;
        fails.push(turn)?;
    }
    Ok((spans, fails))
}

/// A core by the words of a row, and how many pieces it has.
fn core(alloc: Global, given: &str) -> Result<(Core, u64), Fail>
    ensures { IfOk result (λ made. length made.0.pieces ≡ made.1) }
{
    let (turns, rest) = given.split_once(" turns, ").ok_or("no turns")?;
    let (workers, words) = rest.split_once(" workers, pieces ").ok_or("no workers")?;
    let (spans, fails) = pieces(alloc, words)?;
    if spans.len() != fails.len() {
        return Err(Fail::from("not as many spans as turns"));
    }
    let core = Core::new(alloc, &spans, &fails, turns.parse()?, workers.parse()?)?;
    Ok((core, spans.len() as u64))
}

/// An event by its name and its worker; what comes of it stands behind it.
fn event(step: &str) -> Result<Event, Fail> {
    let (name, rest) = step.split_once('(').ok_or("an event without a worker")?;
    let (worker, _) = rest.split_once(')').ok_or("a worker without an end")?;
    let worker: u32 = worker.parse()?;
    match name {
        "Draw" => Ok(Event::Draw(worker)),
        "Take" => Ok(Event::Take(worker)),
        "Look" => Ok(Event::Look(worker)),
        "Lower" => Ok(Event::Lower(worker)),
        "Put" => Ok(Event::Put(worker)),
        _ => Err(Fail::from("no such event")),
    }
}

fn events(alloc: Global, steps: &str) -> Result<Vec<Event>, Fail> {
    let mut events = Vec::new(alloc);
    for step in steps.split(", ") {
        events.push(event(step)?)?;
    }
    Ok(events)
}

fn told_step(alloc: Global, core: &mut Core, event: Event) -> Result<String, Fail> {
    let outcome = core.step(event);
    Ok(format!(in alloc; "{event:?} {outcome:?}")?)
}

/// Each event with what comes of it.
fn told_steps(alloc: Global, core: &mut Core, events: &[Event]) -> Result<String, Fail> {
    let mut told = String::new(alloc);
    for event in events {
        add_with_comma(&mut told, &told_step(alloc, core, *event)?)?;
    }
    Ok(told)
}

/// The next turn of each piece, with a space before it.
fn told_turns(alloc: Global, core: &Core, pieces: u64) -> Result<String, Fail>
    requires { length core.now.pieces ≡ pieces }
{
    let mut told = String::new(alloc);
    for number in 0..pieces {
        told.push_str(&format!(in alloc; " {}", core.next(number))?)?;
    }
    if told.is_empty() {
        told.push_str(" none")?;
    }
    Ok(told)
}

/// The state that events leave, done all at once.
fn told_state(alloc: Global, given: &str, events: &[Event]) -> Result<String, Fail> {
    let (mut core, pieces) = core(alloc, given)?;
    core.run(events);
    let turns = told_turns(alloc, &core, pieces)?;
    let (claim, least) = (core.claim(), core.least());
    Ok(format!(in alloc; "claim {claim}, least {least}, next{turns}")?)
}

/// What a row says of its core, of each event by itself and of all together.
fn told(alloc: Global, given: &str, steps: &str) -> Result<String, Fail> {
    let events = events(alloc, steps)?;
    let (mut core, _) = core(alloc, given)?;
    let steps = told_steps(alloc, &mut core, &events)?;
    let state = told_state(alloc, given, &events)?;
    Ok(format!(in alloc; "{steps} => {state}")?)
}

fn look<R: Abort + AllocGlobal>(rt: &R, row: &str) -> Result<(), Fail> {
    let (given, wanted) = row.split_once(" | ").ok_or("a row without a bar")?;
    let (steps, _) = halves(wanted)?;
    let told = told(rt.alloc(), given, steps)?;
    assert_eq!(rt; told.as_str(), wanted, "{given}");
    Ok(())
}

// In the first row the second worker is ahead, so the first one does one turn, and not the one over the least
// value. Then a row without a worker, and one without a piece. The events of the others are drawn by lot; what
// comes of them was found by a slow program in another language that follows the rules in another way: for each
// event it goes over all that have come before. Of the pieces of some rows the spans don't lie under the number
// of turns, begin behind their ends, or haven't their failing turn in them.
const ROWS: &str = "\
2 turns, 2 workers, pieces 0-2 0-2:0 | Draw(0) Drew(0), Draw(1) Drew(1), Take(1) Took, \
    Look(1) Failed, Lower(1) Lowered, Take(0) Took, Look(0) Passed, Look(0) Stopped, Put(0) Back, \
    Put(1) Back, Draw(0) Ended, Draw(1) Ended, Draw(2) Idle => claim 4, least 0, next 1 0
1 turns, 0 workers, pieces 0-1 | Draw(0) Idle => claim 0, least 1, next 0
1 turns, 1 workers, pieces none | Draw(0) Ended, Draw(0) Idle => claim 1, least 1, next none
3 turns, 2 workers, pieces none | Look(1) Idle, Put(0) Idle, Lower(2) Idle, Draw(1) Ended, \
    Look(1) Idle => claim 1, least 3, next none
3 turns, 1 workers, pieces 0-3:1 | Draw(0) Drew(0), Take(0) Took, Look(0) Passed, Look(0) Failed, \
    Lower(0) Lowered, Look(0) Stopped, Put(0) Back, Draw(0) Ended, Take(0) Idle => claim 2, least 1, \
    next 1
4 turns, 1 workers, pieces 1-3:2 | Put(0) Idle, Lower(0) Idle, Draw(0) Drew(0), Take(0) Took, \
    Look(0) Passed, Look(0) Failed, Look(0) Stopped, Lower(0) Lowered, Lower(0) Lowered, \
    Lower(0) Lowered, Put(0) Back, Take(1) Idle, Put(0) Idle, Draw(0) Ended => claim 2, least 2, \
    next 2
6 turns, 3 workers, pieces 2-4:3 5-6:5 3-6 0-5 0-2:0 | Draw(1) Drew(0), Put(0) Idle, Take(1) Took, \
    Look(1) Passed, Draw(2) Drew(1), Look(1) Failed, Look(1) Stopped, Take(2) Took, Look(2) Failed, \
    Lower(1) Lowered, Look(2) Stopped, Draw(0) Drew(2), Put(2) Back, Lower(1) Lowered, \
    Lower(1) Lowered, Lower(1) Lowered, Draw(2) Drew(3), Look(1) Stopped, Put(1) Back, \
    Lower(2) Idle, Draw(1) Drew(4), Look(0) Idle, Take(2) Took, Look(2) Passed, Look(2) Passed, \
    Look(2) Passed, Draw(1) Idle, Look(2) Passed, Look(2) Stopped, Put(2) Back, Lower(0) Idle, \
    Take(1) Took, Look(1) Failed, Draw(2) Ended, Lower(1) Lowered, Look(1) Stopped, Put(1) Back, \
    Take(1) Idle, Take(0) Took, Draw(1) Ended => claim 7, least 0, next 3 5 3 4 0
6 turns, 3 workers, pieces 4-6:4 0-5:3 2-6 0-5:2 1-5:3 | Draw(2) Drew(0), Draw(1) Drew(1), \
    Take(2) Took, Look(2) Failed, Take(1) Took, Look(1) Passed, Put(2) Back, Look(1) Passed, \
    Look(1) Passed, Draw(0) Drew(2), Take(0) Took, Look(1) Failed, Look(1) Stopped, \
    Lower(1) Lowered, Look(1) Stopped, Put(0) Back, Lower(1) Lowered, Lower(1) Lowered, \
    Look(3) Idle, Look(0) Idle, Lower(2) Idle, Draw(2) Drew(3), Lower(2) Idle, Draw(0) Drew(4), \
    Take(2) Took, Look(2) Passed, Lower(1) Lowered, Put(1) Back, Look(2) Passed, Look(2) Failed, \
    Look(0) Idle, Lower(2) Lowered, Lower(2) Lowered, Lower(2) Lowered, Lower(2) Lowered, \
    Put(2) Back, Draw(1) Ended, Look(0) Idle, Take(3) Idle, Draw(2) Ended => claim 7, least 2, next \
    4 3 2 2 1
3 turns, 4 workers, pieces 0-2:1 3-2:0 3-3:0 3-2:4 3-3 0-0 1-3 1-3 3-2:1 0-3 0-1 1-2:0 | \
    Draw(0) Drew(0), Take(0) Took, Lower(1) Idle, Draw(2) Drew(1), Draw(3) Drew(2), Take(3) Took, \
    Take(2) Took, Put(3) Back, Draw(0) Idle, Look(0) Passed, Look(2) Stopped, Take(1) Idle, \
    Look(0) Failed, Look(2) Stopped, Draw(1) Drew(3), Lower(0) Lowered, Put(0) Back, Take(1) Took, \
    Look(2) Stopped, Put(1) Back, Put(2) Back, Draw(2) Drew(4), Draw(0) Drew(5), Draw(1) Drew(6), \
    Take(2) Took, Put(2) Back, Take(0) Took, Take(1) Took, Put(0) Back, Draw(3) Drew(7), \
    Draw(0) Drew(8), Draw(2) Drew(9), Look(1) Passed, Put(1) Back, Put(3) Idle, Take(3) Took, \
    Put(3) Back, Take(0) Took, Draw(3) Drew(10), Draw(1) Drew(11), Put(0) Back, Draw(0) Ended, \
    Take(3) Took, Put(3) Back, Take(1) Took, Look(1) Passed, Look(1) Stopped, Look(1) Stopped => \
    claim 13, least 1, next 1 3 3 3 3 0 2 1 3 0 0 2
10 turns, 8 workers, pieces 1-3:2 5-10:9 4-4 | Draw(0) Drew(0), Draw(1) Drew(1), Draw(6) Drew(2), \
    Put(2) Idle, Take(0) Took, Take(6) Took, Look(0) Passed, Look(0) Failed, Take(1) Took, \
    Look(1) Passed, Draw(2) Ended, Draw(7) Ended, Look(1) Passed, Look(1) Passed, Draw(4) Ended, \
    Look(0) Stopped, Look(6) Stopped, Look(8) Idle, Look(0) Stopped, Lower(6) Idle, Look(1) Passed, \
    Look(1) Failed, Draw(5) Ended, Put(0) Back, Draw(3) Ended, Look(1) Stopped, Put(3) Idle, \
    Look(1) Stopped, Look(1) Stopped, Lower(1) Lowered, Look(6) Stopped, Put(3) Idle, \
    Lower(1) Lowered, Look(1) Stopped, Put(1) Back, Look(6) Stopped, Draw(1) Ended, Put(6) Back, \
    Draw(6) Ended, Look(2) Idle => claim 10, least 9, next 2 9 4
5 turns, 2 workers, pieces 1-2 3-5 2-1:2 1-4:3 4-5:5 1-1:0 0-0:3 2-2 0-3:1 | Draw(1) Drew(0), \
    Put(1) Idle, Draw(0) Drew(1), Take(0) Took, Look(0) Passed, Look(0) Passed, Put(0) Back, \
    Take(1) Took, Look(1) Passed, Draw(2) Idle, Look(1) Stopped, Look(1) Stopped, Look(1) Stopped, \
    Put(1) Back, Look(2) Idle, Draw(1) Drew(2), Take(1) Took, Put(1) Back, Take(1) Idle, \
    Draw(1) Drew(3), Look(2) Idle, Take(1) Took, Look(1) Passed, Draw(0) Drew(4), Look(1) Passed, \
    Draw(0) Idle, Look(1) Failed, Lower(1) Lowered, Put(1) Back, Draw(1) Drew(5), Take(1) Took, \
    Look(1) Stopped, Take(0) Took, Put(1) Back, Put(0) Back, Draw(1) Drew(6), Take(1) Took, \
    Put(1) Back, Draw(1) Drew(7), Look(0) Idle, Draw(0) Drew(8), Take(1) Took, Put(1) Back, \
    Take(0) Took, Look(0) Passed, Look(0) Failed, Lower(0) Lowered, Draw(1) Ended => claim 10, least \
    1, next 2 5 2 3 4 1 0 2 1
0 turns, 2 workers, pieces 0-0:1 0-0 0-0 0-0:1 | Draw(1) Drew(0), Take(1) Took, Put(1) Back, \
    Draw(1) Drew(1), Take(1) Took, Put(1) Back, Draw(0) Drew(2), Take(0) Took, Look(1) Idle, \
    Take(2) Idle, Look(0) Stopped, Look(0) Stopped, Put(0) Back, Draw(0) Drew(3), Draw(1) Ended, \
    Take(0) Took => claim 5, least 0, next 0 0 0 0
40 turns, 3 workers, pieces 12-18 34-7:35 18-40:21 30-3:35 | Draw(1) Drew(0), Draw(2) Drew(1), \
    Lower(2) Idle, Draw(0) Drew(2), Take(0) Took, Look(0) Passed, Draw(3) Idle, Look(0) Passed, \
    Lower(3) Idle, Put(2) Idle, Look(0) Passed, Look(0) Failed, Look(3) Idle, Lower(0) Lowered, \
    Look(2) Idle, Draw(1) Idle, Put(2) Idle, Lower(0) Lowered, Lower(0) Lowered, Put(0) Back, \
    Draw(0) Drew(3), Draw(3) Idle, Take(2) Took, Draw(2) Idle, Take(0) Took, Look(0) Stopped, \
    Put(0) Back, Look(2) Stopped, Look(2) Stopped, Look(2) Stopped, Draw(0) Ended, Look(2) Stopped, \
    Take(1) Took, Put(0) Idle, Look(1) Passed, Look(1) Passed, Put(2) Back, Look(1) Passed, \
    Look(1) Passed, Look(1) Passed => claim 5, least 21, next 17 34 21 30
2 turns, 0 workers, pieces 1-1 1-2:3 1-1:1 2-0:1 0-2:1 1-0:0 | Look(0) Idle, Look(0) Idle => claim \
    0, least 2, next 1 1 1 2 0 1";

#[test]
fn events_come_to_what_the_rules_say(rt: HostRuntime) -> Result<(), Fail> {
    for row in ROWS.lines() {
        look(&rt, row)?;
    }
    Ok(())
}
