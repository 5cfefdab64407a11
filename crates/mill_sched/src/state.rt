ghost use Rattle.std.specs.Prelude.{◌≡◌, ◌+◌, ◌<◌, ◌≤◌, ◌⊎◌, All, IfOk, length, map};
ghost use Rattle.mill_sched.specs.States.{piece_at, start_of, tasks_given, untouched, work_given, work_of};
ghost use Rattle.mill_sched.specs.Steps.{outcomes_of, state_after, step_of};
ghost use Rattle.mill_sched.specs.Laws.{CanDo, DrawsEachOnce, Fits, IsCaused, IsOnTurn, IsPlaced, IsSettled, SameGiven, least_failure};

use crate::event::{Event, Outcome};
use crate::piece::{Piece, Task};
use crate::worker::{Worker, worker_of};
use mill_base::WantOfMemory;
use std::alloc::Global;
use std::marker::Model;

/// The pieces and the workers that share them.
///
/// The claim is the number that is drawn next. The least value is the number of turns at first, and
/// then the least turn to which a worker has lowered it.
#[derive(Drop)]
pub struct Core {
    claim: u64,
    least: u64,
    turns: u64,
    pieces: Vec<Piece>,
    workers: Vec<Worker>,
}

impl Model for Core {
    ghost use Rattle.mill_sched.specs.States.{State};
    ghost use Rattle.mill_sched.specs.Kept.{Kept};

    ghost Value = { State };

    ghost view = { λ c. record { claim = c.claim; least = c.least; turns = c.turns; pieces = c.pieces.items; workers = c.workers.items } };

    ghost invariant = { λ c. Kept record { claim = c.claim; least = c.least; turns = c.turns; pieces = c.pieces.items; workers = c.workers.items } };
}

impl Core {
    /// Pieces with these spans of turns, each from its first number on and under its second, that fail
    /// at these turns, if they do; so many turns in all, and so many workers. All pieces are home and
    /// all workers free.
    ///
    /// Nothing is asked of the spans. Where each lies under the number of turns and has its piece's
    /// failing turn in it, more can be said of what comes of them.
    pub fn new(
        alloc: Global,
        spans: &[(u64, u64)],
        fails: &[Option<u64>],
        turns: u64,
        workers: u32,
    ) -> Result<Core, WantOfMemory>
        requires { length fails.now ≡ length spans.now }
        ensures start { IfOk result (λ core. core ≡ start_of (work_given turns spans.now fails.now) workers) }
        ensures work { IfOk result (λ core. work_of core ≡ work_given turns spans.now fails.now) }
        ensures pieces { IfOk result (λ core. length core.pieces ≡ length spans.now) }
    {
        let pieces = untouched(alloc, spans, fails)?;
        let workers = vec![in alloc; Worker::Free; workers as usize]?;
        Ok(Core {
            claim: 0,
            least: turns,
            turns,
            pieces,
            workers,
        })
    }

    /// The number that is drawn next. Every piece of a lesser number has been drawn, and none of the
    /// others.
    pub fn claim(&self) -> u64
        ensures value { result ≡ self.now.claim }
        ensures most { result ≤ length self.now.pieces + length self.now.workers }
        ensures placed { IsPlaced self.now }
    {
        self.claim
    }

    /// The least value: the number of turns, or the least turn to which a worker has lowered it. It is
    /// never under the least turn at which a piece fails. Where the spans fit, it is that turn once
    /// nothing is left to be done.
    pub fn least(&self) -> u64
        ensures value { result ≡ self.now.least }
        ensures caused { IsCaused self.now }
        ensures over { least_failure (work_of self.now) ≤ result }
        ensures settled { Fits (work_of self.now) → IsSettled self.now → result ≡ least_failure (work_of self.now) }
    {
        self.least
    }

    /// The next turn of the piece of this number, or the turn at which it has failed.
    pub fn next(&self, number: u64) -> u64
        requires { number < length self.now.pieces }
        ensures value { result ≡ (piece_at self.now number).next }
        ensures turn { Fits (work_of self.now) → IsOnTurn (piece_at self.now number) }
    {
        self.pieces[number as usize].next
    }

    /// Does what the event says, if its worker can do it now. Where it can't, or isn't there, the
    /// outcome is `Idle`, and nothing changes. No memory is taken.
    pub fn step(&mut self, event: Event) -> Outcome
        ensures state { self.new ≡ (step_of self.old event).state }
        ensures outcome { result ≡ (step_of self.old event).outcome }
        ensures able { CanDo self.old event ⊎ (result ≡ Outcome.Idle) }
        ensures idle { result ≡ Outcome.Idle → (¬ CanDo self.old event) × (self.new ≡ self.old) }
        ensures same { SameGiven self.old self.new }
        ensures falls { self.new.least ≤ self.old.least }
    {
        self.act(event)
    }

    /// Does what these events say, one after the other. No memory is taken.
    ///
    /// Each number from the claim on, as it was, that is under it as it is then and is a piece's, is
    /// drawn once, and no other. Pieces are home or held by one worker. The least value doesn't rise,
    /// and is never under the least turn at which a piece fails. Where the spans fit, pieces are on
    /// their turns, and once nothing is left to be done the least value is that turn.
    pub fn run(&mut self, events: &[Event])
        ensures state { self.new ≡ state_after self.old events.now }
        ensures same { SameGiven self.old self.new }
        ensures drawn { DrawsEachOnce self.old self.new (outcomes_of self.old events.now) }
        ensures most { self.new.claim ≤ length self.new.pieces + length self.new.workers }
        ensures placed { IsPlaced self.new }
        ensures turns { Fits (work_of self.new) → All IsOnTurn self.new.pieces }
        ensures falls { self.new.least ≤ self.old.least }
        ensures caused { IsCaused self.new }
        ensures over { least_failure (work_of self.new) ≤ self.new.least }
        ensures settled { Fits (work_of self.new) → IsSettled self.new → self.new.least ≡ least_failure (work_of self.new) }
    {
        for event in events {
            self.act(*event);
        }
        // What every core keeps is known once a field of it is read.
        prove!(self.least <= self.turns);
    }

    // What an event does, by itself.
    fn act(&mut self, event: Event) -> Outcome
        ensures state { self.new ≡ (step_of self.old event).state }
        ensures outcome { result ≡ (step_of self.old event).outcome }
    {
        match event {
            Event::Draw(w) => self.draw(w),
            Event::Take(w) => self.take(w),
            Event::Look(w) => self.look(w),
            Event::Lower(w) => self.lower(w),
            Event::Put(w) => self.put(w),
        }
    }

    fn draw(&mut self, w: u32) -> Outcome
        ensures state { self.new ≡ (step_of self.old (Event.Draw w)).state }
        ensures outcome { result ≡ (step_of self.old (Event.Draw w)).outcome }
    {
        let Worker::Free = worker_of(&self.workers, w) else {
            return Outcome::Idle;
        };
        let n = self.claim;
        self.claim += 1;
        if n < self.pieces.len() as u64 {
            self.workers[w as usize] = Worker::Drawn(n);
            Outcome::Drew(n)
        } else {
            self.workers[w as usize] = Worker::Done;
            Outcome::Ended
        }
    }

    fn take(&mut self, w: u32) -> Outcome
        ensures state { self.new ≡ (step_of self.old (Event.Take w)).state }
        ensures outcome { result ≡ (step_of self.old (Event.Take w)).outcome }
    {
        let Worker::Drawn(n) = worker_of(&self.workers, w) else {
            return Outcome::Idle;
        };
        self.workers[w as usize] = Worker::Holding(n);
        self.pieces[n as usize].holder = Some(w);
        Outcome::Took
    }

    fn look(&mut self, w: u32) -> Outcome
        ensures state { self.new ≡ (step_of self.old (Event.Look w)).state }
        ensures outcome { result ≡ (step_of self.old (Event.Look w)).outcome }
    {
        let Worker::Holding(n) = worker_of(&self.workers, w) else {
            return Outcome::Idle;
        };
        self.pieces[n as usize].look(self.least)
    }

    fn lower(&mut self, w: u32) -> Outcome
        ensures state { self.new ≡ (step_of self.old (Event.Lower w)).state }
        ensures outcome { result ≡ (step_of self.old (Event.Lower w)).outcome }
    {
        let Worker::Holding(n) = worker_of(&self.workers, w) else {
            return Outcome::Idle;
        };
        let piece = &self.pieces[n as usize];
        if !piece.failed {
            return Outcome::Idle;
        }
        self.least = self.least.min(piece.next);
        Outcome::Lowered
    }

    fn put(&mut self, w: u32) -> Outcome
        ensures state { self.new ≡ (step_of self.old (Event.Put w)).state }
        ensures outcome { result ≡ (step_of self.old (Event.Put w)).outcome }
    {
        let Worker::Holding(n) = worker_of(&self.workers, w) else {
            return Outcome::Idle;
        };
        self.workers[w as usize] = Worker::Free;
        self.pieces[n as usize].holder = None;
        Outcome::Back
    }
}

/// The pieces with these spans that fail at these turns, each at home, with no turn done.
fn untouched(
    alloc: Global,
    spans: &[(u64, u64)],
    fails: &[Option<u64>],
) -> Result<Vec<Piece>, WantOfMemory>
    requires { length fails.now ≡ length spans.now }
    ensures { IfOk result (λ pieces. pieces.items ≡ map untouched (tasks_given spans.now fails.now)) }
{
    let mut pieces = Vec::with_capacity(alloc, spans.len())?;
    for i in 0..spans.len() {
        let (first, limit) = spans[i];
        let task = Task {
            first,
            limit,
            fails: fails[i],
        };
        pieces.push(Piece {
            task,
            next: first,
            failed: false,
            holder: None,
        })?;
    }
    Ok(pieces)
}
