//! A small work, what is counted of its turns, and what is told of its pieces.
use mill_base::WantOfMemory;
use mill_board::{Closed, Held, Work};
use mill_tables::add_with_comma;
use std::alloc::Global;
use std::sync::atomic::Ordering::SeqCst;
use std::sync::atomic::{AtomicBool, AtomicU64};
use std::test::Fail;
use std::thread::yield_now;

/// How long a turn is held up at most, in turns of the loop that waits.
const PATIENCE: u32 = 10_000_000;

/// What is counted of a work. Where turns meet, turn 0 of number 0 waits for turn 0 of number 1, and that one
/// for it: no thread alone gets past them. Turn 5 of number 1 then waits until number 2 has begun, which is
/// after number 0 has failed at turn 5.
#[derive(Drop)]
pub(crate) struct Watch {
    /// How many pieces were made.
    pub made: AtomicU64,
    /// How many turns were done.
    pub turns: AtomicU64,
    /// How often turn 0 of each number came.
    pub begun: [AtomicU64; 3],
    /// How often turn 6 of number 1 came.
    pub past_least: AtomicU64,
    /// A turn was held up for too long.
    pub gave_up: AtomicBool,
    pub turns_meet: bool,
}

impl Watch {
    pub fn new(turns_meet: bool) -> Watch {
        Watch {
            made: AtomicU64::new(0),
            turns: AtomicU64::new(0),
            begun: [AtomicU64::new(0), AtomicU64::new(0), AtomicU64::new(0)],
            past_least: AtomicU64::new(0),
            gave_up: AtomicBool::new(false),
            turns_meet,
        }
    }

    fn wait_for(&self, number: usize) {
        if let Some(begun) = self.begun.get(number) {
            for _ in 0..PATIENCE {
                if begun.load(SeqCst) > 0 {
                    return;
                }
                yield_now();
            }
            self.gave_up.store(true, SeqCst);
        }
    }

    fn hold_up(&self, number: u64, turn: u64) {
        match (number, turn) {
            (0, 0) => self.wait_for(1),
            (1, 0) => self.wait_for(0),
            (1, 5) => self.wait_for(2),
            _ => {}
        }
    }

    /// What each turn passes before it is done: it is counted, and may be held up.
    fn pass(&self, number: u64, turn: u64) {
        self.turns.fetch_add(1, SeqCst);
        if turn == 0 {
            if let Some(begun) = self.begun.get(number as usize) {
                begun.fetch_add(1, SeqCst);
            }
        }
        if (number, turn) == (1, 6) {
            self.past_least.fetch_add(1, SeqCst);
        }
        if self.turns_meet {
            self.hold_up(number, turn);
        }
    }
}

pub(crate) const TURNS: u64 = 10;

/// Pieces that fail at given turns, of ten each. A piece that is to fail at turn 10 fails at none.
#[derive(Clone, Copy)]
pub(crate) struct Runs<'a> {
    pub fails: &'a [u64],
    pub watch: &'a Watch,
    /// How many turns a piece goes over at once, at most.
    pub leap: u64,
}

/// How many turns have passed, and the turn that won't.
#[derive(Clone, Copy)]
pub(crate) struct Run {
    pub number: u64,
    pub fails: u64,
    pub done: u64,
}

impl<'a> Work for Runs<'a> {
    type Piece = Run;

    ghost use Rattle.std.specs.Prelude.{◌≡◌, length, slice_index};

    ghost means = { record { pieces = λ w. length w.fails.now; first = λ w n. 0; limit = λ w n. 10; start = λ w n. record { number = n; fails = slice_index w.fails.now n; done = 0 }; IsAt = λ w n t p. p ≡ record { number = n; fails = slice_index w.fails.now n; done = t }; Passes = λ w n t. ¬ (slice_index w.fails.now n ≡ t); IsFailed = λ w n t p. p ≡ record { number = n; fails = slice_index w.fails.now n; done = t } } };

    fn span(&self, _number: u64) -> (u64, u64) {
        (0, TURNS)
    }

    fn fresh(&self, _alloc: Global, number: u64) -> Result<Run, WantOfMemory> {
        self.watch.made.fetch_add(1, SeqCst);
        Ok(Run {
            number,
            fails: self.fails[number as usize],
            done: 0,
        })
    }

    fn pass_over(&self, piece: &mut Run, turn: u64) -> u64 {
        let next = piece.fails.min(TURNS).min(turn.saturating_add(self.leap));
        piece.done = next;
        next
    }

    fn turn(&self, piece: &mut Run, turn: u64) -> bool {
        self.watch.pass(piece.number, turn);
        if piece.fails == turn {
            return false;
        }
        piece.done = turn + 1;
        true
    }
}

/// The next turn of a piece or, where it is over this one, this one, and whether it has failed by then.
fn told_piece(alloc: Global, held: &Held<Run>, most: u64) -> Result<String, Fail> {
    let is_so = held.piece.done == held.next && (!held.failed || held.next == held.piece.fails);
    let how = match (is_so, held.failed && held.next <= most) {
        (false, _) => "wrong",
        (true, true) => "failed",
        (true, false) => "going",
    };
    let turn = held.next.min(most);
    Ok(format!(in alloc; "{turn} {how}")?)
}

/// How many pieces a work has made, the least turn at which any fails, and each piece as far as this turn.
pub(crate) fn told_closed(
    alloc: Global,
    watch: &Watch,
    closed: &Closed<Run>,
    most: u64,
) -> Result<String, Fail> {
    let made = watch.made.load(SeqCst);
    let mut told = format!(in alloc; "made {made}, least {}", closed.least)?;
    for held in closed.pieces.iter() {
        add_with_comma(&mut told, &told_piece(alloc, held, most)?)?;
    }
    Ok(told)
}
