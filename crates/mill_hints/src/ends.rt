ghost use Rattle.std.specs.Prelude.{◌≡◌, ◌≤◌};

use mill_base::WantOfMemory;
use std::alloc::Global;

/// How many touches at most are tried near an aim.
const MOST_PROBES: u32 = 4;

/// How far from its place an end is expected that was found once, in units, and one that was found
/// twice.
const UNSURE: i32 = 4;

const SURE: i32 = 1;

/// Where the ends of each triangle's stretch were found last: for pushes along fibers that lie side by
/// side. An end moves nearly evenly from one fiber to the next, so a push that knows where it was takes
/// fewer touches.
///
/// It tells only where to look first: whatever it holds, a push finds the same runs, and takes no more
/// touches than it may.
#[derive(Drop)]
pub struct Ends {
    /// The number of the push.
    turn: u32,
    marks: Vec<Mark>,
}

/// The ends of a triangle's stretch.
#[derive(Clone, Copy)]
struct Mark {
    first: End,
    last: End,
}

/// The push that found an end last, where it did, how far that is from where the push before it found
/// the end, and where the end is expected in the push that follows.
#[derive(Clone, Copy)]
struct End {
    turn: u32,
    place: i32,
    moved: i32,
    next: Aim,
}

/// Where an end is expected, and how far from there it may well be: 0 where nothing is expected.
#[derive(Clone, Copy)]
pub struct Aim {
    pub at: i32,
    pub stride: i32,
}

/// Where the two ends of a stretch are expected, and how many touches near each place are tried before
/// a search by halves.
#[derive(Clone, Copy)]
pub struct Aims {
    pub first: Aim,
    pub last: Aim,
    pub probes: u32,
}

impl Ends {
    /// A memory for a part of so many triangles, which knows nothing yet. The only error is want of
    /// memory.
    pub fn new(alloc: Global, count: usize) -> Result<Ends, WantOfMemory> {
        let end = End {
            turn: 0,
            place: 0,
            moved: 0,
            next: Aim::none(),
        };
        let mark = Mark {
            first: end,
            last: end,
        };
        let marks = vec![in alloc; mark; count]?;
        Ok(Ends { turn: 1, marks })
    }

    /// A memory that keeps nothing.
    pub fn none(alloc: Global) -> Ends {
        Ends {
            turn: 1,
            marks: Vec::new(alloc),
        }
    }

    /// Lets the next push begin anew: its fiber isn't beside that of the last one.
    pub fn forget(&mut self) {
        self.next_turn();
    }

    /// Begins a push. After 2^32 of them the numbers begin again.
    pub fn next_turn(&mut self) {
        self.turn = self.turn.wrapping_add(1);
    }

    /// Where the ends of the stretch of the triangle of this number are expected.
    pub fn aims(&self, number: u32) -> Aims {
        let Some(mark) = self.marks.get(number as usize) else {
            return Aims::none();
        };
        Aims {
            first: mark.first.aim(self.turn),
            last: mark.last.aim(self.turn),
            probes: MOST_PROBES,
        }
    }

    /// Keeps where the first end of the stretch of the triangle of this number was found.
    pub fn keep_first(&mut self, number: u32, place: i32) {
        let number = number as usize;
        if number < self.marks.len() {
            let Mark { first, last } = self.marks[number];
            let first = first.found_at(place, self.turn);
            self.marks[number] = Mark { first, last };
        }
    }

    /// Keeps where its last end was found.
    pub fn keep_last(&mut self, number: u32, place: i32) {
        let number = number as usize;
        if number < self.marks.len() {
            let Mark { first, last } = self.marks[number];
            let last = last.found_at(place, self.turn);
            self.marks[number] = Mark { first, last };
        }
    }
}

impl End {
    /// Where it is expected in the push of this number.
    fn aim(self, turn: u32) -> Aim {
        if self.turn.wrapping_add(1) == turn {
            self.next
        } else {
            Aim::none()
        }
    }

    /// The end, which the push of this number found at this place.
    fn found_at(self, place: i32, turn: u32) -> End {
        let aim = self.aim(turn);
        if aim.is_none() {
            return End {
                turn,
                place,
                moved: 0,
                next: Aim {
                    at: place,
                    stride: UNSURE,
                },
            };
        }
        let moved = place.saturating_sub(self.place);
        let before = if aim.stride == SURE {
            self.moved
        } else {
            moved
        };
        End {
            turn,
            place,
            moved,
            next: Aim {
                at: place.saturating_add(next_move(before, moved)),
                stride: SURE,
            },
        }
    }
}

/// How far an end is expected to move that moved so far, and before that so far: as far again, and as
/// much farther. A difference of one or two units mostly comes from the rounding to whole positions, and
/// a great one is a leap.
fn next_move(before: i32, moved: i32) -> i32 {
    let bend = moved.saturating_sub(before);
    let size = bend.unsigned_abs();
    if 2 < size && size < 20 {
        moved.saturating_add(bend)
    } else {
        moved
    }
}

impl Aim {
    /// Nothing is expected.
    pub fn none() -> Aim {
        Aim { at: 0, stride: 0 }
    }

    /// Whether nothing is expected.
    pub fn is_none(self) -> bool {
        self.stride == 0
    }

    /// The aim as a count of positions back from another one.
    pub fn back_from(self, found: i32) -> Aim {
        Aim {
            at: found.saturating_sub(self.at),
            stride: self.stride,
        }
    }

    /// The aim as a count of positions on from another one.
    pub fn on_from(self, found: i32) -> Aim {
        Aim {
            at: self.at.saturating_sub(found),
            stride: self.stride,
        }
    }
}

impl Aims {
    /// Nothing is expected.
    pub fn none() -> Aims
        ensures { result.probes ≡ 0 }
    {
        Aims {
            first: Aim::none(),
            last: Aim::none(),
            probes: 0,
        }
    }

    /// The same aims, with at most so many touches near each.
    pub fn at_most(self, most: u32) -> Aims
        ensures { result.probes ≤ most }
    {
        Aims {
            first: self.first,
            last: self.last,
            probes: self.probes.min(most),
        }
    }

    /// Halfway between the two, if both are expected.
    pub fn middle(self) -> Option<i32> {
        if self.first.is_none() || self.last.is_none() {
            return None;
        }
        Some(self.first.at.saturating_add(self.last.at) / 2)
    }
}
