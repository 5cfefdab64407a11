//! What a program for a machine has settled beside, and what is known of the tool's place.
ghost use Rattle.std.specs.Prelude.{◌≡◌, IsTrue, Some, true};
ghost use Rattle.mill_control.specs.declared.place.Height.TheVariants.{Known};
ghost use Rattle.mill_block.specs.MachineSettings.{nothing_finer};
ghost use Rattle.mill_block.specs.inner.PlainMoves.{IsSettled};

use mill_control::{Cycle, Height, Named, Offsets, Place, Plane, Return, Series, Turn};

/// What the text's own place has beside the units of the list's, in parts of 10^18 of a unit: half
/// of one at most.
#[derive(Clone, Copy)]
pub(crate) struct Finer {
    pub x: i64,
    pub y: i64,
    pub z: i64,
}

impl Finer {
    /// It is a whole number of units.
    pub const NOTHING: Finer = Finer { x: 0, y: 0, z: 0 };

    fn is_nothing(self) -> bool
        ensures { IsTrue result → self ≡ nothing_finer }
    {
        self.x == 0 && self.y == 0 && self.z == 0
    }
}

/// What the lines of a program for a machine have settled, beside what all programs settle.
#[derive(Clone, Copy)]
pub(crate) struct Machine {
    /// Lengths are inches.
    pub inches: bool,
    /// Coordinates are incremental.
    pub incremental: bool,
    /// The drilling cycle that is the motion mode.
    pub cycle: Option<Cycle>,
    /// The way round of the arcs that are the motion mode.
    pub turn: Option<Turn>,
    /// Their plane.
    pub plane: Plane,
    /// A tolerance of the path is in force that is wider than arcs have room for.
    pub wide_path: bool,
    pub series: Option<Series>,
    pub returns: Option<Return>,
    /// What is known of the tool's place.
    pub place: Place,
    /// What the text's own place has beside the units of the list's.
    pub finer: Finer,
    /// What is in force.
    pub offsets: Offsets,
    /// What the first coordinates were named under.
    pub named: Named,
    /// A coordinate has been named, by a rapid straight up to the safe height under no tool length
    /// aside.
    pub has_named: bool,
    /// A tool has been selected or changed since.
    pub late: bool,
    /// How many lines wait for the first whole place: each is a move of length 0 there.
    pub waiting: u64,
}

impl Machine {
    /// Before the first line.
    pub const BEGUN: Machine = Machine {
        inches: false,
        incremental: false,
        cycle: None,
        turn: None,
        plane: Plane::Xy,
        wide_path: false,
        series: None,
        returns: None,
        place: Place::NOWHERE,
        finer: Finer::NOTHING,
        offsets: Offsets::FIRST,
        named: Named::NONE,
        has_named: false,
        late: false,
        waiting: 0,
    };

    /// Whether a line that is only a move changes nothing of this, and breaks no rule of it. It is
    /// kept apart, since no program of strict words has to ask.
    #[inline(never)]
    pub fn is_settled(&self) -> bool
        ensures { IsTrue result → IsSettled self.now }
    {
        !self.inches
            && self.cycle.is_none()
            && self.turn.is_none()
            && self.series.is_none()
            && self.has_named
            && !self.late
            && is_known(self.place)
            && self.finer.is_nothing()
            && is_named_under(self.named, self.offsets)
    }
}

// Whether all of the place is known.
fn is_known(place: Place) -> bool
    ensures { IsTrue result → place ≡ record { across = true; height = Known } }
{
    place.across && matches!(place.height, Height::Known)
}

// Whether heights and places across were first named under what is in force.
fn is_named_under(named: Named, offsets: Offsets) -> bool
    ensures { IsTrue result →
        named ≡ record { height = Some offsets; across = Some offsets.zero } }
{
    let Some(height) = named.height else {
        return false;
    };
    let Some(across) = named.across else {
        return false;
    };
    are_same(height, offsets) && across == offsets.zero
}

// Whether these are the same length and the same zero.
fn are_same(one: Offsets, other: Offsets) -> bool
    ensures { IsTrue result → one ≡ other }
{
    one.length.is_same(other.length) && one.zero == other.zero
}
