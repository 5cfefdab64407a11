//! What a reader asks of a program beside what its words mean, and which words it takes.

/// Which words a reader takes.
#[derive(Clone, Copy)]
pub enum Words {
    /// Those of a short table, which each control reads alike.
    Strict,
    /// Those of programs for machines, as this control reads them.
    Machine(Control),
}

/// What is known of the machine's control.
#[derive(Clone, Copy)]
pub struct Control {
    /// Whether numbers finer than the grid are rounded to the nearest unit.
    pub rounds: bool,
    /// The greatest tolerance of the path that a program may ask for, in units.
    pub path_tolerance: i32,
    /// By how many units the distances of an arc's start and end from its centre may differ: 1 to
    /// 100.
    pub arc_tolerance: u8,
    /// How many units of the slack arcs leave for the machine. Where that is under 0 there is no
    /// room for arcs.
    pub arc_room: i32,
    /// The least distance over the depth before at which a peck's way down ends, in units: 0 to
    /// 10,000.
    pub peck_clearance: u16,
    /// Whether all tool lengths are one: `G43` and `G49` change nothing.
    pub one_length: bool,
    /// Whether a change of the tool leaves the tip at or over the safe height.
    pub change_raises: bool,
}

/// What a reader asks of a program beside what its words mean, and which words it takes. A line
/// that doesn't keep to it is refused.
#[derive(Clone, Copy)]
pub struct Rules {
    /// The tool may stand anywhere before the program. So the first line with an axis word has to
    /// take it straight up, by a rapid with Z alone, to the height of the reader's start or over
    /// it, and the second one across, by a rapid with X and Y both and no Z. The moves begin where
    /// that one ends: both are moves of length 0 there, and a program without the second one has
    /// none.
    pub from_anywhere: bool,
    /// A feed has to come with what it needs: M3 or M4 in force, the last S over 0, and the last F
    /// over 0. M5 and M6 stop the spindle.
    pub needs_spindle: bool,
    /// Which words the program may have. With a machine's the way to its first place is theirs.
    pub words: Words,
}

impl Rules {
    /// Nothing beside.
    pub const NONE: Rules = Rules {
        from_anywhere: false,
        needs_spindle: false,
        words: Words::Strict,
    };
}
