ghost use Rattle.std.specs.Prelude.{◌≡◌};
ghost use Rattle.mill_job.specs.Habits.{are_for_machine, is_elsewhere, made_by};

use mill_base::Move;

/// How a machine moves its rapids.
#[derive(Clone, Copy, Debug, PartialEq, Eq)]
pub enum Rapids {
    /// Straight, as its feeds.
    Straight,
    /// Each axis at a speed of its own: the tip may be anywhere in the box of a rapid's two ends.
    Axes,
}

impl Rapids {
    /// The move as a machine with such rapids makes it.
    pub fn made(self, step: Move) -> Move
        ensures { result ≡ made_by self step }
    {
        match self {
            Rapids::Straight => step,
            Rapids::Axes => step.bent(),
        }
    }
}

/// From where a program starts.
#[derive(Clone, Copy, Debug, PartialEq, Eq)]
pub enum Start {
    /// From over home, at the clear height.
    Home,
    /// From wherever the tip is: it goes straight up or down to the clear height or over it, and
    /// then across.
    Anywhere,
    /// From where the machine changes its tools.
    Change,
}

impl Start {
    /// Whether a program may start from elsewhere than over home.
    pub fn is_elsewhere(self) -> bool
        ensures { result ≡ is_elsewhere self }
    {
        match self {
            Start::Home => false,
            Start::Anywhere | Start::Change => true,
        }
    }
}

/// Which words programs have.
#[derive(Clone, Copy, Debug, PartialEq, Eq)]
pub enum Words {
    /// Those of a short table, which each control reads alike.
    Strict,
    /// Those that machines' programs have.
    Machine,
}

impl Words {
    /// Whether they are a machine's.
    pub fn are_for_machine(self) -> bool
        ensures { result ≡ are_for_machine self }
    {
        match self {
            Words::Strict => false,
            Words::Machine => true,
        }
    }
}

/// What a machine does with the lengths of its tools.
#[derive(Clone, Copy, Debug, PartialEq, Eq)]
pub enum ToolLengths {
    /// It has a table of them, and `G43` takes one from it.
    Table,
    /// Each tool is touched off by itself: `G43` and `G49` change nothing.
    One,
}
