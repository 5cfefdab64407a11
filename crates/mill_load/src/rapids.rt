//! The moves of a program as the job's machine makes them.
ghost use Rattle.std.specs.Prelude.{◌≡◌, map};
ghost use Rattle.mill_base.specs.Motion.{bent};
ghost use Rattle.mill_job.specs.Habits.{run_by};

use mill_base::Move;
use mill_job::Rapids;

/// Makes of each move that was read the move that a machine with such rapids makes.
pub fn run_moves(rapids: Rapids, moves: &mut Vec<Move>)
    ensures { moves.new.items ≡ run_by rapids moves.old.items }
{
    match rapids {
        Rapids::Straight => {}
        Rapids::Axes => bend(moves),
    }
}

/// Makes doglegs of the rapids along two axes or more.
fn bend(moves: &mut [Move])
    ensures { moves.new ≡ map bent moves.old }
{
    for step in moves.iter_mut() {
        *step = step.bent();
    }
}
