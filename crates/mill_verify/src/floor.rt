ghost use Rattle.std.specs.Prelude.{◌≡◌, [], ◌∷◌, false, IsTrue};
ghost use Rattle.mill_verify.specs.inner.Firsts.{IsFloorEnd};
ghost use Rattle.mill_verify.specs.Tests.{IsOverFloor};

use mill_base::Move;
use mill_job::Job;

/// Test (i): the number of the first move with an end under the floor, else the number of moves.
pub fn floor_end(job: &Job, moves: &[Move]) -> usize
    ensures { IsFloorEnd job.now.fields moves.now result }
{
    for number in 0..moves.len() {
        if !is_over_floor(job, &moves[number]) {
            return number;
        }
    }
    moves.len()
}

/// Test (i) of one move: whether both its ends are at or over the job's floor.
pub fn is_over_floor(job: &Job, step: &Move) -> bool
    ensures yes { IsTrue result → IsOverFloor job.now.fields (step.now ∷ []) 0 }
    ensures no { result ≡ false → ¬ IsOverFloor job.now.fields (step.now ∷ []) 0 }
{
    if step.from.z < job.fields.floor {
        return false;
    }
    step.to.z >= job.fields.floor
}
