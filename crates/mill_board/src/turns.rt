ghost use Rattle.std.specs.Prelude.{◌≡◌, ◌+◌, ◌<◌, ◌≤◌, ◌⊎◌, IfOk, false, true};
ghost use Rattle.mill_board.specs.Works.{IsTrueHeld, started};
ghost use Rattle.mill_board.specs.inner.Turns.{Turned};

use crate::work::{Held, Work};
use mill_base::WantOfMemory;
use std::alloc::Global;

/// Takes on a held piece, whose next turn lies under this limit of its span: over turns that are known to
/// pass or, where there are none, by that one turn.
pub fn move_on<W: Work>(work: &W, held: &mut Held<W::Piece>, limit: u64)
    requires held { IsTrueHeld W.means work.now held.old }
    requires going { held.old.failed ≡ false }
    requires limit { limit ≡ W.means.limit work.now held.old.number }
    requires more { held.old.next < limit }
    ensures held { IsTrueHeld W.means work.now held.new }
    ensures turned { Turned held.old held.new }
{
    let next = work.pass_over(&mut held.piece, held.next);
    if next > held.next {
        held.next = next;
    } else if work.turn(&mut held.piece, held.next) {
        held.next += 1;
    } else {
        held.failed = true;
    }
}

/// The piece of this number, with no turn done.
pub fn start<W: Work>(alloc: Global, work: &W, number: u64) -> Result<Held<W::Piece>, WantOfMemory>
    requires number { number < W.means.pieces work.now }
    requires span { W.means.first work.now number ≤ W.means.limit work.now number }
    ensures held { IfOk result (λ held. held ≡ started W.means work.now number) }
    ensures is_true { IfOk result (IsTrueHeld W.means work.now) }
{
    let (next, _) = work.span(number);
    let piece = work.fresh(alloc, number)?;
    Ok(Held {
        number,
        piece,
        next,
        failed: false,
    })
}
