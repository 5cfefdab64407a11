ghost use Rattle.std.specs.Prelude.{◌≡◌, ◌<◌, false, length, IsTrue, MatchOption};
ghost use Rattle.mill_verify.specs.Reasons.{clash_reason as reason_by_clash};
ghost use Rattle.mill_verify.specs.Reasons.{stock_reason as reason_by_stock};
ghost use Rattle.mill_verify.specs.declared.verdict.Reason.{Reason as Why};
ghost use Rattle.mill_verify.specs.inner.Failures.{HasFailed, HasFailedBy, IsFirstFailed, IsFirstFailedBy, IsReasonOf, NoneFailed, NoneFailedBy, test_of as its_test};

use crate::clash::Clash;
use crate::fixture::FixtureHit;
use crate::piece::Piece;
use crate::verdict::Reason;
use mill_base::Kind;
use mill_board::Held;
use mill_dexel::RowTest;
use mill_gouge::Gouge;
use mill_sweep::Leaf;

/// The number of the first piece that has failed at this turn; none where none has.
///
/// The holder's test of a move by the stock comes after all others of the move, so a row that has failed
/// it alone comes after all other pieces.
pub fn first_failed(pieces: &[Held<Piece>], turn: u64) -> Option<usize>
    ensures { MatchOption result (NoneFailed turn pieces.now (length pieces.now)) (IsFirstFailed turn pieces.now) }
{
    match first_failed_by(pieces, turn, RowTest::Cut) {
        Some(number) => Some(number),
        None => first_failed_by(pieces, turn, RowTest::Holder),
    }
}

/// The number of the first piece that has failed at this turn as a row by the holder's test, or, where
/// `test` is the cutter's, in any other way; none where none has.
fn first_failed_by(pieces: &[Held<Piece>], turn: u64, test: RowTest) -> Option<usize>
    ensures { MatchOption result (NoneFailedBy test turn pieces.now (length pieces.now)) (IsFirstFailedBy test turn pieces.now) }
{
    for number in 0..pieces.len() {
        if has_failed_by(&pieces[number], turn, test) {
            return Some(number);
        }
    }
    None
}

/// Whether a piece has failed so at this turn.
fn has_failed_by(held: &Held<Piece>, turn: u64, test: RowTest) -> bool
    ensures yes { IsTrue result → HasFailedBy test turn held.now }
    ensures no { result ≡ false → ¬ HasFailedBy test turn held.now }
{
    if !has_failed(held, turn) {
        return false;
    }
    test_of(&held.piece) == test
}

/// Whether a piece has failed at this turn.
fn has_failed(held: &Held<Piece>, turn: u64) -> bool
    ensures yes { IsTrue result → HasFailed turn held.now }
    ensures no { result ≡ false → ¬ HasFailed turn held.now }
{
    held.failed && held.next == turn
}

/// The holder's test for a row that has failed it, and the cutter's for all other pieces.
fn test_of(piece: &Piece) -> RowTest
    ensures { result ≡ its_test piece.now }
{
    match piece {
        Piece::Block { .. } => RowTest::Cut,
        Piece::Stock { number: _, row } => match row.failed() {
            Some(fail) => fail.test,
            None => RowTest::Cut,
        },
    }
}

/// Why a piece has failed at a move of this kind: a block at a triangle or at a fixture, and a row
/// of the stock, which come after so many blocks, at a column.
pub fn reason_of(held: &Held<Piece>, kind: Kind, blocks: u64) -> Reason
    requires { (reason : Why) × IsReasonOf kind blocks held.now.next held.now.piece reason }
    ensures { IsReasonOf kind blocks held.now.next held.now.piece result }
{
    match &held.piece {
        Piece::Block { number: _, block } => match block.failed() {
            Some(clash) => clash_reason(held.next, clash),
            None => unreachable!(),
        },
        Piece::Stock { number, row } => match row.failed() {
            Some(fail) => {
                let number = (*number - blocks) as u32;
                stock_reason(fail.test, kind, held.next, number, fail.col, fail.leaf)
            }
            None => unreachable!(),
        },
    }
}

/// The reason for which move `at` is rejected that fails the tests against part and fixtures so.
pub fn clash_reason(at: u64, clash: Clash) -> Reason
    ensures { result ≡ reason_by_clash at clash }
{
    match clash {
        Clash::Cutter(Gouge { tri, leaf }) => Reason::Gouge { at, tri, leaf },
        Clash::Holder(Gouge { tri, leaf }) => Reason::Holder { at, tri, leaf },
        Clash::Fixture(FixtureHit { fixture, leaf }) => Reason::Fixture { at, fixture, leaf },
        Clash::HolderFixture(FixtureHit { fixture, leaf }) => {
            Reason::HolderFixture { at, fixture, leaf }
        }
    }
}

/// The reason for which move `at`, of this kind, is rejected that fails this test by the stock at
/// column `col` of row `row`, at this leaf.
pub fn stock_reason(test: RowTest, kind: Kind, at: u64, row: u32, col: u32, leaf: Leaf) -> Reason
    ensures { result ≡ reason_by_stock test kind at row col leaf }
{
    match test {
        RowTest::Holder => Reason::HolderStock { at, row, col, leaf },
        RowTest::Cut => match kind {
            Kind::Rapid => Reason::Rapid { at, row, col, leaf },
            Kind::Feed => Reason::Cut { at, row, col, leaf },
            Kind::Dogleg => Reason::Rapid { at, row, col, leaf },
        },
    }
}
