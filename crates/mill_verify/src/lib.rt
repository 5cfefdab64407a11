//! The verdict on a program, or on several in turn on one stock: the first written test that
//! fails, or acceptance.
//!
//! It stands on `mill_part`, `mill_gouge`, `mill_dexel`, `mill_crew`, `mill_board` and `mill_job`. It
//! promises that the answer is the verdict, whatever the crew, and that there is at most one; that
//! an accepted program cuts safely at every fraction of every move; and that a rejected move is
//! blocked at the leaf that is named. Definitions: `specs/Tests`, `specs/Fixtures`,
//! `specs/Verdicts`, `specs/Claims`; of programs in turn `specs/Files`, `specs/Lists`,
//! `specs/ListClaims`; of the way to the first place `specs/Starts`, of a machine that goes by
//! a text's own numbers `specs/TextTips`. Blocks of moves and rows of the stock are pieces of one
//! work that a crew shares (`work`, `crew`).
#![tactic(auto)]

mod block;
mod clash;
mod crew;
mod failure;
mod file;
mod fixture;
mod floor;
mod laws;
mod left;
mod list;
mod moves;
mod piece;
mod program;
mod start;
mod stock;
mod verdict;
mod work;

pub use block::Block;
pub use clash::{Clash, first_clash};
pub use failure::{clash_reason, stock_reason};
pub use file::CutFile;
pub use fixture::FixtureHit;
pub use floor::is_over_floor;
pub use laws::{
    alone_is_verdict, between_is_safe, one_list_verdict, one_verdict, plain_is_plain,
    start_is_safe, text_tip_is_real,
};
pub use list::{ListVerdict, MAX_FILES, verify_list};
pub use program::{verdict_on_stock, verify};
pub use verdict::{Reason, Verdict};
