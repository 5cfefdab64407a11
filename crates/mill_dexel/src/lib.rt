//! The stock as rows of columns (dexels): the top of each column after the moves so far.
//!
//! It stands on `mill_shape`, `mill_sweep`, `mill_sampling` and `mill_job`. Tops are lowered
//! exactly as `specs/Tops` says; the first column that a rapid would cut, or a feed too deep, or
//! that the holder would touch, is named, and blocks the move (`specs/Rows`). Over a top
//! everything up to the uncut stock is removed, and what a move passes is left (`specs/Laws`).
//! `specs/Turns` is what becomes of a row in a program, `specs/Stocks` of a whole stock. A row
//! goes at once over moves that stay far away from it.
#![tactic(auto)]

mod band;
mod bands;
mod chord;
mod cut;
mod fail;
mod laws;
mod reach;
mod row;
mod rows;
mod sample;
mod stock;
mod turns;

pub use bands::Bands;
pub use fail::{RowFail, RowTest};
pub use laws::{
    cut_at_end, over_top_is_removed, passed_is_left, passes_after_cut, passes_limit_after_cut,
};
pub use row::Row;
pub use rows::{rows_static, share};
pub use sample::{Placed, halvings, sample_at};
pub use stock::{cut_rows, keeps_depth, uncut_rows};
pub use turns::one_outcome;
