use crate::work::Terms;
use std::collections::LinkedList;

/// What is known of a seat. It stands in contracts alone: no value of it is ever made.
pub struct View<W> {
    /// The numbers of pieces that it has drawn, in their order.
    pub drawn: LinkedList<u64>,
    /// The least turn that it has looked at or lowered to.
    pub seen: u64,
    /// The number that it drew when no piece was left, and at which it has ended.
    pub ended: Option<u64>,
    /// How often it can be split, and how often the seats that are split from it can draw in vain. It
    /// keeps the number that is drawn next from wrapping.
    pub spare: u64,
    /// The number of the piece that it has out.
    pub out: Option<u64>,
    /// The work, and how many turns there are: the same in all views of a board.
    pub terms: Terms<W>,
}
