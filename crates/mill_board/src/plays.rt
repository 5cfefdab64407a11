//! The steps of a seat: what each tells it, and how a seat is split.
use crate::rule::Slot;
use crate::view::View;
use crate::work::Work;
use atomic_table::{Play, Split};
use std::marker::PhantomData;

/// The step that draws a number and takes its slot.
pub struct Drawing<W> {
    of: PhantomData<W>,
}

impl<W: Work> Play<Slot<W>, View<W>> for Drawing<W> {
    ghost use Rattle.mill_board.specs.inner.Plays.{Draws};

    ghost then = { Draws W.means };
}

/// The step that gives a slot back.
pub struct Putting<W> {
    of: PhantomData<W>,
}

impl<W: Work> Play<Slot<W>, View<W>> for Putting<W> {
    ghost use Rattle.mill_board.specs.inner.Plays.{Puts};

    ghost then = { Puts W.means };
}

/// The step that looks at the least turn.
pub struct Looking<W> {
    of: PhantomData<W>,
}

impl<W: Work> Play<Slot<W>, View<W>> for Looking<W> {
    ghost use Rattle.mill_board.specs.inner.Plays.{Looks};

    ghost then = { Looks W.means };
}

/// The step that lowers the least turn.
pub struct Lowering<W> {
    of: PhantomData<W>,
}

impl<W: Work> Play<Slot<W>, View<W>> for Lowering<W> {
    ghost use Rattle.mill_board.specs.inner.Plays.{Lowers};

    ghost then = { Lowers W.means };
}

/// How a view is split.
pub struct Halving<W> {
    of: PhantomData<W>,
}

impl<W: Work> Split<View<W>> for Halving<W> {
    ghost use Rattle.mill_board.specs.Seats.{given_half, kept_half};

    ghost left = { kept_half };

    ghost right = { given_half };
}
