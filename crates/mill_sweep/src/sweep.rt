ghost use Rattle.std.specs.Prelude.{◌≡◌, MatchOption};
ghost use Rattle.mill_base.specs.Points.{point_tri};
ghost use Rattle.mill_base.specs.Ranges.{IsInRange, MoveInRange, TriInRange};
ghost use Rattle.mill_base.specs.Sizes.{IsCutter};
ghost use Rattle.mill_base.specs.Solids.{lifted};
ghost use Rattle.mill_sweep.specs.Lifted.{IsLiftedMove};
ghost use Rattle.mill_sweep.specs.Passing.{FailsAt, IsBlocked, Passes, PassesPoint};
ghost use Rattle.mill_sweep.specs.Sweeps.{IsPrepared};

use crate::halving::{first_on, triangle_at};
use crate::leaf::{Leaf, Span};
use crate::leaf_span::span_of_tip;
use crate::move_depth::depth;
use crate::solid::lift;
use mill_base::{Cutter, Move, Pt3, Solid, Tri};
use std::marker::Model;

/// A solid on a move, made ready to be tried against many triangles.
///
/// A contract sees the solid's cutter and the move of its tip.
#[derive(Drop)]
pub struct Sweep {
    prepared: Prepared,
}

impl Model for Sweep {
    ghost use Rattle.mill_sweep.specs.Sweeps.{Swept, IsPrepared};

    ghost Value = { Swept };

    ghost view = { λ sweep. record { cutter = sweep.prepared.cutter; move = sweep.prepared.step } };

    ghost invariant = { λ sweep. IsPrepared sweep.prepared };
}

impl Sweep {
    /// The solid on the tool's move.
    pub fn new(solid: Solid, step: &Move) -> Sweep
        requires { MoveInRange step.now }
        ensures { result ≡ record { cutter = solid.cutter; move = lifted solid step.now } }
    {
        Sweep {
            prepared: prepare(solid.cutter(), &lift(solid, step)),
        }
    }

    /// The leaf at which the move fails to pass the triangle, none exactly where the move passes.
    pub fn first_block(&self, tri: &Tri) -> Option<Leaf>
        requires { TriInRange tri.now }
        ensures { MatchOption result (Passes self.now.cutter self.now.move tri.now) (λ leaf. FailsAt self.now.cutter self.now.move tri.now leaf × IsBlocked self.now.cutter self.now.move tri.now leaf) }
    {
        first_on(&self.prepared, tri)
    }

    /// The leaf at which the move fails to pass the point, none exactly where the move passes.
    pub fn first_block_point(&self, point: Pt3) -> Option<Leaf>
        requires { IsInRange point }
        ensures { MatchOption result (PassesPoint self.now.cutter self.now.move point) (λ leaf. FailsAt self.now.cutter self.now.move (point_tri point) leaf × IsBlocked self.now.cutter self.now.move (point_tri point) leaf) }
    {
        self.first_block(&triangle_at(point))
    }
}

/// A cutter and a move, with what the tests of all triangles have in common: how often the move is
/// halved at most, and where the whole of it lies.
#[derive(Clone, Copy)]
pub(crate) struct Prepared {
    pub cutter: Cutter,
    pub step: Move,
    pub depth: u32,
    pub whole: Span,
}

/// The cutter and the move, with what their tests have in common.
pub(crate) fn prepare(cutter: Cutter, step: &Move) -> Prepared
    requires cutter_ok { IsCutter cutter }
    requires move_ok { IsLiftedMove step.now }
    ensures prepared { IsPrepared result }
    ensures cutter { result.cutter ≡ cutter }
    ensures step { result.step ≡ step.now }
{
    Prepared {
        cutter,
        step: *step,
        depth: depth(step),
        whole: span_of_tip(step, Leaf { d: 0, k: 0 }),
    }
}
