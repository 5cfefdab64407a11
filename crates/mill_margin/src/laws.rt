ghost use Rattle.mill_margin.specs.Laws.{GrownHolds, ShrunkIsHeld, InsideIsHeld};
ghost use Rattle.mill_margin.specs.Nearby.{NearBentIsNear, NearTextIsNear};

/// A law: what a solid holds wherever the tool's tip is within a margin of a place, the solid grown
/// by the margin holds with the tip at that place.
pub fn grown_holds()
    ensures { GrownHolds }
{}

/// A law: what a solid shrunk by a margin holds with the tool's tip at a place, the solid holds
/// wherever the tip is within the margin of that place.
pub fn shrunk_is_held()
    ensures { ShrunkIsHeld }
{}

/// A law: what a solid holds, each solid in which it lies holds with the tool's tip at that place.
pub fn inside_is_held()
    ensures { InsideIsHeld }
{}

/// A law: a place within a margin of a tip of a text's own way is, as much more allowed as rounding
/// takes, within that margin of a tip of the move between the rounded ends.
///
/// Rounding takes three units, and nothing where nothing is rounded. The tip of a dogleg may be
/// anywhere in the box of its two ends, and of any other move on the straight way between them.
pub fn near_text_is_near()
    ensures { NearTextIsNear }
{}

/// A law: so it is where the axes run apart on rapids, and each rapid along two axes or more is a
/// dogleg: the text's way by its own ends, the move by the rounded ones.
///
/// So one of them may be a dogleg where the other isn't.
pub fn near_bent_is_near()
    ensures { NearBentIsNear }
{}
