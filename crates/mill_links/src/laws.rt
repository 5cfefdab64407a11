ghost use Rattle.mill_links.specs.Safety.{HeadIsSafe, LinkIsSafe, TourIsSafe, WayHomeIsSafe};

/// What a program begins with stays at home safely, where what the tool has to keep off stays under
/// the clear height by as much as the cutter with the slack around it reaches under its tip.
pub fn head_is_safe()
    ensures { HeadIsSafe }
{}

/// From where the cutter is, a link to a free place goes there safely: its moves lead on from each
/// other, and stay in the unit's range and over the floor; on each of them the cutter, and its holder if
/// it has one, passes the part; its rapids pass every column, and its feeds cut none deeper than the job
/// allows.
pub fn link_is_safe()
    ensures { LinkIsSafe }
{}

/// So does a tour of free places.
pub fn tour_is_safe()
    ensures { TourIsSafe }
{}

/// And so does the way home.
pub fn way_home_is_safe()
    ensures { WayHomeIsSafe }
{}
