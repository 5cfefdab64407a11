ghost use Rattle.mill_base.specs.Contact.{HoldsOver};

/// A law: a cutter that strictly holds a whole point holds every point straight over it.
pub fn holds_over()
    ensures { HoldsOver }
{}
