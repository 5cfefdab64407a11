ghost use Rattle.std.specs.Prelude.{◌≡◌, ◌+◌, ◌≤◌, ◌++◌, [], ◌∷◌, false, IsTrue, IfErr, OnOk};
ghost use Rattle.mill_paths.specs.Limits.{change_count, most_changes, IsListFault};

use crate::fault::PathFault;
use mill_links::Visit;
use std::alloc::Global;

/// The most visits that differ from the one before them.
const MOST_CHANGES: u32 = 1_000_000;

/// Visits in their order, of which at most 1,000,000 differ from the one before them.
#[derive(Drop)]
pub(crate) struct VisitList {
    visits: Vec<Visit>,
    changes: u32,
    ghost counted: { changes ≡ change_count visits.items },
    ghost few: { changes ≤ most_changes },
}

impl VisitList {
    /// No visit.
    pub(crate) fn new(alloc: Global) -> VisitList
        ensures { result.visits.items ≡ [] }
    {
        VisitList {
            visits: Vec::new(alloc),
            changes: 0,
        }
    }

    /// Adds a visit at the end.
    pub(crate) fn push(&mut self, visit: Visit) -> Result<(), PathFault>
        ensures ok { OnOk result (self.new.visits.items ≡ self.old.visits.items ++ visit ∷ []) }
        ensures fault { IfErr result (IsListFault (self.old.visits.items ++ visit ∷ [])) }
    {
        let changes = self.changes + u32::from(self.is_changed_by(visit));
        if changes > MOST_CHANGES {
            return Err(PathFault::TooManyVisits);
        }
        self.visits.push(visit)?;
        self.changes = changes;
        Ok(())
    }

    /// Whether the visit would differ from the one before it.
    fn is_changed_by(&self, visit: Visit) -> bool
        ensures yes { IsTrue result
            → change_count (self.now.visits.items ++ visit ∷ []) ≡ change_count self.now.visits.items + 1 }
        ensures no { result ≡ false
            → change_count (self.now.visits.items ++ visit ∷ []) ≡ change_count self.now.visits.items }
    {
        match self.visits.last() {
            Some(last) => *last != visit,
            None => false,
        }
    }

    /// The visits.
    pub(crate) fn into_visits(self) -> Vec<Visit>
        ensures visits { result.items ≡ self.visits.items }
        ensures few { change_count result.items ≤ most_changes }
    {
        self.visits
    }
}
