//! The letters and modal groups that a line has had.
ghost use Rattle.std.specs.Prelude.{◌≡◌, ◌<◌, ◌≤◌, ◌+◌, ◌++◌, ◌∷◌, [], length, take, List};
ghost use Rattle.std.specs.List.{list_any};
ghost use Rattle.mill_said.specs.Profile.{is_same_group};
ghost use Rattle.mill_said.specs.declared.groups.Group.{Group};

use std::marker::Model;

/// What a line may have once: a G or M word of a modal group (NISTIR 6556, 3.4), or a word of
/// another letter, whose group is 0.
#[derive(Clone, Copy)]
pub(crate) struct Group {
    pub letter: u8,
    pub number: u8,
}

/// The groups that a line has had, in place, of which there are at most 32.
#[derive(Drop)]
pub(crate) struct Groups {
    groups: [Group; 32],
    count: usize,
}

impl Model for Groups {
    ghost Value = { List Group };

    ghost view = { λ g. take g.count g.groups };

    ghost invariant = { λ g. g.count ≤ 32 };
}

impl Groups {
    pub fn new() -> Self
        ensures { result ≡ [] }
    {
        let none = Group {
            letter: 0,
            number: 0,
        };
        Groups {
            groups: [none; 32],
            count: 0,
        }
    }

    pub fn contains(&self, group: Group) -> bool
        ensures { result ≡ list_any (is_same_group group) self.now }
    {
        self.as_slice().iter().any(|had| is_same(group, *had))
    }

    fn as_slice(&self) -> &[Group]
        ensures { result.now ≡ self.now }
    {
        &self.groups[..self.count]
    }

    pub fn clear(&mut self)
        ensures { self.new ≡ [] }
    {
        self.count = 0;
    }

    pub fn push(&mut self, group: Group)
        requires { length self.old < 32 }
        ensures value { self.new ≡ self.old ++ group ∷ [] }
        ensures longer { length self.new ≤ length self.old + 1 }
    {
        self.groups[self.count] = group;
        self.count += 1;
    }
}

fn is_same(a: Group, b: Group) -> bool
    ensures { result ≡ is_same_group a b }
{
    a.letter == b.letter && a.number == b.number
}
