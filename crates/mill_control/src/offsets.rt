//! Under which length and which zero a program names its coordinates.
ghost use Rattle.std.specs.Prelude.{◌≡◌};
ghost use Rattle.mill_control.specs.Offsets.{same_length, is_offset as is_offset_length};
ghost use Rattle.mill_control.specs.Offsets.{same_offsets, height_fits, across_fits};
ghost use Rattle.mill_control.specs.Offsets.{may_name as may_name_by, named as named_by};

/// The tool length in force (NISTIR 6556, 3.5.15).
#[derive(Clone, Copy)]
pub enum ToolLength {
    /// That before the program: which one isn't known.
    Beginning,
    /// Behind `G49`.
    Cancelled,
    /// Behind a `G43` without `H`.
    Unnumbered,
    /// Behind a `G43` with `H`, whose number it is, in parts of 10^18.
    Numbered(i128),
}

/// What is in force.
#[derive(Clone, Copy)]
pub struct Offsets {
    pub length: ToolLength,
    /// The part's zero (NISTIR 6556, 3.5.13): ten times the number of its word, 540 for `G54`, and
    /// 0 for that before the program, which isn't known.
    pub zero: u16,
}

/// What the first coordinates were named under, if one was.
#[derive(Clone, Copy)]
pub struct Named {
    /// The first Z or R.
    pub height: Option<Offsets>,
    /// The first X or Y: its zero.
    pub across: Option<u16>,
}

impl ToolLength {
    pub fn is_same(self, other: ToolLength) -> bool
        ensures { result ≡ same_length self other }
    {
        match (self, other) {
            (ToolLength::Beginning, ToolLength::Beginning) => true,
            (ToolLength::Cancelled, ToolLength::Cancelled) => true,
            (ToolLength::Unnumbered, ToolLength::Unnumbered) => true,
            (ToolLength::Numbered(one), ToolLength::Numbered(two)) => one == two,
            _ => false,
        }
    }

    /// Whether a `G43` is in force.
    pub fn is_offset(self) -> bool
        ensures { result ≡ is_offset_length self }
    {
        matches!(self, ToolLength::Unnumbered | ToolLength::Numbered(_))
    }
}

impl Offsets {
    /// Before the first line.
    pub const FIRST: Offsets = Offsets {
        length: ToolLength::Beginning,
        zero: 0,
    };

    fn is_same(self, other: Offsets) -> bool
        ensures { result ≡ same_offsets self other }
    {
        self.length.is_same(other.length) && self.zero == other.zero
    }
}

impl Named {
    /// Before the first line.
    pub const NONE: Named = Named {
        height: None,
        across: None,
    };

    /// Whether a line may come under these that names a height, or a place across.
    pub fn allows(self, offsets: Offsets, height: bool, across: bool) -> bool
        ensures { result ≡ may_name_by self offsets height across }
    {
        (!height || self.height_fits(offsets)) && (!across || self.across_fits(offsets))
    }

    fn height_fits(self, offsets: Offsets) -> bool
        ensures { result ≡ height_fits self.height offsets }
    {
        match self.height {
            None => true,
            Some(first) => first.is_same(offsets),
        }
    }

    fn across_fits(self, offsets: Offsets) -> bool
        ensures { result ≡ across_fits self.across offsets }
    {
        match self.across {
            None => true,
            Some(first) => first == offsets.zero,
        }
    }

    /// What the first ones were named under, behind such a line.
    pub fn behind(self, offsets: Offsets, height: bool, across: bool) -> Self
        ensures { result ≡ named_by self offsets height across }
    {
        Named {
            height: if height { Some(offsets) } else { self.height },
            across: if across {
                Some(offsets.zero)
            } else {
                self.across
            },
        }
    }
}
