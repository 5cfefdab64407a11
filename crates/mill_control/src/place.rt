//! What is known of the tool's place, and which lines may come then.
ghost use Rattle.std.specs.Prelude.{◌≡◌};
ghost use Rattle.mill_control.specs.Places.{nowhere, other_length as other_length_of};
ghost use Rattle.mill_control.specs.Places.{other_zero as other_zero_of, raised as raised_of};
ghost use Rattle.mill_control.specs.Places.{may_park as may_park_at, parked as parked_of};
ghost use Rattle.mill_control.specs.Places.{unsure as unsure_of, height_allows, low_allows};
ghost use Rattle.mill_control.specs.Places.{across_allows, whole_allows, is_over, is_under};
ghost use Rattle.mill_control.specs.Places.{allows as allows_by, behind as behind_of};

/// What is known of the height of the tool's tip.
#[derive(Clone, Copy)]
pub enum Height {
    /// Nothing.
    Unknown,
    /// It is at or over the safe height, and at or over the height that is told.
    High,
    /// It is the height that is told.
    Known,
}

/// What is known of the tool's place. Nothing is known before the program.
#[derive(Clone, Copy)]
pub struct Place {
    /// Its x and y are those that are told.
    pub across: bool,
    pub height: Height,
}

/// What a line names of the place that it goes to.
#[derive(Clone, Copy)]
pub struct Naming {
    /// Its mode is a rapid's.
    pub rapid: bool,
    /// It is a hole or an arc: it comes only where all of the place is known.
    pub needs_place: bool,
    pub x: bool,
    pub y: bool,
    /// Whether its Z, if it has one, is at or over the safe height.
    pub z: Option<bool>,
}

impl Place {
    /// Before the first line.
    pub const NOWHERE: Place = Place {
        across: false,
        height: Height::Unknown,
    };

    /// The tool's length isn't what it was: a height that is known isn't any more.
    pub fn other_length(self) -> Self
        ensures { result ≡ other_length_of self }
    {
        Place {
            height: self.height.unsure(),
            ..self
        }
    }

    /// The tool, or the part's zero, isn't what it was: nor are x and y.
    pub fn other_zero(self) -> Self
        ensures { result ≡ other_zero_of self }
    {
        Place {
            across: false,
            height: self.height.unsure(),
        }
    }

    /// Behind the way straight up to the machine's place.
    pub fn raised(self) -> Self
        ensures { result ≡ raised_of self }
    {
        Place {
            height: Height::High,
            ..self
        }
    }

    /// Whether it may go across to the machine's place: `over` tells that the height that is told
    /// is at or over the safe one.
    pub fn may_park(self, over: bool) -> bool
        ensures { result ≡ may_park_at self.height over }
    {
        match self.height {
            Height::Unknown => false,
            Height::High => true,
            Height::Known => over,
        }
    }

    /// Behind the way across to the machine's place, and up to it or not.
    pub fn parked(self, up: bool) -> Self
        ensures { result ≡ parked_of self up }
    {
        Place {
            across: false,
            height: if up { Height::High } else { self.height },
        }
    }

    /// Whether a line may come that names this.
    pub fn allows(self, naming: Naming) -> bool
        ensures { result ≡ allows_by self naming }
    {
        (self.height_allows(naming) && self.low_allows(naming))
            && (self.across_allows(naming) && self.whole_allows(naming))
    }

    // By what is known of the height: straight up first, and no feed from one that is only high.
    fn height_allows(self, naming: Naming) -> bool
        ensures { result ≡ height_allows self.height naming }
    {
        match self.height {
            Height::Unknown => {
                (naming.rapid && naming.z.unwrap_or(false)) && !(naming.x || naming.y)
            }
            Height::High => naming.rapid,
            Height::Known => true,
        }
    }

    // Down only where x and y are known, and from a height that is only high straight down.
    fn low_allows(self, naming: Naming) -> bool
        ensures { result ≡ low_allows self naming }
    {
        let over = naming.z.unwrap_or(true);
        let high = matches!(self.height, Height::High);
        over || (self.across && !(high && (naming.x || naming.y)))
    }

    // Where x and y aren't known, both are named or none.
    fn across_allows(self, naming: Naming) -> bool
        ensures { result ≡ across_allows self naming }
    {
        self.across || ((naming.x && naming.y) || !(naming.x || naming.y))
    }

    // A hole and an arc come where all is known.
    fn whole_allows(self, naming: Naming) -> bool
        ensures { result ≡ whole_allows self naming }
    {
        !naming.needs_place || (self.across && matches!(self.height, Height::Known))
    }

    /// What is known behind such a line.
    pub fn behind(self, naming: Naming) -> Self
        ensures { result ≡ behind_of self naming }
    {
        Place {
            across: self.across || (naming.x && naming.y),
            height: match naming.z {
                Some(_) => Height::Known,
                None => self.height,
            },
        }
    }
}

impl Height {
    fn unsure(self) -> Self
        ensures { result ≡ unsure_of self }
    {
        match self {
            Height::Known => Height::Unknown,
            height => height,
        }
    }
}
