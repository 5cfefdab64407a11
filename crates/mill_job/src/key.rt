ghost use Rattle.std.specs.Prelude.{◌≡◌, Some};
ghost use Rattle.mill_job.specs.Keys.{name_of};

use std::fmt;

/// A key of a job's document, or of a list of steps.
#[derive(Clone, Copy, Debug, PartialEq, Eq)]
pub enum Key {
    Unit,
    Cutter,
    Radius,
    Rise,
    Run,
    Floor,
    Top,
    Clear,
    Area,
    Home,
    Pitch,
    Sample,
    Allowance,
    Band,
    Lift,
    Raster,
    RoughRaster,
    Layer,
    RoughStock,
    Levels,
    Snap,
    MaxCut,
    HolderRadius,
    Stickout,
    PathTol,
    Slack,
    Overcut,
    Graze,
    KeepOut,
    Rapids,
    Start,
    Spindle,
    Words,
    PeckClearance,
    Lengths,
    ArcTol,
    /// The key of a list.
    Steps,
    /// A key of each of its steps, beside those of the cutter.
    Program,
    /// What a plan would feed with. No document names it yet, so no plan is made for a job whose
    /// programs have to.
    Feed,
}

/// The keys of a job's document, in the format's order.
pub const JOB_KEYS: [Key; 36] = [
    Key::Unit,
    Key::Cutter,
    Key::Radius,
    Key::Rise,
    Key::Run,
    Key::Floor,
    Key::Top,
    Key::Clear,
    Key::Area,
    Key::Home,
    Key::Pitch,
    Key::Sample,
    Key::Allowance,
    Key::Band,
    Key::Lift,
    Key::Raster,
    Key::RoughRaster,
    Key::Layer,
    Key::RoughStock,
    Key::Levels,
    Key::Snap,
    Key::MaxCut,
    Key::HolderRadius,
    Key::Stickout,
    Key::PathTol,
    Key::Slack,
    Key::Overcut,
    Key::Graze,
    Key::KeepOut,
    Key::Rapids,
    Key::Start,
    Key::Spindle,
    Key::Words,
    Key::PeckClearance,
    Key::Lengths,
    Key::ArcTol,
];

impl Key {
    /// The key as it stands in a document.
    pub fn name(self) -> &'static str
        ensures { result.now ≡ name_of self }
    {
        match self {
            Key::Unit => "unit",
            Key::Cutter => "cutter",
            Key::Radius => "radius",
            Key::Rise => "rise",
            Key::Run => "run",
            Key::Floor => "floor",
            Key::Top => "top",
            Key::Clear => "clear",
            Key::Area => "area",
            Key::Home => "home",
            Key::Pitch => "pitch",
            Key::Sample => "sample",
            Key::Allowance => "allowance",
            Key::Band => "band",
            Key::Lift => "lift",
            Key::Raster => "raster",
            Key::RoughRaster => "rough_raster",
            Key::Layer => "layer",
            Key::RoughStock => "rough_stock",
            Key::Levels => "levels",
            Key::Snap => "snap",
            Key::MaxCut => "max_cut",
            Key::HolderRadius => "holder_radius",
            Key::Stickout => "stickout",
            Key::PathTol => "path_tol",
            Key::Slack => "slack",
            Key::Overcut => "overcut",
            Key::Graze => "graze",
            Key::KeepOut => "keep_out",
            Key::Rapids => "rapids",
            Key::Start => "start",
            Key::Spindle => "spindle",
            Key::Words => "words",
            Key::PeckClearance => "peck_clearance",
            Key::Lengths => "lengths",
            Key::ArcTol => "arc_tol",
            Key::Steps => "steps",
            Key::Program => "program",
            Key::Feed => "feed",
        }
    }
}

/// Shows the key as it stands in a document.
impl fmt::Display for Key {
    ghost output = { λ key. Some (name_of key) };

    fn fmt<W: fmt::Write>(&self, f: &mut fmt::Formatter<W>) -> fmt::Result {
        f.write_str(self.name())
    }
}
