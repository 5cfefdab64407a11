use crate::solid::Solid;

/// A cutter and, where it counts, its holder, each as a solid. The tool is located by its tip.
#[derive(Clone, Copy, Debug, PartialEq, Eq)]
pub struct Tool {
    /// What cuts.
    pub cutter: Solid,
    /// What is over it.
    pub holder: Option<Solid>,
}

impl Tool {
    ghost use Rattle.std.specs.Prelude.{◌≡◌};
    ghost use Rattle.mill_base.specs.Tools.{bare};

    /// The cutter alone.
    pub fn bare(cutter: Solid) -> Tool
        ensures { result ≡ bare cutter }
    {
        Tool {
            cutter,
            holder: None,
        }
    }
}
