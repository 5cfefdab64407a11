//! Why there is no surface.
ghost use Rattle.std.specs.Prelude.{◌≡◌};
ghost use Rattle.mill_surface.specs.declared.fault.SurfaceFault.TheVariants.{WantOfMemory};

use thiserror::Error;

/// Why there is no surface.
#[derive(Clone, Copy, Debug, PartialEq, Eq, Error)]
pub enum SurfaceFault {
    /// It has more than 200,000 triangles.
    #[error("a surface of {count} triangles: more than 200,000")]
    TooManyTriangles {
        /// How many it has.
        count: u64,
    },
    /// There was not enough memory.
    #[error("not enough memory")]
    WantOfMemory,
}

impl From<mill_base::WantOfMemory> for SurfaceFault {
    ghost from_gives = { λ _ e. e ≡ WantOfMemory };

    fn from(_: mill_base::WantOfMemory) -> Self {
        SurfaceFault::WantOfMemory
    }
}
