//! Why a part text is refused.
use mill_decimal::DecFault;
use std::fmt;
use thiserror::Error;

/// What a word of a part text has to be.
#[derive(Clone, Copy, Debug, PartialEq, Eq)]
pub enum What {
    /// `solid`, the first word.
    Solid,
    /// `solid`, or the text's end behind the line of an `endsolid`.
    SolidOrEnd,
    /// `facet` or `endsolid`.
    FacetOrEnd,
    /// `normal`.
    Normal,
    /// `outer`.
    Outer,
    /// `loop`.
    Loop,
    /// `vertex`.
    Vertex,
    /// `endloop`.
    EndLoop,
    /// `endfacet`.
    EndFacet,
}

impl fmt::Display for What {
    ghost use Rattle.mill_stl.specs.Faults.{name_of_expected};
    ghost use Rattle.std.specs.Prelude.{Some};

    ghost output = { λ what. Some (name_of_expected what) };

    fn fmt<W: fmt::Write>(&self, f: &mut fmt::Formatter<W>) -> fmt::Result {
        f.write_str(match self {
            What::Solid => "`solid`",
            What::SolidOrEnd => "`solid` or the end",
            What::FacetOrEnd => "`facet` or `endsolid`",
            What::Normal => "`normal`",
            What::Outer => "`outer`",
            What::Loop => "`loop`",
            What::Vertex => "`vertex`",
            What::EndLoop => "`endloop`",
            What::EndFacet => "`endfacet`",
        })
    }
}

/// The first bad place of a part text. Lines are counted from 1, and each LF ends one.
#[derive(Clone, Copy, Debug, PartialEq, Eq, Error)]
pub enum StlFault {
    /// A word is another one than the form has there.
    #[error("line {line}: expected {what}")]
    Expected {
        /// The word's line.
        line: u64,
        /// What the word has to be.
        what: What,
    },
    /// A word in a coordinate's place is refused as a decimal.
    #[error("line {line}: a coordinate is {fault}")]
    Coord {
        /// The word's line.
        line: u64,
        /// Why it is refused.
        fault: DecFault,
    },
    /// A `facet` that is the 200,001st.
    #[error("line {line}: more than 200,000 triangles")]
    TooManyTriangles {
        /// The line of that `facet`.
        line: u64,
    },
    /// The text ends before its first solid, or within a solid.
    #[error("line {line}: the text ends before its solid does")]
    CutShort {
        /// The last line: one more than the text has LF bytes.
        line: u64,
    },
    /// There was not enough memory.
    #[error("not enough memory")]
    WantOfMemory,
}
