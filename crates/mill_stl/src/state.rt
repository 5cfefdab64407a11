//! What was read, and where a reading stands.
use mill_base::Tri;

/// What a part text means.
#[derive(Debug, Drop)]
pub struct StlRead {
    /// The triangles, in the order of the text.
    pub tris: Vec<Tri>,
    /// How many coordinates were rounded, since their units aren't whole.
    pub rounded: u64,
}

/// What the next word has to be.
#[derive(Clone, Copy, Debug, PartialEq, Eq)]
pub(crate) enum Stage {
    /// `solid`.
    Solid,
    /// `solid`, or the text's end.
    SolidOrEnd,
    /// `facet` or `endsolid`.
    FacetOrEnd,
    /// `normal`.
    Normal,
    /// Any word: the normal's, from 0 to 2.
    Ignored(u8),
    /// `outer`.
    Outer,
    /// `loop`.
    Loop,
    /// `vertex`, before the coordinate of this number: 0, 3 or 6.
    Vertex(u8),
    /// A decimal: the facet's coordinate of this number, from 0 to 8.
    Coord(u8),
    /// `endloop`.
    EndLoop,
    /// `endfacet`.
    EndFacet,
}

/// How far the words are read.
#[derive(Clone, Copy, Debug, PartialEq, Eq)]
pub(crate) struct Progress {
    pub stage: Stage,
    /// The line of the last `solid` or `endsolid`, 0 before the first: a further word on it is its name's.
    pub name_line: u64,
    /// The coordinates of the facet so far, in units.
    pub coords: [i32; 9],
    /// How many facets have ended.
    pub facets: u64,
    /// How many coordinates were rounded.
    pub rounded: u64,
}

/// Where the reading stands: before a word or white space, or at the end.
#[derive(Clone, Copy, Debug, PartialEq, Eq)]
pub(crate) struct Cursor {
    /// The line of the next byte, from 1.
    pub line: u64,
    /// The place of the next byte.
    pub from: usize,
}
