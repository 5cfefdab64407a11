//! What of a line stands outside its blanks and comments (NISTIR 6556, 3.3.3).
ghost use Rattle.std.specs.Prelude.{◌≡◌};
ghost use Rattle.mill_words.specs.Marks.{is_blank as is_blank_byte, marked};

/// Where a byte stands.
#[derive(Clone, Copy)]
pub(crate) enum Region {
    /// Outside comments.
    Outside,
    /// In the comment whose `(` stands at this place.
    Comment(u32),
    /// Behind a `;`, or behind a fault: what comes up to the line's end has no meaning.
    Ignored,
}

/// What counts of a line.
#[derive(Clone, Copy)]
pub(crate) enum Mark {
    /// At this place, this byte.
    Byte(u32, u8),
    /// A comment, which parts what stands before it from what stands behind it.
    Gap,
    /// A second `(`, or the line's end, in the comment whose `(` stands at this place.
    Broken(u32),
}

/// What the byte at this place counts for, and where the next byte stands.
pub(crate) fn scan(region: Region, place: u32, byte: u8) -> (Region, Option<Mark>)
    ensures { result ≡ marked region place byte }
{
    match region {
        Region::Outside => scan_outside(place, byte),
        Region::Comment(from) => scan_inside(from, byte),
        Region::Ignored => (Region::Ignored, None),
    }
}

fn scan_outside(place: u32, byte: u8) -> (Region, Option<Mark>)
    ensures { result ≡ marked Region.Outside place byte }
{
    if is_blank(byte) {
        return (Region::Outside, None);
    }
    if byte == b'(' {
        return (Region::Comment(place), Some(Mark::Gap));
    }
    if byte == b';' {
        return (Region::Ignored, Some(Mark::Gap));
    }
    (Region::Outside, Some(Mark::Byte(place, byte)))
}

fn scan_inside(from: u32, byte: u8) -> (Region, Option<Mark>)
    ensures { result ≡ marked (Region.Comment from) 0 byte }
{
    if byte == b')' {
        return (Region::Outside, None);
    }
    if byte == b'(' {
        return (Region::Ignored, Some(Mark::Broken(from)));
    }
    (Region::Comment(from), None)
}

/// Whether the byte is a space, a tab or a CR.
pub(crate) fn is_blank(byte: u8) -> bool
    ensures { result ≡ is_blank_byte byte }
{
    byte == b' ' || byte == b'\t' || byte == b'\r'
}
