//! The place of a move in its program's text.
ghost use Rattle.std.specs.Prelude.{◌≡◌, ◌≤◌, length, slice_range};
ghost use Rattle.std.specs.Str.Lines.{strip_carriage_return};

/// Where a move stands in its program's text: on which line, from 1, and where that line's bytes stand,
/// from `start` up to `end`. Its line feed is none of them.
#[derive(Clone, Copy, Debug, PartialEq, Eq)]
pub struct LineSpan {
    pub line: u32,
    pub start: u32,
    pub end: u32,
}

/// The bytes of the line at a place, without a carriage return at their end.
pub fn line_words(text: &[u8], place: LineSpan) -> &[u8]
    requires order { place.start ≤ place.end }
    requires within { place.end ≤ length text.now }
    ensures { result.now ≡ strip_carriage_return (slice_range text.now place.start place.end) }
{
    without_return(&text[place.start as usize..place.end as usize])
}

fn without_return(line: &[u8]) -> &[u8]
    ensures { result.now ≡ strip_carriage_return line.now }
{
    let count = line.len();
    if count > 0 && line[count - 1] == b'\r' {
        return &line[..count - 1];
    }
    line
}
