//! The end of a line.
ghost use Rattle.std.specs.Prelude.{◌≡◌, ◌+◌, ◌<◌, ◌≤◌, [], ◌∷◌, drop, length, slice_range};
ghost use Rattle.mill_ngc.specs.Programs.{lines_of};

use memchr::memchr;

/// Where the line ends that begins at `from`: at its line feed, or at the end of the text.
pub(crate) fn line_end(text: &[u8], from: usize) -> usize
    requires { from ≤ length text.now }
    ensures behind { from ≤ result }
    ensures within { result ≤ length text.now }
    ensures inner { result < length text.now →
        lines_of (drop from text.now) ≡ slice_range text.now from result ∷ lines_of (drop (result + 1) text.now) }
    ensures last { result ≡ length text.now →
        lines_of (drop from text.now) ≡ slice_range text.now from result ∷ [] }
{
    match memchr(b'\n', &text[from..]) {
        Some(count) => from + count,
        None => text.len(),
    }
}
