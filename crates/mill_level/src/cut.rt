use mill_base::Tool;
use mill_part::SortedPart;

/// A tool with its tip at one height, and the part that it may gouge.
#[derive(Drop)]
pub struct Cut<'a> {
    pub part: &'a SortedPart,
    pub tool: Tool,
    /// In units.
    pub z: i32,
}
