use mir_base::{Name, Pos};
use typed_tree::Use;

/// A use of a place: the body, the block and the line that use it (a block's terminator is the line behind its last
/// statement), where it stands in the text, how it uses the place, and the place in words.
#[derive(Drop)]
pub struct Site {
    pub body: u32,
    pub block: u32,
    pub line: u32,
    pub at: Pos,
    pub by: Use,
    pub name: Name,
}
