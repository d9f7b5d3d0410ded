/// A place in a text: a line and a column, both counted from 1. A column counts characters, and a line
/// ends by a line feed, so that the place after a line feed is column 1 of the next line.
#[derive(Clone, Copy, Debug)]
pub struct Pos {
    pub line: u32,
    pub col: u32,
}

/// The number of a node of one body's tree. Nodes are numbered from 0 in text order.
#[derive(Clone, Copy, PartialEq, Eq)]
pub struct NodeId(pub u32);

/// What an entry of a scope goes by: the number of the node that makes it.
#[derive(Clone, Copy, PartialEq, Eq)]
pub struct Key(pub u32);
