use cfg_graph::Place;
use mir_base::{IntKind, Key, List, NodeId};
use mir_ty::TyId;
use typed_tree::Use;

/// One test of a pattern, made by the node of its pattern.
#[derive(Drop)]
#[cycle(question)]
pub enum Test {
    /// What stands at the place is of the variant with this number.
    Variant {
        node: NodeId,
        at: Place,
        number: u32,
    },
    /// The number at the place is this one, of this integer type.
    Equal {
        node: NodeId,
        at: Place,
        value: i128,
        kind: IntKind,
    },
    /// The truth value at the place is this one.
    Truth {
        node: NodeId,
        at: Place,
        value: bool,
    },
    /// All tests of one of the alternatives hold; they are tried in order.
    Any(List<List<Test>>),
}

/// A name of a pattern: the entry that it makes has the key of the pattern's node.
#[derive(Drop)]
pub struct Binding {
    pub key: Key,
    pub ty: TyId,
    /// The part that it takes.
    pub from: Place,
    /// `Move` where the part is gone then, and otherwise `Copy`.
    pub by: Use,
}
