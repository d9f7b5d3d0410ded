use crate::Node;
use mir_base::List;
use mir_ty::{Items, TyId};

/// A parameter: its pattern and its type. Its entry has the pattern's number.
#[derive(Drop)]
pub struct Param {
    pub pattern: Node,
    pub ty: TyId,
}

/// A body: a function, a method, a `Drop` body or a closure.
#[derive(Drop)]
pub struct TBody {
    /// Its number among the bodies of its program, in the order of their `fn` or `move` words.
    pub number: u32,
    pub params: List<Param>,
    pub result: TyId,
    pub block: Node,
}

/// A typed program: its items, and its bodies in the order of their numbers.
#[derive(Drop)]
pub struct Typed {
    pub items: Items,
    pub bodies: List<TBody>,
}
