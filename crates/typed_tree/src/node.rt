use mir_base::{Cmp, Key, List, Math, Name, NodeId, Pos};
use mir_ty::TyId;
use std::alloc::Global;

/// How a node uses its place.
#[derive(Clone, Copy)]
pub enum Use {
    /// The value is moved out of the place, which is gone then.
    Move,
    /// The value is copied.
    Copy,
    /// The place is borrowed by `&`, by a receiver `&self`, as a scrutinee, or as an array that is indexed.
    Borrow,
    /// The place is borrowed by `&mut`.
    BorrowMut,
    /// A pattern tests the variant or the value that stands there.
    Test,
    /// A value is stored into the place.
    Store,
}

/// A node of a body's typed tree.
#[cycle(node)]
pub struct Node {
    /// Its number among the nodes of its body, in text order.
    pub id: NodeId,
    /// Where its first token stands.
    pub at: Pos,
    /// The type of its value, or of the place that its pattern takes.
    pub ty: TyId,
    /// How it uses its place; `None` where it is no place.
    pub by: Option<Use>,
    pub form: Form,
}

/// As a derived one; but written here, it is proved here, and not again in each crate in which a node ends.
impl Drop for Node {
    #[cycle(node)]
    fn drop(self) {
        let Node {
            id: _,
            at: _,
            ty: _,
            by: _,
            form,
        } = self;
        drop(form);
    }
}

/// A field of a struct expression, a variant or a pattern, by its number in the order of declaration.
#[derive(Drop)]
#[cycle(node)]
pub struct NumberedField {
    pub number: u32,
    pub value: Node,
}

/// What a node is. Nothing in it is to be looked up by name; names are there for what is printed of a place
/// (rustc prints them in E0381 and E0382).
#[derive(Drop)]
#[cycle(node)]
pub enum Form {
    /// An integer literal, its sign included; its type is the node's.
    Number(i128),
    /// `true` or `false`.
    Truth(bool),
    /// `()`.
    UnitValue,
    /// A variable, a parameter or a binding, by the node that makes its entry.
    Variable(Key),
    /// A captured variable, with its name: a part of the closure value, which is the entry of the first
    /// parameter.
    Captured {
        closure: Key,
        part: u32,
        name: Name,
    },
    /// A field of a struct, a tuple or a closure. Each box and reference that it goes through is a node
    /// `Deref` around the base.
    Field {
        base: Box<Node, Global>,
        part: u32,
    },
    /// An element of an array of this length.
    Index {
        base: Box<Node, Global>,
        index: Box<Node, Global>,
        length: u32,
    },
    /// The content of a box, or what a reference names.
    Deref(Box<Node, Global>),
    Not(Box<Node, Global>),
    Negate(Box<Node, Global>),
    Arithmetic {
        operator: Math,
        left: Box<Node, Global>,
        right: Box<Node, Global>,
    },
    Comparison {
        operator: Cmp,
        left: Box<Node, Global>,
        right: Box<Node, Global>,
    },
    /// `&&`.
    And {
        left: Box<Node, Global>,
        right: Box<Node, Global>,
    },
    /// `||`.
    Or {
        left: Box<Node, Global>,
        right: Box<Node, Global>,
    },
    Assign {
        place: Box<Node, Global>,
        value: Box<Node, Global>,
    },
    /// A call of a function, or of a method by its path.
    Call {
        body: u32,
        args: List<Node>,
    },
    /// A method of a known type, called on a receiver: a node `Borrow` where the method takes `self` by
    /// reference, and a place or a value otherwise. Each box and reference that the receiver goes through
    /// is a node `Deref`.
    MethodCall {
        body: u32,
        receiver: Box<Node, Global>,
        args: List<Node>,
    },
    /// A method of a trait object.
    VirtualCall {
        trait_no: u32,
        method: u32,
        receiver: Box<Node, Global>,
        args: List<Node>,
    },
    /// A call of a closure with this body; its value is the first argument.
    ClosureCall {
        body: u32,
        callee: Box<Node, Global>,
        args: List<Node>,
    },
    /// A value of a struct, whose variant is 0, or of a variant; the fields in the order in which they are written.
    Make {
        adt: u32,
        variant: u32,
        fields: List<NumberedField>,
    },
    Tuple(List<Node>),
    Array(List<Node>),
    /// A closure with its captures, in the order of the written list.
    Closure {
        closure: u32,
        captures: List<Node>,
    },
    /// `Box::new(e)`.
    NewBox(Box<Node, Global>),
    Print(Box<Node, Global>),
    Ask,
    /// `drop(e)`.
    DropValue(Box<Node, Global>),
    Forget(Box<Node, Global>),
    /// `panic!()`.
    Panic,
    /// `&e`, and `&mut e` where it is unique.
    Borrow {
        unique: bool,
        base: Box<Node, Global>,
    },
    /// The coercion of a box to a boxed trait object.
    Unsize {
        trait_no: u32,
        operand: Box<Node, Global>,
    },
    Block {
        statements: List<Node>,
        tail: Option<Box<Node, Global>>,
    },
    /// `let`, with or without an initialiser.
    Let {
        pattern: Box<Node, Global>,
        initialiser: Option<Box<Node, Global>>,
    },
    /// An expression as a statement.
    Evaluate(Box<Node, Global>),
    If {
        condition: Box<Node, Global>,
        then: Box<Node, Global>,
        otherwise: Option<Box<Node, Global>>,
    },
    IfLet {
        pattern: Box<Node, Global>,
        scrutinee: Box<Node, Global>,
        then: Box<Node, Global>,
        otherwise: Option<Box<Node, Global>>,
    },
    /// A match; its arms are nodes of the form `Arm`.
    Match {
        scrutinee: Box<Node, Global>,
        arms: List<Node>,
    },
    Arm {
        pattern: Box<Node, Global>,
        guard: Option<Box<Node, Global>>,
        body: Box<Node, Global>,
    },
    Loop(Box<Node, Global>),
    While {
        condition: Box<Node, Global>,
        body: Box<Node, Global>,
    },
    WhileLet {
        pattern: Box<Node, Global>,
        scrutinee: Box<Node, Global>,
        body: Box<Node, Global>,
    },
    /// `break` out of the loop with this number.
    Break {
        from: NodeId,
        value: Option<Box<Node, Global>>,
    },
    /// `continue` of the loop with this number.
    Continue {
        from: NodeId,
    },
    Return(Option<Box<Node, Global>>),
    /// The pattern `_`.
    Wildcard,
    /// A name as a pattern, also that of a parameter; it makes the entry with this node's number.
    Binding(Name),
    NumberPattern(i128),
    TruthPattern(bool),
    StructPattern(List<NumberedField>),
    /// A variant of an enum; it is a test where the enum has more than one.
    VariantPattern {
        variant: u32,
        is_test: bool,
        fields: List<NumberedField>,
    },
    TuplePattern(List<Node>),
    ArrayPattern(List<Node>),
    /// Alternatives without bindings.
    OrPattern(List<Node>),
}
