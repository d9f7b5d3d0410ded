use crate::Sort;

/// What a node may be, and begin with.
#[derive(Clone, Copy)]
pub enum Start {
    Anything,
    /// A statement, or the value of a block.
    Statement,
    /// A statement behind one that ended by its brace, which would take a `;` itself.
    NextStatement,
    /// The expression of a statement with a `;`.
    Value,
    /// An operand that stands first in a statement: no block, `if`, `match` or loop.
    NotBlocklike,
    /// The body of an arm: a block is the whole body.
    ArmBody,
    /// An operand that stands first in the body of an arm, or what stands behind `return` in a head.
    NotBlock,
    /// Behind `break`: a label, or an operand.
    Jump,
    /// Behind `break` in a head.
    JumpInHead,
    OnlyBlock,
    /// Behind `else`.
    BlockOrIf,
    OnlyLabel,
    IsArm,
    IsParam,
}

/// Where a node stands.
#[derive(Clone, Copy)]
pub struct GrammarPlace {
    pub sort: Sort,
    /// The least level that it has.
    pub least: u8,
    /// Of an expression: it is that of a head, in which no struct expression stands outside brackets. Of a
    /// pattern: it may be `self`.
    pub head: bool,
    pub start: Start,
}

/// What the parts of a node see of its place.
#[derive(Clone, Copy)]
pub struct Seen {
    pub sort: Sort,
    pub head: bool,
    pub start: Start,
}

/// A part that is due.
#[derive(Clone, Copy)]
pub enum GrammarPart {
    /// At a place of its own.
    At(GrammarPlace),
    /// An operand of this level or above, in a head where its node is.
    Operand(u8),
    /// What may stand behind `break` and `return`.
    AfterBreak,
    AfterReturn,
}
