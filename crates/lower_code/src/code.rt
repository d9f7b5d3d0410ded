ghost use Rattle.std.specs.Prelude.{◌≡◌, [], ◌∷◌, OnOk};
ghost use Rattle.cfg_graph.specs.Places.{named};
ghost use Rattle.lower_code.specs.Ops as ops;
ghost use Rattle.lower_code.specs.View.{op_of, ops_of, effect_of};

use cfg_graph::{Operand, Place, Stmt};
use mir_base::{Key, List, Math, NoMemory, NodeId, Why};
use mir_ty::TyId;
use pattern_lower::Test;
use std::alloc::Global;

/// A parameter, variable, operand or temporary, or a destination that is not complete.
#[derive(Clone, Copy)]
pub struct Entry {
    pub key: Key,
    pub ty: TyId,
}

/// Which scope changes.
#[derive(Clone, Copy)]
pub enum ScopeAt {
    Innermost,
    AroundInnermost,
    NearestTemporary,
}

/// A change of scopes.
#[derive(Drop)]
pub enum Change {
    /// A new scope, of this node.
    NewScope { node: NodeId, for_temporaries: bool },
    /// A destination is pending.
    Pends(ScopeAt, Entry),
    /// A destination that was pending is the youngest entry.
    Completes(ScopeAt, Entry),
    /// A new entry.
    Enters(ScopeAt, Entry),
    /// The name of a `let`, pending in the innermost scope, is an entry of the one around it.
    Names(Entry),
    /// Operands of the innermost scope are taken.
    Takes(List<Key>),
}

/// How a node is left.
#[derive(Clone, Copy)]
pub enum Exit {
    Breaks(NodeId),
    Continues(NodeId),
    Returns,
}

/// What acts on values, as a statement or as a terminator that may panic. A place stands by the key of its entry.
#[derive(Drop)]
pub enum Action {
    Stmt(Stmt),
    Math {
        to: Place,
        op: Math,
        left: Operand,
        right: Operand,
    },
    Negate {
        to: Place,
        of: Operand,
    },
    Bounds {
        index: Operand,
        length: u32,
    },
    Call {
        to: Place,
        body: u32,
        args: List<Operand>,
    },
    Virtual {
        to: Place,
        trait_no: u32,
        method: u32,
        args: List<Operand>,
    },
    Ask {
        to: Place,
    },
}

/// What a branch goes by.
#[derive(Drop)]
pub enum Condition {
    /// The truth value that stands under the key, which is taken.
    IsTrue(Key),
    /// All these tests hold.
    Passes(List<Test>),
}

/// A word of code. What it is made of stands before it, as operands do in postfix notation.
#[derive(Drop)]
pub enum CodeWord {
    Nothing,
    Changes(Change),
    /// Code in scopes that are changed first.
    From(Change),
    /// Two codes, one after the other.
    Then,
    /// Code behind which the scopes are those before it.
    BackIn,
    /// An effect of a node. It stands apart from the words, most of which are small.
    Acts {
        node: NodeId,
        action: Box<Action, Global>,
    },
    /// Code in a scope of its own, which is left behind it.
    InScope {
        node: NodeId,
        for_temporaries: bool,
    },
    /// The innermost scope is left.
    Leaves,
    /// One of two codes: the first where the condition holds.
    Branches {
        node: NodeId,
        on: Condition,
    },
    /// A loop, whose turn stands before it.
    Loops(NodeId),
    Exits {
        node: NodeId,
        exit: Exit,
    },
    Panics {
        node: NodeId,
        why: Why,
    },
    /// What a place holds is dropped, and what stands under the key is stored there.
    Replaces {
        node: NodeId,
        place: Box<Place, Global>,
        key: Key,
    },
    /// What stands under a key is dropped.
    Drops(Key),
    /// The arms of a match follow.
    BeforeArms,
    /// An arm: its tests, and the key of its guard, whose code stands before that of the arm.
    Arm {
        tests: List<Test>,
        guard: Option<Key>,
    },
    /// A node among arms that is none: it is taken, and does nothing.
    EmptyArm,
    /// A match; its arms stand before it, in order.
    Matches(NodeId),
}

/// Code of a body: effects, scopes, branches, loops and exits, in postfix order.
#[derive(Drop)]
pub struct Code {
    pub ops: List<CodeWord>,
}

impl Code {
    /// No code.
    pub fn new(alloc: Global) -> Code
        ensures { ops_of result ≡ [] }
    {
        Code {
            ops: List::new(alloc),
        }
    }

    /// One more word.
    pub fn push(&mut self, op: CodeWord) -> Result<(), NoMemory>
        ensures { OnOk result (ops_of self.new ≡ op_of op ∷ ops_of self.old) }
    {
        self.ops.push(op)
    }

    /// An effect of a node.
    pub fn act(&mut self, alloc: Global, node: NodeId, action: Action) -> Result<(), NoMemory>
        ensures { OnOk result (ops_of self.new ≡ ops.Acts node.0 (effect_of node.0 action) ∷ ops_of self.old) }
    {
        let action = Box::new(alloc, action)?;
        self.push(CodeWord::Acts { node, action })
    }

    /// What a place holds is dropped, and what stands under the key is stored there.
    pub fn replace(
        &mut self,
        alloc: Global,
        node: NodeId,
        place: Place,
        key: Key,
    ) -> Result<(), NoMemory>
        ensures { OnOk result (ops_of self.new ≡
            ops.Replaces (record { node = node.0; place = named place }) key.0 ∷ ops_of self.old) }
    {
        let place = Box::new(alloc, place)?;
        self.push(CodeWord::Replaces { node, place, key })
    }
}

/// Where a value is made.
#[derive(Clone, Copy)]
pub enum Destination {
    /// In the entry with this key.
    Into(Key),
    /// In an entry of its own, from which a box is coerced to a boxed trait object.
    Coerced { key: Key, trait_no: u32, to: Key },
}
