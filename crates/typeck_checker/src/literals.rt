//! Numbers, and other leaves (The Rust Reference, "Literal expressions").
ghost use Rattle.std.specs.Prelude.{◌≡◌, option_and_then};
ghost use Rattle.typing_rules.specs.Places as places;
ghost use Rattle.typing_rules.specs.Rows as rows;
ghost use Rattle.well_typed.specs.Types as types;
ghost use Rattle.typeck_checker.specs.Forms.{leaf_form};
ghost use Rattle.typing_rules.specs.Rows.{literal_end};
ghost use Rattle.typeck_checker.specs.Stand.{Gives, KeepsStack, stack, state};

use crate::checker::Checker;
use crate::forms::Leaf;
use mir_base::{IntKind, NodeId, Pos, Rule, RuleError};
use mir_ty::{I32, I64, TyId, U32, U64, USIZE};
use typeck_env::kind_of;
use typeck_heads::obeys;

/// The number of an integer type.
pub fn int(kind: IntKind) -> TyId
    ensures { result ≡ places.int kind }
{
    match kind {
        IntKind::I32 => I32,
        IntKind::I64 => I64,
        IntKind::U32 => U32,
        IntKind::U64 => U64,
        IntKind::Usize => USIZE,
    }
}

fn literal_kind(suffix: Option<IntKind>, expected: Option<IntKind>) -> IntKind
    ensures { result ≡ rows.chosen suffix expected }
{
    match (suffix, expected) {
        (Some(kind), _) => kind,
        (None, Some(kind)) => kind,
        (None, None) => IntKind::I32,
    }
}

/// Whether numbers of a type may have a `-`.
pub fn is_signed(kind: IntKind) -> bool
    ensures { result ≡ rows.is_signed_kind kind }
{
    match kind {
        IntKind::I32 | IntKind::I64 => true,
        _ => false,
    }
}

/// How great a number of a type may be, and how great behind a `-`.
pub fn most(kind: IntKind, is_negative: bool) -> u64
    ensures { result ≡ rows.most kind is_negative }
{
    match kind {
        IntKind::I32 => { if is_negative { 2147483648 } else { 2147483647 } }
        IntKind::I64 => {
            if is_negative {
                9223372036854775808
            } else {
                9223372036854775807
            }
        }
        IntKind::U32 => { if is_negative { 0 } else { 4294967295 } }
        _ => { if is_negative { 0 } else { u64::MAX } }
    }
}

/// A number, and the number with a `-` before it.
pub fn literal_value(is_negative: bool, value: u64) -> i128
    ensures { result ≡ rows.literal_value is_negative value }
{
    if is_negative {
        -(value as i128)
    } else {
        value as i128
    }
}

impl Checker {
    /// The integer type that is required, if one is.
    fn wanted_kind(&self, expected: Option<TyId>) -> Option<IntKind>
        ensures { result ≡ option_and_then (types.kind_of self.now.walk.items) expected }
    {
        match expected {
            Some(expected) => kind_of(&self.walk.items, expected),
            None => None,
        }
    }

    /// A number of a type.
    fn literal_of(
        &mut self,
        id: NodeId,
        at: Pos,
        kind: IntKind,
        is_negative: bool,
        value: u64,
        expected: Option<TyId>,
    ) -> Result<(), RuleError>
        ensures gives { Gives (literal_end id.0 at kind is_negative value expected (state self.old)) result self.new }
        ensures kept { KeepsStack (stack self.old) self.old result self.new }
    {
        obeys(Rule::T03, at, !is_negative || is_signed(kind))?;
        let leaf = Leaf::Number(literal_value(is_negative, value));
        self.coerce_leaf(id, at, int(kind), leaf, expected)?;
        obeys(Rule::T17, at, value <= most(kind, is_negative))
    }

    /// A number, with a `-` before it or not: it has the type of its suffix, else the required integer type, else
    /// `i32`.
    pub fn literal(
        &mut self,
        at: Pos,
        is_negative: bool,
        value: u64,
        suffix: Option<IntKind>,
        expected: Option<TyId>,
    ) -> Result<(), RuleError>
        ensures gives { Gives (rows.literal at is_negative value suffix expected (state self.old)) result self.new }
        ensures kept { KeepsStack (stack self.old) self.old result self.new }
    {
        let id = self.number()?;
        let kind = literal_kind(suffix, self.wanted_kind(expected));
        self.literal_of(id, at, kind, is_negative, value, expected)
    }

    /// A leaf of a type that it has whatever is required.
    pub fn leaf(
        &mut self,
        at: Pos,
        ty: TyId,
        leaf: Leaf,
        expected: Option<TyId>,
    ) -> Result<(), RuleError>
        ensures gives { Gives (rows.leaf at ty (leaf_form leaf) expected (state self.old)) result self.new }
        ensures kept { KeepsStack (stack self.old) self.old result self.new }
    {
        let id = self.number()?;
        self.coerce_leaf(id, at, ty, leaf, expected)
    }
}
