//! Struct expressions (The Rust Reference, "Struct expressions").
ghost use Rattle.std.specs.Prelude.{◌≡◌, IfOk, Option, length};
ghost use Rattle.mir_base.specs.declared.place_in_text.Pos.{Pos};
ghost use Rattle.mir_ty.specs.declared.ty.TyId.{TyId};
ghost use Rattle.typeck_checker.specs.Lists.{below_all, last_nodes};
ghost use Rattle.typeck_calls.specs.Fields.{number_in};
ghost use Rattle.src_ast.specs.Syntax.{Word};
ghost use Rattle.typeck_calls.specs.StructFields.{numbered_by, variant_of};
ghost use Rattle.typeck_calls.specs.Inits.{GivesFields};
ghost use Rattle.typed_tree.specs.Tree as tree;
ghost use Rattle.typing_rules.specs.Places.{a_node_of};
ghost use Rattle.typing_rules.specs.Rows as rows;
ghost use Rattle.typing_rules.specs.Scope as scope;
ghost use Rattle.typeck_checker.specs.Stand.{Gives, KeepsStack, ChangesNothing, stack, state};
ghost use Rattle.typing_rules.specs.Rows.{made_end, struct_end};

use crate::given_fields::{are_known, is_whole};
use crate::operand_fields::wrap_make;
use crate::variants::variant_types;
use mir_base::{List, NodeId, Pos, Rule, RuleError};
use mir_ty::{Ty, TyId};
use typeck_checker::Checker;
use typeck_heads::{broken_rule, obeys};

/// A struct expression that waits for its fields.
#[derive(Drop)]
pub struct StructBegun {
    /// The number of its node.
    pub id: NodeId,
    pub ty: TyId,
    /// The types of the fields of its variant, in the order of their declaration.
    pub types: List<TyId>,
}

/// How a struct expression begins, once it is known what it names.
#[tactic(auto, using(crate::proofs::BegunCalls::names_at))]
pub fn struct_begin(checker: &mut Checker, adt: u32, variant: u32) -> Result<StructBegun, RuleError>
    ensures gives { (at : Pos) (expected : Option TyId) → GivesFields (λ fields. rows.struct_row at adt variant (variant_of checker.old.walk.items adt variant).fields fields expected) (state checker.old)
        (λ b. struct_end b.id.0 at adt variant b.ty (length b.types) expected) result checker.new }
    ensures types { IfOk result (λ b. b.types ≡ (variant_of checker.old.walk.items adt variant).fields) }
    ensures names { (name : Word) → number_in checker.old.tables adt variant name ≡ scope.field_named (variant_of checker.old.walk.items adt variant) name }
    ensures same { ChangesNothing checker.old checker.new }
{
    let types = variant_types(checker, adt, variant)?;
    let id = checker.number()?;
    let ty = checker.intern(Ty::Adt(adt))?;
    Ok(StructBegun { id, ty, types })
}

fn coerce_make(
    checker: &mut Checker,
    id: NodeId,
    at: Pos,
    ty: TyId,
    adt: u32,
    variant: u32,
    given: &[Option<u32>],
    expected: Option<TyId>,
) -> Result<(), RuleError>
    ensures gives { Gives (rows.fitted expected (a_node_of id.0 at ty (tree.Make adt variant (numbered_by given.now (last_nodes (length given.now) (stack checker.old))))) (state checker.old)) result checker.new }
    ensures kept { KeepsStack (below_all (length given.now) (stack checker.old)) checker.old result checker.new }
{
    wrap_make(checker, id, at, ty, adt, variant, given)?;
    checker.coerce(expected)
}

fn made_end(
    checker: &mut Checker,
    id: NodeId,
    at: Pos,
    ty: TyId,
    adt: u32,
    variant: u32,
    given: &[Option<u32>],
    is_whole: bool,
    expected: Option<TyId>,
) -> Result<(), RuleError>
    ensures gives { Gives (made_end id.0 at adt variant ty is_whole expected (numbered_by given.now (last_nodes (length given.now) (stack checker.old)), given.now) (state checker.old)) result checker.new }
    ensures kept { KeepsStack (below_all (length given.now) (stack checker.old)) checker.old result checker.new }
{
    coerce_make(checker, id, at, ty, adt, variant, given, expected)?;
    if !is_whole {
        return Err(broken_rule(Rule::T04, at));
    }
    obeys(Rule::T12, at, are_known(given))
}

/// A struct expression, whose fields, of these numbers, are the last nodes: each field is given once.
pub fn struct_end(
    checker: &mut Checker,
    at: Pos,
    begun: &StructBegun,
    adt: u32,
    variant: u32,
    given: &[Option<u32>],
    expected: Option<TyId>,
) -> Result<(), RuleError>
    ensures gives { Gives (struct_end begun.now.id.0 at adt variant begun.now.ty (length begun.now.types) expected
        (numbered_by given.now (last_nodes (length given.now) (stack checker.old)), given.now) (state checker.old)) result checker.new }
    ensures kept { KeepsStack (below_all (length given.now) (stack checker.old)) checker.old result checker.new }
{
    let is_whole = is_whole(checker.alloc, given, begun.types.len())?;
    made_end(
        checker, begun.id, at, begun.ty, adt, variant, given, is_whole, expected,
    )
}
