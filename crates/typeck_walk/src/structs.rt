//! Struct expressions (The Rust Reference, "Struct expressions").
ghost use Rattle.std.specs.Prelude.{◌≡◌, Some};
ghost use Rattle.typeck_calls.specs.Inits.{GivesInit, GivesInits, KeepsBelowInits, init_by, one_init, variant_by};
ghost use Rattle.src_ast.specs.Expressions.{init_of};
ghost use Rattle.src_ast.specs.Seen.{maybe_of, nodes_of, syn_of, word_of};
ghost use Rattle.src_ast.specs.Syntax.{StructOf, Word};
ghost use Rattle.typeck_calls.specs.StructFields.{variant_of};
ghost use Rattle.typing_rules.specs.Rows as rows;
ghost use Rattle.typing_rules.specs.Typed as rules;
ghost use Rattle.typeck_checker.specs.Stand.{Gives, KeepsStack, env, stack, state};

use crate::expressions::check_expr;
use mir_base::{List, Pos, Rule, RuleError};
use mir_ty::TyId;
use src_ast::{InitForm, Nodes, PathForm, init_form};
use src_tree::SyntaxNode;
use typeck_calls::{field_wanted, path, struct_begin, struct_end};
use typeck_checker::Checker;
use typeck_heads::{broken_rule, push_to};
use typeck_patterns::target_of;

/// The value of a field; without one it is the variable of that name.
#[cycle(check_expr)]
fn init_value(
    checker: &mut Checker,
    at: Pos,
    name: &str,
    value: Option<&SyntaxNode>,
    expected: Option<TyId>,
) -> Result<(), RuleError>
    ensures gives { Gives (rules.init_value (env checker.old) at name.now (maybe_of value.entry) expected (state checker.old)) result checker.new }
    ensures kept { KeepsStack (stack checker.old) checker.old result checker.new }
{
    match value {
        Some(value) => check_expr(checker, value, expected),
        None => path(
            checker,
            at,
            PathForm {
                first: Some(name),
                second: None,
            },
            expected,
        ),
    }
}

/// A field of a variant whose fields have these types; answers its number, if it is one of a field.
#[cycle(check_expr)]
fn numbered_init(
    checker: &mut Checker,
    at: Pos,
    adt: u32,
    variant: u32,
    types: &[TyId],
    form: InitForm,
) -> Result<Option<u32>, RuleError>
    ensures gives { (own : Word) → GivesInit (init_by (env checker.old) (variant_by own checker.old.tables adt variant types.now) at (Some (init_of form.entry)) (state checker.old)) result checker.new }
    ensures kept { KeepsStack (stack checker.old) checker.old result checker.new }
{
    let wanted = field_wanted(checker, adt, variant, types, form.name);
    init_value(checker, at, form.name, form.value, wanted.expected)?;
    Ok(wanted.number)
}

#[cycle(check_expr)]
fn init_of_node(
    checker: &mut Checker,
    adt: u32,
    variant: u32,
    types: &[TyId],
    node: &SyntaxNode,
) -> Result<Option<u32>, RuleError>
    ensures gives { (own : Word) → GivesInit (one_init (env checker.old) (variant_by own checker.old.tables adt variant types.now) (syn_of node.now) (state checker.old)) result checker.new }
    ensures kept { KeepsStack (stack checker.old) checker.old result checker.new }
{
    match init_form(node) {
        Some(form) => numbered_init(checker, node.at, adt, variant, types, form),
        None => Err(broken_rule(Rule::T20, node.at)),
    }
}

/// Fields of a variant whose fields have these types; answers their numbers, as far as they are numbers of fields.
#[cycle(check_expr)]
fn check_inits(
    checker: &mut Checker,
    adt: u32,
    variant: u32,
    types: &[TyId],
    inits: Nodes,
) -> Result<List<Option<u32>>, RuleError>
    ensures gives { (own : Word) → GivesInits (rules.typed_inits (env checker.old) (variant_by own checker.old.tables adt variant types.now) (nodes_of inits.entry) (state checker.old)) result checker.new }
    ensures kept { KeepsBelowInits (stack checker.old) checker.old result checker.new }
{
    let mut given = List::new(checker.alloc);
    let mut rest = inits;
    while let Some(split) = rest.split_first() {
        let number = init_of_node(checker, adt, variant, types, split.first)?;
        push_to(&mut given, number)?;
        rest = split.rest;
    }
    Ok(given)
}

#[cycle(check_expr)]
fn struct_row(
    checker: &mut Checker,
    at: Pos,
    adt: u32,
    variant: u32,
    inits: Nodes,
    expected: Option<TyId>,
) -> Result<(), RuleError>
    ensures gives { Gives (rows.struct_row at adt variant (variant_of checker.old.walk.items adt variant).fields
        (rules.typed_inits (env checker.old) (variant_of checker.old.walk.items adt variant) (nodes_of inits.entry)) expected (state checker.old)) result checker.new }
    ensures kept { KeepsStack (stack checker.old) checker.old result checker.new }
{
    let begun = struct_begin(checker, adt, variant)?;
    let given = check_inits(checker, adt, variant, begun.types.as_slice(), inits)?;
    struct_end(
        checker,
        at,
        &begun,
        adt,
        variant,
        given.as_slice(),
        expected,
    )
}

/// A struct expression.
#[cycle(check_expr)]
pub fn check_struct(
    checker: &mut Checker,
    at: Pos,
    path: PathForm,
    inits: Nodes,
    expected: Option<TyId>,
) -> Result<(), RuleError>
    ensures gives { Gives (rules.value (env checker.old) at (StructOf (word_of path.entry.first) (word_of path.entry.second) (nodes_of inits.entry)) expected (state checker.old)) result checker.new }
    ensures kept { KeepsStack (stack checker.old) checker.old result checker.new }
{
    match target_of(checker, path.first, path.second) {
        Some(target) => struct_row(checker, at, target.adt, target.variant, inits, expected),
        None => Err(broken_rule(Rule::T01, at)),
    }
}
