//! The check of patterns (The Rust Reference, "Patterns"): it numbers their nodes in the order of the text, and notes
//! their bindings.
ghost use Rattle.std.specs.Prelude.{◌≡◌, ◌==◌, List, length, map, not, option_map, replicate, reverse};
ghost use Rattle.typeck_checker.specs.Lists.{many_form};
ghost use Rattle.mir_ty.specs.declared.adt.Variant.{Variant};
ghost use Rattle.mir_ty.specs.declared.ty.TyId.{TyId};
ghost use Rattle.typeck_patterns.specs.PatternContext.{GivesBound, pattern_context_of};
ghost use Rattle.typeck_patterns.specs.Members.{part_named, part_of, parts_named, variant_of};
ghost use Rattle.typeck_patterns.specs.Parts.{AreFirst};
ghost use Rattle.typeck_patterns.specs.Targets.{target_of as target_in};
ghost use Rattle.src_ast.specs.Seen.{maybe_of, nodes_of, syn_of, word_of};
ghost use Rattle.src_ast.specs.Sorts.{field_pattern_part};
ghost use Rattle.src_ast.specs.Syntax.{Alternatives, ArrayPattern, FieldsPattern, PartsPattern, TuplePattern, shape_of};
ghost use Rattle.typeck_checker.specs.Stand.{KeepsStack, env, stack, state};
ghost use Rattle.typed_tree.specs.Tree as tree;
ghost use Rattle.typing_rules.specs.Patterns as rules;
ghost use Rattle.typeck_patterns.specs.Answers.{GivesField, GivesFields, GivesNodes, KeepsBelow, KeepsGiven, KeepsIf};
ghost use Rattle.typeck_patterns.specs.Forms.{inside_as};
ghost use Rattle.typing_rules.specs.Patterns.{target_end};

use crate::counts::{are_several, count_of, is_count, one_more};
use crate::ends::{counted_end, is_tuple_count, named_end, ordered_end};
use crate::{
    FieldPart, PartTypes, PatternContext, PatternTarget, element_types, field_count, field_parts,
    field_types, inside_of, literal_pattern, lone_name, path_alone, target_begin, target_of,
    truth_pattern, tuple_types, wildcard,
};
use mir_base::{List, NodeId, Pos, Rule, RuleError};
use mir_ty::TyId;
use src_ast::{Nodes, PathForm, PatternForm, field_pattern_form, pattern_form};
use src_tree::SyntaxNode;
use typeck_checker::{Checker, Many, wrap_many};
use typeck_env::{Variables, array_of};
use typeck_heads::{broken_rule, obeys, push_to};

/// The patterns of parts in their order; those past the last part are not looked at. Answers how many were.
#[cycle(patterns)]
fn part_patterns(
    checker: &mut Checker,
    bound: &mut Variables,
    e: PatternContext,
    types: &[TyId],
    parts: Nodes,
) -> Result<u32, RuleError>
    ensures gives { GivesNodes (rules.part_patterns (env checker.old) (pattern_context_of e) types.now (nodes_of parts.entry) (reverse bound.old) (state checker.old)) result bound.new checker.new }
    ensures kept { KeepsBelow (stack checker.old) checker.old result checker.new }
{
    let mut count: u32 = 0;
    let mut rest = parts;
    for ty in types {
        let Some(split) = rest.split_first() else {
            return Ok(count);
        };
        pattern(checker, bound, e, *ty, split.first)?;
        count = one_more(count)?;
        rest = split.rest;
    }
    Ok(count)
}

/// The patterns of parts in their order, where the types of as many of them are known as there are patterns.
#[cycle(patterns)]
fn first_patterns(
    checker: &mut Checker,
    bound: &mut Variables,
    e: PatternContext,
    types: &PartTypes,
    parts: Nodes,
    given: u32,
) -> Result<u32, RuleError>
    requires { given ≡ rules.count_of (nodes_of parts) }
    ensures gives { (tys : List TyId) → AreFirst given tys types.now →
        GivesNodes (rules.part_patterns (env checker.old) (pattern_context_of e) tys (nodes_of parts.entry) (reverse bound.old) (state checker.old)) result bound.new checker.new }
    ensures kept { KeepsBelow (stack checker.old) checker.old result checker.new }
{
    part_patterns(checker, bound, e, types.first.as_slice(), parts)
}

/// Alternatives, each for the same place. Answers how many there are.
#[cycle(patterns)]
fn each_pattern(
    checker: &mut Checker,
    bound: &mut Variables,
    e: PatternContext,
    ty: TyId,
    patterns: Nodes,
) -> Result<u32, RuleError>
    ensures gives { GivesNodes (rules.each_pattern (env checker.old) (pattern_context_of e) ty (nodes_of patterns.entry) (reverse bound.old) (state checker.old)) result bound.new checker.new }
    ensures kept { KeepsBelow (stack checker.old) checker.old result checker.new }
{
    let mut count: u32 = 0;
    let mut rest = patterns;
    while let Some(split) = rest.split_first() {
        pattern(checker, bound, e, ty, split.first)?;
        count = one_more(count)?;
        rest = split.rest;
    }
    Ok(count)
}

#[cycle(patterns)]
fn inside_field(
    checker: &mut Checker,
    bound: &mut Variables,
    at: Pos,
    e: PatternContext,
    ty: TyId,
    name: &str,
    inside: Option<&SyntaxNode>,
) -> Result<(), RuleError>
    ensures gives { GivesBound (inside_as (env checker.old) at (pattern_context_of e) ty name.now (maybe_of inside.entry) (reverse bound.old) (state checker.old)) result bound.new checker.new }
    ensures kept { KeepsStack (stack checker.old) checker.old result checker.new }
{
    match inside {
        Some(node) => pattern(checker, bound, e, ty, node),
        None => lone_name(checker, bound, at, e, ty, name),
    }
}

#[cycle(patterns)]
fn known_field(
    checker: &mut Checker,
    bound: &mut Variables,
    at: Pos,
    e: PatternContext,
    part: Option<FieldPart>,
    name: &str,
    inside: Option<&SyntaxNode>,
) -> Result<Option<u32>, RuleError>
    ensures gives { GivesField (rules.field_at (reverse bound.old) (option_map part_of part)
        (λ ty. inside_as (env checker.old) at (pattern_context_of e) ty name.now (maybe_of inside.entry) (reverse bound.old)) (state checker.old)) result bound.new checker.new }
    ensures kept { KeepsIf (stack checker.old) checker.old result checker.new }
{
    match part {
        Some(part) => {
            inside_field(checker, bound, at, e, part.ty, name, inside)?;
            Ok(Some(part.number))
        }
        None => Ok(None),
    }
}

/// The pattern of a field, which is this part. Answers its number, if there is such a field.
#[cycle(patterns)]
fn field_pattern(
    checker: &mut Checker,
    bound: &mut Variables,
    e: PatternContext,
    part: Option<FieldPart>,
    node: &SyntaxNode,
) -> Result<Option<u32>, RuleError>
    ensures gives { (v : Variant) → option_map part_of part ≡ part_named v (field_pattern_part (shape_of (syn_of node.now))) →
        GivesField (rules.field_pattern (env checker.old) (pattern_context_of e) v (syn_of node.now) (reverse bound.old) (state checker.old)) result bound.new checker.new }
    ensures kept { KeepsIf (stack checker.old) checker.old result checker.new }
{
    match field_pattern_form(node) {
        Some(form) => known_field(checker, bound, node.at, e, part, form.name, form.pattern),
        None => Err(broken_rule(Rule::T20, node.at)),
    }
}

/// The patterns of fields, which are these parts. Answers their numbers.
#[cycle(patterns)]
fn field_patterns(
    checker: &mut Checker,
    bound: &mut Variables,
    e: PatternContext,
    parts: &[Option<FieldPart>],
    fields: Nodes,
) -> Result<List<Option<u32>>, RuleError>
    ensures gives { (v : Variant) → map (option_map part_of) parts.now ≡ parts_named v (nodes_of fields.entry) →
        GivesFields (rules.field_patterns (env checker.old) (pattern_context_of e) v (nodes_of fields.entry) (reverse bound.old) (state checker.old)) result bound.new checker.new }
    ensures kept { KeepsGiven (stack checker.old) checker.old result checker.new }
{
    let mut given = List::new(checker.alloc);
    let mut rest = fields;
    for part in parts {
        let Some(split) = rest.split_first() else {
            return Ok(given);
        };
        let number = field_pattern(checker, bound, e, *part, split.first)?;
        push_to(&mut given, number)?;
        rest = split.rest;
    }
    Ok(given)
}

/// Parts in their order, whose types are these.
#[cycle(patterns)]
fn in_order(
    checker: &mut Checker,
    bound: &mut Variables,
    id: NodeId,
    at: Pos,
    e: PatternContext,
    ty: TyId,
    types: &PartTypes,
    parts: Nodes,
    given: u32,
    dots: bool,
    many: Many,
) -> Result<(), RuleError>
    requires { given ≡ rules.count_of (nodes_of parts) }
    ensures gives { (tys : List TyId) → AreFirst given tys types.now →
        GivesBound (rules.sequence_end id.0 at ty (many_form many) dots (rules.count_of (nodes_of parts.entry)) (length tys) (rules.part_patterns (env checker.old) (pattern_context_of e) tys (nodes_of parts.entry) (reverse bound.old)) (state checker.old)) result bound.new checker.new }
    ensures kept { KeepsStack (stack checker.old) checker.old result checker.new }
{
    let is_count = is_count(dots, given, types.count);
    let count = first_patterns(checker, bound, e, types, parts, given)?;
    counted_end(checker, id, at, ty, many, count, is_count)
}

#[cycle(patterns)]
fn tuple_pattern(
    checker: &mut Checker,
    bound: &mut Variables,
    at: Pos,
    e: PatternContext,
    ty: TyId,
    parts: Nodes,
    dots: bool,
) -> Result<(), RuleError>
    ensures gives { GivesBound (rules.pattern_form (env checker.old) (pattern_context_of e) ty at (TuplePattern (nodes_of parts.entry) dots) (reverse bound.old) (state checker.old)) result bound.new checker.new }
    ensures kept { KeepsStack (stack checker.old) checker.old result checker.new }
{
    let id = checker.number()?;
    let given = count_of(parts)?;
    match tuple_types(checker.alloc, &checker.walk.items, ty, given as usize, dots)? {
        Some(types) => in_order(
            checker,
            bound,
            id,
            at,
            e,
            ty,
            &types,
            parts,
            given,
            dots,
            Many::TuplePattern,
        ),
        None => Err(broken_rule(Rule::T03, at)),
    }
}

#[cycle(patterns)]
fn elements_pattern(
    checker: &mut Checker,
    bound: &mut Variables,
    id: NodeId,
    at: Pos,
    e: PatternContext,
    ty: TyId,
    element: TyId,
    count: u32,
    elements: Nodes,
    dots: bool,
) -> Result<(), RuleError>
    ensures gives { GivesBound (rules.sequence_end id.0 at ty tree.ArrayPattern dots (rules.count_of (nodes_of elements.entry)) count (rules.part_patterns (env checker.old) (pattern_context_of e) (replicate count element) (nodes_of elements.entry) (reverse bound.old)) (state checker.old)) result bound.new checker.new }
    ensures kept { KeepsStack (stack checker.old) checker.old result checker.new }
{
    let given = count_of(elements)?;
    let types = element_types(checker.alloc, element, count, given as usize)?;
    in_order(
        checker,
        bound,
        id,
        at,
        e,
        ty,
        &types,
        elements,
        given,
        dots,
        Many::ArrayPattern,
    )
}

#[cycle(patterns)]
fn array_pattern(
    checker: &mut Checker,
    bound: &mut Variables,
    at: Pos,
    e: PatternContext,
    ty: TyId,
    elements: Nodes,
    dots: bool,
) -> Result<(), RuleError>
    ensures gives { GivesBound (rules.pattern_form (env checker.old) (pattern_context_of e) ty at (ArrayPattern (nodes_of elements.entry) dots) (reverse bound.old) (state checker.old)) result bound.new checker.new }
    ensures kept { KeepsStack (stack checker.old) checker.old result checker.new }
{
    let id = checker.number()?;
    match array_of(&checker.walk.items, ty) {
        Some((element, count)) => elements_pattern(
            checker, bound, id, at, e, ty, element, count, elements, dots,
        ),
        None => Err(broken_rule(Rule::T03, at)),
    }
}

fn has_names(before: usize, after: usize) -> bool
    ensures { result ≡ not (before == after) }
{
    before != after
}

#[cycle(patterns)]
fn alternatives(
    checker: &mut Checker,
    bound: &mut Variables,
    id: NodeId,
    at: Pos,
    e: PatternContext,
    ty: TyId,
    patterns: Nodes,
) -> Result<(), RuleError>
    ensures gives { GivesBound (rules.alternatives_end id.0 at ty (reverse bound.old) (rules.each_pattern (env checker.old) (pattern_context_of e) ty (nodes_of patterns.entry) (reverse bound.old)) (state checker.old)) result bound.new checker.new }
    ensures kept { KeepsStack (stack checker.old) checker.old result checker.new }
{
    let before = bound.len();
    let count = each_pattern(checker, bound, e, ty, patterns)?;
    let binds = has_names(before, bound.len());
    obeys(Rule::T18, at, !binds)?;
    wrap_many(checker, id, at, ty, Many::OrPattern, count as usize)
}

#[cycle(patterns)]
fn or_pattern(
    checker: &mut Checker,
    bound: &mut Variables,
    at: Pos,
    e: PatternContext,
    ty: TyId,
    patterns: Nodes,
) -> Result<(), RuleError>
    ensures gives { GivesBound (rules.pattern_form (env checker.old) (pattern_context_of e) ty at (Alternatives (nodes_of patterns.entry)) (reverse bound.old) (state checker.old)) result bound.new checker.new }
    ensures kept { KeepsStack (stack checker.old) checker.old result checker.new }
{
    let id = checker.number()?;
    obeys(Rule::T20, at, are_several(patterns))?;
    alternatives(checker, bound, id, at, e, ty, patterns)
}

#[cycle(patterns)]
fn ordered_parts(
    checker: &mut Checker,
    bound: &mut Variables,
    id: NodeId,
    at: Pos,
    e: PatternContext,
    ty: TyId,
    target: PatternTarget,
    types: &PartTypes,
    parts: Nodes,
    given: u32,
    dots: bool,
) -> Result<(), RuleError>
    requires given { given ≡ rules.count_of (nodes_of parts) }
    requires types { AreFirst given (rules.fields_of checker.old.walk.items (target_in target)) types.now }
    ensures gives { GivesBound (target_end id.0 at (pattern_context_of e) ty (target_in target) (rules.parts_in_order (env checker.old) (target_in target) (nodes_of parts.entry) dots (reverse bound.old)) (state checker.old)) result bound.new checker.new }
    ensures kept { KeepsStack (stack checker.old) checker.old result checker.new }
{
    let inside = inside_of(&checker.walk.items, ty, e);
    let is_count = is_tuple_count(checker, target, given, types.count, dots);
    let count = first_patterns(checker, bound, inside, types, parts, given)?;
    ordered_end(checker, id, at, e.takes_all, ty, target, count, is_count)
}

#[cycle(patterns)]
fn parts_behind(
    checker: &mut Checker,
    bound: &mut Variables,
    id: NodeId,
    at: Pos,
    e: PatternContext,
    ty: TyId,
    target: PatternTarget,
    parts: Nodes,
    dots: bool,
) -> Result<(), RuleError>
    ensures gives { GivesBound (target_end id.0 at (pattern_context_of e) ty (target_in target) (rules.parts_in_order (env checker.old) (target_in target) (nodes_of parts.entry) dots (reverse bound.old)) (state checker.old)) result bound.new checker.new }
    ensures kept { KeepsStack (stack checker.old) checker.old result checker.new }
{
    let given = count_of(parts)?;
    let types = field_types(checker.alloc, &checker.walk.items, target, given as usize)?;
    ordered_parts(
        checker, bound, id, at, e, ty, target, &types, parts, given, dots,
    )
}

#[cycle(patterns)]
fn parts_of_target(
    checker: &mut Checker,
    bound: &mut Variables,
    at: Pos,
    e: PatternContext,
    ty: TyId,
    target: PatternTarget,
    parts: Nodes,
    dots: bool,
) -> Result<(), RuleError>
    ensures gives { GivesBound (rules.of_target at (pattern_context_of e) ty (target_in target) (rules.parts_in_order (env checker.old) (target_in target) (nodes_of parts.entry) dots (reverse bound.old)) (state checker.old)) result bound.new checker.new }
    ensures kept { KeepsStack (stack checker.old) checker.old result checker.new }
{
    let id = target_begin(checker, at, ty, target)?;
    parts_behind(checker, bound, id, at, e, ty, target, parts, dots)
}

#[cycle(patterns)]
fn parts_pattern(
    checker: &mut Checker,
    bound: &mut Variables,
    at: Pos,
    e: PatternContext,
    ty: TyId,
    path: PathForm,
    parts: Nodes,
    dots: bool,
) -> Result<(), RuleError>
    ensures gives { GivesBound (rules.pattern_form (env checker.old) (pattern_context_of e) ty at
        (PartsPattern (word_of path.entry.first) (word_of path.entry.second) (nodes_of parts.entry) dots) (reverse bound.old) (state checker.old)) result bound.new checker.new }
    ensures kept { KeepsStack (stack checker.old) checker.old result checker.new }
{
    match target_of(checker, path.first, path.second) {
        Some(target) => parts_of_target(checker, bound, at, e, ty, target, parts, dots),
        None => Err(broken_rule(Rule::T01, at)),
    }
}

#[cycle(patterns)]
fn named_parts(
    checker: &mut Checker,
    bound: &mut Variables,
    id: NodeId,
    at: Pos,
    e: PatternContext,
    ty: TyId,
    target: PatternTarget,
    parts: &[Option<FieldPart>],
    fields: Nodes,
    dots: bool,
) -> Result<(), RuleError>
    ensures gives { (v : Variant) → map (option_map part_of) parts.now ≡ parts_named v (nodes_of fields.entry) →
        GivesBound (target_end id.0 at (pattern_context_of e) ty (target_in target) (rules.parts_by_name (env checker.old) v (nodes_of fields.entry) dots (reverse bound.old)) (state checker.old)) result bound.new checker.new }
    ensures kept { KeepsStack (stack checker.old) checker.old result checker.new }
{
    let inside = inside_of(&checker.walk.items, ty, e);
    let count = field_count(&checker.walk.items, target);
    let given = field_patterns(checker, bound, inside, parts, fields)?;
    named_end(checker, id, at, e.takes_all, ty, target, given, count, dots)
}

#[cycle(patterns)]
fn fields_of_target(
    checker: &mut Checker,
    bound: &mut Variables,
    at: Pos,
    e: PatternContext,
    ty: TyId,
    target: PatternTarget,
    fields: Nodes,
    dots: bool,
) -> Result<(), RuleError>
    ensures gives { GivesBound (rules.of_target at (pattern_context_of e) ty (target_in target) (rules.parts_by_name (env checker.old) (variant_of checker.old.walk.items target) (nodes_of fields.entry) dots (reverse bound.old)) (state checker.old)) result bound.new checker.new }
    ensures kept { KeepsStack (stack checker.old) checker.old result checker.new }
{
    let parts = field_parts(checker, target, fields)?;
    let id = target_begin(checker, at, ty, target)?;
    named_parts(
        checker,
        bound,
        id,
        at,
        e,
        ty,
        target,
        parts.as_slice(),
        fields,
        dots,
    )
}

#[cycle(patterns)]
fn fields_pattern(
    checker: &mut Checker,
    bound: &mut Variables,
    at: Pos,
    e: PatternContext,
    ty: TyId,
    path: PathForm,
    fields: Nodes,
    dots: bool,
) -> Result<(), RuleError>
    ensures gives { GivesBound (rules.pattern_form (env checker.old) (pattern_context_of e) ty at
        (FieldsPattern (word_of path.entry.first) (word_of path.entry.second) (nodes_of fields.entry) dots) (reverse bound.old) (state checker.old)) result bound.new checker.new }
    ensures kept { KeepsStack (stack checker.old) checker.old result checker.new }
{
    match target_of(checker, path.first, path.second) {
        Some(target) => fields_of_target(checker, bound, at, e, ty, target, fields, dots),
        None => Err(broken_rule(Rule::T01, at)),
    }
}

/// A pattern for a place of a type, after these bindings of the same pattern.
#[cycle(patterns)]
#[tactic(auto, using(crate::proofs::Shapes::pattern_seen))]
pub fn pattern(
    checker: &mut Checker,
    bound: &mut Variables,
    e: PatternContext,
    ty: TyId,
    node: &SyntaxNode,
) -> Result<(), RuleError>
    ensures gives { GivesBound (rules.pattern (env checker.old) (pattern_context_of e) ty (syn_of node.now) (reverse bound.old) (state checker.old)) result bound.new checker.new }
    ensures kept { KeepsStack (stack checker.old) checker.old result checker.new }
{
    let at = node.at;
    match pattern_form(node) {
        PatternForm::Wild => wildcard(checker, at, ty),
        PatternForm::Bind(name) => lone_name(checker, bound, at, e, ty, name),
        PatternForm::Literal {
            is_negative,
            value,
            suffix,
        } => literal_pattern(checker, at, e, ty, is_negative, value, suffix),
        PatternForm::Truth(value) => truth_pattern(checker, at, e, ty, value),
        PatternForm::Path(path) => path_alone(checker, at, e, ty, path.first, path.second),
        PatternForm::Parts { path, parts, dots } => {
            parts_pattern(checker, bound, at, e, ty, path, parts, dots)
        }
        PatternForm::Fields { path, fields, dots } => {
            fields_pattern(checker, bound, at, e, ty, path, fields, dots)
        }
        PatternForm::Parens(inside) => pattern(checker, bound, e, ty, inside),
        PatternForm::Tuple { parts, dots } => {
            tuple_pattern(checker, bound, at, e, ty, parts, dots)
        }
        PatternForm::Array { elements, dots } => {
            array_pattern(checker, bound, at, e, ty, elements, dots)
        }
        PatternForm::Or(patterns) => or_pattern(checker, bound, at, e, ty, patterns),
        PatternForm::Other => Err(broken_rule(Rule::T20, at)),
    }
}
