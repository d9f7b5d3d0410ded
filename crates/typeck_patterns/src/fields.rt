//! How the pattern of a struct or a variant ends, once its parts are checked: their nodes are the last ones.
ghost use Rattle.typeck_patterns.specs.NodeEnds.{known_node, target_node, tested_node};
ghost use Rattle.std.specs.Prelude.{◌≡◌, ◌∷◌, map, reverse, IfErr, IfOk, OnOk};
ghost use Rattle.mir_base.specs.declared.rule.RuleError.{RuleError};
ghost use Rattle.typed_tree.specs.Tree.{a_field};
ghost use Rattle.typed_tree.specs.View.{field_of, fields_from, form_of};
ghost use Rattle.typing_rules.specs.Patterns as rules;
ghost use Rattle.typing_rules.specs.Places.{a_node_of};
ghost use Rattle.typeck_patterns.specs.Fields.{below_given, below_if, fields_on, last_fields, with_last};
ghost use Rattle.typeck_patterns.specs.Targets.{target_of as target_in};
ghost use Rattle.typeck_checker.specs.Stand.{Gives, KeepsStack, Stays, below, stack, state, top};

use crate::targets::{PatternTarget, is_test};
use mir_base::{List, NoMemory, NodeId, Pos, Rule, RuleError};
use mir_ty::{Items, TyId};
use typeck_checker::Checker;
use typeck_env::is_enum;
use typeck_heads::obeys;
use typed_tree::{Form, NumberedField, Use, discard_fields, push_field};

fn take_one(
    checker: &mut Checker,
    taken: &mut List<NumberedField>,
    number: u32,
) -> Result<(), RuleError>
    ensures made { OnOk result (fields_from (map field_of (reverse taken.new)) ≡
        a_field number (top (stack checker.old)) (fields_from (map field_of (reverse taken.old)))) }
    ensures left { OnOk result (stack checker.new ≡ below (stack checker.old)) }
    ensures state { OnOk result (state checker.new ≡ state checker.old) }
    ensures place { OnOk result (Stays checker.old checker.new) }
    ensures short { IfErr result (λ e. e ≡ RuleError.Memory) }
{
    let value = checker.pop()?;
    match push_field(taken, NumberedField { number, value }) {
        Ok(()) => Ok(()),
        Err(NoMemory) => Err(RuleError::Memory),
    }
}

fn take_if(
    checker: &mut Checker,
    taken: &mut List<NumberedField>,
    number: Option<u32>,
) -> Result<(), RuleError>
    ensures made { OnOk result (fields_from (map field_of (reverse taken.new)) ≡
        with_last number (stack checker.old) (fields_from (map field_of (reverse taken.old)))) }
    ensures left { OnOk result (stack checker.new ≡ below_if number (stack checker.old)) }
    ensures state { OnOk result (state checker.new ≡ state checker.old) }
    ensures place { OnOk result (Stays checker.old checker.new) }
    ensures short { IfErr result (λ e. e ≡ RuleError.Memory) }
{
    match number {
        Some(number) => take_one(checker, taken, number),
        None => Ok(()),
    }
}

fn reverse_fields(fields: List<NumberedField>) -> List<NumberedField>
    ensures { result ≡ reverse fields }
{
    let mut fields = fields.into_vec();
    fields.reverse();
    List::from_vec(fields)
}

/// The fields of these numbers, if they are, whose nodes are the last ones, the last one first, taken off onto others.
fn take_each(
    checker: &mut Checker,
    taken: &mut List<NumberedField>,
    given: List<Option<u32>>,
) -> Result<(), RuleError>
    ensures made { OnOk result (fields_from (map field_of (reverse taken.new)) ≡
        fields_on (reverse given) (stack checker.old) (fields_from (map field_of (reverse taken.old)))) }
    ensures left { OnOk result (stack checker.new ≡ below_given given (stack checker.old)) }
    ensures state { OnOk result (state checker.new ≡ state checker.old) }
    ensures place { OnOk result (Stays checker.old checker.new) }
    ensures short { IfErr result (λ e. e ≡ RuleError.Memory) }
{
    let mut given = given;
    while let Some(number) = given.pop() {
        take_if(checker, taken, number)?;
    }
    Ok(())
}

/// The fields of these numbers, if they are, whose nodes are the last ones, taken off.
fn take_fields(
    checker: &mut Checker,
    given: List<Option<u32>>,
) -> Result<List<NumberedField>, RuleError>
    ensures taken { IfOk result (λ fields. fields_from (map field_of fields) ≡ last_fields given (stack checker.old)) }
    ensures left { OnOk result (stack checker.new ≡ below_given given (stack checker.old)) }
    ensures state { OnOk result (state checker.new ≡ state checker.old) }
    ensures place { OnOk result (Stays checker.old checker.new) }
    ensures short { IfErr result (λ e. e ≡ RuleError.Memory) }
{
    let mut taken = checker.list_for(given.len())?;
    match take_each(checker, &mut taken, given) {
        Ok(()) => Ok(reverse_fields(taken)),
        Err(error) => {
            discard_fields(taken);
            Err(error)
        }
    }
}

fn form_of_target(items: &Items, target: PatternTarget, fields: List<NumberedField>) -> Form
    ensures { form_of result ≡ rules.parts_form items.now (target_in target) (fields_from (map field_of fields)) }
{
    if is_enum(items, target.adt) {
        Form::VariantPattern {
            variant: target.variant,
            is_test: is_test(items, target),
            fields,
        }
    } else {
        Form::StructPattern(fields)
    }
}

fn put_target(
    checker: &mut Checker,
    id: NodeId,
    at: Pos,
    ty: TyId,
    target: PatternTarget,
    given: List<Option<u32>>,
) -> Result<(), RuleError>
    ensures made { OnOk result (stack checker.new ≡
        a_node_of id.0 at ty (rules.parts_form checker.old.walk.items (target_in target) (last_fields given (stack checker.old)))
        ∷ below_given given (stack checker.old)) }
    ensures state { OnOk result (state checker.new ≡ state checker.old) }
    ensures place { OnOk result (Stays checker.old checker.new) }
    ensures short { IfErr result (λ e. e ≡ RuleError.Memory) }
{
    let fields = take_fields(checker, given)?;
    let form = form_of_target(&checker.walk.items, target, fields);
    checker.put(id, at, ty, form)
}

fn put_tested(
    checker: &mut Checker,
    id: NodeId,
    at: Pos,
    ty: TyId,
    target: PatternTarget,
    given: List<Option<u32>>,
) -> Result<(), RuleError>
    ensures made { OnOk result (stack checker.new ≡
        rules.tested_if (rules.is_test checker.old.walk.items (target_in target))
        (a_node_of id.0 at ty (rules.parts_form checker.old.walk.items (target_in target) (last_fields given (stack checker.old))))
        ∷ below_given given (stack checker.old)) }
    ensures state { OnOk result (state checker.new ≡ state checker.old) }
    ensures place { OnOk result (Stays checker.old checker.new) }
    ensures short { IfErr result (λ e. e ≡ RuleError.Memory) }
{
    let is_a_test = is_test(&checker.walk.items, target);
    put_target(checker, id, at, ty, target, given)?;
    if is_a_test {
        checker.use_last(Use::Test)
    } else {
        Ok(())
    }
}

fn test_end(
    checker: &mut Checker,
    id: NodeId,
    at: Pos,
    takes_all: bool,
    ty: TyId,
    target: PatternTarget,
    given: List<Option<u32>>,
) -> Result<(), RuleError>
    ensures gives { Gives (tested_node id.0 at takes_all ty (target_in target) (last_fields given (stack checker.old)) (state checker.old)) result checker.new }
    ensures kept { KeepsStack (below_given given (stack checker.old)) checker.old result checker.new }
{
    let is_a_test = is_test(&checker.walk.items, target);
    obeys(Rule::T18, at, !(takes_all && is_a_test))?;
    put_tested(checker, id, at, ty, target, given)
}

fn known_end(
    checker: &mut Checker,
    id: NodeId,
    at: Pos,
    takes_all: bool,
    ty: TyId,
    target: PatternTarget,
    given: List<Option<u32>>,
    is_known: bool,
) -> Result<(), RuleError>
    ensures gives { Gives (known_node id.0 at takes_all ty (target_in target) (last_fields given (stack checker.old)) is_known (state checker.old)) result checker.new }
    ensures kept { KeepsStack (below_given given (stack checker.old)) checker.old result checker.new }
{
    obeys(Rule::T12, at, is_known)?;
    test_end(checker, id, at, takes_all, ty, target, given)
}

/// The pattern of a struct or a variant, whose parts, of these numbers, are the last nodes; `is_count` where there are
/// as many as there have to be, `is_known` where each name is one of a field.
pub fn target_end(
    checker: &mut Checker,
    id: NodeId,
    at: Pos,
    takes_all: bool,
    ty: TyId,
    target: PatternTarget,
    given: List<Option<u32>>,
    is_count: bool,
    is_known: bool,
) -> Result<(), RuleError>
    ensures gives { Gives (target_node id.0 at takes_all ty (target_in target) (last_fields given (stack checker.old)) is_count is_known (state checker.old)) result checker.new }
    ensures kept { KeepsStack (below_given given (stack checker.old)) checker.old result checker.new }
{
    obeys(Rule::T04, at, is_count)?;
    known_end(checker, id, at, takes_all, ty, target, given, is_known)
}
