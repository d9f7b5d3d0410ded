//! The nodes that were made last, as the fields of a value around them.
ghost use Rattle.std.specs.Prelude.{◌≡◌, ◌∷◌, [], length, map, reverse, IfErr, IfOk, OnOk};
ghost use Rattle.mir_base.specs.declared.rule.RuleError.{RuleError};
ghost use Rattle.typeck_checker.specs.Lists.{below_all, last_nodes};
ghost use Rattle.typeck_calls.specs.StructFields.{number_in, numbered_by};
ghost use Rattle.typed_tree.specs.Tree as tree;
ghost use Rattle.typed_tree.specs.Tree.{a_field};
ghost use Rattle.typed_tree.specs.View.{field_of, fields_from};
ghost use Rattle.typing_rules.specs.Places.{a_node_of};
ghost use Rattle.typeck_checker.specs.Stand.{Stays, below, stack, state, top};

use mir_base::{List, NoMemory, NodeId, Pos, RuleError};
use mir_ty::TyId;
use typeck_checker::Checker;
use typed_tree::{Form, NumberedField, discard_fields, push_field};

/// The number at a place; 0 where there is none.
fn number_at(given: &[Option<u32>], place: usize) -> u32
    ensures { result ≡ number_in given.now place }
{
    match given.get(place) {
        Some(Some(number)) => *number,
        _ => 0,
    }
}

fn take_one(
    checker: &mut Checker,
    taken: &mut List<NumberedField>,
    number: u32,
) -> Result<(), RuleError>
    ensures made { OnOk result (fields_from (map field_of (reverse taken.new)) ≡
        a_field number (top (stack checker.old)) (fields_from (map field_of (reverse taken.old)))) }
    ensures left { OnOk result (stack checker.new ≡ below (stack checker.old)) }
    ensures state { OnOk result (state checker.new ≡ state checker.old) }
    ensures place { OnOk result (Stays checker.old checker.new) }
    ensures short { IfErr result (λ e. e ≡ RuleError.Memory) }
{
    let value = checker.pop()?;
    match push_field(taken, NumberedField { number, value }) {
        Ok(()) => Ok(()),
        Err(NoMemory) => Err(RuleError::Memory),
    }
}

fn reverse_fields(fields: List<NumberedField>) -> List<NumberedField>
    ensures { result ≡ reverse fields }
{
    let mut fields = fields.into_vec();
    fields.reverse();
    List::from_vec(fields)
}

/// The last nodes, as many as numbers are given, the last one first, taken off onto none; a number that is none stands as 0.
#[tactic(auto, using(crate::proofs::FieldTurns::field_more, crate::proofs::FieldTurns::below_more))]
fn take_each(
    checker: &mut Checker,
    taken: &mut List<NumberedField>,
    given: &[Option<u32>],
) -> Result<(), RuleError>
    requires { taken.now ≡ [] }
    ensures made { OnOk result (fields_from (map field_of (reverse taken.new)) ≡
        numbered_by given.now (last_nodes (length given.now) (stack checker.old))) }
    ensures left { OnOk result (stack checker.new ≡ below_all (length given.now) (stack checker.old)) }
    ensures state { OnOk result (state checker.new ≡ state checker.old) }
    ensures place { OnOk result (Stays checker.old checker.new) }
    ensures short { IfErr result (λ e. e ≡ RuleError.Memory) }
{
    let count = given.len();
    for back in 0..count {
        take_one(checker, taken, number_at(given, count - 1 - back))?;
    }
    Ok(())
}

/// The last nodes, as many as numbers are given, the first of them first, taken off; a number that is none stands as 0.
fn take_fields(
    checker: &mut Checker,
    given: &[Option<u32>],
) -> Result<List<NumberedField>, RuleError>
    ensures taken { IfOk result (λ fields. fields_from (map field_of fields) ≡ numbered_by given.now (last_nodes (length given.now) (stack checker.old))) }
    ensures left { OnOk result (stack checker.new ≡ below_all (length given.now) (stack checker.old)) }
    ensures state { OnOk result (state checker.new ≡ state checker.old) }
    ensures place { OnOk result (Stays checker.old checker.new) }
    ensures short { IfErr result (λ e. e ≡ RuleError.Memory) }
{
    let mut taken = checker.list_for(given.len())?;
    match take_each(checker, &mut taken, given) {
        Ok(()) => Ok(reverse_fields(taken)),
        Err(error) => {
            discard_fields(taken);
            Err(error)
        }
    }
}

/// A value of a struct or a variant, without a use, whose fields, of these numbers, are the last nodes.
pub fn wrap_make(
    checker: &mut Checker,
    id: NodeId,
    at: Pos,
    ty: TyId,
    adt: u32,
    variant: u32,
    given: &[Option<u32>],
) -> Result<(), RuleError>
    ensures made { OnOk result (stack checker.new ≡
        a_node_of id.0 at ty (tree.Make adt variant (numbered_by given.now (last_nodes (length given.now) (stack checker.old))))
        ∷ below_all (length given.now) (stack checker.old)) }
    ensures state { OnOk result (state checker.new ≡ state checker.old) }
    ensures place { OnOk result (Stays checker.old checker.new) }
    ensures short { IfErr result (λ e. e ≡ RuleError.Memory) }
{
    let fields = take_fields(checker, given)?;
    checker.put(
        id,
        at,
        ty,
        Form::Make {
            adt,
            variant,
            fields,
        },
    )
}
