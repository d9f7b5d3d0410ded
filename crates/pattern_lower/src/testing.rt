ghost use Rattle.std.specs.Prelude.{◌≡◌, ◌++◌, IfOk, OnOk, map};
ghost use Rattle.cfg_graph.specs.Places.{named};
ghost use Rattle.src_meaning.specs.Shape.{shape, in_fields, in_parts, alternatives_at, kind_of};
ghost use Rattle.typed_tree.specs.View.{tree_of, field_of, nodes_from, fields_from};
ghost use Rattle.pattern_lower.specs.Seen.{test_of, tests_in, listed, listed_alternatives, to_field};

use crate::Test;
use crate::part::{copy_place, next, part_of, step_to};
use cfg_graph::{Place, Step};
use mir_base::{IntKind, List, NoMemory};
use mir_ty::{Items, Ty, TyId};
use std::alloc::Global;
use typed_tree::{Form, Node, NumberedField};

/// The integer type of a literal, and `i32` where it has none.
fn kind_of_ty(items: &Items, ty: TyId) -> IntKind
    ensures { result ≡ kind_of items.now ty }
{
    match items.ty(ty) {
        Some(Ty::Int(kind)) => *kind,
        _ => IntKind::I32,
    }
}

/// The tests of a pattern for a place, in the order in which they are made: a variant before its parts, parts in the
/// order in which they are written. A name, `_`, a struct and an enum with one variant are no tests themselves. Every
/// test has the number of the node that makes it. A node that is no pattern has no tests.
///
/// It costs and takes memory by the number of nodes and, for each, by the length of its place.
///
/// # Errors
///
/// [`NoMemory`] where memory is wanted.
#[tactic(auto, using(crate::proofs::Following::from_listed))]
pub fn tests(
    alloc: Global,
    items: &Items,
    pattern: &Node,
    place: &Place,
) -> Result<List<Test>, NoMemory>
    ensures tests { IfOk result (λ found.
        tests_in found ≡ (shape items.now (tree_of pattern.now)).tests (named place.now)) }
{
    let mut found = List::new(alloc);
    add_tests(alloc, items, pattern, place, &mut found)?;
    Ok(found)
}

/// A pattern's tests are put behind those that were found before.
#[cycle(tests)]
#[tactic(auto, using(crate::proofs::Following::listed_behind, crate::proofs::Following::from_listed_alternatives))]
fn add_tests(
    alloc: Global,
    items: &Items,
    pattern: &Node,
    place: &Place,
    found: &mut List<Test>,
) -> Result<(), NoMemory>
    ensures { OnOk result (map test_of found.new ≡
        map test_of found.old ++ listed ((shape items.now (tree_of pattern.now)).tests (named place.now))) }
{
    let node = pattern.id;
    match &pattern.form {
        Form::NumberPattern(value) => found.push(Test::Equal {
            node,
            at: copy_place(alloc, place)?,
            value: *value,
            kind: kind_of_ty(items, pattern.ty),
        }),
        Form::TruthPattern(value) => found.push(Test::Truth {
            node,
            at: copy_place(alloc, place)?,
            value: *value,
        }),
        Form::StructPattern(fields) => {
            add_of_fields(alloc, items, None, fields.as_slice(), place, found)
        }
        Form::VariantPattern {
            variant,
            is_test,
            fields,
        } => {
            if *is_test {
                found.push(Test::Variant {
                    node,
                    at: copy_place(alloc, place)?,
                    number: *variant,
                })?;
            }
            add_of_fields(
                alloc,
                items,
                Some(*variant),
                fields.as_slice(),
                place,
                found,
            )
        }
        Form::TuplePattern(parts) | Form::ArrayPattern(parts) => {
            add_of_parts(alloc, items, parts.as_slice(), place, found)
        }
        Form::OrPattern(alternatives) => {
            let any = tests_of_each(alloc, items, alternatives.as_slice(), place)?;
            found.push(Test::Any(any))
        }
        _ => Ok(()),
    }
}

/// The tests of the fields of a struct, or of those of a variant.
#[cycle(tests)]
#[tactic(auto, using(crate::proofs::Following::listed_behind))]
fn add_of_fields(
    alloc: Global,
    items: &Items,
    variant: Option<u32>,
    fields: &[NumberedField],
    place: &Place,
    found: &mut List<Test>,
) -> Result<(), NoMemory>
    ensures { OnOk result
        (map test_of found.new ≡ map test_of found.old ++ listed
        ((in_fields items.now (fields_from (map field_of fields.now)) (to_field variant)).tests (named place.now))) }
{
    for field in fields {
        let part = part_of(alloc, place, step_to(variant, field.number))?;
        add_tests(alloc, items, &field.value, &part, found)?;
    }
    Ok(())
}

/// The tests of the parts of a tuple or an array.
#[cycle(tests)]
#[tactic(auto, using(crate::proofs::Following::listed_behind))]
fn add_of_parts(
    alloc: Global,
    items: &Items,
    parts: &[Node],
    place: &Place,
    found: &mut List<Test>,
) -> Result<(), NoMemory>
    ensures { OnOk result
        (map test_of found.new ≡ map test_of found.old ++ listed
        ((in_parts items.now (nodes_from (map tree_of parts.now)) 0).tests (named place.now))) }
{
    let mut number: u32 = 0;
    for part in parts {
        let at = part_of(alloc, place, Step::Part(number))?;
        add_tests(alloc, items, part, &at, found)?;
        number = next(number)?;
    }
    Ok(())
}

/// The tests of each alternative.
#[cycle(tests)]
fn tests_of_each(
    alloc: Global,
    items: &Items,
    alternatives: &[Node],
    place: &Place,
) -> Result<List<List<Test>>, NoMemory>
    ensures { IfOk result (λ found. map tests_in found ≡ listed_alternatives
        (alternatives_at items.now (nodes_from (map tree_of alternatives.now)) (named place.now))) }
{
    let mut any = List::new(alloc);
    for alternative in alternatives {
        let mut found = List::new(alloc);
        add_tests(alloc, items, alternative, place, &mut found)?;
        any.push(found)?;
    }
    Ok(any)
}
