//! The parts that the bindings of a pattern take (The Rust Reference, "Patterns", "Binding modes").
ghost use Rattle.std.specs.Prelude.{◌≡◌, ◌++◌, OnOk, map, option_map};
ghost use Rattle.typed_tree.specs.View.{tree_of, form_of, field_of, nodes_from, fields_from};
ghost use Rattle.typing_rules.specs.Accesses as rules;
ghost use Rattle.borrow_rules.specs.AccessView.{access_in, bound_in, bound_name, place_if_any};

use crate::place::{copy_place, with_step};
use crate::{Access, AccessPlace, AccessStep, Accessed};
use mir_base::{Key, List, NoMemory};
use std::alloc::Global;
use typed_tree::{Form, Node, NumberedField, Use};

/// A part that a binding takes, with the binding's key.
#[derive(Drop)]
pub struct BoundPart {
    pub key: Key,
    pub taken: Accessed,
}

fn access_of_binding(by: Option<Use>) -> Access
    ensures { access_in result ≡ rules.access_of_binding by }
{
    match by {
        Some(Use::Move) => Access::Moves,
        _ => Access::Reads,
    }
}

/// The part that one name takes: all of what stands there.
fn add_name(
    alloc: Global,
    place: &Option<AccessPlace>,
    pattern: &Node,
    bounds: &mut List<BoundPart>,
) -> Result<(), NoMemory>
    ensures { OnOk result (map bound_in bounds.new ≡ map bound_in bounds.old ++ bound_name (place_if_any place.now) pattern.now.id.0 pattern.now.at pattern.now.by) }
{
    let taken = Accessed {
        access: access_of_binding(pattern.by),
        place: copy_place(alloc, place)?,
        root: None,
        at: pattern.at,
    };
    bounds.push(BoundPart {
        key: Key(pattern.id.0),
        taken,
    })
}

/// The parts that the names of a pattern take out of a place, which may be a temporary.
#[cycle(bindings)]
pub fn add_bound(
    alloc: Global,
    place: &Option<AccessPlace>,
    pattern: &Node,
    bounds: &mut List<BoundPart>,
) -> Result<(), NoMemory>
    ensures { OnOk result (map bound_in bounds.new ≡
        map bound_in bounds.old ++ rules.bound (place_if_any place.now) (tree_of pattern.now)) }
{
    match &pattern.form {
        Form::Binding(_) => add_name(alloc, place, pattern, bounds),
        Form::StructPattern(fields) | Form::VariantPattern { fields, .. } => {
            add_fields(alloc, place, fields.as_slice(), bounds)
        }
        Form::TuplePattern(parts) | Form::ArrayPattern(parts) => {
            add_parts(alloc, place, parts.as_slice(), bounds)
        }
        _ => Ok(()),
    }
}

/// The parts that a pattern takes out of a numbered part of a place.
#[cycle(bindings)]
fn add_part(
    alloc: Global,
    place: &Option<AccessPlace>,
    number: u32,
    pattern: &Node,
    bounds: &mut List<BoundPart>,
) -> Result<(), NoMemory>
    ensures { OnOk result (map bound_in bounds.new ≡ map bound_in bounds.old ++
        rules.bound (option_map (rules.with_step (rules.ToPart number)) (place_if_any place.now)) (tree_of pattern.now)) }
{
    let part = with_step(copy_place(alloc, place)?, AccessStep::Part(number))?;
    add_bound(alloc, &part, pattern, bounds)
}

#[cycle(bindings)]
fn add_fields(
    alloc: Global,
    place: &Option<AccessPlace>,
    fields: &[NumberedField],
    bounds: &mut List<BoundPart>,
) -> Result<(), NoMemory>
    ensures { OnOk result (map bound_in bounds.new ≡
        map bound_in bounds.old ++ rules.bound_fields (place_if_any place.now) (fields_from (map field_of fields.now))) }
{
    for field in fields {
        add_part(alloc, place, field.number, &field.value, bounds)?;
    }
    Ok(())
}

#[cycle(bindings)]
fn add_parts(
    alloc: Global,
    place: &Option<AccessPlace>,
    parts: &[Node],
    bounds: &mut List<BoundPart>,
) -> Result<(), NoMemory>
    ensures { OnOk result (map bound_in bounds.new ≡
        map bound_in bounds.old ++ rules.bound_parts (place_if_any place.now) 0 (nodes_from (map tree_of parts.now))) }
{
    let mut number: u32 = 0;
    for pattern in parts {
        add_part(alloc, place, number, pattern, bounds)?;
        let Some(next) = number.checked_add(1) else {
            return Err(NoMemory::past_32_bits());
        };
        number = next;
    }
    Ok(())
}
