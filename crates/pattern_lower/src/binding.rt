ghost use Rattle.std.specs.Prelude.{◌≡◌, ◌++◌, IfOk, OnOk, map};
ghost use Rattle.cfg_graph.specs.Places.{named};
ghost use Rattle.mir_ty.specs.ItemTable.{ItemTable};
ghost use Rattle.src_meaning.specs.Shape.{shape, in_fields, in_parts, moves};
ghost use Rattle.typed_tree.specs.View.{tree_of, field_of, nodes_from, fields_from};
ghost use Rattle.pattern_lower.specs.Seen.{bound_of, to_field};

use crate::Binding;
use crate::part::{copy_place, next, part_of, step_to};
use cfg_graph::{Place, Step};
use mir_base::{Key, List, NoMemory};
use std::alloc::Global;
use typed_tree::{Form, Node, NumberedField, Use};

/// The names of a pattern for a place, in the order in which they are written: the entry that each makes, and the part
/// that it moves or copies into it. Alternatives have no names, nor has a node that is no pattern.
///
/// It costs and takes memory by the number of nodes and, for each, by the length of its place.
///
/// # Errors
///
/// [`NoMemory`] where memory is wanted.
pub fn bindings(alloc: Global, pattern: &Node, place: &Place) -> Result<List<Binding>, NoMemory>
    ensures bindings { IfOk result (λ found. (items : ItemTable) →
        map bound_of found ≡ (shape items (tree_of pattern.now)).bindings (named place.now)) }
{
    let mut found = List::new(alloc);
    add_bindings(alloc, pattern, place, &mut found)?;
    Ok(found)
}

/// How a name takes its part.
fn by_of(by: Option<Use>) -> Use
    ensures { moves (Some result) ≡ moves by }
{
    match by {
        Some(Use::Move) => Use::Move,
        _ => Use::Copy,
    }
}

/// A pattern's names are put behind those that were found before.
#[cycle(bindings)]
fn add_bindings(
    alloc: Global,
    pattern: &Node,
    place: &Place,
    found: &mut List<Binding>,
) -> Result<(), NoMemory>
    ensures { OnOk result ((items : ItemTable) →
        map bound_of found.new ≡
        map bound_of found.old ++ (shape items (tree_of pattern.now)).bindings (named place.now)) }
{
    match &pattern.form {
        Form::Binding(_) => found.push(Binding {
            key: Key(pattern.id.0),
            ty: pattern.ty,
            from: copy_place(alloc, place)?,
            by: by_of(pattern.by),
        }),
        Form::StructPattern(fields) => add_of_fields(alloc, None, fields.as_slice(), place, found),
        Form::VariantPattern {
            variant,
            fields,
            ..
        } => add_of_fields(alloc, Some(*variant), fields.as_slice(), place, found),
        Form::TuplePattern(parts) | Form::ArrayPattern(parts) => {
            add_of_parts(alloc, parts.as_slice(), place, found)
        }
        _ => Ok(()),
    }
}

/// The names of the fields of a struct, or of those of a variant.
#[cycle(bindings)]
fn add_of_fields(
    alloc: Global,
    variant: Option<u32>,
    fields: &[NumberedField],
    place: &Place,
    found: &mut List<Binding>,
) -> Result<(), NoMemory>
    ensures { OnOk result ((items : ItemTable) →
        map bound_of found.new ≡ map bound_of found.old
        ++ (in_fields items (fields_from (map field_of fields.now)) (to_field variant)).bindings (named place.now)) }
{
    for field in fields {
        let part = part_of(alloc, place, step_to(variant, field.number))?;
        add_bindings(alloc, &field.value, &part, found)?;
    }
    Ok(())
}

/// The names of the parts of a tuple or an array.
#[cycle(bindings)]
fn add_of_parts(
    alloc: Global,
    parts: &[Node],
    place: &Place,
    found: &mut List<Binding>,
) -> Result<(), NoMemory>
    ensures { OnOk result ((items : ItemTable) →
        map bound_of found.new ≡ map bound_of found.old
        ++ (in_parts items (nodes_from (map tree_of parts.now)) 0).bindings (named place.now)) }
{
    let mut number: u32 = 0;
    for part in parts {
        let at = part_of(alloc, place, Step::Part(number))?;
        add_bindings(alloc, part, &at, found)?;
        number = next(number)?;
    }
    Ok(())
}
