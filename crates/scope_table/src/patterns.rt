//! The rows of patterns.
ghost use Rattle.std.specs.Prelude.{◌≡◌, ◌++◌, OnOk, map};
ghost use Rattle.scope_table.specs.Table as table;
ghost use Rattle.typed_tree.specs.Nodes as below;
ghost use Rattle.typed_tree.specs.View.{tree_of, form_of, field_of, nodes_from, fields_from};
ghost use Rattle.typed_tree.specs.Listed.{trees};

use crate::forms::{has_parts, nothing};
use crate::row::{MadeAround, ScopeRow};
use mir_base::{List, NoMemory, NodeId};
use std::alloc::Global;
use typed_tree::{Form, Node, NumberedField, nodes_of};

/// The row of a node.
pub fn row_of(node: NodeId, temporary: NodeId, made: MadeAround) -> ScopeRow
    ensures { result ≡ table.row node temporary made }
{
    ScopeRow {
        node,
        temporary,
        destination: made.destination,
        entry: made.entry,
    }
}

/// The rows of nodes that make nothing.
fn add_idle_nodes(
    temporary: NodeId,
    nodes: &[&Node],
    rows: &mut List<ScopeRow>,
) -> Result<(), NoMemory>
    ensures { OnOk result (rows.new ≡ rows.old ++ table.idle temporary (trees nodes.now)) }
{
    for node in nodes {
        rows.push(row_of(node.id, temporary, nothing()))?;
    }
    Ok(())
}

/// A node and those below it make nothing, unless they have been gone over.
pub fn add_other(
    alloc: Global,
    is_done: bool,
    temporary: NodeId,
    node: &Node,
    rows: &mut List<ScopeRow>,
) -> Result<(), NoMemory>
    ensures { OnOk result (rows.new ≡ rows.old
        ++ table.where_false is_done (table.idle temporary (below.nodes_of (tree_of node.now)))) }
{
    if is_done {
        return Ok(());
    }
    let nodes = nodes_of(alloc, node)?;
    add_idle_nodes(temporary, nodes.as_slice(), rows)
}

/// The nodes below a node make nothing.
fn add_idle_in(
    alloc: Global,
    temporary: NodeId,
    node: &Node,
    rows: &mut List<ScopeRow>,
) -> Result<(), NoMemory>
    ensures { OnOk result (rows.new ≡ rows.old ++ table.idle temporary (below.nodes_in (form_of node.now.form))) }
{
    let nodes = nodes_of(alloc, node)?;
    match nodes.as_slice().split_first() {
        Some((_, inside)) => add_idle_nodes(temporary, inside, rows),
        None => Ok(()),
    }
}

/// The nodes below a node make nothing, unless they have been gone over.
fn add_unless(
    alloc: Global,
    is_done: bool,
    temporary: NodeId,
    node: &Node,
    rows: &mut List<ScopeRow>,
) -> Result<(), NoMemory>
    ensures { OnOk result (rows.new ≡ rows.old
        ++ table.where_false is_done (table.idle temporary (below.nodes_in (form_of node.now.form)))) }
{
    if is_done {
        return Ok(());
    }
    add_idle_in(alloc, temporary, node, rows)
}

/// The nodes below a node make nothing, where it is asked for.
pub fn add_where(
    alloc: Global,
    is_asked: bool,
    temporary: NodeId,
    node: &Node,
    rows: &mut List<ScopeRow>,
) -> Result<(), NoMemory>
    ensures { OnOk result (rows.new ≡ rows.old
        ++ table.where_true is_asked (table.idle temporary (below.nodes_in (form_of node.now.form)))) }
{
    if is_asked {
        return add_idle_in(alloc, temporary, node, rows);
    }
    Ok(())
}

/// What a pattern itself makes, where a name makes `name`.
fn by_name(name: MadeAround, pattern: &Form) -> MadeAround
    ensures { result ≡ table.by_name name (form_of pattern.now) }
{
    match pattern {
        Form::Binding(_) => name,
        _ => nothing(),
    }
}

/// The rows of a pattern of which each name makes `name`.
#[cycle(patterns)]
pub fn add_pattern(
    alloc: Global,
    temporary: NodeId,
    name: MadeAround,
    pattern: &Node,
    rows: &mut List<ScopeRow>,
) -> Result<(), NoMemory>
    ensures { OnOk result (rows.new ≡ rows.old ++ table.pattern_rows temporary name (tree_of pattern.now)) }
{
    rows.push(row_of(pattern.id, temporary, by_name(name, &pattern.form)))?;
    add_in_pattern(alloc, temporary, name, pattern, rows)
}

/// The rows of what is in a pattern.
#[cycle(patterns)]
pub fn add_in_pattern(
    alloc: Global,
    temporary: NodeId,
    name: MadeAround,
    pattern: &Node,
    rows: &mut List<ScopeRow>,
) -> Result<(), NoMemory>
    ensures { OnOk result (rows.new ≡ rows.old ++ table.pattern_rows_in temporary name (form_of pattern.now.form)) }
{
    add_of_form(alloc, temporary, name, &pattern.form, rows)?;
    add_unless(alloc, has_parts(&pattern.form), temporary, pattern, rows)
}

/// The rows of the parts of a pattern that has parts.
#[cycle(patterns)]
fn add_of_form(
    alloc: Global,
    temporary: NodeId,
    name: MadeAround,
    form: &Form,
    rows: &mut List<ScopeRow>,
) -> Result<(), NoMemory>
    ensures { OnOk result (rows.new ≡ rows.old ++ table.part_rows temporary name (form_of form.now)) }
{
    match form {
        Form::StructPattern(fields) | Form::VariantPattern { fields, .. } => {
            add_fields(alloc, temporary, name, fields.as_slice(), rows)
        }
        Form::TuplePattern(parts) | Form::ArrayPattern(parts) => {
            add_parts(alloc, temporary, name, parts.as_slice(), rows)
        }
        _ => Ok(()),
    }
}

#[cycle(patterns)]
fn add_fields(
    alloc: Global,
    temporary: NodeId,
    name: MadeAround,
    fields: &[NumberedField],
    rows: &mut List<ScopeRow>,
) -> Result<(), NoMemory>
    ensures { OnOk result (rows.new ≡ rows.old
        ++ table.pattern_rows_of_fields temporary name (fields_from (map field_of fields.now))) }
{
    for field in fields {
        add_pattern(alloc, temporary, name, &field.value, rows)?;
    }
    Ok(())
}

#[cycle(patterns)]
fn add_parts(
    alloc: Global,
    temporary: NodeId,
    name: MadeAround,
    parts: &[Node],
    rows: &mut List<ScopeRow>,
) -> Result<(), NoMemory>
    ensures { OnOk result (rows.new ≡ rows.old
        ++ table.pattern_rows_among temporary name (nodes_from (map tree_of parts.now))) }
{
    for part in parts {
        add_pattern(alloc, temporary, name, part, rows)?;
    }
    Ok(())
}
