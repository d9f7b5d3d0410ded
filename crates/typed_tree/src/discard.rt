//! Typed nodes that are let go.
//!
//! A value that ends is dropped where it ends, also within a call that fails with it, and that each of its forms is
//! dropped is then proved in the crate where it does. It is proved here, once, for all crates that hand their nodes on.
ghost use Rattle.std.specs.Prelude.{◌≡◌, ◌∷◌, ◌++◌, [], IfOk, OnOk};

use crate::{Form, Node, NumberedField, Typed};
use mir_base::{List, NoMemory};
use std::alloc::Global;

/// A node on the heap. It is let go where memory is wanted.
///
/// # Errors
///
/// [`NoMemory`] where memory is wanted.
pub fn boxed_node(alloc: Global, node: Node) -> Result<Box<Node, Global>, NoMemory>
    ensures { IfOk result (λ part. part.value ≡ node) }
{
    match Box::new(alloc, node) {
        Ok(part) => Ok(part),
        Err(error) => {
            drop(error);
            Err(NoMemory)
        }
    }
}

/// Makes a node the last one. It is let go where memory is wanted.
///
/// # Errors
///
/// [`NoMemory`] where memory is wanted.
pub fn push_node(nodes: &mut List<Node>, node: Node) -> Result<(), NoMemory>
    ensures { OnOk result (nodes.new ≡ nodes.old ++ node ∷ []) }
{
    nodes.push(node)
}

/// Makes a field the last one. It is let go where memory is wanted.
///
/// # Errors
///
/// [`NoMemory`] where memory is wanted.
pub fn push_field(fields: &mut List<NumberedField>, field: NumberedField) -> Result<(), NoMemory>
    ensures { OnOk result (fields.new ≡ fields.old ++ field ∷ []) }
{
    fields.push(field)
}

/// A form is let go.
pub fn discard_form(form: Form) {
    drop(form);
}

/// A node is let go.
pub fn discard_node(node: Box<Node, Global>) {
    drop(node);
}

/// Nodes are let go.
pub fn discard_nodes(nodes: List<Node>) {
    drop(nodes);
}

/// Fields are let go.
pub fn discard_fields(fields: List<NumberedField>) {
    drop(fields);
}

impl Typed {
    /// The program is let go.
    pub fn discard(self) {
        drop(self);
    }
}
