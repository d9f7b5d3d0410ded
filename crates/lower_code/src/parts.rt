//! Destinations, entries and operands of nodes.
ghost use Rattle.std.specs.Prelude.{◌≡◌, ℕ, OnOk};
ghost use Rattle.cfg_meaning.specs.Actions.{operand_of};
ghost use Rattle.src_meaning.specs.Evaluation.{to_own_key};
ghost use Rattle.src_meaning.specs.Forms as source;
ghost use Rattle.src_meaning.specs.Forms.{coerced, is_never, moved};
ghost use Rattle.src_meaning.specs.Shape.{head};
ghost use Rattle.lower_code.specs.Forms as forms;
ghost use Rattle.lower_code.specs.Ops.{onto};
ghost use Rattle.lower_code.specs.View.{ops_of, entry_of, destination_of};

use crate::loops_and_guards::whole;
use crate::sequences::{delivers, key_in};
use crate::{Action, Code, Destination, Entry};
use cfg_graph::{Operand, Stmt};
use mir_base::{Key, NoMemory, NodeId};
use mir_ty::{Items, Ty, TyId};
use std::alloc::Global;
use typed_tree::Node;

/// Whether a type is `!`.
pub fn is_never_ty(items: &Items, ty: TyId) -> bool
    ensures { result ≡ is_never items.now ty }
{
    matches!(items.ty(ty), Some(Ty::Never))
}

/// What a node of type `!` makes is made nowhere, so it goes to the node's own key.
pub fn own_destination(items: &Items, node: &Node, to: Destination) -> Destination
    ensures { destination_of result ≡ to_own_key (is_never items.now node.now.ty) node.now.id.0 (destination_of to) }
{
    if is_never_ty(items, node.ty) {
        Destination::Into(Key(node.id.0))
    } else {
        to
    }
}

/// A box made in its own entry, and then coerced.
pub fn coerced_to(key: NodeId, trait_no: u32, to: Destination) -> Destination
    ensures { destination_of result ≡ coerced key.0 trait_no (destination_of to) }
{
    match to {
        Destination::Into(to) | Destination::Coerced { to, .. } => Destination::Coerced {
            key: Key(key.0),
            trait_no,
            to,
        },
    }
}

/// The entry of a node.
pub fn entry_at(node: &Node) -> Entry
    ensures { entry_of result ≡ source.entry_of (head node.now.id.0 node.now.ty node.now.by) }
{
    Entry {
        key: Key(node.id.0),
        ty: node.ty,
    }
}

/// What stands under the key of a node, moved out of it.
pub fn moved_from(alloc: Global, key: NodeId) -> Operand
    ensures { (node : ℕ) → operand_of node result ≡ moved node key.0 }
{
    Operand::Moved(whole(alloc, Key(key.0)))
}

/// `()` goes to the destination of a node.
pub fn put_unit(alloc: Global, id: NodeId, to: Destination, code: &mut Code) -> Result<(), NoMemory>
    ensures { OnOk result (ops_of code.new ≡ onto (forms.put_unit id.0 (destination_of to)) (ops_of code.old)) }
{
    let action = Action::Stmt(Stmt::Put(whole(alloc, key_in(to)), Operand::Unit));
    delivers(alloc, id, id, action, to, code)
}
