//! A node whose code is made, and what the code is wanted for.
ghost use Rattle.std.specs.Prelude.{◌≡◌};
ghost use Rattle.cfg_graph.specs.Places.{named};
ghost use Rattle.src_meaning.specs.Shape.{head};
ghost use Rattle.store_model.specs.Places.Place as places;
ghost use Rattle.lower_code.specs.Forms as forms;
ghost use Rattle.lower_code.specs.View.{destination_of, head_of, wanted_of};
ghost use Rattle.lower_code.specs.Wanted.{own_in, made_into};

use crate::loops_and_guards::whole;
use crate::sequences::key_in;
use crate::{Destination, LoopsAndGuards};
use cfg_graph::Place;
use mir_base::{Key, NodeId};
use mir_ty::TyId;
use std::alloc::Global;
use typed_tree::{Node, Use};

/// A node's number, type and use.
#[derive(Clone, Copy)]
pub struct NodeHead {
    pub id: NodeId,
    pub ty: TyId,
    pub by: Option<Use>,
}

/// What the code of a node is wanted for.
#[derive(Clone, Copy)]
pub enum Category {
    /// A value in a destination; in a scope for temporaries of its own, or in the innermost scope.
    Value { own: bool, to: Destination },
    /// A value under the node's own key.
    UnderOwnKey,
    /// An operand: a value under the node's own key, which is an entry of the innermost scope.
    AsOperand,
    /// A value in a scope of its own, behind which the scopes are those before it.
    Alone(Destination),
    /// Such a value under the node's own key.
    AloneUnderOwnKey,
    /// The place of the node; a temporary where it is none.
    AsPlace,
}

/// A node whose code is made: what it is in, whether it is a scope for temporaries of its own, and where its value is
/// made.
#[derive(Clone, Copy)]
pub struct Context<'a> {
    pub head: NodeHead,
    pub around: LoopsAndGuards<'a>,
    pub own: bool,
    pub to: Destination,
}

/// The head of a node.
pub fn head_at(node: &Node) -> NodeHead
    ensures { head_of result ≡ head node.now.id.0 node.now.ty node.now.by }
{
    NodeHead {
        id: node.id,
        ty: node.ty,
        by: node.by,
    }
}

/// Whether a node is a scope for temporaries of its own.
pub fn is_own_scope(wanted: Category) -> bool
    ensures { result ≡ own_in (wanted_of wanted) }
{
    match wanted {
        Category::Value { own, .. } => own,
        Category::Alone(_) | Category::AloneUnderOwnKey => true,
        Category::UnderOwnKey | Category::AsOperand | Category::AsPlace => false,
    }
}

/// Where the value of a node is made.
pub fn destination_in(wanted: Category, id: NodeId) -> Destination
    ensures { destination_of result ≡ made_into (wanted_of wanted) id.0 }
{
    match wanted {
        Category::Value { to, .. } | Category::Alone(to) => to,
        _ => Destination::Into(Key(id.0)),
    }
}

/// The entry in which a value is made first.
pub fn result_place(alloc: Global, to: Destination) -> Place
    ensures { named result ≡ places.whole_local (forms.key_in (destination_of to)) }
{
    whole(alloc, key_in(to))
}
