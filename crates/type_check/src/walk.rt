//! All items of a text, in text order.
ghost use Rattle.std.specs.Prelude.{◌≡◌, [], OnOk};
ghost use Rattle.src_ast.specs.Seen.{syn_of};
ghost use Rattle.src_tree.specs.View.{parts_in, piece_of};
ghost use Rattle.typeck_checker.specs.Stand.{GivesValue, ChangesNothing, env, state};
ghost use Rattle.typing_rules.specs.Items.{item_syns, items_of};
ghost use Rattle.typing_rules.specs.Program as rules;
ghost use Rattle.typeck_items.specs.Had.{had};
ghost use Rattle.type_check.specs.Forms.{item_and_bodies, piece_and_bodies};

use crate::bodies::bodies_of;
use mir_base::RuleError;
use src_tree::{NodePiece, SyntaxNode};
use typeck_checker::Checker;
use typeck_items::{Before, NamePairs, item_rules};

/// One item, and then its bodies.
fn item(checker: &mut Checker, before: &mut Before, node: &SyntaxNode) -> Result<(), RuleError>
    requires { (env checker.old).variables ≡ [] }
    ensures gives { GivesValue (λ u. had before.new) (item_and_bodies (env checker.old) (had before.old) (syn_of node.now) (state checker.old)) result checker.new }
    ensures same { OnOk result (ChangesNothing checker.old checker.new) }
{
    item_rules(checker, before, node)?;
    bodies_of(checker, node)
}

#[tactic(auto, using(crate::proofs::EachItem::at_token, crate::proofs::EachItem::at_node))]
fn piece_of_text(
    checker: &mut Checker,
    before: &mut Before,
    piece: &NodePiece,
) -> Result<(), RuleError>
    requires { (env checker.old).variables ≡ [] }
    ensures gives { GivesValue (λ u. had before.new) (piece_and_bodies (env checker.old) (had before.old) (piece_of piece.now) (state checker.old)) result checker.new }
    ensures same { OnOk result (ChangesNothing checker.old checker.new) }
{
    match piece {
        NodePiece::Node(node) => item(checker, before, node),
        NodePiece::Token(_) => Ok(()),
    }
}

/// All items of a text: of each its head, and then its bodies.
pub fn all_items(checker: &mut Checker, pieces: &[NodePiece]) -> Result<(), RuleError>
    requires { (env checker.old).variables ≡ [] }
    ensures gives { GivesValue (λ u. u) (rules.all_items (env checker.old) (record { methods = []; impls = [] }) (item_syns (items_of (parts_in pieces.now))) (state checker.old)) result checker.new }
    ensures same { OnOk result (ChangesNothing checker.old checker.new) }
{
    let mut before = Before {
        methods: NamePairs::new(checker.alloc),
        impls: NamePairs::new(checker.alloc),
    };
    for piece in pieces {
        piece_of_text(checker, &mut before, piece)?;
    }
    Ok(())
}
