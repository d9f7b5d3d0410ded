//! The bodies of a node, in text order.
ghost use Rattle.std.specs.Prelude.{◌≡◌, ◌≤◌, length, None};
ghost use Rattle.typeck_heads.specs.Answers.{Answers};
ghost use Rattle.typeck_heads.specs.Counts.{count_of};
ghost use Rattle.typeck_heads.specs.Forms.{known_of, answered, body_by, closure_by, own_sig, bodies_in_piece};
ghost use Rattle.src_ast.specs.Seen.{nodes_of, syn_of, maybe_of, word_of};
ghost use Rattle.src_ast.specs.Sorts.{expression_part};
ghost use Rattle.src_ast.specs.Syntax.{shape_of};
ghost use Rattle.src_tree.specs.View.{layout_of, parts_in, piece_of};
ghost use Rattle.typing_rules.specs.Collected as walk;
ghost use Rattle.typing_rules.specs.Collected.{starting_with};
ghost use Rattle.typing_rules.specs.Items.{bodies_in, bodies_among, is_body_row};

use crate::bodies::{Count, closure_head, function_body, name_of_closure, own_adt};
use crate::known_types::Known;
use crate::steps::broken_rule;
use mir_base::{Rule, RuleError};
use mir_ty::Items;
use src_ast::{ExpressionForm, ItemForm, Nodes, expression_form, item_form};
use src_tree::{GrammarRow, NodePiece, SyntaxNode};

fn closure_body(
    items: &mut Items,
    known: &Known,
    owner: Option<&str>,
    count: Count,
    params: Nodes,
    answer: Option<&SyntaxNode>,
) -> Result<Count, RuleError>
    requires { 8 ≤ length items.old.types }
    ensures answers { Answers (closure_by (known_of known.now) (word_of owner.entry) (count_of count) (nodes_of params.entry) (maybe_of answer.entry) (starting_with items.old)) (answered count_of result) items.new }
    ensures grows { length items.old.types ≤ length items.new.types }
{
    let scope = known.scope(own_adt(known, owner));
    let Count {
        outer,
        in_outer,
        closures,
    } = count;
    if in_outer == u64::MAX || closures == u32::MAX {
        return Err(RuleError::past_32_bits());
    }
    let Ok(name) = name_of_closure(known.alloc, &outer, in_outer + 1) else {
        return Err(RuleError::Memory);
    };
    closure_head(items, &scope, closures, name, params, answer)?;
    Ok(Count {
        outer,
        in_outer: in_outer + 1,
        closures: closures + 1,
    })
}

fn closure_if(
    items: &mut Items,
    known: &Known,
    owner: Option<&str>,
    count: Count,
    node: &SyntaxNode,
) -> Result<Count, RuleError>
    requires { 8 ≤ length items.old.types }
    ensures answers { Answers (body_by (known_of known.now) (word_of owner.entry) (count_of count) node.now.at None (expression_part (shape_of (syn_of node.now))) (starting_with items.old)) (answered count_of result) items.new }
    ensures grows { length items.old.types ≤ length items.new.types }
{
    match expression_form(node) {
        ExpressionForm::Closure {
            captures: _,
            params,
            answer,
            block: _,
        } => closure_body(items, known, owner, count, params, answer),
        _ => Err(broken_rule(Rule::T20, node.at)),
    }
}

/// The head of one body, added.
#[tactic(auto, using(crate::proofs::BodyForms::body_seen))]
fn body(
    items: &mut Items,
    known: &Known,
    owner: Option<&str>,
    count: Count,
    node: &SyntaxNode,
) -> Result<Count, RuleError>
    requires { 8 ≤ length items.old.types }
    ensures answers { Answers (walk.body_sig (known_of known.now) (word_of owner.entry) (count_of count) (syn_of node.now) (starting_with items.old)) (answered count_of result) items.new }
    ensures grows { length items.old.types ≤ length items.new.types }
{
    match item_form(node) {
        ItemForm::Fn(function) => {
            function_body(items, known, owner, count.closures, node.at, function)
        }
        ItemForm::Struct { .. } => Err(broken_rule(Rule::T20, node.at)),
        ItemForm::Enum { .. } => Err(broken_rule(Rule::T20, node.at)),
        ItemForm::Trait { .. } => Err(broken_rule(Rule::T20, node.at)),
        ItemForm::Impl { .. } => Err(broken_rule(Rule::T20, node.at)),
        ItemForm::Other => closure_if(items, known, owner, count, node),
    }
}

fn is_body(row: GrammarRow) -> bool
    ensures { result ≡ is_body_row row }
{
    match row {
        GrammarRow::Fn | GrammarRow::Method | GrammarRow::Closure => true,
        _ => false,
    }
}

/// The head of the body that a node is, if it is one.
fn own_body(
    items: &mut Items,
    known: &Known,
    owner: Option<&str>,
    count: Count,
    node: &SyntaxNode,
) -> Result<Count, RuleError>
    requires { 8 ≤ length items.old.types }
    ensures answers { Answers (own_sig (known_of known.now) (word_of owner.entry) (count_of count) node.now.row (syn_of node.now) (starting_with items.old)) (answered count_of result) items.new }
    ensures grows { length items.old.types ≤ length items.new.types }
{
    if is_body(node.row) {
        body(items, known, owner, count, node)
    } else {
        Ok(count)
    }
}

/// The heads of the bodies among the parts of a node, added in text order.
#[cycle(bodies)]
pub fn bodies_of(
    items: &mut Items,
    known: &Known,
    owner: Option<&str>,
    count: Count,
    pieces: &[NodePiece],
) -> Result<Count, RuleError>
    requires { 8 ≤ length items.old.types }
    ensures answers { Answers (walk.body_sigs (known_of known.now) (word_of owner.entry) (count_of count) (bodies_among (parts_in pieces.now)) (starting_with items.old)) (answered count_of result) items.new }
    ensures grows { length items.old.types ≤ length items.new.types }
{
    let mut count = count;
    for piece in pieces {
        count = bodies_at(items, known, owner, count, piece)?;
    }
    Ok(count)
}

#[cycle(bodies)]
#[tactic(auto, using(crate::proofs::Walks::at_token, crate::proofs::Walks::at_node))]
fn bodies_at(
    items: &mut Items,
    known: &Known,
    owner: Option<&str>,
    count: Count,
    piece: &NodePiece,
) -> Result<Count, RuleError>
    requires { 8 ≤ length items.old.types }
    ensures answers { Answers (walk.body_sigs (known_of known.now) (word_of owner.entry) (count_of count) (bodies_in_piece (piece_of piece.now)) (starting_with items.old)) (answered count_of result) items.new }
    ensures grows { length items.old.types ≤ length items.new.types }
{
    match piece {
        NodePiece::Node(node) => node_bodies(items, known, owner, count, node),
        NodePiece::Token(_) => Ok(count),
    }
}

/// The head of the body that a node is, and those of the bodies in it, added in text order.
#[cycle(bodies)]
#[tactic(auto, using(crate::proofs::Walks::node_bodies))]
pub fn node_bodies(
    items: &mut Items,
    known: &Known,
    owner: Option<&str>,
    count: Count,
    node: &SyntaxNode,
) -> Result<Count, RuleError>
    requires { 8 ≤ length items.old.types }
    ensures answers { Answers (walk.body_sigs (known_of known.now) (word_of owner.entry) (count_of count) (bodies_in (layout_of node.now)) (starting_with items.old)) (answered count_of result) items.new }
    ensures grows { length items.old.types ≤ length items.new.types }
{
    let next = own_body(items, known, owner, count, node)?;
    bodies_of(items, known, owner, next, node.parts.as_slice())
}
