//! Nodes of which a part may still come.
ghost use Rattle.std.specs.Prelude.{◌≡◌, ◌∷◌, [], IfOk, OnOk};
ghost use Rattle.src_tree.specs.Table.{rest_of, rest_at};
ghost use Rattle.src_parse.specs.Counting.{reach_by, reach as reach_of, need_of, passes as passes_of, taken as taken_of, inside as inside_of, began as began_of, with_node as with_node_of, start as start_of};
ghost use Rattle.src_tree.specs.Layout.{tok, sub, end};
ghost use Rattle.src_tree.specs.View.{layout_of, parts_in};
ghost use Rattle.src_parse.specs.View.{frame_of};

use crate::depth_bound::{DepthBound, MOST, bound_at};
use mir_base::limits::MAX_NESTING;
use mir_base::{List, NoMemory, Pos};
use src_token::Token;
use src_tree::{
    GrammarPlace, GrammarPoint, GrammarRow, ITEMS, NodePiece, Sort, Start, SyntaxNode, behind,
    counts,
};
use std::alloc::Global;
use std::mem;

/// A node of which a part may still come.
#[derive(Drop)]
pub(crate) struct ParserFrame {
    /// Where it stands.
    pub(crate) place: GrammarPlace,
    /// Where it is in its row.
    pub(crate) point: GrammarPoint,
    /// Where its first token stands.
    pub(crate) at: Pos,
    pub(crate) parts: List<NodePiece>,
    /// How deep its parts so far are nested.
    pub(crate) deepest: u32,
    /// How deep the text is at least, by what stands around the node.
    pub(crate) floor: u32,
    /// By how much the text is deeper than the node at least.
    pub(crate) around: u32,
}

fn reach(frame: &ParserFrame, bound: DepthBound) -> DepthBound
    ensures { result ≡ reach_by (frame_of frame.now) bound }
{
    let own = bound.floor.max(frame.deepest.saturating_add(bound.around));
    DepthBound {
        floor: frame.floor.max(own.saturating_add(frame.around)),
        around: bound.around.saturating_add(frame.around),
    }
}

/// The least depth of a text that goes on from here.
fn need(frame: &ParserFrame) -> u32
    ensures { result ≡ need_of (frame_of frame.now) }
{
    reach(frame, bound_at(frame.place, frame.point)).floor
}

/// Whether each text that goes on from here is nested past the limit. Most often the greatest bound tells that it is
/// not.
pub(crate) fn passes(frame: &ParserFrame) -> bool
    ensures { result ≡ passes_of (frame_of frame.now) }
{
    reach(frame, MOST).floor > MAX_NESTING && need(frame) > MAX_NESTING
}

/// The frame of a text before its first token.
#[tactic(auto, using(crate::proofs::Parts::items_there))]
pub(crate) fn start(alloc: Global, at: Pos) -> ParserFrame
    ensures { frame_of result ≡ start_of at }
{
    ParserFrame {
        place: GrammarPlace {
            sort: Sort::File,
            least: 0,
            head: false,
            start: Start::Anything,
        },
        point: GrammarPoint::At(ITEMS),
        at,
        parts: List::new(alloc),
        deepest: 0,
        floor: 0,
        around: 0,
    }
}

/// One more token of a node, which is at this point behind it.
#[tactic(auto, using(crate::proofs::Parts::one_token))]
pub(crate) fn take(
    frame: &mut ParserFrame,
    point: GrammarPoint,
    token: Token,
) -> Result<(), NoMemory>
    ensures { OnOk result (frame_of frame.new ≡ taken_of (frame_of frame.old) (rest_of point) token) }
{
    frame.parts.push(NodePiece::Token(token))?;
    frame.point = point;
    Ok(())
}

/// The parts of a node so far, of which this is the first; there is room for this many.
fn first_part(alloc: Global, room: usize, first: NodePiece) -> Result<List<NodePiece>, NoMemory>
    ensures { IfOk result (λ parts. parts ≡ first ∷ []) }
{
    let Ok(elements) = Vec::with_capacity(alloc, room) else {
        drop(first);
        return Err(NoMemory);
    };
    let mut parts = List::from_vec(elements);
    parts.push(first)?;
    Ok(parts)
}

/// A node that begins with a token, as a part of another. Most such nodes have no other part.
#[tactic(auto, using(crate::proofs::Parts::lone_token))]
pub(crate) fn inside(
    alloc: Global,
    frame: &ParserFrame,
    place: GrammarPlace,
    point: u16,
    at: Pos,
    token: Token,
) -> Result<ParserFrame, NoMemory>
    ensures { IfOk result (λ new. frame_of new ≡ inside_of (frame_of frame.now) place (rest_at point) at token) }
{
    let around = reach(
        frame,
        bound_at(frame.place, behind(frame.point, GrammarRow::File)),
    );
    Ok(ParserFrame {
        place,
        point: GrammarPoint::At(point),
        at,
        parts: first_part(alloc, 1, NodePiece::Token(token))?,
        deepest: 0,
        floor: around.floor,
        around: around.around,
    })
}

/// The parts of a node that begins with another one and a token; one more is to come most often.
#[tactic(auto, using(crate::proofs::Parts::node_then_token))]
fn node_and_token(
    alloc: Global,
    node: SyntaxNode,
    token: Token,
) -> Result<List<NodePiece>, NoMemory>
    ensures { IfOk result (λ parts. parts_in parts ≡ sub (layout_of node) (tok token end)) }
{
    let Ok(mut parts) = first_part(alloc, 3, NodePiece::Node(node)) else {
        drop(token);
        return Err(NoMemory);
    };
    parts.push(NodePiece::Token(token))?;
    Ok(parts)
}

/// The node is complete as this row, and with the token it begins another.
pub(crate) fn begin(
    alloc: Global,
    frame: &mut ParserFrame,
    row: GrammarRow,
    point: u16,
    token: Token,
) -> Result<(), NoMemory>
    ensures { OnOk result (frame_of frame.new ≡ began_of (frame_of frame.old) row (rest_at point) token) }
{
    let parts = mem::replace(&mut frame.parts, List::new(alloc));
    let at = frame.at;
    frame.parts = node_and_token(alloc, SyntaxNode { row, at, parts }, token)?;
    frame.point = GrammarPoint::At(point);
    frame.deepest = frame.deepest.saturating_add(counts(row));
    Ok(())
}

/// One more part of a node, which is complete as this row.
pub(crate) fn hold(
    frame: &mut ParserFrame,
    part: ParserFrame,
    row: GrammarRow,
) -> Result<(), NoMemory>
    ensures { OnOk result (frame_of frame.new ≡ with_node_of (frame_of frame.old) (frame_of part) row) }
{
    let ParserFrame {
        at,
        parts,
        deepest,
        ..
    } = part;
    frame
        .parts
        .push(NodePiece::Node(SyntaxNode { row, at, parts }))?;
    frame.point = behind(frame.point, row);
    frame.deepest = frame.deepest.max(deepest.saturating_add(counts(row)));
    Ok(())
}
