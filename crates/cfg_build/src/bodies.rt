//! Bodies that are lowered.
ghost use Rattle.std.specs.Prelude.{◌≡◌, IfOk, OnOk, length, map, option_map};
ghost use Rattle.lower_rules.specs.Build as build;
ghost use Rattle.lower_rules.specs.Lower as low;
ghost use Rattle.lower_blocks.specs.Building.{built_of, building_of, made_of};
ghost use Rattle.lower_passes.specs.Framed.{frame_of};
ghost use Rattle.lower_passes.specs.Reaching.{AreReaches};
ghost use Rattle.lower_passes.specs.Scoped.{scopes_of};
ghost use Rattle.lower_code.specs.View.{op_of};
ghost use Rattle.src_meaning.specs.Locals.OfBody as of_body;
ghost use Rattle.typed_tree.specs.View.{body_of};
ghost use Rattle.cfg_build.specs.Lowered.{unbuilt, begun, IsWhole};
ghost use Rattle.cfg_graph.specs.WellFormed.Faults.{IsCountedBody};
ghost use Rattle.lower_rules.specs.Listed.{ids_of, nodes_of_body};

use crate::parts::{MANY, add_parts, add_tys};
use bumpalo::Bump;
use cfg_graph::{Body, Kind, Term};
use lower_blocks::{Blocks, BuildContext, MadeBlock, Ways, build};
use lower_code::{Change, Entry, ScopeAt};
use lower_forms::body_code;
use lower_locals::{Locals, locals};
use lower_passes::{LoweringFrame, Scopes, Spans, change, enter, marks_of, reaches_of};
use mir_base::{Key, List, NoMemory, NodeId};
use mir_ty::Items;
use std::alloc::Global;
use std::mem;
use typed_tree::{Param, TBody};

/// A body that is lowered, its locals, and the node of each of its lines, block by block; a block's terminator is its
/// last line.
#[derive(Drop)]
pub struct LoweredBody {
    pub body: Body,
    pub locals: Locals,
    pub nodes: List<List<NodeId>>,
}

/// The scope of the result, which is pending in it.
fn answer_scope<'a>(bump: &'a Bump, body: &TBody) -> Result<&'a Scopes<'a>, NoMemory>
    ensures { IfOk result (λ scopes. (f : build.LoweringFrame) → scopes_of scopes.now ≡ low.answer_scope f (body_of body.now)) }
{
    let by = Change::Pends(
        ScopeAt::Innermost,
        Entry {
            key: Key(body.block.id.0),
            ty: body.result,
        },
    );
    let none: &'a Scopes<'a> = bump.try_alloc(Scopes::NoScope)?;
    let scopes = enter(bump, body.block.id, false, none)?;
    change(bump, &by, scopes)
}

/// Block 0 is given out, and block 1 returns.
fn start(alloc: Global, id: NodeId, blocks: &mut Blocks) -> Result<(), NoMemory>
    ensures { OnOk result (built_of blocks.old ≡ unbuilt id.0 → built_of blocks.new ≡ begun id.0) }
{
    blocks.reserve()?;
    let returns = blocks.close(alloc, Kind::Plain)?;
    blocks.end(alloc, Term::Goto(returns), NodeId(0));
    Ok(())
}

/// All blocks of a body whose code stands at these words, over no block yet.
fn build_entire<'a>(
    alloc: Global,
    frame: LoweringFrame<'a>,
    body: &TBody,
    code: Spans<'a>,
    reaches: &'a [Option<u32>],
    arena: &'a Bump,
    blocks: &mut Blocks,
) -> Result<(), NoMemory>
    requires { (f : build.LoweringFrame) → AreReaches f (map op_of code.words.now) code.marks.now reaches.now }
    ensures { OnOk result (IsWhole (frame_of frame.entry) (body_of body.now) code.entry →
        built_of blocks.old ≡ unbuilt body.now.block.id.0 →
        building_of blocks.new ≡ low.built (frame_of frame.entry) (body_of body.now)) }
{
    start(alloc, body.block.id, blocks)?;
    let scopes = answer_scope(arena, body)?;
    let at = BuildContext {
        frame,
        code,
        reaches,
        ways: Ways {
            returns: 1,
            loops: &[],
        },
        arena,
        scopes,
    };
    build(alloc, &at, code.words.len().saturating_sub(1), blocks)?;
    blocks.fill(alloc, Kind::Plain, 0)
}

/// How many words a body has for each of its locals, at most but for few bodies.
const WORDS_OF_A_LOCAL: usize = 8;

/// For how many words room is made before the code of a body.
fn room_for(frame: LoweringFrame) -> usize {
    frame
        .locals
        .as_slice()
        .len()
        .saturating_mul(WORDS_OF_A_LOCAL)
}

/// All blocks of a body, over no block yet.
fn build_body(
    alloc: Global,
    frame: LoweringFrame,
    body: &TBody,
    blocks: &mut Blocks,
) -> Result<(), NoMemory>
    ensures { OnOk result (built_of blocks.old ≡ unbuilt body.now.block.id.0 →
        building_of blocks.new ≡ low.built (frame_of frame.entry) (body_of body.now)) }
{
    let code = body_code(alloc, frame.items, body, room_for(frame))?;
    let marks = marks_of(alloc, frame, &code)?;
    let spans = Spans {
        words: code.ops.as_slice(),
        marks: marks.as_slice(),
    };
    let reaches = reaches_of(alloc, spans)?;
    let arena = Bump::new(alloc);
    build_entire(
        alloc,
        frame,
        body,
        spans,
        reaches.as_slice(),
        &arena,
        blocks,
    )
}

/// All blocks of a body.
fn build_blocks(
    alloc: Global,
    frame: LoweringFrame,
    body: &TBody,
) -> Result<List<Option<MadeBlock>>, NoMemory>
    ensures { IfOk result (λ made.
        map (option_map made_of) made ≡ (low.built (frame_of frame.entry) (body_of body.now)).blocks) }
{
    let mut blocks = Blocks::new(
        alloc,
        frame.locals.as_slice().len(),
        Term::Return,
        body.block.id,
    )?;
    let done = build_body(alloc, frame, body, &mut blocks);
    let made = mem::replace(&mut blocks.made, List::new(alloc));
    drop(blocks);
    done?;
    Ok(made)
}

/// How many parameters there are.
fn count_of(params: &[Param]) -> Result<u32, NoMemory>
    ensures { IfOk result (λ count. count ≡ length params.now) }
{
    if params.len() > u32::MAX as usize {
        return Err(NoMemory::past_32_bits());
    }
    Ok(params.len() as u32)
}

/// A body as a raw graph with scheduled drops. It costs, and takes memory, by the nodes of the body, and for each place
/// from which a panic may start by the entries in scope there.
///
/// # Errors
///
/// [`NoMemory`] where memory is wanted, and where there are more parameters, locals, blocks or lines of a block than 32
/// bits count.
pub fn lower_body(alloc: Global, items: &Items, body: &TBody) -> Result<LoweredBody, NoMemory>
    ensures body { IfOk result (λ lowered. lowered.body ≡ low.body_of items.now (body_of body.now)) }
    ensures locals { IfOk result (λ lowered. lowered.locals ≡ of_body.locals items.now (body_of body.now)) }
    ensures nodes { IfOk result (λ lowered. map ids_of lowered.nodes ≡ nodes_of_body items.now (body_of body.now)) }
    ensures counted { IfOk result (λ lowered. IsCountedBody lowered.body) }
{
    let params = count_of(body.params.as_slice())?;
    let found = locals(alloc, items, body)?;
    let mut tys = List::new(alloc);
    add_tys(found.as_slice(), &mut tys)?;
    let frame = LoweringFrame {
        items,
        locals: &found,
        tys: tys.as_slice(),
    };
    let made = build_blocks(alloc, frame, body)?;
    let mut blocks = List::from_vec(Vec::with_capacity(alloc, made.len())?);
    let mut nodes = List::from_vec(Vec::with_capacity(alloc, made.len())?);
    add_parts(alloc, made, &mut blocks, &mut nodes)?;
    if tys.len() >= MANY || blocks.len() >= MANY {
        return Err(NoMemory::past_32_bits());
    }
    Ok(LoweredBody {
        body: Body {
            params,
            locals: tys,
            blocks,
        },
        locals: found,
        nodes,
    })
}
