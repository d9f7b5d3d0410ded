//! What is known of the paths of a body where a block ends.
ghost use Rattle.std.specs.Prelude.{◌≡◌, ◌∷◌, ◌||◌, [], IfOk, OnOk, Some, flat_map, length, slice_get, slice_index_or};
ghost use Rattle.mir_ty.specs.ItemTable.{ItemTable};
ghost use Rattle.cfg_graph.specs.Uses as graph;
ghost use Rattle.cfg_graph.specs.declared.graph.Body.{Body as GraphBody};
ghost use Rattle.move_paths.specs.Uses.{listed, use_of};
ghost use Rattle.drop_elaborate.specs.Kinds.{AreFacts};
ghost use Rattle.drop_plans.specs.Analysed.{AreAnalyses};
ghost use Rattle.drop_plans.specs.AtDrops.{EndsInDrop, RowKnows, starts_on as first_on};
ghost use Rattle.drop_plans.specs.Known.{RowsSay};
ghost use Rattle.drop_plans.specs.Passing.{Passes};
ghost use Rattle.drop_plans.specs.Plans.{facts_of};

use crate::Analyses;
use bit_rows::BitRow;
use cfg_graph::{Block, Place, Stmt};
use init_flow::{Masks, Solution, switch_of};
use mir_base::{List, NoMemory};
use move_paths::{Forest, Use, Used, add_stmt_uses};
use std::alloc::Global;

/// Of each path whether it may be present, and whether it may be gone.
#[derive(Drop)]
pub struct Facts {
    pub present: BitRow,
    pub gone: BitRow,
}

/// Makes a row the one behind a use of a place.
fn pass_use(forest: &Forest, below: &Masks, how: Use, place: &Place, gone: bool, row: &mut BitRow)
    ensures { Passes forest.now.paths gone below.now ((use_of how, place.now) ∷ []) row.old row.new }
{
    if let Some(switch) = switch_of(forest, how, place, gone) {
        below.turn(switch.path, switch.on, row);
    }
}

fn pass_uses(forest: &Forest, below: &Masks, uses: &[Used<'_>], gone: bool, row: &mut BitRow)
    ensures { Passes forest.now.paths gone below.now (listed uses.now) row.old row.new }
{
    for used in uses {
        pass_use(forest, below, used.how, used.place, gone, row);
    }
}

/// Makes a row that holds as a block begins the one that holds as its statements are done, by the uses of these. The row
/// says of each path whether it may be gone, or whether it may be present.
pub fn pass_stmts<'a>(
    forest: &Forest,
    below: &Masks,
    stmts: &'a [Stmt],
    gone: bool,
    uses: &mut List<Used<'a>>,
    row: &mut BitRow,
) -> Result<(), NoMemory>
    ensures { OnOk result (Passes forest.now.paths gone below.now (flat_map graph.stmt_uses stmts.now) row.old row.new) }
{
    for stmt in stmts {
        uses.truncate(0);
        add_stmt_uses(uses, stmt)?;
        pass_uses(forest, below, uses.as_slice(), gone, row);
    }
    Ok(())
}

/// Whether the first bit of the row of a block is on.
fn starts_on(rows: &Solution, block: u32) -> bool
    ensures { result ≡ first_on rows.now block }
{
    match rows.at(block) {
        Some(row) => row.len() > 0 && row.get(0),
        None => false,
    }
}

/// A row of so many bits: the one of a block as it begins, where that has as many.
fn row_of(alloc: Global, bits: u32, rows: &Solution, block: u32) -> Result<BitRow, NoMemory>
    ensures long { IfOk result (λ row. length row ≡ bits) }
    ensures same { IfOk result (λ row. length (slice_index_or rows.now block []) ≡ bits → row ≡ slice_index_or rows.now block []) }
{
    let mut row = BitRow::new(alloc, bits)?;
    if let Some(start) = rows.at(block) {
        if start.len() == bits {
            start.copy_into(&mut row);
        }
    }
    Ok(row)
}

/// Whether some path of the body leads to a block: there the first of its move paths may be present, or may be gone.
fn is_reached(told: &Analyses, block: u32) -> bool
    ensures { result ≡ (first_on told.now.present block || first_on told.now.gone block) }
{
    starts_on(&told.present, block) || starts_on(&told.gone, block)
}

/// The row of a block, passed through its statements.
fn passed_row(
    alloc: Global,
    told: &Analyses,
    rows: &Solution,
    number: u32,
    block: &Block,
    gone: bool,
) -> Result<BitRow, NoMemory>
    ensures long { IfOk result (λ row. length row ≡ length told.now.forest.paths) }
    ensures passes { IfOk result (λ row. length (slice_index_or rows.now number []) ≡ length told.now.forest.paths →
        Passes told.now.forest.paths gone told.now.below (flat_map graph.stmt_uses block.now.stmts)
        (slice_index_or rows.now number []) row) }
{
    let mut row = row_of(alloc, told.forest.len(), rows, number)?;
    let mut uses = List::new(alloc);
    pass_stmts(
        &told.forest,
        &told.below,
        block.stmts.as_slice(),
        gone,
        &mut uses,
        &mut row,
    )?;
    Ok(row)
}

/// What rows of the blocks say of the paths where the statements of one are done. Nothing is on where no path of the
/// body leads to the block.
fn row_at(
    alloc: Global,
    told: &Analyses,
    rows: &Solution,
    number: u32,
    block: &Block,
    gone: bool,
) -> Result<BitRow, NoMemory>
    ensures long { IfOk result (λ row. length row ≡ length told.now.forest.paths) }
    ensures known { IfOk result (λ row. (items : ItemTable) (body : GraphBody) → AreAnalyses items body told.now →
        RowsSay items body told.now.forest.paths gone rows.now → slice_get body.blocks number ≡ Some block.now →
        EndsInDrop block.now → RowKnows items body told.now.forest.paths number gone row) }
{
    if is_reached(told, number) {
        return passed_row(alloc, told, rows, number, block, gone);
    }
    BitRow::new(alloc, told.forest.len())
}

/// What is known of the paths of a body where one of its blocks comes to a drop.
///
/// # Errors
///
/// [`NoMemory`] where memory is wanted.
pub fn facts_at(
    alloc: Global,
    told: &Analyses,
    number: u32,
    block: &Block,
) -> Result<Facts, NoMemory>
    ensures long { IfOk result (λ facts. (length facts.present ≡ length told.now.forest.paths) × (length facts.gone ≡ length told.now.forest.paths)) }
    ensures known { IfOk result (λ facts. (items : ItemTable) (body : GraphBody) → AreAnalyses items body told.now →
        slice_get body.blocks number ≡ Some block.now → EndsInDrop block.now →
        AreFacts items body told.now.forest.paths number (facts_of facts)) }
{
    Ok(Facts {
        present: row_at(alloc, told, &told.present, number, block, false)?,
        gone: row_at(alloc, told, &told.gone, number, block, true)?,
    })
}
