//! What a statement or a terminator does with places, in the order in which it does it.
ghost use Rattle.std.specs.Prelude.{◌≡◌, ◌++◌, [], ◌∷◌, map, flat_map, IfOk, OnOk};
ghost use Rattle.std.specs.Option.{option_copied};
ghost use Rattle.cfg_graph.specs.Uses as graph;
ghost use Rattle.move_paths.specs.Uses.{inner_uses, listed, operand_uses, other_uses, other_term_uses, use_of, optional};

use cfg_graph::{Block, Operand, Place, Stmt, Term};
use mir_base::{List, NoMemory};
use std::alloc::Global;

/// How a place is used.
#[derive(Clone, Copy)]
pub enum Use {
    Copies,
    Moves,
    Borrows,
    /// Reads the whole value, without effect.
    Touches,
    /// Tests the variant.
    Tests,
    Stores,
    Drops,
    Frees,
}

/// A use of a place.
#[derive(Clone, Copy)]
pub struct Used<'a> {
    pub how: Use,
    pub place: &'a Place,
}

fn add<'a>(uses: &mut List<Used<'a>>, how: Use, place: &'a Place) -> Result<(), NoMemory>
    ensures { OnOk result (listed uses.new ≡ listed uses.old ++ (use_of how, place.now) ∷ []) }
{
    uses.push(Used { how, place })
}

fn add_operand<'a>(uses: &mut List<Used<'a>>, operand: &'a Operand) -> Result<(), NoMemory>
    ensures { OnOk result (listed uses.new ≡ listed uses.old ++ operand_uses operand.now) }
{
    match operand {
        Operand::Copied(place) => add(uses, Use::Copies, place),
        Operand::Moved(place) => add(uses, Use::Moves, place),
        _ => Ok(()),
    }
}

fn add_operands<'a>(uses: &mut List<Used<'a>>, operands: &'a [Operand]) -> Result<(), NoMemory>
    ensures { OnOk result (listed uses.new ≡ listed uses.old ++ flat_map operand_uses operands.now) }
{
    for operand in operands {
        add_operand(uses, operand)?;
    }
    Ok(())
}

fn add_two<'a>(
    uses: &mut List<Used<'a>>,
    left: &'a Operand,
    right: &'a Operand,
) -> Result<(), NoMemory>
    ensures { OnOk result (listed uses.new ≡ listed uses.old ++ flat_map operand_uses (left.now ∷ right.now ∷ [])) }
{
    add_operand(uses, left)?;
    add_operand(uses, right)
}

/// The operands of a statement, from left to right.
fn add_stmt_operands<'a>(uses: &mut List<Used<'a>>, stmt: &'a Stmt) -> Result<(), NoMemory>
    ensures { OnOk result (listed uses.new ≡ listed uses.old ++ flat_map operand_uses (graph.operands_of_stmt stmt.now)) }
{
    match stmt {
        Stmt::Put(_, operand)
        | Stmt::Not(_, operand)
        | Stmt::NewBox(_, operand)
        | Stmt::Unsize { from: operand, .. }
        | Stmt::Print(operand)
        | Stmt::Forget(operand) => add_operand(uses, operand),
        Stmt::Compare(_, _, left, right) => add_two(uses, left, right),
        Stmt::Tuple(_, parts)
        | Stmt::Array(_, parts)
        | Stmt::Make { parts, .. }
        | Stmt::Close { parts, .. } => add_operands(uses, parts.as_slice()),
        Stmt::Borrow { .. } | Stmt::Touch(_) | Stmt::Free(_) => Ok(()),
    }
}

/// What a statement uses otherwise than as an operand, before it stores.
fn add_other<'a>(uses: &mut List<Used<'a>>, stmt: &'a Stmt) -> Result<(), NoMemory>
    ensures { OnOk result (listed uses.new ≡ listed uses.old ++ other_uses stmt.now) }
{
    match stmt {
        Stmt::Borrow { of, .. } => add(uses, Use::Borrows, of),
        Stmt::Touch(place) => add(uses, Use::Touches, place),
        Stmt::Free(place) => add(uses, Use::Frees, place),
        _ => Ok(()),
    }
}

fn add_store<'a>(uses: &mut List<Used<'a>>, stmt: &'a Stmt) -> Result<(), NoMemory>
    ensures { OnOk result (listed uses.new ≡ listed uses.old ++ map (λ place. (graph.Stores, place)) (graph.stored_by_stmt stmt.now)) }
{
    match stmt {
        Stmt::Put(to, _)
        | Stmt::Compare(to, _, _, _)
        | Stmt::Not(to, _)
        | Stmt::Tuple(to, _)
        | Stmt::Array(to, _)
        | Stmt::Make { to, .. }
        | Stmt::Close { to, .. }
        | Stmt::NewBox(to, _)
        | Stmt::Unsize { to, .. }
        | Stmt::Borrow { to, .. } => add(uses, Use::Stores, to),
        Stmt::Touch(_) | Stmt::Print(_) | Stmt::Forget(_) | Stmt::Free(_) => Ok(()),
    }
}

/// Adds the uses of a statement in order: operands from left to right, what it uses otherwise, and last the store.
pub fn add_stmt_uses<'a>(uses: &mut List<Used<'a>>, stmt: &'a Stmt) -> Result<(), NoMemory>
    ensures { OnOk result (listed uses.new ≡ listed uses.old ++ graph.stmt_uses stmt.now) }
{
    add_stmt_operands(uses, stmt)?;
    add_other(uses, stmt)?;
    add_store(uses, stmt)
}

/// The uses of a statement in order: operands from left to right, what it uses otherwise, and last the store.
pub fn stmt_uses<'a>(alloc: Global, stmt: &'a Stmt) -> Result<List<Used<'a>>, NoMemory>
    ensures { IfOk result (λ uses. listed uses ≡ graph.stmt_uses stmt.now) }
{
    let mut uses = List::new(alloc);
    add_stmt_uses(&mut uses, stmt)?;
    Ok(uses)
}

fn add_term_operands<'a>(uses: &mut List<Used<'a>>, term: &'a Term) -> Result<(), NoMemory>
    ensures { OnOk result (listed uses.new ≡ listed uses.old ++ flat_map operand_uses (graph.operands_of_term term.now)) }
{
    match term {
        Term::If { on: operand, .. }
        | Term::Negate { of: operand, .. }
        | Term::Bounds { index: operand, .. } => add_operand(uses, operand),
        Term::Math { left, right, .. } => add_two(uses, left, right),
        Term::Call { args, .. } | Term::Virtual { args, .. } => add_operands(uses, args.as_slice()),
        _ => Ok(()),
    }
}

fn add_other_of_term<'a>(uses: &mut List<Used<'a>>, term: &'a Term) -> Result<(), NoMemory>
    ensures { OnOk result (listed uses.new ≡ listed uses.old ++ other_term_uses term.now) }
{
    match term {
        Term::Case { on, .. } => add(uses, Use::Tests, on),
        Term::DropAt { place, .. } => add(uses, Use::Drops, place),
        _ => Ok(()),
    }
}

/// Adds what a terminator uses before it takes a way out, in order.
pub fn add_term_uses<'a>(uses: &mut List<Used<'a>>, term: &'a Term) -> Result<(), NoMemory>
    ensures { OnOk result (listed uses.new ≡ listed uses.old ++ graph.term_uses term.now) }
{
    add_term_operands(uses, term)?;
    add_other_of_term(uses, term)
}

/// What a terminator uses before it takes a way out, in order.
pub fn term_uses<'a>(alloc: Global, term: &'a Term) -> Result<List<Used<'a>>, NoMemory>
    ensures { IfOk result (λ uses. listed uses ≡ graph.term_uses term.now) }
{
    let mut uses = List::new(alloc);
    add_term_uses(&mut uses, term)?;
    Ok(uses)
}

/// Adds what a block uses before it takes a way out: the uses of its statements in order, and those of its terminator.
pub fn add_inner_uses<'a>(uses: &mut List<Used<'a>>, block: &'a Block) -> Result<(), NoMemory>
    ensures { OnOk result (listed uses.new ≡ listed uses.old ++ inner_uses block.now) }
{
    for stmt in block.stmts.as_slice() {
        add_stmt_uses(uses, stmt)?;
    }
    add_term_uses(uses, &block.term)
}

/// The place into which a terminator stores its result on its way on.
pub fn result_place(term: &Term) -> Option<&Place>
    ensures { optional (option_copied result) ≡ graph.stored_by_term term.now }
{
    match term {
        Term::Math { to, .. }
        | Term::Negate { to, .. }
        | Term::Call { to, .. }
        | Term::Virtual { to, .. }
        | Term::Ask { to, .. } => Some(to),
        _ => None,
    }
}
