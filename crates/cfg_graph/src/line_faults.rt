//! The first fault of the line of a statement, a terminator, a local or a body.
ghost use Rattle.std.specs.Prelude.{◌≡◌, if◌then◌else◌, ◌==◌, ◌&&◌, IsTrue, true, false, slice_get, take, is_some};
ghost use Rattle.std.specs.List.{list_any};
ghost use Rattle.std.specs.Option.{option_map_or};
ghost use Rattle.store_model.specs.Concrete.Effects.{impl_of};
ghost use Rattle.cfg_graph.specs.Edges.{targets};
ghost use Rattle.cfg_graph.specs.WellFormed.Questions.{AreTests};
ghost use Rattle.cfg_graph.specs.WellFormed.Broken.{first_of};
ghost use Rattle.cfg_graph.specs.WellFormed.Buckets.{RepeatsNone};
ghost use Rattle.cfg_graph.specs.WellFormed.NameFaults.{same_name};
ghost use Rattle.cfg_graph.specs.WellFormed.LineFaults.{stmt_numbers_exist as stmt_names_exist, term_numbers_exist as term_names_exist, stmt_has_row as stmt_row, stmt_faults, term_faults, local_faults, body_faults, is_sig_of as sig_is_of, has_sig as sig_fits, blocks_exist as targets_are, has_own_name as own_name};

use crate::edge_faults::{EdgeTest, edges_pass, keeps_to_cleanup};
use crate::line_places::{PlaceTest, stmt_passes, term_passes};
use crate::name_faults::is_name;
use crate::place_types::operand_content;
use crate::same_types::begins_as;
use crate::type_faults::{TypeTests, misplaces_dyn, ty_exists};
use crate::typing::{is_typed_stmt, is_typed_term, method_at};
use crate::{Block, Body, Stmt, Term};
use mir_base::Name;
use mir_ty::{ImplDef, Items, Sig, Ty, TyId};

/// Whether the struct, enum, closure or trait that a statement names exists.
fn stmt_numbers_exist(items: &Items, bodies: usize, stmt: &Stmt) -> bool
    ensures { result ≡ stmt_names_exist items.now bodies stmt.now }
{
    match stmt {
        Stmt::Make { adt, .. } => items.adt(*adt).is_some(),
        Stmt::Close { closure, .. } => items.closure_def(*closure).is_some(),
        Stmt::Unsize { trait_no, .. } => items.trait_def(*trait_no).is_some(),
        _ => true,
    }
}

/// Whether the body or the method that a terminator calls exists.
fn term_numbers_exist(items: &Items, bodies: usize, term: &Term) -> bool
    ensures { result ≡ term_names_exist items.now bodies term.now }
{
    match term {
        Term::Call { body, .. } => (*body as usize) < bodies,
        Term::Virtual {
            trait_no,
            method,
            ..
        } => method_at(items, *trait_no, *method).is_some(),
        _ => true,
    }
}

fn is_impl_of(def: &ImplDef, trait_no: u32, adt: u32) -> bool
    ensures { result ≡ ((def.now.trait_no == trait_no) && (def.now.adt == adt)) }
{
    def.trait_no == trait_no && def.adt == adt
}

/// Whether a struct or an enum has an impl of a trait. It looks at each impl.
fn has_impl(items: &Items, trait_no: u32, adt: u32) -> bool
    ensures { result ≡ is_some (impl_of items.now trait_no adt) }
{
    let mut n: u32 = 0;
    while let Some(def) = items.impl_def(n) {
        if is_impl_of(def, trait_no, adt) {
            return true;
        }
        n += 1;
    }
    false
}

/// Whether the type whose box a statement makes one of `dyn` has an impl of the trait.
fn stmt_has_row(items: &Items, bodies: usize, locals: &[TyId], stmt: &Stmt) -> bool
    ensures { result ≡ stmt_row items.now bodies locals.now stmt.now }
{
    match stmt {
        Stmt::Unsize { trait_no, from, .. } => match operand_content(items, locals, from) {
            Some(id) => match items.ty(id) {
                Some(Ty::Adt(adt)) => has_impl(items, *trait_no, *adt),
                _ => false,
            },
            None => true,
        },
        _ => true,
    }
}

/// The number of a test that does not hold, or else what the tests after it give.
pub fn unless(holds: bool, number: u8, rest: Option<u8>) -> Option<u8>
    ensures { result ≡ (if holds then rest else Some number) }
{
    if holds { rest } else { Some(number) }
}

/// The first fault of the line of a statement.
pub fn stmt_fault(items: &Items, bodies: usize, body: &Body, stmt: &Stmt) -> Option<u8>
    ensures { result ≡ first_of (stmt_faults items.now bodies body.now stmt.now) }
{
    let locals = body.locals.as_slice();
    let row = unless(stmt_has_row(items, bodies, locals, stmt), 6, None);
    let typed = unless(is_typed_stmt(items, locals, stmt), 3, row);
    let passes = stmt_passes(PlaceTest::LocalsExist, items, locals, stmt);
    let placed = unless(passes, 2, typed);
    unless(stmt_numbers_exist(items, bodies, stmt), 1, placed)
}

/// Whether what a terminator calls and the blocks to which it leads exist.
fn targets_exist(items: &Items, bodies: usize, body: &Body, block: &Block) -> bool
    ensures { result ≡ (term_names_exist items.now bodies block.now.term && targets_are items.now bodies body.now (targets block.now.term)) }
{
    term_numbers_exist(items, bodies, &block.term) && edges_pass(EdgeTest::Exists, body, block)
}

/// The first fault of the line of the terminator of a block.
pub fn term_fault(items: &Items, bodies: usize, body: &Body, block: &Block) -> Option<u8>
    ensures { result ≡ first_of (term_faults items.now bodies body.now block.now) }
{
    let locals = body.locals.as_slice();
    let clean = unless(keeps_to_cleanup(body, block), 5, None);
    let ranked = unless(edges_pass(EdgeTest::Lowers, body, block), 4, clean);
    let typed = unless(is_typed_term(items, locals, &block.term), 3, ranked);
    let passes = term_passes(PlaceTest::LocalsExist, items, locals, &block.term);
    let placed = unless(passes, 2, typed);
    unless(targets_exist(items, bodies, body, block), 1, placed)
}

/// The first fault of the line of a local.
pub fn local_fault(items: &Items, tests: &TypeTests, bodies: usize, id: TyId) -> Option<u8>
    requires { AreTests items.now tests.now }
    ensures { result ≡ first_of (local_faults items.now bodies id) }
{
    let placed = unless(!misplaces_dyn(items, tests, id), 3, None);
    unless(ty_exists(items, tests, id), 1, placed)
}

/// Whether a signature is that of the locals of a body.
fn is_sig_of(items: &Items, bodies: usize, body: &Body, sig: &Sig) -> bool
    ensures { result ≡ sig_is_of items.now bodies body.now sig.now }
{
    sig.params.len() == body.params as usize
        && begins_as(body.locals.as_slice(), sig.result, sig.params.as_slice())
}

fn has_sig(items: &Items, bodies: usize, n: u32, body: &Body) -> bool
    ensures { result ≡ sig_fits items.now bodies body.now (slice_get items.now.bodies n) }
{
    match items.body_sig(n) {
        Some(sig) => is_sig_of(items, bodies, body, sig),
        None => false,
    }
}

fn body_is_named(items: &Items, n: u32, name: &Name) -> bool
    ensures { result ≡ option_map_or (λ other. same_name name.now other.name) (slice_get items.now.bodies n) false }
{
    match items.body_sig(n) {
        Some(other) => *name == other.name,
        None => false,
    }
}

/// Whether one of the first `n` bodies has this name, which, if it is fresh, none has.
fn body_name_repeats(items: &Items, n: u32, fresh: bool, name: &Name) -> bool
    requires { IsTrue fresh → list_any (λ other. same_name name.now other.name) (take n items.now.bodies) ≡ false }
    ensures { result ≡ list_any (λ other. same_name name.now other.name) (take n items.now.bodies) }
{
    if fresh {
        return false;
    }
    for i in 0..n {
        if body_is_named(items, i, name) {
            return true;
        }
    }
    false
}

#[tactic(auto, using(crate::proofs::Rests::few_mapped))]
fn has_own_name(items: &Items, bodies: usize, n: u32, fresh: bool) -> bool
    requires { IsTrue fresh → RepeatsNone items.now.bodies n }
    ensures { result ≡ option_map_or (own_name items.now bodies n) (slice_get items.now.bodies n) true }
{
    match items.body_sig(n) {
        Some(sig) => is_name(&sig.name) && !body_name_repeats(items, n, fresh, &sig.name),
        None => true,
    }
}

/// The first fault of the line of the body with this number, whose name, if it is fresh, repeats none before it.
pub fn body_fault(items: &Items, bodies: usize, n: u32, fresh: bool, body: &Body) -> Option<u8>
    requires { IsTrue fresh → RepeatsNone items.now.bodies n }
    ensures { result ≡ first_of (body_faults items.now bodies n body.now) }
{
    let named = unless(has_own_name(items, bodies, n, fresh), 7, None);
    let typed = unless(has_sig(items, bodies, n, body), 3, named);
    let placed = unless((body.params as usize) < body.locals.len(), 2, typed);
    unless(body.blocks.len() > 0, 1, placed)
}
