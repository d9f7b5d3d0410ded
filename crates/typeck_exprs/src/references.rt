//! References that are passed (The Rust Reference, "Borrow operators").
ghost use Rattle.std.specs.Prelude.{◌≡◌, ◌&&◌, not};
ghost use Rattle.typing_rules.specs.Places as places;
ghost use Rattle.typing_rules.specs.Rows as rows;
ghost use Rattle.well_typed.specs.Types.{is_same};
ghost use Rattle.typeck_checker.specs.Stand.{Gives, KeepsStack, below, stack, state, top};
ghost use Rattle.typing_rules.specs.Rows.{borrow_allowed_end, borrow_alone_end, borrow_end};

use mir_base::{NodeId, Pos, Rule, RuleError};
use mir_ty::{Items, Ty, TyId};
use typeck_checker::{Checker, One};
use typeck_env::reference_of;
use typeck_heads::{broken_rule, obeys};
use typed_tree::Use;

fn reference_ty(unique: bool, to: TyId) -> Ty
    ensures { result ≡ rows.reference_ty unique to }
{
    if unique {
        Ty::Unique(to)
    } else {
        Ty::Shared(to)
    }
}

fn borrow_by(unique: bool) -> Use
    ensures { result ≡ rows.borrow_by unique }
{
    if unique { Use::BorrowMut } else { Use::Borrow }
}

/// A borrow of the last node.
pub fn borrow_of(checker: &mut Checker, id: NodeId, at: Pos, unique: bool) -> Result<(), RuleError>
    ensures gives { Gives (rows.borrow_of id.0 at unique (top (stack checker.old)) (state checker.old)) result checker.new }
    ensures kept { KeepsStack (below (stack checker.old)) checker.old result checker.new }
{
    let ty = checker.intern(reference_ty(unique, checker.last_ty()))?;
    checker.use_if_place(borrow_by(unique))?;
    checker.wrap_one(id, at, ty, One::Borrow(unique))
}

/// Whether a borrow of a value is one for a parameter that names this type.
fn is_for(of: TyId, to: TyId, unique: bool, is_unique: bool) -> bool
    ensures { result ≡ (is_same of to && rows.is_same_truth unique is_unique) }
{
    of.0 == to.0 && unique == is_unique
}

/// Whether a borrow of a value of this type has the type that is required of it, if one is.
fn agrees_borrow(items: &Items, unique: bool, to: TyId, expected: Option<TyId>) -> bool
    ensures { result ≡ rows.agrees_borrow items.now unique to expected }
{
    match expected {
        Some(expected) => match reference_of(items, expected) {
            Some((is_unique, inside)) => is_for(inside, to, is_unique, unique),
            None => false,
        },
        None => true,
    }
}

/// `&e` and `&mut e` of the last node, where they are no argument for a reference: a rule is broken.
pub fn borrow_alone_end(
    checker: &mut Checker,
    at: Pos,
    unique: bool,
    expected: Option<TyId>,
) -> Result<(), RuleError>
    ensures gives { Gives (borrow_alone_end at unique expected (top (stack checker.old)) (state checker.old)) result checker.new }
    ensures kept { KeepsStack (below (stack checker.old)) checker.old result checker.new }
{
    let agrees = agrees_borrow(&checker.walk.items, unique, checker.last_ty(), expected);
    obeys(Rule::T03, at, agrees)?;
    Err(broken_rule(Rule::T08, at))
}

/// Whether the last node may be borrowed so.
fn may_borrow(checker: &Checker, unique: bool) -> bool
    ensures { result ≡ not (unique && places.is_behind_shared checker.now.walk.items (top (stack checker.now))) }
{
    !(unique && checker.is_last_shared())
}

/// A borrow of the last node, where it may be borrowed so.
fn borrow_allowed(checker: &mut Checker, id: NodeId, at: Pos, unique: bool) -> Result<(), RuleError>
    ensures gives { Gives (borrow_allowed_end id.0 at unique (top (stack checker.old)) (state checker.old)) result checker.new }
    ensures kept { KeepsStack (below (stack checker.old)) checker.old result checker.new }
{
    let is_allowed = may_borrow(checker, unique);
    obeys(Rule::T08, checker.last_at(), is_allowed)?;
    borrow_of(checker, id, at, unique)
}

/// `&e` and `&mut e` as an argument for a parameter that names this type.
pub fn borrow_end(
    checker: &mut Checker,
    id: NodeId,
    at: Pos,
    unique: bool,
    is_unique: bool,
    to: TyId,
) -> Result<(), RuleError>
    ensures gives { Gives (borrow_end id.0 at unique is_unique to (top (stack checker.old)) (state checker.old)) result checker.new }
    ensures kept { KeepsStack (below (stack checker.old)) checker.old result checker.new }
{
    let is_same = is_for(checker.last_ty(), to, unique, is_unique);
    obeys(Rule::T03, at, is_same)?;
    borrow_allowed(checker, id, at, unique)
}
