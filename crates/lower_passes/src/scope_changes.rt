//! Changes of scopes. Each makes new scopes of those that change, in an arena, and shares the others.
#![tactic(auto, using(crate::proofs::Lists::entries_last))]

ghost use Rattle.std.specs.Prelude.{◌≡◌, ◌∷◌, IfOk};
ghost use Rattle.lower_rules.specs.Build as build;
ghost use Rattle.lower_code.specs.Code.{change_in, changed_by};
ghost use Rattle.lower_code.specs.View.{entry_of, at_of, change_of, keys_seen};
ghost use Rattle.src_meaning.specs.Scopes as plain;
ghost use Rattle.lower_passes.specs.Scoped.{scope_of, scopes_of, how_of};

use crate::entries::{push_entry, without_key, without_keys};
use crate::scope::{Entries, Scope, Scopes};
use bumpalo::Bump;
use lower_code::{Change, Entry, ScopeAt};
use mir_base::{Key, NoMemory, NodeId};

/// What happens to an entry of a scope.
#[derive(Clone, Copy)]
pub enum How {
    /// It is a pending destination.
    Pends,
    /// It was pending, and is the youngest entry.
    Completes,
    /// It is a new entry.
    Enters,
    /// It was pending.
    Leaves,
}

/// A scope, the innermost, in others.
fn inside<'a>(
    bump: &'a Bump,
    scope: Scope<'a>,
    around: &'a Scopes<'a>,
) -> Result<&'a Scopes<'a>, NoMemory>
    ensures { IfOk result (λ all. scopes_of all.now ≡ scope_of scope.entry ∷ scopes_of around.entry.now) }
{
    let all: &'a Scopes<'a> = bump.try_alloc(Scopes::Innermost(scope, around))?;
    Ok(all)
}

/// An entry of a scope changes.
fn change_entry<'a>(
    bump: &'a Bump,
    how: How,
    entry: Entry,
    scope: Scope<'a>,
) -> Result<Scope<'a>, NoMemory>
    ensures { IfOk result (λ other. scope_of other ≡ how_of how (entry_of entry) (scope_of scope.entry)) }
{
    match how {
        How::Pends => {
            let pending = push_entry(bump, entry, scope.pending)?;
            Ok(Scope { pending, ..scope })
        }
        How::Enters => {
            let entries = push_entry(bump, entry, scope.entries)?;
            Ok(Scope { entries, ..scope })
        }
        How::Leaves => {
            let pending = without_key(bump, entry.key, scope.pending)?;
            Ok(Scope { pending, ..scope })
        }
        How::Completes => {
            let pending = without_key(bump, entry.key, scope.pending)?;
            let entries = push_entry(bump, entry, scope.entries)?;
            Ok(Scope {
                entries,
                pending,
                ..scope
            })
        }
    }
}

/// An entry of the innermost scope changes.
fn innermost<'a>(
    bump: &'a Bump,
    how: How,
    entry: Entry,
    scopes: &'a Scopes<'a>,
) -> Result<&'a Scopes<'a>, NoMemory>
    ensures { IfOk result (λ all. scopes_of all.now ≡ plain.innermost (how_of how (entry_of entry)) (scopes_of scopes.entry.now)) }
{
    match scopes {
        Scopes::Innermost(scope, around) => {
            let other = change_entry(bump, how, entry, *scope)?;
            inside(bump, other, around)
        }
        Scopes::NoScope => Ok(scopes),
    }
}

/// An entry of the scope around the innermost changes.
fn around_innermost<'a>(
    bump: &'a Bump,
    how: How,
    entry: Entry,
    scopes: &'a Scopes<'a>,
) -> Result<&'a Scopes<'a>, NoMemory>
    ensures { IfOk result (λ all. scopes_of all.now ≡
        plain.around_innermost (how_of how (entry_of entry)) (scopes_of scopes.entry.now)) }
{
    match scopes {
        Scopes::Innermost(scope, around) => {
            let others = innermost(bump, how, entry, around)?;
            inside(bump, *scope, others)
        }
        Scopes::NoScope => Ok(scopes),
    }
}

/// An entry of the nearest scope for temporaries changes.
fn nearest_temporary<'a>(
    bump: &'a Bump,
    how: How,
    entry: Entry,
    scopes: &'a Scopes<'a>,
) -> Result<&'a Scopes<'a>, NoMemory>
    ensures { IfOk result (λ all. scopes_of all.now ≡
        plain.nearest_temporary (how_of how (entry_of entry)) (scopes_of scopes.entry.now)) }
{
    match scopes {
        Scopes::Innermost(scope, around) => {
            if scope.for_temporaries {
                let other = change_entry(bump, how, entry, *scope)?;
                inside(bump, other, around)
            } else {
                let others = nearest_temporary(bump, how, entry, around)?;
                inside(bump, *scope, others)
            }
        }
        Scopes::NoScope => Ok(scopes),
    }
}

/// An entry of a scope changes.
fn change_at<'a>(
    bump: &'a Bump,
    at: ScopeAt,
    how: How,
    entry: Entry,
    scopes: &'a Scopes<'a>,
) -> Result<&'a Scopes<'a>, NoMemory>
    ensures { IfOk result (λ all. scopes_of all.now ≡ change_in (at_of at) (how_of how (entry_of entry)) (scopes_of scopes.entry.now)) }
{
    match at {
        ScopeAt::Innermost => innermost(bump, how, entry, scopes),
        ScopeAt::AroundInnermost => around_innermost(bump, how, entry, scopes),
        ScopeAt::NearestTemporary => nearest_temporary(bump, how, entry, scopes),
    }
}

/// A new scope, the innermost.
///
/// # Errors
///
/// [`NoMemory`] where memory is wanted.
pub fn enter<'a>(
    bump: &'a Bump,
    node: NodeId,
    for_temporaries: bool,
    scopes: &'a Scopes<'a>,
) -> Result<&'a Scopes<'a>, NoMemory>
    ensures { IfOk result (λ all. scopes_of all.now ≡ plain.with_scope node.0 for_temporaries (scopes_of scopes.entry.now)) }
{
    let scope = Scope {
        node,
        for_temporaries,
        entries: Entries::NoEntry,
        pending: Entries::NoEntry,
    };
    inside(bump, scope, scopes)
}

/// The scopes around the innermost.
pub fn leave<'a>(scopes: &'a Scopes<'a>) -> &'a Scopes<'a>
    ensures { (frame : build.LoweringFrame) → scopes_of result.now ≡ build.outer frame (scopes_of scopes.entry.now) }
{
    match scopes {
        Scopes::Innermost(_, around) => around,
        Scopes::NoScope => scopes,
    }
}

/// Operands of the innermost scope are taken.
///
/// # Errors
///
/// [`NoMemory`] where memory is wanted.
pub fn take<'a>(
    bump: &'a Bump,
    keys: &[Key],
    scopes: &'a Scopes<'a>,
) -> Result<&'a Scopes<'a>, NoMemory>
    ensures { IfOk result (λ all. scopes_of all.now ≡
        plain.innermost (plain.without_operands (keys_seen keys.now)) (scopes_of scopes.entry.now)) }
{
    match scopes {
        Scopes::Innermost(scope, around) => {
            let entries = without_keys(bump, keys, scope.entries)?;
            inside(bump, Scope { entries, ..*scope }, around)
        }
        Scopes::NoScope => Ok(scopes),
    }
}

/// The name of a `let`, pending in the innermost scope, is an entry of the one around it.
fn name<'a>(
    bump: &'a Bump,
    entry: Entry,
    scopes: &'a Scopes<'a>,
) -> Result<&'a Scopes<'a>, NoMemory>
    ensures { IfOk result (λ all. scopes_of all.now ≡ plain.around_innermost (plain.with_entry (entry_of entry))
        (plain.innermost (plain.without_pending (entry_of entry)) (scopes_of scopes.entry.now))) }
{
    let others = innermost(bump, How::Leaves, entry, scopes)?;
    around_innermost(bump, How::Enters, entry, others)
}

/// The scopes after a change. It costs, and takes memory in the arena, by the scopes up to the one that changes and by
/// the entries there that are younger than one that goes.
///
/// # Errors
///
/// [`NoMemory`] where memory is wanted.
pub fn change<'a>(
    bump: &'a Bump,
    by: &Change,
    scopes: &'a Scopes<'a>,
) -> Result<&'a Scopes<'a>, NoMemory>
    ensures { IfOk result (λ all. scopes_of all.now ≡ changed_by (change_of by.now) (scopes_of scopes.entry.now)) }
{
    match by {
        Change::NewScope {
            node,
            for_temporaries,
        } => enter(bump, *node, *for_temporaries, scopes),
        Change::Pends(at, entry) => change_at(bump, *at, How::Pends, *entry, scopes),
        Change::Completes(at, entry) => change_at(bump, *at, How::Completes, *entry, scopes),
        Change::Enters(at, entry) => change_at(bump, *at, How::Enters, *entry, scopes),
        Change::Names(entry) => name(bump, *entry, scopes),
        Change::Takes(keys) => take(bump, keys.as_slice(), scopes),
    }
}
