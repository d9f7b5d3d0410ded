//! Scopes that are open.
#![tactic(auto, using(crate::proofs::Lists::entries_last))]

ghost use Rattle.std.specs.Prelude.{◌≡◌, IfOk, length};
ghost use Rattle.lower_passes.specs.Scoped.{scopes_of};

use lower_code::Entry;
use mir_base::{NoMemory, NodeId};

/// Entries, the youngest first. Those that are older are shared with the lists that they came from.
#[derive(Clone, Copy)]
pub enum Entries<'a> {
    NoEntry,
    Youngest(Entry, &'a Entries<'a>),
}

/// A scope: the node whose scope it is, whether temporaries go into it, its entries and its pending destinations.
#[derive(Clone, Copy)]
pub struct Scope<'a> {
    pub node: NodeId,
    pub for_temporaries: bool,
    pub entries: Entries<'a>,
    pub pending: Entries<'a>,
}

/// The scopes that are open, the innermost first. Those around it are shared.
#[derive(Clone, Copy)]
pub enum Scopes<'a> {
    NoScope,
    Innermost(Scope<'a>, &'a Scopes<'a>),
}

/// How many scopes are open.
///
/// # Errors
///
/// [`NoMemory`] where they are more than a number counts.
pub fn depth(scopes: &Scopes) -> Result<usize, NoMemory>
    ensures { IfOk result (λ count. count ≡ length (scopes_of scopes.entry.now)) }
{
    match scopes {
        Scopes::NoScope => Ok(0),
        Scopes::Innermost(_, around) => depth(around)?
            .checked_add(1)
            .ok_or(NoMemory::past_32_bits()),
    }
}
