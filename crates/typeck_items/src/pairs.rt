//! Pairs of names, each of which is found by one look-up.
ghost use Rattle.std.specs.Prelude.{◌≡◌, ◌∷◌, [], not, true, IfOk};
ghost use Rattle.std.specs.String.{string_bytes};
ghost use Rattle.typing_rules.specs.Program.{is_seen};

use indexmap::IndexSet;
use mir_base::NoMemory;
use std::alloc::{AllocError, Global};
use std::marker::Model;

/// The name of a type, and that of a method or a trait.
#[derive(PartialEq, Eq, Hash, Drop)]
struct NamePair {
    owner: String,
    name: String,
}

/// Pairs of names, the last of them first. To add one costs about the same however many there are.
#[derive(Drop)]
pub struct NamePairs {
    pairs: IndexSet<NamePair>,
}

impl Model for NamePairs {
    ghost use Rattle.std.specs.Prelude.{List, ℕ, map, reverse};
    ghost use Rattle.std.specs.String.{string_bytes};
    ghost use Rattle.typeck_items.specs.declared.pairs.NamePair.{NamePair};

    ghost Value = { List (List ℕ × List ℕ) };

    ghost view = { λ p. reverse (map (λ (k : NamePair). (string_bytes k.owner, string_bytes k.name)) p.pairs.keys) };
}

fn pair(alloc: Global, owner: &str, name: &str) -> Result<NamePair, AllocError>
    ensures { IfOk result (λ pair. (string_bytes pair.owner ≡ owner.now) × (string_bytes pair.name ≡ name.now)) }
{
    let owner = String::from_str(alloc, owner)?;
    let name = String::from_str(alloc, name)?;
    Ok(NamePair { owner, name })
}

impl NamePairs {
    /// No pairs.
    pub fn new(alloc: Global) -> NamePairs
        ensures { result ≡ [] }
    {
        NamePairs {
            pairs: IndexSet::new(alloc),
        }
    }

    /// Adds a pair where it is new, and answers whether it is.
    ///
    /// # Errors
    ///
    /// [`NoMemory`] where memory is wanted.
    pub fn add(&mut self, alloc: Global, owner: &str, name: &str) -> Result<bool, NoMemory>
        ensures told { IfOk result (λ is_new. is_new ≡ not (is_seen owner.now name.now self.old)) }
        ensures added { IfOk result (λ is_new. is_new ≡ true → self.new ≡ (owner.now, name.now) ∷ self.old) }
    {
        let pair = pair(alloc, owner, name)?;
        let is_new = self.pairs.insert(pair)?;
        Ok(is_new)
    }
}
