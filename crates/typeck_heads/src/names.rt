ghost use Rattle.std.specs.Prelude.{◌≡◌, [], ◌∷◌, ◌++◌, IfOk, OnOk, List as Listed, ℕ, Some, None, if◌then◌else◌};
ghost use Rattle.std.specs.HashMap.{get_by_text};
ghost use Rattle.std.specs.Option.{option_or};
ghost use Rattle.std.specs.List.{position as position_of};
ghost use Rattle.std.specs.Str.{bytes_eq};

use mir_base::{List, Name, NoMemory};
use std::alloc::Global;
use std::collections::HashMap;
use std::marker::Model;

/// Names in an order, each with the number of its first place, counted from 0. A look-up costs about the same for
/// all names.
pub struct NameTable {
    names: List<Name>,
    numbers: HashMap<String, u32>,
}

/// As a derived one; but written here, it is proved here, and not again in each crate in which such a table ends.
impl Drop for NameTable {
    fn drop(self) {
        let NameTable { names, numbers } = self;
        drop(names);
        drop(numbers);
    }
}

impl Model for NameTable {
    ghost use Rattle.std.specs.Prelude.{List as Listed, ℕ, ◌≡◌};
    ghost use Rattle.std.specs.HashMap.{get_by_text};
    ghost use Rattle.std.specs.List.{position as first_at};
    ghost use Rattle.std.specs.Str.{bytes_eq as same_bytes};

    ghost Value = { Listed (Listed ℕ) };

    ghost view = { λ table. table.names };

    ghost invariant = { λ table. (name : Listed ℕ) → get_by_text table.numbers name ≡ first_at (same_bytes name) table.names };
}

impl NameTable {
    /// A table without names.
    pub fn new(alloc: Global) -> NameTable
        ensures { result ≡ [] }
    {
        NameTable {
            names: List::new(alloc),
            numbers: HashMap::new(alloc),
        }
    }

    /// The number of a name; `None` where it is not in the table.
    pub fn find(&self, name: &str) -> Option<u32>
        ensures { result ≡ position_of (bytes_eq name.now) self.now }
    {
        self.numbers.get(name).copied()
    }

    /// The table with a name behind the others.
    pub fn with(self, alloc: Global, name: &str) -> Result<NameTable, NoMemory>
        ensures { IfOk result (λ table. table ≡ self ++ name.now ∷ []) }
    {
        let NameTable { names, numbers } = self;
        let mut names = names;
        let mut numbers = numbers;
        let number = names.len();
        if number >= u32::MAX as usize {
            return Err(NoMemory::past_32_bits());
        }
        note(alloc, &mut numbers, name, number as u32)?;
        names.push(Name::from_str(alloc, name)?)?;
        Ok(NameTable { names, numbers })
    }
}

/// Notes the number of a name that has none.
fn note(
    alloc: Global,
    numbers: &mut HashMap<String, u32>,
    name: &str,
    number: u32,
) -> Result<(), NoMemory>
    ensures { OnOk result ((q : Listed ℕ) → get_by_text numbers.new q
        ≡ option_or (get_by_text numbers.old q) (if bytes_eq q name.now then Some number else None)) }
{
    if numbers.contains_key(name) {
        return Ok(());
    }
    numbers.insert(String::from_str(alloc, name)?, number)?;
    Ok(())
}
