//! Variables in scope. A name stands for the youngest variable of that name, which hides the older ones (The Rust
//! Reference, "Scopes", "Shadowing").
ghost use Rattle.std.specs.Prelude.{◌≡◌, ◌≤◌, ◌-◌, ◌∷◌, [], drop, length, option_copied, option_map, reverse, slice_get, OnOk, OnErr};
ghost use Rattle.typeck_env.specs.Scope.{entry_of};
ghost use Rattle.typing_rules.specs.Scope.{variable as variable_named};

use mir_base::{Key, List, Name, NoMemory};
use mir_ty::TyId;
use std::alloc::Global;
use std::collections::HashMap;
use std::marker::Model;

/// What a variable is.
#[derive(Clone, Copy)]
pub enum VariableMeaning {
    /// An entry of the body.
    Local(Key),
    /// A captured variable: the key of the closure's value, and its number among the captures.
    Capture { closure: Key, part: u32 },
    /// A binding inside its own guard.
    InGuard(Key),
}

/// A variable in scope.
#[derive(Drop)]
pub struct Variable {
    pub name: Name,
    pub ty: TyId,
    pub meaning: VariableMeaning,
}

/// A variable, and the place of the one that it hides, if there is one.
#[derive(Drop)]
struct Slot {
    variable: Variable,
    hides: Option<u32>,
}

/// The variables in scope. To enter one, to leave it, and to find one by its name cost about the same however many
/// there are.
pub struct Variables {
    /// The oldest first.
    slots: List<Slot>,
    /// The place of the youngest variable of each name that is in scope.
    youngest: HashMap<String, u32>,
}

/// As a derived one; but written here, it is proved here, and not again in each crate in which variables end.
impl Drop for Variables {
    fn drop(self) {
        let Variables { slots, youngest } = self;
        drop(slots);
        drop(youngest);
    }
}

impl Model for Variables {
    ghost use Rattle.std.specs.Prelude.{List as Listed, reverse, map};
    ghost use Rattle.typing_rules.specs.Scope.{NamedEntry};
    ghost use Rattle.typeck_env.specs.Scope.{IsIndexed, entry_in};

    ghost Value = { Listed NamedEntry };

    ghost view = { λ v. map entry_in (reverse v.slots) };

    ghost invariant = { λ v. IsIndexed (reverse v.slots) v.youngest };
}

impl Variables {
    /// No variables.
    pub fn new(alloc: Global) -> Variables
        ensures { result ≡ [] }
    {
        Variables {
            slots: List::new(alloc),
            youngest: HashMap::new(alloc),
        }
    }

    /// How many there are, hidden ones among them.
    pub fn len(&self) -> usize
        ensures { result ≡ length self.now }
    {
        self.slots.len()
    }

    /// The youngest variable of a name; `None` where there is none.
    pub fn find(&self, name: &str) -> Option<&Variable>
        ensures { option_map entry_of (option_copied result) ≡ variable_named self.now name.now }
    {
        match self.youngest.get(name) {
            Some(place) => match self.slots.get(*place as usize) {
                Some(slot) => Some(&slot.variable),
                None => None,
            },
            None => None,
        }
    }

    /// The variable with a number, counted from 0 with the oldest; `None` where there is none.
    pub fn at(&self, number: usize) -> Option<&Variable>
        ensures { option_map entry_of (option_copied result) ≡ slice_get (reverse self.now) number }
    {
        match self.slots.get(number) {
            Some(slot) => Some(&slot.variable),
            None => None,
        }
    }

    /// A variable comes into scope, and hides those of its name.
    pub fn enter(&mut self, alloc: Global, variable: Variable) -> Result<(), NoMemory>
        ensures entered { OnOk result (self.new ≡ entry_of variable ∷ self.old) }
        ensures refused { OnErr result (self.new ≡ self.old) }
    {
        let name = String::from_str(alloc, variable.name.as_str())?;
        let place = self.slots.len();
        if place >= u32::MAX as usize {
            return Err(NoMemory::past_32_bits());
        }
        let hides = self.youngest.get(variable.name.as_str()).copied();
        self.slots.push(Slot { variable, hides })?;
        match self.youngest.insert(name, place as u32) {
            Ok(_) => Ok(()),
            Err(_) => {
                self.slots.pop();
                Err(NoMemory)
            }
        }
    }

    /// The youngest variable goes out of scope, and the one that it hid stands for its name again.
    pub fn leave_one(&mut self)
        ensures { self.new ≡ drop 1 self.old }
    {
        let Some(slot) = self.slots.pop() else {
            return;
        };
        let name = slot.variable.name.as_str();
        match slot.hides {
            Some(place) => {
                if let Some(youngest) = self.youngest.get_mut(name) {
                    *youngest = place;
                }
            }
            None => {
                self.youngest.remove(name);
            }
        }
    }

    /// The youngest variables go out of scope, until there are this many.
    pub fn leave(&mut self, count: usize)
        requires { count ≤ length self.old }
        ensures { self.new ≡ drop (length self.old - count) self.old }
    {
        for _n in count..self.len() {
            self.leave_one();
        }
    }
}
