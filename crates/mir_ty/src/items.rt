ghost use Rattle.std.specs.Prelude.{◌≡◌, ◌↔◌, ◌+◌, ◌-◌, ◌^◌, ◌<◌, ◌≤◌, Contains, All, length, slice_get, IsTrue, IfOk, OnOk, OnErr, IsOk};
ghost use Rattle.std.specs.Option.{option_copied};
ghost use Rattle.mir_ty.specs.ItemTable.{no_items, with_adt, with_trait, with_impl, with_closure, with_body, type_at, Interns, item_count};
ghost use Rattle.mir_ty.specs.AreItems.{AreItems, IsTy, IsAdt, IsMethod, IsSig, AreTypes};
ghost use Rattle.mir_ty.specs.Facts.{IsCopy, NeedsDrop, is_copy, needs_drop, has_drop_impl};
ghost use Rattle.mir_ty.specs.Parts.{field_ty, fields_of};

use crate::duplicate::Duplicate;
use crate::facts::{TypeFact, bring_up_to_date, is_known, is_shown};
use crate::sizes::{check_adt, check_len, check_sig, check_trait, check_ty, next_number};
use crate::type_table::TypeTable;
use crate::{Adt, ClosureDef, ImplDef, Sig, TraitDef, Ty, TyId};
use mir_base::{List, NoMemory};
use std::alloc::Global;
use std::marker::Model;

/// The types of a program by number, and its structs and enums, traits, impls, closures and bodies, each in a
/// table of its own by number. All numbers count from 0.
///
/// Equal types have one number. Each type that a type or an item names is in the table, a struct has one variant,
/// which has its name, a variant has as many field names as fields, a tuple has a part, and the parameters of a
/// trait's method begin with the type of `self`. A type or an item may name a struct, enum, trait, closure or body
/// that has not been added yet.
///
/// Each list in items has fewer than 2^32 - 1 members, and so have the structs, enums, traits, impls and closures
/// taken together. A call that would make more answers [`NoMemory`], as one does for which there is no memory. A
/// refused call leaves the items as they were.
///
/// Beside each type stands whether it is Copy and whether it needs dropping, so that asking costs the same for all
/// types. See [`Items::intern`] and [`Items::add_adt`] for what keeping that costs.
pub struct Items {
    types: TypeTable,
    copies: Vec<bool>,
    drops: Vec<bool>,
    adts: List<Adt>,
    traits: List<TraitDef>,
    impls: List<ImplDef>,
    closures: List<ClosureDef>,
    bodies: List<Sig>,
}

/// As a derived one; but written here, it is proved here, and not again in each crate in which items end.
impl Drop for Items {
    fn drop(self) {
        let Items {
            types,
            copies,
            drops,
            adts,
            traits,
            impls,
            closures,
            bodies,
        } = self;
        drop(types);
        drop(copies);
        drop(drops);
        drop(adts);
        drop(traits);
        drop(impls);
        drop(closures);
        drop(bodies);
    }
}

impl Model for Items {
    ghost use Rattle.mir_ty.specs.ItemTable.{ItemTable};

    ghost Value = { ItemTable };

    ghost use Rattle.mir_ty.specs.Tables.{table_of, AreTables};

    ghost view = { table_of };

    ghost invariant = { AreTables };
}

/// Both a second time. (What is alive where memory may be wanted is dropped there, so two at a time.)
fn second_of_both<A: Duplicate, B: Duplicate>(
    alloc: Global,
    one: &A,
    other: &B,
) -> Result<(A, B), NoMemory>
    ensures one { IfOk result (λ both. both.0 ≡ one.now) }
    ensures other { IfOk result (λ both. both.1 ≡ other.now) }
{
    let first = one.duplicate(alloc)?;
    Ok((first, other.duplicate(alloc)?))
}

fn second_marks(
    alloc: Global,
    one: &Vec<bool>,
    other: &Vec<bool>,
) -> Result<(Vec<bool>, Vec<bool>), NoMemory>
    ensures one { IfOk result (λ both. both.0.items ≡ one.now.items) }
    ensures other { IfOk result (λ both. both.1.items ≡ other.now.items) }
{
    let first = Vec::from_slice(alloc, one.as_slice())?;
    Ok((first, Vec::from_slice(alloc, other.as_slice())?))
}

impl Items {
    /// Items of which there are none. It takes no memory.
    pub fn new(alloc: Global) -> Items
        ensures { result ≡ no_items }
    {
        Items {
            types: TypeTable::new(alloc),
            copies: Vec::new(alloc),
            drops: Vec::new(alloc),
            adts: List::new(alloc),
            traits: List::new(alloc),
            impls: List::new(alloc),
            closures: List::new(alloc),
            bodies: List::new(alloc),
        }
    }

    /// Second items, equal to these.
    pub fn copy(&self, alloc: Global) -> Result<Items, NoMemory>
        ensures { IfOk result (λ copy. copy ≡ self.now) }
    {
        let (copies, drops) = second_marks(alloc, &self.copies, &self.drops)?;
        let (types, bodies) = second_of_both(alloc, &self.types, &self.bodies)?;
        let (adts, traits) = second_of_both(alloc, &self.adts, &self.traits)?;
        let (impls, closures) = second_of_both(alloc, &self.impls, &self.closures)?;
        Ok(Items {
            types,
            copies,
            drops,
            adts,
            traits,
            impls,
            closures,
            bodies,
        })
    }

    /// The number that a type has already, or the next one, which it has from now on. A type that has a number
    /// costs one look-up and no memory; a new one costs its own description besides, with the fields of its struct
    /// or enum or the captures of its closure.
    pub fn intern(&mut self, ty: Ty) -> Result<TyId, NoMemory>
        requires { IsTy self.old.types ty }
        ensures interned { IfOk result (λ id. Interns self.old ty self.new id) }
        ensures had { Contains self.old.types ty → IsOk result }
        ensures refused { OnErr result (self.new ≡ self.old) }
    {
        if let Some(n) = self.types.find(&ty) {
            return Ok(TyId(n as u32));
        }
        let number = next_number(self.types.len())?;
        check_ty(&ty)?;
        let copies = is_shown(
            TypeFact::IsCopy,
            &self.adts,
            &self.closures,
            self.copies.as_slice(),
            &ty,
        );
        let drops = is_shown(
            TypeFact::NeedsDrop,
            &self.adts,
            &self.closures,
            self.drops.as_slice(),
            &ty,
        );
        self.copies.reserve(1)?;
        self.drops.reserve(1)?;
        self.types.push(ty)?;
        self.copies.push(copies).unwrap();
        self.drops.push(drops).unwrap();
        Ok(TyId(number))
    }

    /// Adds a struct or an enum, whose fields have their types in the table already. A struct comes with exactly
    /// one variant, which has its name, and each variant with as many field names as fields. Answers its number.
    ///
    /// It costs the size of what is added. Where its type has a number already, because something named it before,
    /// and it is now Copy or needs dropping, the types that hold it are brought up to date in rounds over the types.
    /// Each round but the last finds that one more type is Copy or needs dropping, so that in the life of the items
    /// there are no more rounds than twice the types and twice the structs, enums and closures so named.
    pub fn add_adt(&mut self, adt: Adt) -> Result<u32, NoMemory>
        requires { IsAdt self.old.types adt }
        ensures number { IfOk result (λ n. n ≡ length self.old.adts) }
        ensures added { OnOk result (self.new ≡ with_adt self.old adt) }
        ensures refused { OnErr result (self.new ≡ self.old) }
    {
        let number = self.next_item(self.adts.len())?;
        check_adt(&adt)?;
        self.adts.push(adt)?;
        bring_up_to_date(
            &self.types,
            &Ty::Adt(number),
            &self.adts,
            &self.closures,
            &mut self.copies,
            &mut self.drops,
        );
        Ok(number)
    }

    /// Adds a trait, the parameters of each of whose methods begin with `&dyn` or `&mut dyn` of the trait itself,
    /// which has the next number. Answers that number.
    pub fn add_trait(&mut self, def: TraitDef) -> Result<u32, NoMemory>
        requires { All (IsMethod self.old.types (length self.old.traits)) def.methods }
        ensures number { IfOk result (λ n. n ≡ length self.old.traits) }
        ensures added { OnOk result (self.new ≡ with_trait self.old def) }
        ensures refused { OnErr result (self.new ≡ self.old) }
    {
        let number = self.next_item(self.traits.len())?;
        check_trait(&def)?;
        self.traits.push(def)?;
        Ok(number)
    }

    /// Adds an impl and answers its number.
    pub fn add_impl(&mut self, def: ImplDef) -> Result<u32, NoMemory>
        ensures number { IfOk result (λ n. n ≡ length self.old.impls) }
        ensures added { OnOk result (self.new ≡ with_impl self.old def) }
        ensures refused { OnErr result (self.new ≡ self.old) }
    {
        let number = self.next_item(self.impls.len())?;
        check_len(def.bodies.len())?;
        self.impls.push(def)?;
        Ok(number)
    }

    /// Adds a closure, whose captures have their types in the table already, and answers its number. It costs what
    /// [`Items::add_adt`] costs.
    pub fn add_closure(&mut self, def: ClosureDef) -> Result<u32, NoMemory>
        requires { AreTypes self.old.types def.captures }
        ensures number { IfOk result (λ n. n ≡ length self.old.closures) }
        ensures added { OnOk result (self.new ≡ with_closure self.old def) }
        ensures refused { OnErr result (self.new ≡ self.old) }
    {
        let number = self.next_item(self.closures.len())?;
        check_len(def.captures.len())?;
        self.closures.push(def)?;
        bring_up_to_date(
            &self.types,
            &Ty::Closure(number),
            &self.adts,
            &self.closures,
            &mut self.copies,
            &mut self.drops,
        );
        Ok(number)
    }

    /// Adds the head of a body, whose types are in the table already, and answers the body's number.
    pub fn add_body(&mut self, sig: Sig) -> Result<u32, NoMemory>
        requires { IsSig self.old.types sig }
        ensures number { IfOk result (λ n. n ≡ length self.old.bodies) }
        ensures added { OnOk result (self.new ≡ with_body self.old sig) }
        ensures refused { OnErr result (self.new ≡ self.old) }
    {
        let number = next_number(self.bodies.len())?;
        check_sig(&sig)?;
        self.bodies.push(sig)?;
        Ok(number)
    }

    // The next number of a table with this many members, unless there are too many structs, enums, traits, impls
    // and closures.
    fn next_item(&self, len: usize) -> Result<u32, NoMemory>
        requires { len ≤ item_count self.now }
        ensures number { IfOk result (λ n. n ≡ len) }
        ensures short { OnOk result (item_count self.now + 1 < 2 ^ 32 - 1) }
    {
        next_number(self.adts.len() + self.traits.len() + self.impls.len() + self.closures.len())?;
        Ok(len as u32)
    }

    /// The type with a number, and `None` where the number is not in the table.
    pub fn ty(&self, id: TyId) -> Option<&Ty>
        ensures value { option_copied result ≡ type_at self.now id }
        ensures sound { AreItems self.now }
    {
        self.types.get(id.0 as usize)
    }

    /// The struct or enum with a number, and `None` where the number is not in the table.
    pub fn adt(&self, n: u32) -> Option<&Adt>
        ensures value { option_copied result ≡ slice_get self.now.adts n }
        ensures sound { AreItems self.now }
    {
        self.adts.get(n as usize)
    }

    /// The trait with a number, and `None` where the number is not in the table.
    pub fn trait_def(&self, n: u32) -> Option<&TraitDef>
        ensures value { option_copied result ≡ slice_get self.now.traits n }
        ensures sound { AreItems self.now }
    {
        self.traits.get(n as usize)
    }

    /// The impl with a number, and `None` where the number is not in the table.
    pub fn impl_def(&self, n: u32) -> Option<&ImplDef>
        ensures value { option_copied result ≡ slice_get self.now.impls n }
        ensures sound { AreItems self.now }
    {
        self.impls.get(n as usize)
    }

    /// The closure with a number, and `None` where the number is not in the table.
    pub fn closure_def(&self, n: u32) -> Option<&ClosureDef>
        ensures value { option_copied result ≡ slice_get self.now.closures n }
        ensures sound { AreItems self.now }
    {
        self.closures.get(n as usize)
    }

    /// The head of the body with a number, and `None` where the number is not in the table.
    pub fn body_sig(&self, n: u32) -> Option<&Sig>
        ensures value { option_copied result ≡ slice_get self.now.bodies n }
        ensures sound { AreItems self.now }
    {
        self.bodies.get(n as usize)
    }

    /// Whether a type is Copy: an integer type, `bool`, `()`, `!`, a reference, a struct or enum that derives
    /// `Copy`, or a tuple, array or closure all of whose parts are (The Rust Reference, "Special types and traits",
    /// where `&mut T` is not Copy). It is `false` for a number that is not in the table. The cost is the same for
    /// all types.
    pub fn is_copy(&self, id: TyId) -> bool
        ensures value { result ≡ is_copy self.now id }
        ensures rules { IsTrue result ↔ IsCopy self.now id }
    {
        is_known(self.copies.as_slice(), id)
    }

    /// Whether a type needs dropping: a box, `dyn`, a struct or enum with a `Drop` impl, or a type with a part that
    /// needs dropping (The Rust Reference, "Destructors"). It is `false` for a number that is not in the table. The
    /// cost is the same for all types.
    pub fn needs_drop(&self, id: TyId) -> bool
        ensures value { result ≡ needs_drop self.now id }
        ensures rules { IsTrue result ↔ NeedsDrop self.now id }
    {
        is_known(self.drops.as_slice(), id)
    }

    /// Whether a type is a struct or an enum with a `Drop` impl.
    pub fn has_drop_impl(&self, id: TyId) -> bool
        ensures { result ≡ has_drop_impl self.now id }
    {
        match self.ty(id) {
            Some(Ty::Adt(n)) => match self.adt(*n) {
                Some(adt) => adt.drop_body.is_some(),
                None => false,
            },
            _ => false,
        }
    }

    /// The type of a numbered part, counted from 0: a field of a variant, a part of a tuple, an element of an
    /// array, or a capture of a closure. A type that is no enum has the one variant 0. `None` comes where the type
    /// has no such variant or no such part; a box has no numbered part, since what is in it is no field of it.
    pub fn field_ty(&self, id: TyId, variant: u32, part: u32) -> Option<TyId>
        ensures value { result ≡ field_ty self.now id variant part }
        ensures sound { AreItems self.now }
    {
        match self.ty(id)? {
            Ty::Adt(n) => field_of(self.adt(*n)?, variant, part),
            _ if variant != 0 => None,
            Ty::Tuple(parts) => parts.get(part as usize).copied(),
            Ty::Array(element, count) if part < *count => Some(*element),
            Ty::Closure(n) => self.closure_def(*n)?.captures.get(part as usize).copied(),
            _ => None,
        }
    }
}

fn field_of(adt: &Adt, variant: u32, part: u32) -> Option<TyId>
    ensures { result ≡ slice_get (fields_of (slice_get adt.now.variants variant)) part }
{
    let fields = &adt.variants.get(variant as usize)?.fields;
    fields.get(part as usize).copied()
}
