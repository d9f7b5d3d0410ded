//! What is known of the types of a table: which are Copy and which need dropping.
ghost use Rattle.std.specs.Prelude.{◌≡◌, ◌<◌, length, slice_get, Some, count_by, not};
ghost use Rattle.std.specs.Bool.{OnTrue, OnFalse};
ghost use Rattle.std.specs.List.{list_any, list_all};
ghost use Rattle.mir_ty.specs.Facts.{copy_rule, drop_rule, adt_drop_rule};
ghost use Rattle.mir_ty.specs.AreItems.{AreDistinct};
ghost use Rattle.mir_ty.specs.Known.{known_by, rule_of, IsShown, IsSettledAt, IsNews, IsBehindAt, IsAllShown};
ghost use Rattle.mir_ty.specs.declared.ty.TyId.{TyId};

use crate::type_table::TypeTable;
use crate::{Adt, ClosureDef, Ty, TyId, Variant};
use mir_base::List;

/// What may be true of a type.
#[derive(Clone, Copy)]
pub enum TypeFact {
    IsCopy,
    NeedsDrop,
}

/// Whether a type is known to be what the list says of each; `false` for a number past its end.
pub fn is_known(known: &[bool], id: TyId) -> bool
    ensures { result ≡ known_by known.now id }
{
    match known.get(id.0 as usize) {
        Some(is) => *is,
        None => false,
    }
}

fn all_known(known: &[bool], parts: &List<TyId>) -> bool
    ensures { result ≡ list_all (known_by known.now) parts.now }
{
    parts.iter().all(|part| is_known(known, *part))
}

fn any_known(known: &[bool], parts: &List<TyId>) -> bool
    ensures { result ≡ list_any (known_by known.now) parts.now }
{
    parts.iter().any(|part| is_known(known, *part))
}

/// Whether a type is Copy, where it is known which of its parts are.
fn is_copy_by_parts(adts: &List<Adt>, closures: &List<ClosureDef>, known: &[bool], ty: &Ty) -> bool
    ensures { result ≡ copy_rule adts.now closures.now (known_by known.now) ty.now }
{
    match ty {
        Ty::Int(_) | Ty::Bool | Ty::Unit | Ty::Never | Ty::Shared(_) | Ty::Unique(_) => true,
        Ty::Boxed(_) | Ty::Dyn(_) => false,
        Ty::Adt(n) => match adts.get(*n as usize) {
            Some(adt) => adt.copy,
            None => false,
        },
        Ty::Tuple(parts) => all_known(known, parts),
        Ty::Array(element, _) => is_known(known, *element),
        Ty::Closure(n) => match closures.get(*n as usize) {
            Some(def) => all_known(known, &def.captures),
            None => false,
        },
    }
}

fn any_field_known(known: &[bool], variants: &List<Variant>) -> bool
    ensures { result ≡ list_any (λ variant. list_any (known_by known.now) variant.fields) variants.now }
{
    variants
        .iter()
        .any(|variant| any_known(known, &variant.fields))
}

/// Whether a struct or an enum needs dropping, where it is known which types of its fields do.
fn adt_needs_drop(known: &[bool], adt: &Adt) -> bool
    ensures { result ≡ adt_drop_rule (known_by known.now) adt.now }
{
    adt.drop_body.is_some() || any_field_known(known, &adt.variants)
}

/// Whether a type needs dropping, where it is known which of its parts do.
fn needs_drop_by_parts(
    adts: &List<Adt>,
    closures: &List<ClosureDef>,
    known: &[bool],
    ty: &Ty,
) -> bool
    ensures { result ≡ drop_rule adts.now closures.now (known_by known.now) ty.now }
{
    match ty {
        Ty::Boxed(_) | Ty::Dyn(_) => true,
        Ty::Int(_) | Ty::Bool | Ty::Unit | Ty::Never | Ty::Shared(_) | Ty::Unique(_) => false,
        Ty::Adt(n) => match adts.get(*n as usize) {
            Some(adt) => adt_needs_drop(known, adt),
            None => false,
        },
        Ty::Tuple(parts) => any_known(known, parts),
        Ty::Array(element, count) => *count > 0 && is_known(known, *element),
        Ty::Closure(n) => match closures.get(*n as usize) {
            Some(def) => any_known(known, &def.captures),
            None => false,
        },
    }
}

/// Whether a fact is shown of a type, where it is known of which of its parts it holds.
pub fn is_shown(
    fact: TypeFact,
    adts: &List<Adt>,
    closures: &List<ClosureDef>,
    known: &[bool],
    ty: &Ty,
) -> bool
    ensures { result ≡ rule_of fact adts.now closures.now (known_by known.now) ty.now }
{
    match fact {
        TypeFact::IsCopy => is_copy_by_parts(adts, closures, known, ty),
        TypeFact::NeedsDrop => needs_drop_by_parts(adts, closures, known, ty),
    }
}

/// Whether a fact is shown of the type with this number, and not known yet.
fn is_news(
    fact: TypeFact,
    types: &[Ty],
    adts: &List<Adt>,
    closures: &List<ClosureDef>,
    known: &[bool],
    n: usize,
) -> bool
    requires as_long { length known.now ≡ length types.now }
    requires within { n < length types.now }
    ensures { IsNews types.now (rule_of fact adts.now closures.now) known.now n result }
{
    !known[n] && is_shown(fact, adts, closures, known, &types[n])
}

/// Goes once over the types, from the last to the first, and notes of which the fact is shown. Answers whether
/// there was any of which it was not known. Types that are named before they are declared mostly stand before
/// what they hold, so that going backwards takes few rounds.
fn note_shown(
    fact: TypeFact,
    types: &[Ty],
    adts: &List<Adt>,
    closures: &List<ClosureDef>,
    known: &mut [bool],
) -> bool
    requires as_long { length known.old ≡ length types.now }
    requires shown { IsShown types.now (rule_of fact adts.now closures.now) known.old }
    ensures shown { IsShown types.now (rule_of fact adts.now closures.now) known.new }
    ensures more { OnTrue result (count_by not known.new < count_by not known.old) }
    ensures settled { OnFalse result ((id : TyId) → IsSettledAt types.now (rule_of fact adts.now closures.now) known.new id) }
{
    let mut noted = false;
    for n in (0..types.len()).rev() {
        if is_news(fact, types, adts, closures, known, n) {
            known[n] = true;
            noted = true;
        }
    }
    noted
}

/// Notes of which types the fact is shown, until nothing more is. Each round but the last notes it of one more
/// type.
fn settle(
    fact: TypeFact,
    types: &[Ty],
    adts: &List<Adt>,
    closures: &List<ClosureDef>,
    known: &mut [bool],
)
    requires as_long { length known.old ≡ length types.now }
    requires shown { IsShown types.now (rule_of fact adts.now closures.now) known.old }
    ensures { IsAllShown types.now (rule_of fact adts.now closures.now) known.new }
{
    while note_shown(fact, types, adts, closures, known) {}
}

/// Brings one fact up to date, where the rule shows no more of any type but of the one that was added, which has
/// this number. Where it shows no more of that one either there is nothing to do.
fn update(
    fact: TypeFact,
    types: &[Ty],
    added: &Ty,
    number: usize,
    adts: &List<Adt>,
    closures: &List<ClosureDef>,
    known: &mut [bool],
)
    requires distinct { AreDistinct types.now }
    requires at { slice_get types.now number ≡ Some added.now }
    requires behind { IsBehindAt types.now (rule_of fact adts.now closures.now) known.old added.now }
    ensures { IsAllShown types.now (rule_of fact adts.now closures.now) known.new }
{
    if is_news(fact, types, adts, closures, known, number) {
        settle(fact, types, adts, closures, known);
    }
}

/// Brings up to date which types are known to be Copy and which to need dropping, where the rules show no more of
/// any type but of the one that was added. Where that has no number there is nothing to do.
pub fn bring_up_to_date(
    types: &TypeTable,
    added: &Ty,
    adts: &List<Adt>,
    closures: &List<ClosureDef>,
    copies: &mut Vec<bool>,
    drops: &mut Vec<bool>,
)
    requires copies { IsBehindAt types.now (copy_rule adts.now closures.now) copies.old.items added.now }
    requires drops { IsBehindAt types.now (drop_rule adts.now closures.now) drops.old.items added.now }
    ensures copies_length { length copies.new.items ≡ length types.now }
    ensures copies { IsAllShown types.now (copy_rule adts.now closures.now) copies.new.items }
    ensures drops_length { length drops.new.items ≡ length types.now }
    ensures drops { IsAllShown types.now (drop_rule adts.now closures.now) drops.new.items }
{
    if let Some(number) = types.find(added) {
        let types = types.as_slice();
        let copies = copies.as_mut_slice();
        update(
            TypeFact::IsCopy,
            types,
            added,
            number,
            adts,
            closures,
            copies,
        );
        let drops = drops.as_mut_slice();
        update(
            TypeFact::NeedsDrop,
            types,
            added,
            number,
            adts,
            closures,
            drops,
        );
    }
}
