//! The first fault of the line of a struct or enum or of a trait.
ghost use Rattle.std.specs.Prelude.{◌≡◌, ◌&&◌, IsTrue, not, true, false, length, slice_get, take, nat_lt};
ghost use Rattle.std.specs.Cmp.Lexicographic.{pointwise};
ghost use Rattle.std.specs.List.{list_any, list_all};
ghost use Rattle.std.specs.Option.{option_map_or};
ghost use Rattle.store_model.specs.Places.TypeForms.{is_closure};
ghost use Rattle.cfg_graph.specs.WellFormed.Broken.{first_of};
ghost use Rattle.cfg_graph.specs.WellFormed.NameFaults.{is_name as name_stands, same_name, same_impl, is_repeated_impl};
ghost use Rattle.cfg_graph.specs.WellFormed.Questions.{AreTests};
ghost use Rattle.cfg_graph.specs.WellFormed.TypeFaults.{misplaces_dyn as dyn_misplaced, adt_holds_itself, closure_holds_itself};
ghost use Rattle.cfg_graph.specs.WellFormed.ItemFaults.{exist, place_dyn, field_types, types_of_sig, types_of_trait, are_dropped as dropped_are, is_drop_sig as drop_sig, has_drop_sig as drops_by_sig, adt_has_types as adt_types_fit, adt_has_names as adt_names_stand, adt_tests, adt_faults, trait_has_names as trait_names_stand, trait_faults, impl_exists as impl_named, are_selves as selves_are, params_implement as params_fit, body_implements as body_fits, methods_of, impl_faults, begins_with_closure as closure_first, has_closure_sig as closure_sig, closure_has_types as closure_types_fit, closure_faults};

use crate::line_faults::unless;
use crate::name_faults::{is_adt_name, is_name};
use crate::place_types::is_adt_of;
use crate::same_types::same_ids;
use crate::type_faults::{TypeTests, adt_is_held, closure_is_held, misplaces_dyn, ty_exists};
use crate::typing::is_drop_body;
use mir_base::Name;
use mir_ty::{Adt, ClosureDef, ImplDef, Items, Sig, TraitDef, Ty, TyId, Variant};

/// Whether these types exist, with all that they name.
pub fn all_exist(items: &Items, tests: &TypeTests, bodies: usize, ids: &[TyId]) -> bool
    requires { AreTests items.now tests.now }
    ensures { result ≡ exist items.now bodies ids.now }
{
    for id in ids {
        if !ty_exists(items, tests, *id) {
            return false;
        }
    }
    true
}

/// Whether one of these types has a `dyn` type in a wrong place.
pub fn any_misplaces(items: &Items, tests: &TypeTests, ids: &[TyId]) -> bool
    requires { AreTests items.now tests.now }
    ensures { result ≡ list_any (dyn_misplaced items.now) ids.now }
{
    for id in ids {
        if misplaces_dyn(items, tests, *id) {
            return true;
        }
    }
    false
}

fn fields_exist(items: &Items, tests: &TypeTests, bodies: usize, variants: &[Variant]) -> bool
    requires { AreTests items.now tests.now }
    ensures { result ≡ list_all (λ variant. exist items.now bodies variant.fields) variants.now }
{
    for variant in variants {
        if !all_exist(items, tests, bodies, variant.fields.as_slice()) {
            return false;
        }
    }
    true
}

fn any_field_misplaces(items: &Items, tests: &TypeTests, variants: &[Variant]) -> bool
    requires { AreTests items.now tests.now }
    ensures { result ≡ list_any (λ variant. list_any (dyn_misplaced items.now) variant.fields) variants.now }
{
    for variant in variants {
        if any_misplaces(items, tests, variant.fields.as_slice()) {
            return true;
        }
    }
    false
}

/// Whether a signature is that of the `Drop` body of a struct or an enum.
fn is_drop_sig(items: &Items, bodies: usize, n: u32, sig: &Sig) -> bool
    ensures { result ≡ drop_sig items.now bodies n sig.now }
{
    are_dropped(items, bodies, n, sig.params.as_slice())
        && matches!(items.ty(sig.result), Some(Ty::Unit))
}

fn are_dropped(items: &Items, bodies: usize, n: u32, params: &[TyId]) -> bool
    ensures { result ≡ dropped_are items.now bodies n params.now }
{
    match params {
        [only] => match items.ty(*only) {
            Some(Ty::Unique(to)) => is_adt_of(n, items.ty(*to)),
            _ => false,
        },
        _ => false,
    }
}

fn has_drop_sig(items: &Items, bodies: usize, n: u32, body: Option<u32>) -> bool
    ensures { result ≡ option_map_or (drops_by_sig items.now bodies n) body true }
{
    match body {
        Some(body) => match items.body_sig(body) {
            Some(sig) => is_drop_sig(items, bodies, n, sig),
            None => false,
        },
        None => true,
    }
}

#[tactic(auto, using(crate::proofs::AskedOfLists::any_field_of))]
fn adt_has_types(items: &Items, tests: &TypeTests, bodies: usize, n: u32, adt: &Adt) -> bool
    requires { AreTests items.now tests.now }
    ensures { result ≡ adt_types_fit items.now bodies n adt.now }
{
    !any_field_misplaces(items, tests, adt.variants.as_slice())
        && has_drop_sig(items, bodies, n, adt.drop_body)
}

fn adt_is_named(items: &Items, n: u32, name: &Name) -> bool
    ensures { result ≡ option_map_or (λ other. same_name name.now other.name) (slice_get items.now.adts n) false }
{
    match items.adt(n) {
        Some(other) => *name == other.name,
        None => false,
    }
}

/// Whether one of the first `n` structs and enums has this name, which, if it is fresh, none has.
fn adt_name_repeats(items: &Items, n: u32, fresh: bool, name: &Name) -> bool
    requires { IsTrue fresh → list_any (λ other. same_name name.now other.name) (take n items.now.adts) ≡ false }
    ensures { result ≡ list_any (λ other. same_name name.now other.name) (take n items.now.adts) }
{
    if fresh {
        return false;
    }
    for i in 0..n {
        if adt_is_named(items, i, name) {
            return true;
        }
    }
    false
}

fn variants_are_named(variants: &[Variant]) -> bool
    ensures { result ≡ list_all (λ variant. name_stands variant.name) variants.now }
{
    variants.iter().all(|variant| is_name(&variant.name))
}

#[tactic(auto, using(crate::proofs::Rests::few_mapped))]
fn adt_has_names(items: &Items, bodies: usize, n: u32, fresh: bool, adt: &Adt) -> bool
    requires { IsTrue fresh → list_any (λ other. same_name adt.now.name other.name) (take n items.now.adts) ≡ false }
    ensures { result ≡ adt_names_stand items.now bodies n adt.now }
{
    is_adt_name(&adt.name)
        && variants_are_named(adt.variants.as_slice())
        && !adt_name_repeats(items, n, fresh, &adt.name)
}

/// Whether the types of a struct or an enum, and its `Drop` body, exist.
#[tactic(auto, using(crate::proofs::AskedOfLists::all_fields_of))]
fn adt_exists(items: &Items, tests: &TypeTests, bodies: usize, adt: &Adt) -> bool
    requires { AreTests items.now tests.now }
    ensures { result ≡ (exist items.now bodies (field_types adt.now) && option_map_or (λ body. nat_lt body bodies) adt.now.drop_body true) }
{
    fields_exist(items, tests, bodies, adt.variants.as_slice())
        && match adt.drop_body {
            Some(body) => (body as usize) < bodies,
            None => true,
        }
}

/// Whether a struct or an enum has its types and does not hold itself.
fn adt_is_typed(
    items: &Items,
    tests: &TypeTests,
    bodies: usize,
    types: usize,
    n: u32,
    adt: &Adt,
) -> bool
    requires tests { AreTests items.now tests.now }
    requires types { types ≡ length items.now.types }
    ensures { result ≡ (adt_types_fit items.now bodies n adt.now && not (adt_holds_itself items.now n)) }
{
    adt_has_types(items, tests, bodies, n, adt) && !adt_is_held(items, tests, types, n)
}

/// The first fault of the line of the struct or enum with this number, whose name, if it is fresh, repeats none before it.
pub fn adt_fault(
    items: &Items,
    tests: &TypeTests,
    bodies: usize,
    types: usize,
    n: u32,
    fresh: bool,
    adt: &Adt,
) -> Option<u8>
    requires tests { AreTests items.now tests.now }
    requires types { types ≡ length items.now.types }
    requires fresh { IsTrue fresh → list_any (λ other. same_name adt.now.name other.name) (take n items.now.adts) ≡ false }
    ensures { result ≡ first_of (adt_faults items.now bodies n adt.now) }
{
    let named = unless(adt_has_names(items, bodies, n, fresh, adt), 7, None);
    let typed = unless(adt_is_typed(items, tests, bodies, types, n, adt), 3, named);
    unless(adt_exists(items, tests, bodies, adt), 1, typed)
}

fn sig_exists(items: &Items, tests: &TypeTests, bodies: usize, sig: &Sig) -> bool
    requires { AreTests items.now tests.now }
    ensures { result ≡ exist items.now bodies (types_of_sig sig.now) }
{
    ty_exists(items, tests, sig.result) && all_exist(items, tests, bodies, sig.params.as_slice())
}

fn sig_misplaces(items: &Items, tests: &TypeTests, sig: &Sig) -> bool
    requires { AreTests items.now tests.now }
    ensures { result ≡ list_any (dyn_misplaced items.now) (types_of_sig sig.now) }
{
    misplaces_dyn(items, tests, sig.result) || any_misplaces(items, tests, sig.params.as_slice())
}

fn methods_exist(items: &Items, tests: &TypeTests, bodies: usize, methods: &[Sig]) -> bool
    requires { AreTests items.now tests.now }
    ensures { result ≡ list_all (λ sig. exist items.now bodies (types_of_sig sig)) methods.now }
{
    for sig in methods {
        if !sig_exists(items, tests, bodies, sig) {
            return false;
        }
    }
    true
}

fn any_method_misplaces(items: &Items, tests: &TypeTests, methods: &[Sig]) -> bool
    requires { AreTests items.now tests.now }
    ensures { result ≡ list_any (λ sig. list_any (dyn_misplaced items.now) (types_of_sig sig)) methods.now }
{
    for sig in methods {
        if sig_misplaces(items, tests, sig) {
            return true;
        }
    }
    false
}

#[tactic(auto, using(crate::proofs::AskedOfLists::all_types_of_trait))]
fn trait_exists(items: &Items, tests: &TypeTests, bodies: usize, def: &TraitDef) -> bool
    requires { AreTests items.now tests.now }
    ensures { result ≡ exist items.now bodies (types_of_trait def.now) }
{
    methods_exist(items, tests, bodies, def.methods.as_slice())
}

#[tactic(auto, using(crate::proofs::AskedOfLists::any_type_of_trait))]
fn trait_places_dyn(items: &Items, tests: &TypeTests, bodies: usize, def: &TraitDef) -> bool
    requires { AreTests items.now tests.now }
    ensures { result ≡ place_dyn items.now bodies (types_of_trait def.now) }
{
    !any_method_misplaces(items, tests, def.methods.as_slice())
}

fn trait_is_named(items: &Items, n: u32, name: &Name) -> bool
    ensures { result ≡ option_map_or (λ other. same_name name.now other.name) (slice_get items.now.traits n) false }
{
    match items.trait_def(n) {
        Some(other) => *name == other.name,
        None => false,
    }
}

/// Whether one of the first `n` traits has this name, which, if it is fresh, none has.
fn trait_name_repeats(items: &Items, n: u32, fresh: bool, name: &Name) -> bool
    requires { IsTrue fresh → list_any (λ other. same_name name.now other.name) (take n items.now.traits) ≡ false }
    ensures { result ≡ list_any (λ other. same_name name.now other.name) (take n items.now.traits) }
{
    if fresh {
        return false;
    }
    for i in 0..n {
        if trait_is_named(items, i, name) {
            return true;
        }
    }
    false
}

fn methods_are_named(methods: &[Sig]) -> bool
    ensures { result ≡ list_all (λ method. name_stands method.name) methods.now }
{
    methods.iter().all(|method| is_name(&method.name))
}

#[tactic(auto, using(crate::proofs::Rests::few_mapped))]
fn trait_has_names(items: &Items, bodies: usize, n: u32, fresh: bool, def: &TraitDef) -> bool
    requires { IsTrue fresh → list_any (λ other. same_name def.now.name other.name) (take n items.now.traits) ≡ false }
    ensures { result ≡ trait_names_stand items.now bodies n def.now }
{
    is_name(&def.name)
        && methods_are_named(def.methods.as_slice())
        && !trait_name_repeats(items, n, fresh, &def.name)
}

/// The first fault of the line of the trait with this number, whose name, if it is fresh, repeats none before it.
pub fn trait_fault(
    items: &Items,
    tests: &TypeTests,
    bodies: usize,
    n: u32,
    fresh: bool,
    def: &TraitDef,
) -> Option<u8>
    requires tests { AreTests items.now tests.now }
    requires fresh { IsTrue fresh → list_any (λ other. same_name def.now.name other.name) (take n items.now.traits) ≡ false }
    ensures { result ≡ first_of (trait_faults items.now bodies n def.now) }
{
    let named = unless(trait_has_names(items, bodies, n, fresh, def), 7, None);
    let typed = unless(trait_places_dyn(items, tests, bodies, def), 3, named);
    unless(trait_exists(items, tests, bodies, def), 1, typed)
}
