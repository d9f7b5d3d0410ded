//! The first fault of the line of an impl or a closure.
ghost use Rattle.std.specs.Prelude.{◌≡◌, ◌&&◌, IsTrue, not, false, length, slice_get, nat_lt};
ghost use Rattle.std.specs.Cmp.Lexicographic.{pointwise};
ghost use Rattle.std.specs.List.{list_all};
ghost use Rattle.std.specs.Option.{option_copied, option_map_or};
ghost use Rattle.cfg_graph.specs.WellFormed.Broken.{first_of};
ghost use Rattle.cfg_graph.specs.WellFormed.NameFaults.{same_impl, is_repeated_impl};
ghost use Rattle.cfg_graph.specs.WellFormed.Questions.{AreTests};
ghost use Rattle.cfg_graph.specs.WellFormed.TypeFaults.{closure_holds_itself};
ghost use Rattle.cfg_graph.specs.WellFormed.ItemFaults.{exist, impl_exists as impl_named, are_selves as selves_are, params_implement as params_fit, body_implements as body_fits, methods_of, impl_faults, has_closure_sig as closure_sig, closure_has_types as closure_types_fit, closure_faults};

use crate::item_faults::{all_exist, any_misplaces};
use crate::line_faults::unless;
use crate::place_types::{is_adt_of, is_closure_of};
use crate::same_types::same_ids;
use crate::type_faults::{TypeTests, closure_is_held};
use crate::typing::is_drop_body;
use mir_ty::{ClosureDef, ImplDef, Items, Sig, Ty, TyId};

/// Whether the type of `self` in a body is that of the method, with the struct or enum in the place of `dyn`.
fn are_selves(items: &Items, bodies: usize, n: u32, method: Option<&Ty>, own: Option<&Ty>) -> bool
    ensures { result ≡ selves_are items.now bodies n (option_copied method.entry) (option_copied own.entry) }
{
    match method {
        Some(Ty::Shared(_)) => match own {
            Some(Ty::Shared(to)) => is_adt_of(n, items.ty(*to)),
            _ => false,
        },
        Some(Ty::Unique(_)) => match own {
            Some(Ty::Unique(to)) => is_adt_of(n, items.ty(*to)),
            _ => false,
        },
        _ => false,
    }
}

fn params_implement(items: &Items, bodies: usize, n: u32, method: &[TyId], own: &[TyId]) -> bool
    ensures { result ≡ params_fit items.now bodies n method.now own.now }
{
    match method {
        [] => false,
        [object, params @ ..] => match own {
            [] => false,
            [self_ty, own @ ..] => {
                are_selves(items, bodies, n, items.ty(*object), items.ty(*self_ty))
                    && same_ids(params, own)
            }
        },
    }
}

fn body_implements(items: &Items, bodies: usize, n: u32, method: &Sig, body: u32) -> bool
    ensures { result ≡ body_fits items.now bodies n method.now body }
{
    match items.body_sig(body) {
        Some(sig) => {
            params_implement(
                items,
                bodies,
                n,
                method.params.as_slice(),
                sig.params.as_slice(),
            ) && method.result.0 == sig.result.0
                && !is_drop_body(items, body)
        }
        None => false,
    }
}

fn bodies_implement(items: &Items, bodies: usize, n: u32, methods: &[Sig], own: &[u32]) -> bool
    ensures { result ≡ pointwise (body_fits items.now bodies n) methods.now own.now }
{
    match methods {
        [] => own.is_empty(),
        [method, methods @ ..] => match own {
            [] => false,
            [body, own @ ..] => {
                body_implements(items, bodies, n, method, *body)
                    && bodies_implement(items, bodies, n, methods, own)
            }
        },
    }
}

fn impl_is_typed(items: &Items, bodies: usize, def: &ImplDef) -> bool
    ensures { result ≡ pointwise (body_fits items.now bodies def.now.adt) (methods_of items.now bodies def.now.trait_no) def.now.bodies }
{
    let own = def.bodies.as_slice();
    match items.trait_def(def.trait_no) {
        Some(found) => bodies_implement(items, bodies, def.adt, found.methods.as_slice(), own),
        None => own.is_empty(),
    }
}

fn are_bodies(bodies: usize, numbers: &[u32]) -> bool
    ensures { result ≡ list_all (λ body. nat_lt body bodies) numbers.now }
{
    numbers.iter().all(|body| (*body as usize) < bodies)
}

fn impl_exists(items: &Items, bodies: usize, def: &ImplDef) -> bool
    ensures { result ≡ impl_named items.now bodies def.now }
{
    items.trait_def(def.trait_no).is_some()
        && items.adt(def.adt).is_some()
        && are_bodies(bodies, def.bodies.as_slice())
}

fn impl_is_same(items: &Items, n: u32, def: &ImplDef) -> bool
    ensures { result ≡ option_map_or (same_impl def.now) (slice_get items.now.impls n) false }
{
    match items.impl_def(n) {
        Some(other) => def.trait_no == other.trait_no && def.adt == other.adt,
        None => false,
    }
}

/// Whether one of the first `n` impls is of the same trait for the same type, which, if it is fresh, none is.
fn impl_repeats(items: &Items, n: u32, fresh: bool, def: &ImplDef) -> bool
    requires { IsTrue fresh → is_repeated_impl items.now.impls n def.now ≡ false }
    ensures { result ≡ is_repeated_impl items.now.impls n def.now }
{
    if fresh {
        return false;
    }
    for i in 0..n {
        if impl_is_same(items, i, def) {
            return true;
        }
    }
    false
}

/// The first fault of the line of the impl with this number, which, if it is fresh, repeats none before it.
pub fn impl_fault(items: &Items, bodies: usize, n: u32, fresh: bool, def: &ImplDef) -> Option<u8>
    requires { IsTrue fresh → is_repeated_impl items.now.impls n def.now ≡ false }
    ensures { result ≡ first_of (impl_faults items.now bodies n def.now) }
{
    let named = unless(!impl_repeats(items, n, fresh, def), 7, None);
    let typed = unless(impl_is_typed(items, bodies, def), 3, named);
    unless(impl_exists(items, bodies, def), 1, typed)
}

fn has_closure_sig(items: &Items, bodies: usize, n: u32, body: u32) -> bool
    ensures { result ≡ closure_sig items.now bodies n body }
{
    match items.body_sig(body) {
        Some(sig) => match sig.params.as_slice() {
            [] => false,
            [first, ..] => is_closure_of(n, items.ty(*first)),
        },
        None => false,
    }
}

fn closure_has_types(
    items: &Items,
    tests: &TypeTests,
    bodies: usize,
    n: u32,
    def: &ClosureDef,
) -> bool
    requires { AreTests items.now tests.now }
    ensures { result ≡ closure_types_fit items.now bodies n def.now }
{
    !any_misplaces(items, tests, def.captures.as_slice())
        && has_closure_sig(items, bodies, n, def.body)
}

fn closure_is_typed(
    items: &Items,
    tests: &TypeTests,
    bodies: usize,
    types: usize,
    n: u32,
    def: &ClosureDef,
) -> bool
    requires tests { AreTests items.now tests.now }
    requires types { types ≡ length items.now.types }
    ensures { result ≡ (closure_types_fit items.now bodies n def.now && not (closure_holds_itself items.now n)) }
{
    closure_has_types(items, tests, bodies, n, def) && !closure_is_held(items, tests, types, n)
}

fn closure_exists(items: &Items, tests: &TypeTests, bodies: usize, def: &ClosureDef) -> bool
    requires { AreTests items.now tests.now }
    ensures { result ≡ (exist items.now bodies def.now.captures && nat_lt def.now.body bodies) }
{
    all_exist(items, tests, bodies, def.captures.as_slice()) && (def.body as usize) < bodies
}

/// The first fault of the line of the closure with this number.
pub fn closure_fault(
    items: &Items,
    tests: &TypeTests,
    bodies: usize,
    types: usize,
    n: u32,
    def: &ClosureDef,
) -> Option<u8>
    requires tests { AreTests items.now tests.now }
    requires types { types ≡ length items.now.types }
    ensures { result ≡ first_of (closure_faults items.now bodies n def.now) }
{
    let typed = unless(
        closure_is_typed(items, tests, bodies, types, n, def),
        3,
        None,
    );
    unless(closure_exists(items, tests, bodies, def), 1, typed)
}
