//! The impl around methods, and the struct or enum around its own fields: what `Self` is there (The Rust Reference, "Paths",
//! "Self").
ghost use Rattle.std.specs.Prelude.{◌≡◌};
ghost use Rattle.typeck_checker.specs.Stand.{env, stack, state};
ghost use Rattle.typing_rules.specs.Program.{in_impl};
ghost use Rattle.typing_rules.specs.Scope.{adt_named as number_of};

use std::mem;
use typeck_checker::{Checker, adt_named};

/// `Self` is the struct or enum of this number, where there is one; what it was before is answered.
#[tactic(auto, unfolding(typeck_checker::specs::Stand::env_in))]
fn within(checker: &mut Checker, self_adt: Option<u32>) -> Option<u32>
    ensures before { result ≡ (env checker.old).self_adt }
    ensures place { env checker.new ≡ in_impl (env checker.old) self_adt }
    ensures state { state checker.new ≡ state checker.old }
    ensures made { stack checker.new ≡ stack checker.old }
    ensures tables { checker.new.tables ≡ checker.old.tables }
{
    mem::replace(&mut checker.around.self_adt, self_adt)
}

/// `Self` is the struct or enum of this name; what it was before is answered, for [`leave_impl`].
pub fn enter_impl(checker: &mut Checker, name: &str) -> Option<u32>
    ensures before { result ≡ (env checker.old).self_adt }
    ensures place { env checker.new ≡ in_impl (env checker.old) (number_of checker.old.walk.items name.now) }
    ensures state { state checker.new ≡ state checker.old }
    ensures made { stack checker.new ≡ stack checker.old }
    ensures tables { checker.new.tables ≡ checker.old.tables }
{
    let self_adt = adt_named(checker, name);
    within(checker, self_adt)
}

/// `Self` is again what it was before [`enter_impl`].
pub fn leave_impl(checker: &mut Checker, before: Option<u32>)
    ensures place { env checker.new ≡ in_impl (env checker.old) before }
    ensures state { state checker.new ≡ state checker.old }
    ensures made { stack checker.new ≡ stack checker.old }
    ensures tables { checker.new.tables ≡ checker.old.tables }
{
    within(checker, before);
}
