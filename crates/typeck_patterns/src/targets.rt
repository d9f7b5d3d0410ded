//! The struct or variant that a path names (The Rust Reference, "Struct patterns", "Tuple struct patterns").
ghost use Rattle.std.specs.Prelude.{◌≡◌, option_map, Some, None};
ghost use Rattle.src_ast.specs.Seen.{word_of};
ghost use Rattle.typing_rules.specs.Patterns as rules;
ghost use Rattle.typeck_patterns.specs.Targets.{target_of as target_in};
ghost use Rattle.typeck_checker.specs.Stand.{env};

use mir_ty::Items;
use typeck_checker::{Checker, adt_at_head};
use typeck_env::{is_enum, variant_named};

/// The variant of a struct or an enum that a path names; that of a struct is 0.
#[derive(Clone, Copy)]
pub struct PatternTarget {
    pub adt: u32,
    pub variant: u32,
}

fn struct_target(checker: &Checker, first: Option<&str>) -> Option<PatternTarget>
    ensures { option_map target_in result ≡ rules.target_of checker.now.walk.items (env checker.now) (word_of first.entry) None }
{
    let adt = adt_at_head(checker, first)?;
    if is_enum(&checker.walk.items, adt) {
        None
    } else {
        Some(PatternTarget { adt, variant: 0 })
    }
}

fn variant_target(checker: &Checker, first: Option<&str>, name: &str) -> Option<PatternTarget>
    ensures { option_map target_in result ≡ rules.target_of checker.now.walk.items (env checker.now) (word_of first.entry) (Some name.now) }
{
    let adt = adt_at_head(checker, first)?;
    if !is_enum(&checker.walk.items, adt) {
        return None;
    }
    let variant = variant_named(&checker.tables.members, &checker.walk.items, adt, name)?;
    Some(PatternTarget { adt, variant })
}

/// The struct, or the variant of an enum, that a path names; `None` where it names none.
pub fn target_of(
    checker: &Checker,
    first: Option<&str>,
    second: Option<&str>,
) -> Option<PatternTarget>
    ensures { option_map target_in result ≡ rules.target_of checker.now.walk.items (env checker.now) (word_of first.entry) (word_of second.entry) }
{
    match second {
        Some(name) => variant_target(checker, first, name),
        None => struct_target(checker, first),
    }
}

fn variants_of(items: &Items, adt: u32) -> usize
    ensures { result ≡ rules.variants_of items.now adt }
{
    match items.adt(adt) {
        Some(def) => def.variants.len(),
        None => 0,
    }
}

/// Whether a path names one of several variants, which is a test.
pub fn is_test(items: &Items, target: PatternTarget) -> bool
    ensures { result ≡ rules.is_test items.now (target_in target) }
{
    is_enum(items, target.adt) && variants_of(items, target.adt) > 1
}
