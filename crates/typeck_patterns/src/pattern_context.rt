//! What a pattern is told of its place.
ghost use Rattle.std.specs.Prelude.{◌≡◌};
ghost use Rattle.typing_rules.specs.Patterns as rules;
ghost use Rattle.typeck_patterns.specs.PatternContext.{pattern_context_of};

use mir_ty::{Items, TyId};

/// What a pattern is told of its place.
#[derive(Clone, Copy)]
pub struct PatternContext {
    /// Nothing may be moved out of it.
    pub is_fixed: bool,
    /// It takes every value: no test stands in it.
    pub takes_all: bool,
}

/// What the parts of a struct or a variant are told: what is inside a type with a `Drop` impl is not moved out of.
pub fn inside_of(items: &Items, ty: TyId, e: PatternContext) -> PatternContext
    ensures { pattern_context_of result ≡ rules.inside_of items.now ty (pattern_context_of e) }
{
    PatternContext {
        is_fixed: e.is_fixed || items.has_drop_impl(ty),
        takes_all: e.takes_all,
    }
}
