//! What patterns look at.
ghost use Rattle.std.specs.Prelude.{◌≡◌};
ghost use Rattle.typeck_patterns.specs.PatternContext.{pattern_context_of};
ghost use Rattle.typeck_checker.specs.Stand.{Gives, KeepsStack, below, env, stack, state, top};
ghost use Rattle.typing_rules.specs.Rows as rows;
ghost use Rattle.typing_rules.specs.Check.{pure};

use crate::PatternContext;
use mir_base::RuleError;
use typeck_checker::Checker;
use typed_tree::Use;

/// The last node is what patterns look at: a place is borrowed, and a value is a temporary.
pub fn finish_scrutinee(checker: &mut Checker) -> Result<(), RuleError>
    ensures gives { Gives (rows.scrutinised (pure (top (stack checker.old))) (state checker.old)) result checker.new }
    ensures kept { KeepsStack (below (stack checker.old)) checker.old result checker.new }
{
    checker.no_reference()?;
    checker.use_if_place(Use::Borrow)
}

/// What a pattern for the last node is told.
pub fn pattern_context_of_last(checker: &Checker, takes_all: bool) -> PatternContext
    ensures { pattern_context_of result ≡ rows.pattern_context (env checker.now) takes_all (top (stack checker.now)) checker.now.walk.items }
{
    PatternContext {
        is_fixed: checker.is_last_fixed(),
        takes_all,
    }
}
