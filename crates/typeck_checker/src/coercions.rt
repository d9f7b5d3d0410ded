//! Required types: a leaf is of the type that is required, or coerced to it; a node that passed its required type on
//! has it, or `!` (The Rust Reference, "Type coercions").
ghost use Rattle.std.specs.Prelude.{◌≡◌};
ghost use Rattle.typeck_env.specs.Coerced.{fit_of};
ghost use Rattle.typing_rules.specs.Rows as rows;
ghost use Rattle.typeck_checker.specs.Stand.{Gives, KeepsStack, below, stack, state, top};

use crate::checker::Checker;
use crate::forms::One;
use mir_base::{Rule, RuleError};
use mir_ty::TyId;
use typeck_env::{Fit, agrees, how_it_fits};
use typeck_heads::{broken_rule, obeys};

impl Checker {
    /// The coercion of the last node, a box, to a box of `dyn` of a trait.
    fn unsize(&mut self, expected: TyId, trait_no: u32) -> Result<(), RuleError>
        ensures gives { Gives (rows.unsized expected trait_no (top (stack self.old)) (state self.old)) result self.new }
        ensures kept { KeepsStack (below (stack self.old)) self.old result self.new }
    {
        let id = self.number()?;
        self.wrap_one(id, self.last_at(), expected, One::Unsize(trait_no))
    }

    /// The last node by how its type stands to the one that is required.
    fn coerce_by(&mut self, expected: TyId, fit: Fit) -> Result<(), RuleError>
        ensures gives { Gives (rows.fitted_by expected (top (stack self.old)) (fit_of fit) (state self.old)) result self.new }
        ensures kept { KeepsStack (below (stack self.old)) self.old result self.new }
    {
        match fit {
            Fit::Fits => Ok(()),
            Fit::Coerced(trait_no) => self.unsize(expected, trait_no),
            Fit::Differs => Err(broken_rule(Rule::T03, self.last_at())),
        }
    }

    fn coerce_to(&mut self, expected: TyId) -> Result<(), RuleError>
        ensures gives { Gives (rows.fitted (Some expected) (top (stack self.old)) (state self.old)) result self.new }
        ensures kept { KeepsStack (below (stack self.old)) self.old result self.new }
    {
        let fit = how_it_fits(
            &self.tables.pairs,
            &self.walk.items,
            expected,
            self.last_ty(),
        );
        self.coerce_by(expected, fit)
    }

    /// The last node, of the type that is required of it, if one is.
    pub fn coerce(&mut self, expected: Option<TyId>) -> Result<(), RuleError>
        ensures gives { Gives (rows.fitted expected (top (stack self.old)) (state self.old)) result self.new }
        ensures kept { KeepsStack (below (stack self.old)) self.old result self.new }
    {
        match expected {
            Some(expected) => self.coerce_to(expected),
            None => Ok(()),
        }
    }

    /// The last node, which passed its required type on.
    pub fn unify(&mut self, expected: Option<TyId>) -> Result<(), RuleError>
        ensures gives { Gives (rows.settled expected (top (stack self.old)) (state self.old)) result self.new }
        ensures kept { KeepsStack (below (stack self.old)) self.old result self.new }
    {
        let holds = agrees(&self.walk.items, expected, self.last_ty());
        obeys(Rule::T03, self.last_at(), holds)
    }
}
