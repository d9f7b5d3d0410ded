//! The typed program of a text.
ghost use Rattle.std.specs.Prelude.{◌<◌, ◌-◌, ◌^◌, Ok, IfOk, IfErr, length};
ghost use Rattle.src_tree.specs.View as view;
ghost use Rattle.type_check.specs.Checks.{Checks};
ghost use Rattle.typed_tree.specs.View.{program_of};
ghost use Rattle.typing_rules.specs.Borrows as rules;
ghost use Rattle.well_typed.specs.Program.{WellTyped};
ghost use Rattle.mir_pipeline.specs.Programs.{HasNoProgram, IsProgramOf};

use crate::read::read_tree;
use crate::refusal::Refusal;
use borrow_rules::borrow_check;
use mir_base::RuleError;
use name_table::collect;
use src_tree::Tree;
use std::alloc::Global;
use type_check::check;
use typed_tree::Typed;

/// A typed program that breaks no rule of borrows.
fn check_borrows(alloc: Global, typed: Typed) -> Result<Typed, RuleError>
    ensures { Checks (rules.unless_borrows (Ok (program_of typed))) result }
{
    match borrow_check(alloc, &typed) {
        Ok(()) => Ok(typed),
        Err(e) => {
            typed.discard();
            Err(e)
        }
    }
}

/// The typed program of a tree, or the first broken rule: items, then bodies, then borrows.
fn of_tree(alloc: Global, tree: &Tree) -> Result<Typed, RuleError>
    ensures { Checks (rules.read_typed (view.items_of tree.now) tree.now.end) result }
{
    let items = collect(alloc, tree)?;
    let typed = check(alloc, tree, items)?;
    check_borrows(alloc, typed)
}

/// The typed program of a text, by the rules of items, bodies and borrows.
#[tactic(auto, using(crate::proofs::Unread::no_program, crate::proofs::Unread::broken_rule))]
fn read_program(alloc: Global, text: &[u8]) -> Result<Typed, Refusal>
    requires { length text.now < 2 ^ 32 - 1 }
    ensures typed { IfOk result (λ typed. IsProgramOf text.now (program_of typed)) }
    ensures refused { IfErr result (λ refusal. HasNoProgram text.now refusal) }
{
    let tree = read_tree(alloc, text)?;
    let read = of_tree(alloc, &tree);
    drop(tree);
    match read {
        Ok(typed) => Ok(typed),
        Err(e) => Err(Refusal::from(e)),
    }
}

/// The typed program of a text of at most 4,294,967,294 bytes that breaks no rule. It is well typed.
///
/// # Errors
///
/// As [`read_tree`] where the text has no tree; otherwise [`Refusal::Broken`] with the first broken rule: of the items
/// and their names, then of heads and bodies, then of borrows.
#[tactic(auto, using(crate::proofs::Programs::typed_result))]
pub fn read_typed(alloc: Global, text: &[u8]) -> Result<Typed, Refusal>
    requires { length text.now < 2 ^ 32 - 1 }
    ensures typed { IfOk result (λ typed. IsProgramOf text.now (program_of typed)) }
    ensures well_typed { IfOk result (λ typed. WellTyped (program_of typed)) }
    ensures refused { IfErr result (λ refusal. HasNoProgram text.now refusal) }
{
    read_program(alloc, text)
}
