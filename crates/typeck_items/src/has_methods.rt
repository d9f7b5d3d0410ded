//! The heads of methods by their names: those that a trait asks for, and those that bodies have.
ghost use Rattle.std.specs.Prelude.{◌≡◌, ◌++◌, codes, IfErr, IfOk, option_and_then, slice_get};
ghost use Rattle.std.specs.List.{find};
ghost use Rattle.std.specs.Option.{option_copied};
ghost use Rattle.std.specs.Str.{bytes_eq};
ghost use Rattle.std.specs.String.{string_bytes};
ghost use Rattle.mir_base.specs.declared.rule.RuleError.{RuleError};
ghost use Rattle.typeck_checker.specs.Tables.{method_words};
ghost use Rattle.typing_rules.specs.Program as rules;
ghost use Rattle.typing_rules.specs.Scope as scope;

use mir_base::RuleError;
use mir_ty::{Sig, TraitDef};
use std::alloc::{AllocError, Global};
use typeck_checker::{Checker, body_named};
use typeck_heads::NameTable;

/// The number of a trait, by its name.
#[tactic(auto, using(crate::proofs::Named::trait_found))]
pub fn trait_named(checker: &Checker, name: &str) -> Option<u32>
    ensures { result ≡ scope.trait_named checker.now.walk.items name.now }
{
    checker.tables.trait_names.find(name)
}

/// The head of a method of a trait by its name, among these names.
#[tactic(auto, using(crate::proofs::Named::method_found, crate::proofs::Named::no_method))]
fn method_in<'a>(names: &NameTable, def: &'a TraitDef, name: &str) -> Option<&'a Sig>
    requires { names.now ≡ method_words def.now }
    ensures { option_copied result ≡ find (λ m. bytes_eq m.name name.now) def.now.methods }
{
    match names.find(name) {
        Some(method) => def.methods.get(method as usize),
        None => None,
    }
}

/// The head of a method of a trait by its name.
fn method_at<'a>(checker: &'a Checker, trait_no: u32, name: &str) -> Option<&'a Sig>
    ensures { option_copied result ≡ option_and_then (λ def. find (λ m. bytes_eq m.name name.now) def.methods) (slice_get checker.now.walk.items.traits trait_no) }
{
    match checker.walk.items.trait_def(trait_no) {
        Some(def) => match checker.tables.methods.get(trait_no as usize) {
            Some(names) => method_in(names, def, name),
            None => None,
        },
        None => None,
    }
}

/// The head that a trait asks of a method, by the names of both; `None` where there is no such trait or method.
pub fn trait_method<'a>(checker: &'a Checker, trait_: &str, name: &str) -> Option<&'a Sig>
    ensures { option_copied result ≡ rules.trait_method checker.now.walk.items trait_.now name.now }
{
    match trait_named(checker, trait_) {
        Some(trait_no) => method_at(checker, trait_no, name),
        None => None,
    }
}

fn method_word(alloc: Global, owner: &str, name: &str) -> Result<String, AllocError>
    ensures { IfOk result (λ word. string_bytes word ≡ scope.method_word owner.now name.now) }
{
    let mut word = String::from_str(alloc, owner)?;
    word.push_str("::")?;
    word.push_str(name)?;
    Ok(word)
}

/// The head that a body has, by its whole name; `None` where there is no such body.
pub fn head_of<'a>(checker: &'a Checker, name: &str) -> Option<&'a Sig>
    ensures { option_copied result ≡ option_and_then (slice_get checker.now.walk.items.bodies) (scope.body_named checker.now.walk.items name.now) }
{
    match body_named(checker, name) {
        Some(body) => checker.walk.items.body_sig(body),
        None => None,
    }
}

/// The head that the body of a method has, by the names of its type and its own; `None` where there is no such body.
///
/// # Errors
///
/// [`RuleError::Memory`] alone, where memory is wanted.
pub fn body_head<'a>(
    checker: &'a Checker,
    owner: &str,
    name: &str,
) -> Result<Option<&'a Sig>, RuleError>
    ensures found { IfOk result (λ head. option_copied head ≡ rules.body_head checker.now.walk.items owner.now name.now) }
    ensures short { IfErr result (λ e. e ≡ RuleError.Memory) }
{
    match method_word(checker.alloc, owner, name) {
        Ok(word) => Ok(head_of(checker, word.as_str())),
        Err(_) => Err(RuleError::Memory),
    }
}
