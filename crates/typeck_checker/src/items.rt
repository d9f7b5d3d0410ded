//! Structs, enums, variants, functions and methods by their names.
ghost use Rattle.std.specs.Prelude.{◌≡◌, IfErr, IfOk, ◌++◌, codes, is_some};
ghost use Rattle.std.specs.List.{position as position_of};
ghost use Rattle.std.specs.Str.{bytes_eq};
ghost use Rattle.std.specs.String.{string_bytes};
ghost use Rattle.mir_base.specs.declared.rule.RuleError.{RuleError};
ghost use Rattle.src_ast.specs.ItemForms.{kind_seen};
ghost use Rattle.src_ast.specs.Seen.{word_of};
ghost use Rattle.typing_rules.specs.Named as named;
ghost use Rattle.typing_rules.specs.Scope as scope;
ghost use Rattle.typeck_checker.specs.Stand.{env};

use crate::Checker;
use mir_base::RuleError;
use src_ast::FieldKind;
use std::alloc::{AllocError, Global};
use typeck_env::{is_enum, variant_named};

/// The number of a struct or an enum.
#[tactic(auto, using(crate::proofs::NameTables::adt_found))]
pub fn adt_named(checker: &Checker, name: &str) -> Option<u32>
    ensures { result ≡ scope.adt_named checker.now.walk.items name.now }
{
    checker.tables.adt_names.find(name)
}

/// The number of a function or a method by its whole name.
#[tactic(auto, using(crate::proofs::NameTables::body_found))]
pub fn body_named(checker: &Checker, name: &str) -> Option<u32>
    ensures { result ≡ scope.body_named checker.now.walk.items name.now }
{
    checker.tables.body_names.find(name)
}

/// Whether a method of an impl, by its whole name, has `self`.
#[tactic(auto, using(crate::proofs::NameTables::methods_are))]
pub fn is_self_method(checker: &Checker, name: &str) -> bool
    ensures { result ≡ is_some (position_of (bytes_eq name.now) (env checker.now).methods) }
{
    checker.tables.self_methods.find(name).is_some()
}

fn method_word(alloc: Global, adt: &str, name: &str) -> Result<String, AllocError>
    ensures { IfOk result (λ word. string_bytes word ≡ scope.method_word adt.now name.now) }
{
    let mut word = String::from_str(alloc, adt)?;
    word.push_str("::")?;
    word.push_str(name)?;
    Ok(word)
}

/// The body of a method of a struct or an enum.
pub fn method_of(checker: &Checker, adt: u32, name: &str) -> Result<Option<u32>, RuleError>
    ensures found { IfOk result (λ body. body ≡ scope.method_of checker.now.walk.items adt name.now) }
    ensures short { IfErr result (λ e. e ≡ RuleError.Memory) }
{
    match checker.walk.items.adt(adt) {
        Some(def) => match method_word(checker.alloc, def.name.as_str(), name) {
            Ok(word) => Ok(body_named(checker, word.as_str())),
            Err(_) => Err(RuleError::Memory),
        },
        None => Ok(None),
    }
}

/// The number of a variant of an enum.
pub fn variant_of_enum(checker: &Checker, adt: u32, name: &str) -> Option<u32>
    ensures { result ≡ named.variant_of_enum checker.now.walk.items adt name.now }
{
    if is_enum(&checker.walk.items, adt) {
        variant_named(&checker.tables.members, &checker.walk.items, adt, name)
    } else {
        None
    }
}

/// The struct or enum of a path's first part, which is a name or `Self`.
#[tactic(auto, using(crate::proofs::NameTables::self_is))]
pub fn adt_at_head(checker: &Checker, first: Option<&str>) -> Option<u32>
    ensures { result ≡ scope.adt_at_head checker.now.walk.items (env checker.now) (word_of first.entry) }
{
    match first {
        Some(name) => adt_named(checker, name),
        None => checker.around.self_adt,
    }
}

/// How the parts of a variant are written.
#[tactic(auto, using(crate::proofs::NameTables::kind_some, crate::proofs::NameTables::kind_none, crate::proofs::NameTables::kind_nothing))]
pub fn kind_at(checker: &Checker, adt: u32, variant: u32) -> FieldKind
    ensures { kind_seen result ≡ scope.kind_at (env checker.now).kinds adt variant }
{
    match checker.tables.kinds.get(adt as usize) {
        Some(kinds) => match kinds.get(variant as usize) {
            Some(kind) => *kind,
            None => FieldKind::Unit,
        },
        None => FieldKind::Unit,
    }
}
