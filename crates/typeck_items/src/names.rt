//! Names that have to differ, and names that are asked for.
ghost use Rattle.std.specs.Prelude.{◌≡◌, ◌∷◌, ◌++◌, [], codes, not, reverse, IfErr, IfOk};
ghost use Rattle.mir_base.specs.declared.rule.RuleError.{RuleError};
ghost use Rattle.src_ast.specs.Seen.{nodes_of, syn_of, word_of};
ghost use Rattle.typing_rules.specs.Program as rules;
ghost use Rattle.well_typed.specs.Names.{is_among};
ghost use Rattle.typeck_items.specs.Forms.{listed};

use mir_base::{NoMemory, RuleError};
use src_ast::{ItemForm, Nodes, item_form, name_of};
use src_tree::SyntaxNode;
use std::alloc::Global;
use typeck_heads::NameTable;

/// Whether a name is new.
#[tactic(auto, using(crate::proofs::NameLists::not_found))]
pub fn is_new(names: &NameTable, name: &str) -> bool
    ensures { result ≡ not (is_among name.now (reverse names.now)) }
{
    names.find(name).is_none()
}

/// The names so far with one more.
#[tactic(auto, using(crate::proofs::NameLists::one_more))]
pub fn with_name(alloc: Global, names: NameTable, name: &str) -> Result<NameTable, RuleError>
    ensures added { IfOk result (λ more. reverse more ≡ name.now ∷ reverse names) }
    ensures short { IfErr result (λ e. e ≡ RuleError.Memory) }
{
    match names.with(alloc, name) {
        Ok(more) => Ok(more),
        Err(NoMemory) => Err(RuleError::Memory),
    }
}

/// The name of a method, if a node is one.
#[tactic(auto, using(crate::proofs::ItemForms::name_seen_of))]
fn method_name(node: &SyntaxNode) -> Option<&str>
    ensures { word_of result ≡ rules.method_name (syn_of node.now) }
{
    match item_form(node) {
        ItemForm::Fn(function) => Some(name_of(function.name)),
        ItemForm::Struct { .. } => None,
        ItemForm::Enum { .. } => None,
        ItemForm::Trait { .. } => None,
        ItemForm::Impl { .. } => None,
        ItemForm::Other => None,
    }
}

/// The names so far with one more, where there is one.
fn with_any(alloc: Global, names: NameTable, name: Option<&str>) -> Result<NameTable, RuleError>
    ensures added { IfOk result (λ more. more ≡ names ++ listed (word_of name.entry)) }
    ensures short { IfErr result (λ e. e ≡ RuleError.Memory) }
{
    match name {
        Some(name) => match names.with(alloc, name) {
            Ok(more) => Ok(more),
            Err(NoMemory) => Err(RuleError::Memory),
        },
        None => Ok(names),
    }
}

/// The names of the methods of an impl, in their order.
pub fn method_names(alloc: Global, methods: Nodes) -> Result<NameTable, RuleError>
    ensures names { IfOk result (λ names. names ≡ rules.method_names (nodes_of methods.entry)) }
    ensures short { IfErr result (λ e. e ≡ RuleError.Memory) }
{
    let mut names = NameTable::new(alloc);
    let mut rest = methods;
    while let Some(split) = rest.split_first() {
        names = with_any(alloc, names, method_name(split.first))?;
        rest = split.rest;
    }
    Ok(names)
}

/// Whether `drop` is among the names.
#[tactic(auto, using(crate::proofs::NameLists::one_asked))]
pub fn has_drop(given: &NameTable) -> bool
    ensures { result ≡ rules.has_all (codes "drop" ∷ []) given.now }
{
    given.find("drop").is_some()
}
