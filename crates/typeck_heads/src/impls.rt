//! Impls: their names, and the bodies of their methods.
ghost use Rattle.std.specs.Prelude.{◌≡◌, ◌≤◌, ◌++◌, ◌||◌, None, is_some, length, slice_get, IfOk, IfErr, OnOk};
ghost use Rattle.mir_base.specs.declared.rule.RuleError.{RuleError};
ghost use Rattle.typeck_heads.specs.Answers.{Answers};
ghost use Rattle.typeck_heads.specs.Forms.{known_of, listed, trait_known};
ghost use Rattle.typing_rules.specs.Written.{number_of};
ghost use Rattle.src_ast.specs.ItemForms.{name_seen};
ghost use Rattle.src_ast.specs.Seen.{syn_of};
ghost use Rattle.src_ast.specs.View.{named};
ghost use Rattle.typing_rules.specs.Collected as walk;
ghost use Rattle.typing_rules.specs.Collected.{starting_with};

use crate::known_types::Known;
use crate::steps::{broken_rule, push_to};
use mir_base::{List, NoMemory, Rule, RuleError};
use mir_ty::{ImplDef, Items, Sig};
use src_ast::name_of;
use src_tree::SyntaxNode;

fn is_drop(name: &str) -> bool
    ensures { result ≡ walk.is_drop name.now }
{
    name == "Drop"
}

/// Makes what was found the last one.
fn keep(bodies: &mut List<u32>, found: Option<u32>) -> Result<(), RuleError>
    ensures kept { OnOk result (bodies.new ≡ bodies.old ++ listed found) }
    ensures short { IfErr result (λ e. e ≡ RuleError.Memory) }
{
    match found {
        Some(body) => push_to(bodies, body),
        None => Ok(()),
    }
}

/// The bodies of an impl, in the order of the methods of its trait.
fn impl_bodies(
    known: &Known,
    owner: &str,
    trait_: &str,
    methods: &[Sig],
) -> Result<List<u32>, RuleError>
    ensures bodies { IfOk result (λ bodies. bodies ≡ walk.impl_bodies known.now.paths owner.now trait_.now methods.now) }
    ensures short { IfErr result (λ e. e ≡ RuleError.Memory) }
{
    let mut bodies = List::new(known.alloc);
    for method in methods {
        let Ok(found) = known.method_body(owner, trait_, method.name.as_str()) else {
            return Err(RuleError::Memory);
        };
        keep(&mut bodies, found)?;
    }
    Ok(bodies)
}

/// The methods of the trait with a number; none where there is no such trait.
fn methods_of(items: &Items, number: u32) -> &[Sig]
    ensures { result.now ≡ walk.methods_of (slice_get items.now.traits number) }
{
    match items.trait_def(number) {
        Some(def) => def.methods.as_slice(),
        None => &[],
    }
}

/// An impl of a trait for a struct or an enum, added.
pub fn add_impl(
    items: &mut Items,
    known: &Known,
    trait_no: u32,
    adt: u32,
    trait_: &str,
    owner: &str,
) -> Result<(), RuleError>
    ensures answers { Answers (walk.impl_added (known_of known.now) trait_no adt trait_.now owner.now (starting_with items.old)) result items.new }
    ensures grows { length items.old.types ≤ length items.new.types }
{
    let bodies = impl_bodies(known, owner, trait_, methods_of(items, trait_no))?;
    match items.add_impl(ImplDef {
        trait_no,
        adt,
        bodies,
    }) {
        Ok(_) => Ok(()),
        Err(NoMemory) => Err(RuleError::Memory),
    }
}

/// Whether a trait may have an impl: it is known, or `Drop`.
fn may_have_impl(known: &Known, name: &str) -> bool
    ensures { result ≡ (walk.is_drop name.now || is_some (number_of known.now.traits name.now)) }
{
    is_drop(name) || known.traits.find(name).is_some()
}

fn trait_is_known(items: &Items, known: &Known, name: &SyntaxNode) -> Result<(), RuleError>
    ensures { Answers (trait_known (known_of known.now) (named (syn_of name.now)) (starting_with items.now)) result items.now }
{
    if may_have_impl(known, name_of(name)) {
        Ok(())
    } else {
        Err(broken_rule(Rule::T01, name.at))
    }
}

fn adt_is_known(items: &Items, known: &Known, name: &SyntaxNode) -> Result<(), RuleError>
    ensures { Answers (walk.impl_head (known_of known.now) None (named (syn_of name.now)) (starting_with items.now)) result items.now }
{
    if known.adts.find(name_of(name)).is_none() {
        return Err(broken_rule(Rule::T01, name.at));
    }
    Ok(())
}

/// The names of an impl are known.
pub fn impl_head(
    items: &Items,
    known: &Known,
    trait_: Option<&SyntaxNode>,
    name: &SyntaxNode,
) -> Result<(), RuleError>
    ensures { Answers (walk.impl_head (known_of known.now) (name_seen trait_.entry) (named (syn_of name.now)) (starting_with items.now)) result items.now }
{
    match trait_ {
        Some(trait_) => {
            trait_is_known(items, known, trait_)?;
            adt_is_known(items, known, name)
        }
        None => adt_is_known(items, known, name),
    }
}
