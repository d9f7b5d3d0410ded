//! Types in the heads of closures, which stand as `()` where a name in them is not known.
ghost use Rattle.std.specs.Prelude.{◌≡◌, ◌≤◌, ◌<◌, false, length, IfOk};
ghost use Rattle.typeck_heads.specs.Answers.{Answers};
ghost use Rattle.typeck_heads.specs.Forms.{around_of};
ghost use Rattle.typeck_heads.specs.Standing as standing;
ghost use Rattle.src_ast.specs.Seen.{nodes_of, syn_of};
ghost use Rattle.typing_rules.specs.Collected.{starting_with};
ghost use Rattle.typing_rules.specs.Written as types;

use crate::written_types::{WrittenScope, resolve_type, scalar};
use mir_base::RuleError;
use mir_ty::{Items, TyId, UNIT};
use src_ast::{Nodes, TypeForm, type_form};
use src_tree::SyntaxNode;

fn name_stands(scope: &WrittenScope, name: &str) -> bool
    ensures { result ≡ standing.name_stands (around_of scope.now) name.now }
{
    scalar(name).is_some() || scope.adts.find(name).is_some()
}

fn object_stands(scope: &WrittenScope, name: &str, trait_name: &str) -> bool
    ensures { result ≡ standing.object_stands (around_of scope.now) name.now trait_name.now }
{
    name == "Box" && scope.traits.find(trait_name).is_some()
}

#[cycle(standing)]
fn generic_stands(scope: &WrittenScope, name: &str, content: &SyntaxNode) -> bool
    ensures { result ≡ standing.generic_stands (around_of scope.now) name.now (syn_of content.now) }
{
    name == "Box" && stands(scope, content)
}

#[cycle(standing)]
fn all_stand(scope: &WrittenScope, parts: Nodes) -> bool
    ensures { result ≡ standing.all_stand (around_of scope.now) (nodes_of parts.entry) }
{
    let mut rest = parts;
    while let Some(split) = rest.split_first() {
        if !stands(scope, split.first) {
            return false;
        }
        rest = split.rest;
    }
    true
}

/// Whether all names in a type are known.
#[cycle(standing)]
#[tactic(auto, using(crate::proofs::Told::stands_seen))]
fn stands(scope: &WrittenScope, node: &SyntaxNode) -> bool
    ensures { result ≡ standing.stands (around_of scope.now) (syn_of node.now) }
{
    match type_form(node) {
        TypeForm::Name(name) => name_stands(scope, name),
        TypeForm::Generic { name, content } => generic_stands(scope, name, content),
        TypeForm::Dyn {
            name,
            trait_at: _,
            trait_name,
        } => object_stands(scope, name, trait_name),
        TypeForm::SelfType => scope.self_adt.is_some(),
        TypeForm::Parens(inside) => stands(scope, inside),
        TypeForm::Tuple(parts) => all_stand(scope, parts),
        TypeForm::Array {
            element,
            count: _,
            suffix: _,
        } => stands(scope, element),
        TypeForm::Never => true,
        TypeForm::Reference { unique: _, to } => stands(scope, to),
        TypeForm::Other => false,
    }
}

/// A type, or `()` where a name in it is not known.

pub fn written_or_unit(
    items: &mut Items,
    scope: &WrittenScope,
    node: &SyntaxNode,
) -> Result<TyId, RuleError>
    requires ready { 8 ≤ length items.old.types }
    requires free { scope.now.has_limits ≡ false }
    ensures answers { Answers (types.or_unit (types.written (around_of scope.now) (syn_of node.now)) (starting_with items.old)) result items.new }
    ensures grows { length items.old.types ≤ length items.new.types }
    ensures known { IfOk result (λ id. id.0 < length items.new.types) }
{
    if stands(scope, node) {
        resolve_type(items, scope, node)
    } else {
        Ok(UNIT)
    }
}
