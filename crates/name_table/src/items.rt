//! Items, each added with its own head.
ghost use Rattle.std.specs.Prelude.{◌≡◌, ◌<◌, ◌≤◌, All, None, length, IfOk};
ghost use Rattle.mir_ty.specs.AreItems.{IsMethod, IsSig};
ghost use Rattle.mir_ty.specs.ItemTable.{with_trait};
ghost use Rattle.typeck_heads.specs.Answers.{Answers};
ghost use Rattle.typeck_heads.specs.Forms.{known_of};
ghost use Rattle.name_table.specs.Forms.{trait_at};
ghost use Rattle.src_ast.specs.Seen.{nodes_of, syn_of};
ghost use Rattle.src_ast.specs.Syntax.{list_of};
ghost use Rattle.typing_rules.specs.Check.{each_checked};
ghost use Rattle.typing_rules.specs.Collected as walk;
ghost use Rattle.typing_rules.specs.Collected.{names_alone, starting_with};

use mir_base::{List, NoMemory, RuleError};
use mir_ty::{Items, Sig, TraitDef, Ty, TyId};
use src_ast::{ItemForm, Nodes, item_form, name_of};
use src_tree::SyntaxNode;
use typeck_heads::{Known, enum_item, impl_head, intern, name_from, struct_item, trait_heads};

/// A trait with these methods, added.
fn add_trait(
    items: &mut Items,
    known: &Known,
    name: &str,
    methods: List<Sig>,
) -> Result<(), RuleError>
    requires methods { All (IsMethod items.old.types (length items.old.traits)) methods }
    ensures answers { Answers (walk.added (λ items. with_trait items (record { name = name.now; methods = methods })) (starting_with items.old)) result items.new }
    ensures grows { length items.old.types ≤ length items.new.types }
{
    let name = name_from(known.alloc, name)?;
    match items.add_trait(TraitDef { name, methods }) {
        Ok(_) => Ok(()),
        Err(NoMemory) => Err(RuleError::Memory),
    }
}

/// The heads of a trait's methods, where its own type has this number.
fn own_heads(
    items: &mut Items,
    known: &Known,
    own: TyId,
    heads: Nodes,
) -> Result<List<Sig>, RuleError>
    requires ready { 8 ≤ length items.old.types }
    requires own { own.0 < length items.old.types }
    ensures answers { Answers (each_checked (walk.trait_head (names_alone (known_of known.now) None) own) (list_of (nodes_of heads.entry)) (starting_with items.old)) result items.new }
    ensures grows { length items.old.types ≤ length items.new.types }
    ensures known { IfOk result (λ sigs. All (IsSig items.new.types) sigs) }
{
    let scope = known.scope(None);
    trait_heads(items, &scope, own, heads)
}

/// A trait, added with the heads of its methods. Its number is that of the next one.
fn trait_item(
    items: &mut Items,
    known: &Known,
    number: u32,
    name: &str,
    heads: Nodes,
) -> Result<(), RuleError>
    requires ready { 8 ≤ length items.old.types }
    requires next { number ≡ length items.old.traits }
    ensures answers { Answers (trait_at (known_of known.now) number name.now (nodes_of heads.entry) (starting_with items.old)) result items.new }
    ensures grows { length items.old.types ≤ length items.new.types }
{
    let own = intern(items, Ty::Dyn(number))?;
    let methods = own_heads(items, known, own, heads)?;
    add_trait(items, known, name, methods)
}

/// An item with its own head, added; `traits` is how many traits there are.
#[tactic(auto, using(crate::proofs::ItemForms::head_seen))]
pub fn item(
    items: &mut Items,
    known: &Known,
    traits: u32,
    node: &SyntaxNode,
) -> Result<(), RuleError>
    requires ready { 8 ≤ length items.old.types }
    requires next { traits ≡ length items.old.traits }
    ensures answers { Answers (walk.item_head (known_of known.now) (syn_of node.now) (starting_with items.old)) result items.new }
    ensures grows { length items.old.types ≤ length items.new.types }
{
    match item_form(node) {
        ItemForm::Struct {
            derives,
            name,
            kind: _,
            fields,
        } => struct_item(items, known, derives, name_of(name), fields),
        ItemForm::Enum {
            derives,
            name,
            variants,
        } => enum_item(items, known, derives, name_of(name), variants),
        ItemForm::Trait { name, heads } => trait_item(items, known, traits, name_of(name), heads),
        ItemForm::Impl {
            trait_,
            name,
            methods: _,
        } => impl_head(items, known, trait_, name),
        ItemForm::Fn(_) => Ok(()),
        ItemForm::Other => Ok(()),
    }
}
