//! A checker at the start of the bodies of a text.
ghost use Rattle.std.specs.Prelude.{◌≡◌, [], None, IfOk};
ghost use Rattle.src_tree.specs.View.{parts_in};
ghost use Rattle.typing_rules.specs.Collected.{starting_with};
ghost use Rattle.typing_rules.specs.Items.{adt_names as names_of_adts, all_kinds, item_syns, items_of, self_methods as with_self, trait_names as names_of_traits};
ghost use Rattle.typing_rules.specs.Places.{unit};
ghost use Rattle.typing_rules.specs.Program.{outermost};
ghost use Rattle.typeck_env.specs.Walked.{state_of};
ghost use Rattle.typeck_checker.specs.Stand.{env, stack, state};
ghost use Rattle.typeck_checker.specs.Tables.{AreTablesOf, all_kinds_of};
ghost use Rattle.type_check.specs.Start.{HasImplTables, HasItemTables, HasTextTables, HasNamesOf};

use crate::items::{adt_names, body_names, method_names, trait_names};
use crate::kinds::kinds;
use crate::self_methods::self_methods;
use mir_base::{List, NoMemory};
use mir_ty::{Items, UNIT};
use name_table::{NameSort, names_of};
use src_ast::FieldKind;
use src_tree::NodePiece;
use std::alloc::Global;
use std::collections::HashSet;
use typeck_checker::{BodyScope, Checker, Tables};
use typeck_env::{AdtNames, ImplPair, Variables, Walk, impl_pairs, member_names};
use typeck_heads::NameTable;

/// The tables of names as the text has them.
#[derive(Drop)]
struct TextTables {
    adts: NameTable,
    traits: NameTable,
    kinds: List<List<FieldKind>>,
    self_methods: NameTable,
}

/// The tables of names as the items have them.
#[derive(Drop)]
struct ItemTables {
    adt_names: NameTable,
    trait_names: NameTable,
    body_names: NameTable,
    members: List<AdtNames>,
    methods: List<NameTable>,
}

/// What impls there are.
#[derive(Drop)]
struct ImplTables {
    pairs: HashSet<ImplPair>,
    drop_bodies: HashSet<u32>,
}

fn names(alloc: Global, sort: NameSort, pieces: &[NodePiece]) -> Result<NameTable, NoMemory>
    ensures { IfOk result (λ names. HasNamesOf sort pieces.now names) }
{
    match names_of(alloc, sort, pieces) {
        Ok(names) => Ok(names),
        Err(_) => Err(NoMemory),
    }
}

fn text_tables(alloc: Global, pieces: &[NodePiece]) -> Result<TextTables, NoMemory>
    ensures { IfOk result (λ tables. HasTextTables pieces.now tables) }
{
    let adts = names(alloc, NameSort::Adts, pieces)?;
    let traits = names(alloc, NameSort::Traits, pieces)?;
    let kinds = kinds(alloc, pieces)?;
    let self_methods = self_methods(alloc, pieces)?;
    Ok(TextTables {
        adts,
        traits,
        kinds,
        self_methods,
    })
}

fn item_tables(alloc: Global, items: &Items) -> Result<ItemTables, NoMemory>
    ensures { IfOk result (λ tables. HasItemTables items.now tables) }
{
    let adt_names = adt_names(alloc, items)?;
    let trait_names = trait_names(alloc, items)?;
    let body_names = body_names(alloc, items)?;
    let members = member_names(alloc, items)?;
    let methods = method_names(alloc, items)?;
    Ok(ItemTables {
        adt_names,
        trait_names,
        body_names,
        members,
        methods,
    })
}

fn impl_tables(alloc: Global, items: &Items) -> Result<ImplTables, NoMemory>
    ensures { IfOk result (λ tables. HasImplTables items.now tables) }
{
    let pairs = impl_pairs(alloc, items)?;
    let drop_bodies = items.drop_bodies(alloc)?;
    Ok(ImplTables { pairs, drop_bodies })
}

fn put_together(text: TextTables, of_items: ItemTables, impls: ImplTables) -> Tables
    ensures { result ≡ record {
      adts = text.adts;
      traits = text.traits;
      kinds = text.kinds;
      self_methods = text.self_methods;
      adt_names = of_items.adt_names;
      trait_names = of_items.trait_names;
      body_names = of_items.body_names;
      members = of_items.members;
      methods = of_items.methods;
      pairs = impls.pairs;
      drop_bodies = impls.drop_bodies;
    } }
{
    let TextTables {
        adts,
        traits,
        kinds,
        self_methods,
    } = text;
    let ItemTables {
        adt_names,
        trait_names,
        body_names,
        members,
        methods,
    } = of_items;
    let ImplTables { pairs, drop_bodies } = impls;
    Tables {
        adts,
        traits,
        kinds,
        self_methods,
        adt_names,
        trait_names,
        body_names,
        members,
        methods,
        pairs,
        drop_bodies,
    }
}

fn tables(alloc: Global, pieces: &[NodePiece], items: &Items) -> Result<Tables, NoMemory>
    ensures ready { IfOk result (λ tables. AreTablesOf items.now tables) }
    ensures adts { IfOk result (λ tables. tables.adts ≡ names_of_adts (item_syns (items_of (parts_in pieces.now)))) }
    ensures traits { IfOk result (λ tables. tables.traits ≡ names_of_traits (item_syns (items_of (parts_in pieces.now)))) }
    ensures kinds { IfOk result (λ tables. all_kinds_of tables.kinds ≡ all_kinds (item_syns (items_of (parts_in pieces.now)))) }
    ensures methods { IfOk result (λ tables. tables.self_methods ≡ with_self (item_syns (items_of (parts_in pieces.now)))) }
{
    let text = text_tables(alloc, pieces)?;
    let of_items = item_tables(alloc, items)?;
    let impls = impl_tables(alloc, items)?;
    Ok(put_together(text, of_items, impls))
}

/// Where the bodies of a text begin: no struct or enum is `Self`, and no variable or loop is around.
fn outside(alloc: Global) -> BodyScope
    ensures self_adt { result.self_adt ≡ None }
    ensures variables { result.variables ≡ [] }
    ensures loops { result.loops ≡ [] }
    ensures answer { result.answer ≡ unit }
{
    BodyScope {
        self_adt: None,
        variables: Variables::new(alloc),
        loops: List::new(alloc),
        guards: List::new(alloc),
        answer: UNIT,
    }
}

/// A walk that begins with these items.
fn beginning(alloc: Global, items: Items) -> Walk
    ensures items { result.items ≡ items }
    ensures state { state_of result ≡ starting_with items }
    ensures made { result.made ≡ [] }
{
    Walk {
        items,
        next_node: 0,
        next_body: 0,
        breaks: List::new(alloc),
        bodies: List::new(alloc),
        made: List::new(alloc),
    }
}

/// A checker at the start of the bodies of a text, whose items were collected: with tables of all names of the text and
/// of the items. It costs, and takes memory, by the items and the lengths of their names.
///
/// # Errors
///
/// [`NoMemory`] where memory is wanted.
pub fn checker_of(alloc: Global, pieces: &[NodePiece], items: Items) -> Result<Checker, NoMemory>
    ensures place { IfOk result (λ checker. env checker ≡ outermost (item_syns (items_of (parts_in pieces.now)))) }
    ensures state { IfOk result (λ checker. state checker ≡ starting_with items) }
    ensures empty { IfOk result (λ checker. stack checker ≡ []) }
{
    let tables = tables(alloc, pieces, &items)?;
    Ok(Checker {
        alloc,
        walk: beginning(alloc, items),
        around: outside(alloc),
        tables,
    })
}
