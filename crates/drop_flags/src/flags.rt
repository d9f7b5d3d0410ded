//! The flags of a body, and the stores that uses ask for.
ghost use Rattle.std.specs.Prelude.{◌≡◌, ◌++◌, ◌∷◌, [], length, IfOk, OnOk};
ghost use Rattle.mir_ty.specs.ItemTable.{ItemTable};
ghost use Rattle.cfg_graph.specs.declared.graph.Body.{Body as GraphBody};
ghost use Rattle.cfg_graph.specs.Moves.Gone as gone;
ghost use Rattle.cfg_graph.specs.Places.{named};
ghost use Rattle.move_paths.specs.Uses.{use_of};
ghost use Rattle.drop_elaborate.specs.Elaborated.{flags_of_use, flags_of_uses};
ghost use Rattle.drop_flags.specs.Flags as stores;
ghost use Rattle.drop_flags.specs.Flags.{AreFlags, HasRoom, paths_of, store_if, stores_below};

use crate::FlagPaths;
use crate::above::is_at_or_above;
use cfg_graph::{Body, Operand, Place, Stmt};
use drop_copies::whole_local;
use mir_base::{List, NoMemory};
use move_paths::Use;
use std::alloc::Global;

/// The flags of a body: a `bool` for each of these paths, in locals after its own. A flag tells whether the own part of
/// its path is present.
#[derive(Drop)]
pub struct Flags {
    /// How many parameters the body has.
    pub params: u32,
    /// The local of the first flag.
    pub first: u32,
    /// The paths that have flags, in the order of these.
    pub paths: FlagPaths,
}

/// What a use leaves of a place: gone, present, or as it was.
fn leaves(how: Use) -> Option<bool>
    ensures { result ≡ gone.leaves_gone (use_of how) }
{
    match how {
        Use::Moves | Use::Drops | Use::Frees => Some(true),
        Use::Stores => Some(false),
        _ => None,
    }
}

/// The store into a flag.
pub fn store(alloc: Global, flag: u32, present: bool) -> Stmt
    ensures { result ≡ stores.store flag present }
{
    Stmt::Put(whole_local(alloc, flag), Operand::Truth(present))
}

/// Adds the store into a flag, if its path is at or below a place.
fn add_if(
    alloc: Global,
    place: &Place,
    path: &Place,
    flag: u32,
    present: bool,
    stmts: &mut List<Stmt>,
) -> Result<(), NoMemory>
    ensures { OnOk result (stmts.new ≡
        stmts.old ++ store_if (gone.is_at_or_above (named place.now) (named path.now)) flag present) }
{
    if is_at_or_above(place, path) {
        stmts.push(store(alloc, flag, present))
    } else {
        Ok(())
    }
}

impl Flags {
    /// The flags of a body for these paths, each of which is a path of it.
    ///
    /// # Errors
    ///
    /// [`NoMemory`] where the locals are more than 32 bits count.
    pub fn new(body: &Body, paths: List<Place>) -> Result<Flags, NoMemory>
        ensures paths { IfOk result (λ flags. flags.paths ≡ paths) }
        ensures params { IfOk result (λ flags. flags.params ≡ body.now.params) }
        ensures first { IfOk result (λ flags. flags.first ≡ length body.now.locals) }
        ensures fits { IfOk result HasRoom }
    {
        let Some(count) = body.locals.len().checked_add(paths.len()) else {
            return Err(NoMemory::past_32_bits());
        };
        if count > u32::MAX as usize {
            return Err(NoMemory::past_32_bits());
        }
        Ok(Flags {
            params: body.params,
            first: body.locals.len() as u32,
            paths: FlagPaths::new(paths)?,
        })
    }

    /// Adds the stores that set or clear the flags at and below a place.
    pub fn add_below(
        &self,
        alloc: Global,
        place: &Place,
        present: bool,
        stmts: &mut List<Stmt>,
    ) -> Result<(), NoMemory>
        requires { HasRoom self.now }
        ensures { OnOk result (stmts.new ≡
            stmts.old ++ stores_below (named place.now) present (paths_of self.now) self.now.first) }
    {
        let near = self.paths.near(place.local);
        let mut flag = self.first + near.first as u32;
        for path in near.paths {
            add_if(alloc, place, path, flag, present, stmts)?;
            flag += 1;
        }
        Ok(())
    }

    /// Adds the stores that a use of a place asks for: it sets or clears the flags at and below a place that it stores
    /// into, moves, drops or frees.
    pub fn add_use(
        &self,
        alloc: Global,
        how: Use,
        place: &Place,
        stmts: &mut List<Stmt>,
    ) -> Result<(), NoMemory>
        requires { HasRoom self.now }
        ensures { OnOk result ((items : ItemTable) (body : GraphBody) → AreFlags items body self.now →
            stmts.new ≡ stmts.old ++ flags_of_use items body (paths_of self.now) (use_of how, place.now)) }
    {
        match leaves(how) {
            Some(takes) => self.add_below(alloc, place, !takes, stmts),
            None => Ok(()),
        }
    }

    /// The stores that one use of a place asks for.
    pub fn stores_of(&self, alloc: Global, how: Use, place: &Place) -> Result<List<Stmt>, NoMemory>
        requires { HasRoom self.now }
        ensures { IfOk result (λ stmts. (items : ItemTable) (body : GraphBody) → AreFlags items body self.now →
            stmts ≡ flags_of_uses items body (paths_of self.now) ((use_of how, place.now) ∷ [])) }
    {
        let mut stmts = List::new(alloc);
        self.add_use(alloc, how, place, &mut stmts)?;
        Ok(stmts)
    }
}
