//! The stores with which a body begins.
ghost use Rattle.std.specs.Prelude.{◌≡◌, ◌++◌, IfOk, OnOk};
ghost use Rattle.mir_ty.specs.ItemTable.{ItemTable};
ghost use Rattle.cfg_graph.specs.declared.graph.Body.{Body as GraphBody};
ghost use Rattle.drop_elaborate.specs.Elaborated.{at_start, with_flags};
ghost use Rattle.drop_flags.specs.Flags as stores;
ghost use Rattle.drop_flags.specs.Flags.{AreFlags, HasRoom, paths_of, first_stores};

use crate::Flags;
use crate::flags::store;
use cfg_graph::Stmt;
use mir_base::{List, NoMemory};
use std::alloc::Global;

/// Whether a local is one of so many parameters.
fn is_param(params: u32, local: u32) -> bool
    ensures { result ≡ stores.is_param params local }
{
    0 < local && local <= params
}

impl Flags {
    /// Adds the first stores into all flags: a path of a parameter is present.
    fn add_first(&self, alloc: Global, stmts: &mut List<Stmt>) -> Result<(), NoMemory>
        requires { HasRoom self.now }
        ensures { OnOk result (stmts.new ≡
            stmts.old ++ first_stores self.now.params (paths_of self.now) self.now.first) }
    {
        let mut flag = self.first;
        for path in self.paths.as_slice() {
            let present = is_param(self.params, path.local);
            stmts.push(store(alloc, flag, present))?;
            flag += 1;
        }
        Ok(())
    }

    /// Adds what a block does before its statements: that in which the body begins makes all flags.
    fn add_start(&self, alloc: Global, number: u32, stmts: &mut List<Stmt>) -> Result<(), NoMemory>
        requires { HasRoom self.now }
        ensures { OnOk result ((items : ItemTable) (body : GraphBody) → AreFlags items body self.now →
            stmts.new ≡ stmts.old ++ at_start items body (paths_of self.now) number) }
    {
        if number == 0 {
            self.add_first(alloc, stmts)
        } else {
            Ok(())
        }
    }

    /// How many stores room is made for in a block by its number: all first ones, or one.
    fn room_for(&self, number: u32) -> usize {
        match number {
            0 => self.paths.len(),
            _ => 1,
        }
    }

    /// The statements of a block by its number, before the end of the block: each is moved, and without flags they stay as
    /// they are.
    pub fn stmts_of(
        &self,
        alloc: Global,
        number: u32,
        lines: List<Stmt>,
    ) -> Result<List<Stmt>, NoMemory>
        requires { HasRoom self.now }
        ensures { IfOk result (λ stmts. (items : ItemTable) (body : GraphBody) → AreFlags items body self.now →
            stmts ≡ at_start items body (paths_of self.now) number ++ with_flags items body (paths_of self.now) lines) }
    {
        if self.paths.is_empty() {
            return Ok(lines);
        }
        let room = lines.len().saturating_add(self.room_for(number));
        let mut stmts = List::from_vec(Vec::with_capacity(alloc, room)?);
        self.add_start(alloc, number, &mut stmts)?;
        self.add_stmts(alloc, lines, &mut stmts)?;
        Ok(stmts)
    }
}
