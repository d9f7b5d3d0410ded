//! Statements and terminators with the stores into flags that they ask for.
ghost use Rattle.std.specs.Prelude.{◌≡◌, ◌++◌, ◌∷◌, map, IfOk, OnOk};
ghost use Rattle.mir_ty.specs.ItemTable.{ItemTable};
ghost use Rattle.cfg_graph.specs.declared.graph.Body.{Body as GraphBody};
ghost use Rattle.cfg_graph.specs.Uses as graph;
ghost use Rattle.drop_elaborate.specs.Elaborated.{flags_of_uses, with_flags};
ghost use Rattle.drop_flags.specs.Asked.{stmt_stores};
ghost use Rattle.drop_flags.specs.Flags.{AreFlags, HasRoom, paths_of};

use crate::Flags;
use cfg_graph::{Operand, Stmt, Term};
use mir_base::{List, NoMemory};
use move_paths::{Use, result_place};
use std::alloc::Global;

impl Flags {
    /// Adds a statement, which is moved, and the stores that its uses ask for. These stand behind it and are made while it
    /// is looked at, so its place is kept for it by another one.
    fn add_stmt(&self, alloc: Global, stmt: Stmt, stmts: &mut List<Stmt>) -> Result<(), NoMemory>
        requires { HasRoom self.now }
        ensures { OnOk result (stmts.new ≡ stmts.old ++ (stmt ∷ stmt_stores self.now stmt)) }
    {
        let at = stmts.len();
        stmts.push(Stmt::Print(Operand::Unit))?;
        self.add_stmt_stores(alloc, &stmt, stmts)?;
        stmts.set(at, stmt);
        Ok(())
    }

    /// Adds statements, each with the stores that its uses ask for.
    pub fn add_stmts(
        &self,
        alloc: Global,
        lines: List<Stmt>,
        stmts: &mut List<Stmt>,
    ) -> Result<(), NoMemory>
        requires { HasRoom self.now }
        ensures { OnOk result ((items : ItemTable) (body : GraphBody) → AreFlags items body self.now →
            stmts.new ≡ stmts.old ++ with_flags items body (paths_of self.now) lines) }
    {
        for stmt in lines.into_vec() {
            self.add_stmt(alloc, stmt, stmts)?;
        }
        Ok(())
    }

    /// Adds the stores that a terminator asks for before it takes a way out.
    pub fn add_term(
        &self,
        alloc: Global,
        term: &Term,
        stmts: &mut List<Stmt>,
    ) -> Result<(), NoMemory>
        requires { HasRoom self.now }
        ensures { OnOk result ((items : ItemTable) (body : GraphBody) → AreFlags items body self.now →
            stmts.new ≡ stmts.old ++ flags_of_uses items body (paths_of self.now) (graph.term_uses term.now)) }
    {
        if self.paths.is_empty() {
            return Ok(());
        }
        self.add_term_stores(alloc, term, stmts)
    }

    /// The stores that the result of a terminator asks for, on its way on.
    pub fn result_stores(&self, alloc: Global, term: &Term) -> Result<List<Stmt>, NoMemory>
        requires { HasRoom self.now }
        ensures { IfOk result (λ stmts. (items : ItemTable) (body : GraphBody) → AreFlags items body self.now →
            stmts ≡ flags_of_uses items body (paths_of self.now)
            (map (λ place. (graph.Stores, place)) (graph.stored_by_term term.now))) }
    {
        match result_place(term) {
            Some(place) => self.stores_of(alloc, Use::Stores, place),
            None => Ok(List::new(alloc)),
        }
    }
}
