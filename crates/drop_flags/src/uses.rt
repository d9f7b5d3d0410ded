//! The stores into flags that a statement or a terminator asks for, use by use.
ghost use Rattle.std.specs.Prelude.{◌≡◌, ◌++◌, ◌∷◌, [], flat_map, OnOk};
ghost use Rattle.cfg_graph.specs.Uses.{operands_of_stmt, operands_of_term, stored_by_stmt};
ghost use Rattle.drop_flags.specs.Flags.{HasRoom};
ghost use Rattle.drop_flags.specs.Asked.{dropped_stores, freed_stores, operand_stores, stmt_stores, stored_stores, term_stores};

use crate::Flags;
use cfg_graph::{Operand, Stmt, Term};
use mir_base::{List, NoMemory};
use std::alloc::Global;

impl Flags {
    /// An operand that is moved is gone.
    fn add_operand(
        &self,
        alloc: Global,
        operand: &Operand,
        stmts: &mut List<Stmt>,
    ) -> Result<(), NoMemory>
        requires { HasRoom self.now }
        ensures { OnOk result (stmts.new ≡ stmts.old ++ operand_stores self.now operand.now) }
    {
        match operand {
            Operand::Moved(place) => self.add_below(alloc, place, false, stmts),
            _ => Ok(()),
        }
    }

    fn add_operands(
        &self,
        alloc: Global,
        operands: &[Operand],
        stmts: &mut List<Stmt>,
    ) -> Result<(), NoMemory>
        requires { HasRoom self.now }
        ensures { OnOk result (stmts.new ≡ stmts.old ++ flat_map (operand_stores self.now) operands.now) }
    {
        for operand in operands {
            self.add_operand(alloc, operand, stmts)?;
        }
        Ok(())
    }

    fn add_two(
        &self,
        alloc: Global,
        left: &Operand,
        right: &Operand,
        stmts: &mut List<Stmt>,
    ) -> Result<(), NoMemory>
        requires { HasRoom self.now }
        ensures { OnOk result (stmts.new ≡ stmts.old ++ flat_map (operand_stores self.now) (left.now ∷ right.now ∷ [])) }
    {
        self.add_operand(alloc, left, stmts)?;
        self.add_operand(alloc, right, stmts)
    }

    /// The operands of a statement, from left to right.
    fn add_taken(&self, alloc: Global, stmt: &Stmt, stmts: &mut List<Stmt>) -> Result<(), NoMemory>
        requires { HasRoom self.now }
        ensures { OnOk result (stmts.new ≡ stmts.old ++ flat_map (operand_stores self.now) (operands_of_stmt stmt.now)) }
    {
        match stmt {
            Stmt::Put(_, operand)
            | Stmt::Not(_, operand)
            | Stmt::NewBox(_, operand)
            | Stmt::Unsize { from: operand, .. }
            | Stmt::Print(operand)
            | Stmt::Forget(operand) => self.add_operand(alloc, operand, stmts),
            Stmt::Compare(_, _, left, right) => self.add_two(alloc, left, right, stmts),
            Stmt::Tuple(_, parts)
            | Stmt::Array(_, parts)
            | Stmt::Make { parts, .. }
            | Stmt::Close { parts, .. } => self.add_operands(alloc, parts.as_slice(), stmts),
            Stmt::Borrow { .. } | Stmt::Touch(_) | Stmt::Free(_) => Ok(()),
        }
    }

    /// A box that is freed is gone.
    fn add_freed(&self, alloc: Global, stmt: &Stmt, stmts: &mut List<Stmt>) -> Result<(), NoMemory>
        requires { HasRoom self.now }
        ensures { OnOk result (stmts.new ≡ stmts.old ++ freed_stores self.now stmt.now) }
    {
        match stmt {
            Stmt::Free(place) => self.add_below(alloc, place, false, stmts),
            _ => Ok(()),
        }
    }

    /// What a statement stores is present.
    fn add_stored(&self, alloc: Global, stmt: &Stmt, stmts: &mut List<Stmt>) -> Result<(), NoMemory>
        requires { HasRoom self.now }
        ensures { OnOk result (stmts.new ≡ stmts.old ++ stored_stores self.now (stored_by_stmt stmt.now)) }
    {
        match stmt {
            Stmt::Put(to, _)
            | Stmt::Compare(to, _, _, _)
            | Stmt::Not(to, _)
            | Stmt::Tuple(to, _)
            | Stmt::Array(to, _)
            | Stmt::Make { to, .. }
            | Stmt::Close { to, .. }
            | Stmt::NewBox(to, _)
            | Stmt::Unsize { to, .. }
            | Stmt::Borrow { to, .. } => self.add_below(alloc, to, true, stmts),
            Stmt::Touch(_) | Stmt::Print(_) | Stmt::Forget(_) | Stmt::Free(_) => Ok(()),
        }
    }

    /// Adds the stores that the uses of a statement ask for, in the order of these.
    pub fn add_stmt_stores(
        &self,
        alloc: Global,
        stmt: &Stmt,
        stmts: &mut List<Stmt>,
    ) -> Result<(), NoMemory>
        requires { HasRoom self.now }
        ensures { OnOk result (stmts.new ≡ stmts.old ++ stmt_stores self.now stmt.now) }
    {
        self.add_taken(alloc, stmt, stmts)?;
        self.add_freed(alloc, stmt, stmts)?;
        self.add_stored(alloc, stmt, stmts)
    }

    fn add_term_operands(
        &self,
        alloc: Global,
        term: &Term,
        stmts: &mut List<Stmt>,
    ) -> Result<(), NoMemory>
        requires { HasRoom self.now }
        ensures { OnOk result (stmts.new ≡ stmts.old ++ flat_map (operand_stores self.now) (operands_of_term term.now)) }
    {
        match term {
            Term::If { on: operand, .. }
            | Term::Negate { of: operand, .. }
            | Term::Bounds { index: operand, .. } => self.add_operand(alloc, operand, stmts),
            Term::Math { left, right, .. } => self.add_two(alloc, left, right, stmts),
            Term::Call { args, .. } | Term::Virtual { args, .. } => {
                self.add_operands(alloc, args.as_slice(), stmts)
            }
            _ => Ok(()),
        }
    }

    /// A place that is dropped is gone.
    fn add_dropped(
        &self,
        alloc: Global,
        term: &Term,
        stmts: &mut List<Stmt>,
    ) -> Result<(), NoMemory>
        requires { HasRoom self.now }
        ensures { OnOk result (stmts.new ≡ stmts.old ++ dropped_stores self.now term.now) }
    {
        match term {
            Term::DropAt { place, .. } => self.add_below(alloc, place, false, stmts),
            _ => Ok(()),
        }
    }

    /// Adds the stores that the uses of a terminator before it takes a way out ask for, in the order of these.
    pub fn add_term_stores(
        &self,
        alloc: Global,
        term: &Term,
        stmts: &mut List<Stmt>,
    ) -> Result<(), NoMemory>
        requires { HasRoom self.now }
        ensures { OnOk result (stmts.new ≡ stmts.old ++ term_stores self.now term.now) }
    {
        self.add_term_operands(alloc, term, stmts)?;
        self.add_dropped(alloc, term, stmts)
    }
}
