//! How a block ends, once its statements and its tail are checked (The Rust Reference, "Block expressions").
ghost use Rattle.std.specs.Prelude.{◌≡◌, ◌∷◌, IfErr, OnOk};
ghost use Rattle.mir_base.specs.declared.rule.RuleError.{RuleError};
ghost use Rattle.typed_tree.specs.Tree as tree;
ghost use Rattle.typed_tree.specs.Tree.{absent, present};
ghost use Rattle.typing_rules.specs.Places.{a_node_of};
ghost use Rattle.typing_rules.specs.Rows as rows;
ghost use Rattle.well_typed.specs.Places.{ty_of};
ghost use Rattle.typeck_checker.specs.Lists.{below_all, last_nodes};
ghost use Rattle.typeck_checker.specs.Stand.{Gives, KeepsStack, Stays, below, stack, state, top};

use mir_base::{NodeId, Pos, RuleError};
use mir_ty::{NEVER, TyId, UNIT};
use typeck_checker::{Checker, take_nodes};
use typed_tree::{Form, discard_node};

fn wrap_statements(
    checker: &mut Checker,
    id: NodeId,
    at: Pos,
    ty: TyId,
    count: usize,
) -> Result<(), RuleError>
    ensures made { OnOk result (stack checker.new ≡
        a_node_of id.0 at ty (tree.Block (last_nodes count (stack checker.old)) absent) ∷ below_all count (stack checker.old)) }
    ensures state { OnOk result (state checker.new ≡ state checker.old) }
    ensures place { OnOk result (Stays checker.old checker.new) }
    ensures short { IfErr result (λ e. e ≡ RuleError.Memory) }
{
    let statements = take_nodes(checker, count)?;
    checker.put(
        id,
        at,
        ty,
        Form::Block {
            statements,
            tail: None,
        },
    )
}

fn wrap_tail(
    checker: &mut Checker,
    id: NodeId,
    at: Pos,
    ty: TyId,
    count: usize,
) -> Result<(), RuleError>
    ensures made { OnOk result (stack checker.new ≡
        a_node_of id.0 at ty (tree.Block (last_nodes count (below (stack checker.old))) (present (top (stack checker.old))))
        ∷ below_all count (below (stack checker.old))) }
    ensures state { OnOk result (state checker.new ≡ state checker.old) }
    ensures place { OnOk result (Stays checker.old checker.new) }
    ensures short { IfErr result (λ e. e ≡ RuleError.Memory) }
{
    let tail = checker.part()?;
    match take_nodes(checker, count) {
        Ok(statements) => {
            let tail = Some(tail);
            checker.put(id, at, ty, Form::Block { statements, tail })
        }
        Err(error) => {
            discard_node(tail);
            Err(error)
        }
    }
}

/// A block without a tail, whose statements are the last nodes, so many: it has the type `!` where one of them ends,
/// else `()`.
pub fn block_end(
    checker: &mut Checker,
    id: NodeId,
    at: Pos,
    count: usize,
    ends: bool,
    expected: Option<TyId>,
) -> Result<(), RuleError>
    ensures gives { Gives (rows.settled expected (a_node_of id.0 at (rows.block_ty absent ends)
        (tree.Block (last_nodes count (stack checker.old)) absent)) (state checker.old)) result checker.new }
    ensures kept { KeepsStack (below_all count (stack checker.old)) checker.old result checker.new }
{
    let ty = if ends { NEVER } else { UNIT };
    wrap_statements(checker, id, at, ty, count)?;
    checker.unify(expected)
}

/// A block whose tail is the last node, behind its statements, so many: it has the type of its tail.
pub fn tail_end(
    checker: &mut Checker,
    id: NodeId,
    at: Pos,
    count: usize,
    expected: Option<TyId>,
) -> Result<(), RuleError>
    ensures gives { Gives (rows.settled expected (a_node_of id.0 at (ty_of (top (stack checker.old)))
        (tree.Block (last_nodes count (below (stack checker.old))) (present (top (stack checker.old))))) (state checker.old)) result checker.new }
    ensures kept { KeepsStack (below_all count (below (stack checker.old))) checker.old result checker.new }
{
    let ty = checker.last_ty();
    wrap_tail(checker, id, at, ty, count)?;
    checker.unify(expected)
}
