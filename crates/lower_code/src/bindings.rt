//! The names that a pattern makes.
ghost use Rattle.std.specs.Prelude.{◌≡◌, ◌∷◌, OnOk, map};
ghost use Rattle.lower_code.specs.Forms as forms;
ghost use Rattle.lower_code.specs.Ops.{onto, entered_onto};
ghost use Rattle.lower_code.specs.View.{ops_of, at_of};
ghost use Rattle.pattern_lower.specs.Seen.{bound_of};

use crate::loops_and_guards::{copy_place, whole};
use crate::{Action, Change, Code, CodeWord, Entry, ScopeAt};
use cfg_graph::{Operand, Stmt};
use mir_base::{NoMemory, NodeId};
use pattern_lower::Binding;
use std::alloc::Global;
use typed_tree::Use;

/// What a name takes, stored under its key.
fn takes(alloc: Global, binding: &Binding, code: &mut Code) -> Result<(), NoMemory>
    ensures { OnOk result (ops_of code.new ≡ onto (forms.takes (bound_of binding.now)) (ops_of code.old)) }
{
    let part = copy_place(alloc, &binding.from)?;
    let part = match binding.by {
        Use::Move => Operand::Moved(part),
        _ => Operand::Copied(part),
    };
    let action = Action::Stmt(Stmt::Put(whole(alloc, binding.key), part));
    code.act(alloc, NodeId(binding.key.0), action)
}

/// Behind what names take, each is an entry from there on.
pub fn enter_bindings(at: ScopeAt, bindings: &[Binding], code: &mut Code) -> Result<(), NoMemory>
    ensures { OnOk result (ops_of code.new ≡ entered_onto (at_of at) (map bound_of bindings.now) (ops_of code.old)) }
{
    code.push(CodeWord::Nothing)?;
    let mut left = bindings.len();
    while left > 0 {
        left -= 1;
        let binding = &bindings[left];
        let entry = Entry {
            key: binding.key,
            ty: binding.ty,
        };
        code.push(CodeWord::From(Change::Enters(at, entry)))?;
        code.push(CodeWord::Then)?;
    }
    Ok(())
}

/// The names of a pattern in order, each an entry as soon as it holds its part.
pub fn bind(
    alloc: Global,
    at: ScopeAt,
    bindings: &[Binding],
    code: &mut Code,
) -> Result<(), NoMemory>
    ensures { OnOk result (ops_of code.new ≡ onto (forms.bind (at_of at) (map bound_of bindings.now)) (ops_of code.old)) }
{
    for binding in bindings {
        takes(alloc, binding, code)?;
    }
    enter_bindings(at, bindings, code)
}
