//! The rules by which code is put behind the code of parts.
ghost use Rattle.std.specs.Prelude.{◌≡◌, ◌∷◌, OnOk};
ghost use Rattle.lower_code.specs.Forms as forms;
ghost use Rattle.lower_code.specs.Ops as ops;
ghost use Rattle.lower_code.specs.Ops.{onto, own_scope_onto, pending_onto, made_entry_onto, thens};
ghost use Rattle.lower_code.specs.View.{ops_of, at_of, entry_of, effect_of, destination_of};

use crate::loops_and_guards::whole;
use crate::{Action, Change, Code, CodeWord, Destination, Entry, ScopeAt};
use cfg_graph::{Operand, Stmt};
use mir_base::{Key, NoMemory, NodeId};
use std::alloc::Global;

/// What stands before is in a scope for temporaries of its own, or as it is.
pub fn in_own_scope(node: NodeId, own: bool, code: &mut Code) -> Result<(), NoMemory>
    ensures { OnOk result (ops_of code.new ≡ own_scope_onto node.0 own (ops_of code.old)) }
{
    if own {
        code.push(CodeWord::InScope {
            node,
            for_temporaries: true,
        })
    } else {
        Ok(())
    }
}

/// Before what stands there a destination is pending, if it is.
pub fn from_pending(pends: bool, at: ScopeAt, entry: Entry, code: &mut Code) -> Result<(), NoMemory>
    ensures { OnOk result (ops_of code.new ≡ pending_onto pends (at_of at) (entry_of entry) (ops_of code.old)) }
{
    if pends {
        code.push(CodeWord::From(Change::Pends(at, entry)))
    } else {
        Ok(())
    }
}

/// The destination of what stands before is an entry behind it, and is pending meanwhile, if it has to be.
pub fn made_entry(pends: bool, at: ScopeAt, entry: Entry, code: &mut Code) -> Result<(), NoMemory>
    ensures { OnOk result (ops_of code.new ≡ made_entry_onto pends (at_of at) (entry_of entry) (ops_of code.old)) }
{
    code.push(CodeWord::Changes(Change::Completes(at, entry)))?;
    code.push(CodeWord::Then)?;
    from_pending(pends, at, entry, code)
}

/// The key under which a value is made first.
pub fn key_in(to: Destination) -> Key
    ensures { result.0 ≡ forms.key_in (destination_of to) }
{
    match to {
        Destination::Into(key) | Destination::Coerced { key, .. } => key,
    }
}

/// An effect whose answer goes to the destination of a node.
pub fn delivers(
    alloc: Global,
    number: NodeId,
    id: NodeId,
    action: Action,
    to: Destination,
    code: &mut Code,
) -> Result<(), NoMemory>
    ensures { OnOk result (ops_of code.new ≡
        onto (forms.delivers number.0 id.0 (effect_of number.0 action) (destination_of to)) (ops_of code.old)) }
{
    code.act(alloc, number, action)?;
    match to {
        Destination::Into(_) => Ok(()),
        Destination::Coerced { key, trait_no, to } => {
            let stmt = Stmt::Unsize {
                to: whole(alloc, to),
                trait_no,
                from: Operand::Moved(whole(alloc, key)),
            };
            let action = Action::Stmt(stmt);
            code.act(alloc, id, action)?;
            code.push(CodeWord::Then)
        }
    }
}

/// So many codes, one after the other, and nothing behind them.
pub fn join_codes(count: usize, code: &mut Code) -> Result<(), NoMemory>
    ensures { OnOk result (ops_of code.new ≡ thens count (ops.Nothing ∷ ops_of code.old)) }
{
    code.push(CodeWord::Nothing)?;
    let mut done = 0;
    while done < count {
        code.push(CodeWord::Then)?;
        done += 1;
    }
    Ok(())
}
