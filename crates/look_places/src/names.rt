//! The variables of a program's bodies, with their places in the text.
ghost use Rattle.std.specs.Prelude.{◌≡◌, ◌++◌, suc, Some, OnOk, IfOk, map};
ghost use Rattle.typed_tree.specs.Listed.{trees};
ghost use Rattle.typed_tree.specs.View.{body_of, program_of, tree_of};
ghost use Rattle.lower_locals.specs.View.{entry_of, keys};
ghost use Rattle.cfg_build.specs.Told.{AreTold};
ghost use Rattle.look_places.specs.Names as told;

use cfg_build::{PlaceNames, node_with, rise};
use lower_locals::{Local, locals};
use mir_base::{Key, List, Name, NoMemory, Pos};
use mir_ty::Items;
use std::alloc::Global;
use typed_tree::{Form, Node, TBody, Typed, all_nodes};

/// A variable: its local, its name, and where it is bound.
#[derive(Drop)]
pub struct Variable {
    pub local: u32,
    pub name: Name,
    pub at: Pos,
}

/// Where the block of a body begins, and the body's variables in the order of their locals.
#[derive(Drop)]
pub struct BodyNames {
    pub at: Pos,
    pub variables: List<Variable>,
}

/// Puts the variable that a node binds, if it binds one.
fn add_variable(
    alloc: Global,
    local: u32,
    node: &Node,
    out: &mut List<Variable>,
) -> Result<(), NoMemory>
    ensures { OnOk result (out.new ≡ out.old ++ told.variable_of local (Some (tree_of node.now))) }
{
    match &node.form {
        Form::Binding(name) => {
            let name = name.copy(alloc)?;
            out.push(Variable {
                local,
                name,
                at: node.at,
            })
        }
        _ => Ok(()),
    }
}

/// Puts the variable whose local this is; a temporary has none.
fn add_local(
    alloc: Global,
    names: PlaceNames,
    local: u32,
    key: Key,
    out: &mut List<Variable>,
) -> Result<(), NoMemory>
    requires { AreTold names }
    ensures { OnOk result (out.new ≡ out.old ++ told.variable_at (trees names.entry.nodes.now) local key.0) }
{
    match node_with(names, key.0) {
        Some(node) => add_variable(alloc, local, node, out),
        None => Ok(()),
    }
}

/// Puts the variables of locals, the first of which has the number 0.
fn add_locals(
    alloc: Global,
    names: PlaceNames,
    locals: &[Local],
    out: &mut List<Variable>,
) -> Result<(), NoMemory>
    requires { AreTold names }
    ensures { OnOk result (out.new ≡ out.old
        ++ told.variables_from (trees names.entry.nodes.now) 0 (keys (map entry_of locals.now))) }
{
    let mut n: u32 = 0;
    for local in locals {
        add_local(alloc, names, n, local.key, out)?;
        n = n.checked_add(1).ok_or(NoMemory::past_32_bits())?;
    }
    Ok(())
}

/// The names of a body.
fn body_names(alloc: Global, items: &Items, body: &TBody) -> Result<BodyNames, NoMemory>
    ensures { IfOk result (λ names. names ≡ told.body_names items.now (body_of body.now)) }
{
    let nodes = all_nodes(alloc, body)?;
    let found = locals(alloc, items, body)?;
    let all = nodes.as_slice();
    let names = PlaceNames {
        items,
        locals: found.as_slice(),
        nodes: all,
        rise: rise(all),
    };
    let mut variables = List::new(alloc);
    add_locals(alloc, names, found.as_slice(), &mut variables)?;
    Ok(BodyNames {
        at: body.block.at,
        variables,
    })
}

/// The names of each body of a program, in the order of the bodies.
///
/// # Errors
///
/// [`NoMemory`] where memory is wanted, and where 32 bits do not count the locals of a body.
pub fn program_names(alloc: Global, typed: &Typed) -> Result<List<BodyNames>, NoMemory>
    ensures { IfOk result (λ names. names ≡ told.program_names (program_of typed.now)) }
{
    let mut names = List::new(alloc);
    for body in typed.bodies.as_slice() {
        names.push(body_names(alloc, &typed.items, body)?)?;
    }
    Ok(names)
}
