//! Names one behind another.
ghost use Rattle.std.specs.Prelude.{◌≡◌};
ghost use Rattle.src_ast.specs.Seen.{nodes_of};
ghost use Rattle.src_ast.specs.View.{idents};
ghost use Rattle.typeck_bodies.specs.Names.{by_name};

use mir_base::Pos;
use src_ast::{Nodes, is_name, name_of};

/// The first of some names, and the nodes behind it.
#[derive(Clone, Copy)]
pub struct FirstName<'a> {
    pub at: Pos,
    pub name: &'a str,
    pub rest: Nodes<'a>,
}

/// The name that stands first among some nodes, if one does.
pub fn first_name(nodes: Nodes<'_>) -> Option<FirstName<'_>>
    ensures { by_name result ≡ idents (nodes_of nodes.entry) }
{
    let split = nodes.split_first()?;
    if is_name(split.first) {
        Some(FirstName {
            at: split.first.at,
            name: name_of(split.first),
            rest: split.rest,
        })
    } else {
        None
    }
}
