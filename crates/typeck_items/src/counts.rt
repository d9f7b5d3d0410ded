//! How many nodes there are, against a limit.
ghost use Rattle.std.specs.Prelude.{◌≡◌, ◌==◌, nat_le};
ghost use Rattle.src_ast.specs.Seen.{nodes_of};
ghost use Rattle.typing_rules.specs.Program.{count_of};

use src_ast::Nodes;

/// Whether there are at most so many.
pub fn are_at_most(nodes: Nodes, most: u32) -> bool
    ensures { result ≡ nat_le (count_of (nodes_of nodes.entry)) most }
{
    let mut left = most;
    let mut rest = nodes;
    while let Some(split) = rest.split_first() {
        if left == 0 {
            return false;
        }
        left -= 1;
        rest = split.rest;
    }
    true
}

/// Whether there are none.
#[tactic(auto, using(crate::proofs::Counted::none_counted))]
pub fn are_none(nodes: Nodes) -> bool
    ensures { result ≡ (count_of (nodes_of nodes.entry) == 0) }
{
    nodes.is_empty()
}
