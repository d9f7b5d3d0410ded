ghost use Rattle.std.specs.Prelude.{◌≡◌, ◌==◌, ℕ, IfOk, nat_eq, option_map, option_and_then, map, slice_get};
ghost use Rattle.std.specs.HashMap.{get};
ghost use Rattle.std.specs.List.{position};
ghost use Rattle.std.specs.Option.{option_copied};
ghost use Rattle.scope_table.specs.Lookup.{row_with, node_of};
ghost use Rattle.scope_table.specs.Table.{scope_rows};
ghost use Rattle.typed_tree.specs.View.{body_of};

use crate::forms::both_in;
use crate::row::{MadeAround, ScopeRow};
use crate::walking::{add_node, add_params};
use mir_base::{List, NoMemory, NodeId};
use std::alloc::Global;
use std::collections::HashMap;
use std::marker::Model;
use typed_tree::TBody;

/// The scopes of the nodes of a body, each named by the node whose scope it is; that of the entire function is named by
/// the block of its body. A look-up costs about the same for all nodes.
#[derive(Drop)]
pub struct ScopeTable {
    rows: List<ScopeRow>,
    /// For the number of each node, the first row that has it.
    places: HashMap<u32, u32>,
}

impl Model for ScopeTable {
    ghost use Rattle.std.specs.Prelude.{List as Listed, ℕ, ◌≡◌, ◌==◌, map, nat_eq};
    ghost use Rattle.std.specs.HashMap.{get};
    ghost use Rattle.std.specs.List.{position};
    ghost use Rattle.scope_table.specs.Lookup.{node_of};
    ghost use Rattle.scope_table.specs.declared.row.ScopeRow.{ScopeRow};

    ghost Value = { Listed ScopeRow };

    ghost view = { λ table. table.rows };

    ghost invariant = { λ table. (id : ℕ) →
        get nat_eq table.places id ≡ position (λ n. n == id) (map node_of table.rows) };
}

impl ScopeTable {
    /// The row of a node.
    fn row(&self, id: NodeId) -> Option<&ScopeRow>
        ensures { option_copied result ≡ row_with id.0 self.now }
    {
        let place = self.places.get(&id.0).copied()?;
        self.rows.get(place as usize)
    }

    /// The node whose scope is the temporary scope of a node (The Rust Reference, "Temporary scopes"); `None` where no
    /// node of the body has the number.
    pub fn temp_scope(&self, id: NodeId) -> Option<NodeId>
        ensures { result ≡ option_map (λ row. row.temporary) (row_with id.0 self.now) }
    {
        match self.row(id) {
            Some(row) => Some(row.temporary),
            None => None,
        }
    }

    /// The node whose scope holds the destination of a node while it is pending; `None` where no node of the body has
    /// the number, and where the node has no destination that is pending.
    pub fn destination_scope(&self, id: NodeId) -> Option<NodeId>
        ensures { result ≡ option_and_then (λ row. row.destination) (row_with id.0 self.now) }
    {
        match self.row(id) {
            Some(row) => row.destination,
            None => None,
        }
    }

    /// The node whose scope gets the entry that a node makes: of an operand the expression that takes it, of a
    /// temporary its temporary scope, of a name the block, the arm or the function in which it is known; `None` where no
    /// node of the body has the number, and where the node makes no entry.
    pub fn entry_scope(&self, id: NodeId) -> Option<NodeId>
        ensures { result ≡ option_and_then (λ row. row.entry) (row_with id.0 self.now) }
    {
        match self.row(id) {
            Some(row) => row.entry,
            None => None,
        }
    }
}

/// The scopes of the nodes of a body. It costs, and takes memory, by their number.
///
/// # Errors
///
/// [`NoMemory`] where memory is wanted, and where there are more nodes than 32 bits count.
pub fn scopes(alloc: Global, body: &TBody) -> Result<ScopeTable, NoMemory>
    ensures { IfOk result (λ table. table ≡ scope_rows (body_of body.now)) }
{
    let scope = body.block.id;
    let answer = MadeAround {
        destination: Some(scope),
        entry: None,
    };
    let mut rows = List::new(alloc);
    add_params(alloc, scope, body.params.as_slice(), &mut rows)?;
    add_node(alloc, both_in(scope), answer, &body.block, &mut rows)?;
    let places = first_places(alloc, rows.as_slice())?;
    Ok(ScopeTable { rows, places })
}

/// The first place of each node's number among rows. A place that is put in takes the place of the one before, so they
/// are put in from the last to the first.
fn first_places(alloc: Global, rows: &[ScopeRow]) -> Result<HashMap<u32, u32>, NoMemory>
    ensures { IfOk result (λ places. (id : ℕ) →
        get nat_eq places id ≡ position (λ n. n == id) (map node_of rows.now)) }
{
    if rows.len() > u32::MAX as usize {
        return Err(NoMemory::past_32_bits());
    }
    let mut places = HashMap::new(alloc);
    for number in (0..rows.len()).rev() {
        places.insert(rows[number].node.0, number as u32)?;
    }
    Ok(places)
}
