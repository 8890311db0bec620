// The last commits of nodes, as a core sees them by the values that it holds.
ghost use Rattle.std.specs.Prelude.{◌≡◌, IfOk, length};
ghost use Rattle.fsync_draft.specs.Drafting.{last_of_value, seens_of};

use mem_values::Cell;
use sfs_base::{NoMemory, NodeId};
use slot_laws::Seen;
use std::alloc::Global;

// The number of a node's last commit, by its value; 0 where it has none.
fn last_of(value: &Cell) -> u64
    ensures { result ≡ last_of_value value.now }
{
    match value {
        Cell::Pending { pending } => pending.last,
        _ => 0,
    }
}

/// Each node with the number of its last commit, by its value.
pub(crate) fn seen_of(
    alloc: Global,
    nodes: &[NodeId],
    values: &[Cell],
) -> Result<Vec<Seen>, NoMemory>
    requires { length values.now ≡ length nodes.now }
    ensures { IfOk result (λ seen. seen.items ≡ seens_of nodes.now values.now) }
{
    let mut seen = Vec::new(alloc);
    for at in 0..nodes.len() {
        seen.push(Seen {
            node: nodes[at],
            last: last_of(&values[at]),
        })?;
    }
    Ok(seen)
}
