// How many changes name a node, for each that one names: a count that falls to 0 goes.
ghost use Rattle.std.specs.Prelude.{◌≡◌, ◌+◌, ◌<◌, ◌≤◌, ◌==◌, ◌^◌, ℕ, if◌then◌else◌};
ghost use Rattle.std.specs.HashMap.{spare};
ghost use Rattle.mem_cells.specs.Named.{naming_count};

use sfs_base::NodeId;
use std::collections::HashMap;

/// Counts one naming of a node more, in room that was reserved. It takes no memory.
pub(crate) fn add_naming(namings: &mut HashMap<u32, u64>, node: NodeId)
    requires room { 0 < spare namings.old }
    requires fits { naming_count namings.old node.0 < 2 ^ 63 }
    ensures counts { (other : ℕ) → naming_count namings.new other
        ≡ naming_count namings.old other + (if node.0 == other then 1 else 0) }
    ensures room { spare namings.old ≤ spare namings.new + 1 }
{
    let count = namings.get(&node.0).copied().unwrap_or(0);
    match namings.insert(node.0, count + 1) {
        Ok(_) => (),
        Err(_) => unreachable!(),
    }
}

/// Counts one naming of a node less. It takes no memory.
pub(crate) fn take_naming(namings: &mut HashMap<u32, u64>, node: NodeId)
    requires { 0 < naming_count namings.old node.0 }
    ensures counts { (other : ℕ) → naming_count namings.new other + (if node.0 == other then 1 else 0)
        ≡ naming_count namings.old other }
    ensures room { spare namings.old ≤ spare namings.new }
{
    let count = namings.get(&node.0).copied().unwrap_or(0);
    if count == 1 {
        namings.remove(&node.0);
    } else {
        set_naming(namings, node, count - 1);
    }
}

// Sets the count of a node that has one.
fn set_naming(namings: &mut HashMap<u32, u64>, node: NodeId, count: u64)
    requires { 0 < naming_count namings.old node.0 }
    ensures counts { (other : ℕ) → naming_count namings.new other
        ≡ (if node.0 == other then count else naming_count namings.old other) }
    ensures room { spare namings.old ≤ spare namings.new }
{
    match namings.get_mut(&node.0) {
        Some(kept) => *kept = count,
        None => unreachable!(),
    }
}
