// A table over a tree, of which the disk has nothing.
ghost use Rattle.std.specs.Prelude.{◌≡◌, ◌+◌, ◌*◌, ◌<◌, ◌≤◌, All, IfOk};
ghost use Rattle.stamp_table.specs.Table.{AreAllCores, AreNew, IsBetweenCalls};
ghost use Rattle.begun_tables.specs.Begun.{BeginsTable};

use disk_nodes::OldDisk;
use mem_begin::make;
use mem_calls::{Numbers, TreeTable};
use mem_values::FileCore;
use sfs_base::NoMemory;
use sfs_tree::Tree;
use std::alloc::Global;

/// A table over a tree of which the disk has nothing, and its cores.
pub fn begun(
    alloc: Global,
    tree: &Tree,
    first: u32,
    share: u32,
    cores: u8,
) -> Result<(TreeTable, Vec<FileCore>), NoMemory>
    requires tree { BeginsTable tree.now first share cores }
    requires cores { 0 < cores }
    requires few { first + share * cores ≤ 81920 }
    ensures first { IfOk result (λ made. made.0.first ≡ tree.now) }
    ensures cores { IfOk result (λ made. AreAllCores made.0 made.1.items) }
    ensures new { IfOk result (λ made. AreNew tree.now made.1.items) }
    ensures between { IfOk result (λ made. All (IsBetweenCalls made.0) made.1.items) }
{
    let nodes = first + share * cores as u32;
    let (shared, hands) = make(alloc, tree, OldDisk::new(alloc), nodes, cores)?;
    let numbers = Numbers { first, share };
    Ok((TreeTable::new(shared, nodes, numbers), hands))
}
