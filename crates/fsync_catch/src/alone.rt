// What was flushed of an fsync's own file, held alone.
ghost use Rattle.std.specs.Prelude.{◌≡◌, ◌-◌, ◌^◌, ◌≤◌, ◌<◌, [], IfOk, IsSome, MatchOption, OnErr};
ghost use Rattle.mem_values.specs.Start.{given_by};
ghost use Rattle.mem_calls.specs.Table.{nodes_of};
ghost use Rattle.mem_calls.specs.Held.{pending_held};
ghost use Rattle.mem_calls.specs.Working.{IsWorking};
ghost use Rattle.fsync_catch.specs.Catch.{GoesOn, HasItsFsync, IsCaughtAlone, LacksAlone, LetsAllGo, cut_if_inode};

use crate::looking::WaitingFsync;
use fsync_gather::flushed_value;
use fsync_look::hold_nodes;
use mem_calls::{TreeTable, let_all_go};
use mem_values::FileCore;
use sfs_base::{NoMemory, NodeId, Stamp};
use std::sync::Wait;

// The stamp up to which something was flushed of a node whose value is held, where the node has an inode.
fn cut_with_inode(core: &FileCore, nodes: u32, node: NodeId) -> Option<Stamp>
    requires { IsSome (pending_held nodes core.now.held node) }
    ensures { result ≡ cut_if_inode (pending_held nodes core.now.held node) }
{
    let pending = flushed_value(core, nodes, node);
    if pending.old.is_some() {
        Some(pending.cut)
    } else {
        None
    }
}

/// Holds what was flushed of the node of an fsync, and nothing else: where it has an inode it answers up to which stamp something was flushed of it; where it
/// has none it lets it go, and holds nothing. It takes no log, and waits while another core has the node's value. Where memory is refused it holds nothing.
pub fn catch_alone<R: Wait>(
    rt: &R,
    table: &TreeTable,
    core: &mut FileCore,
    fsync: WaitingFsync,
) -> Result<Option<Stamp>, NoMemory>
    requires work { IsWorking (given_by table.now) table.now core.old }
    requires none { (core.old.held ≡ []) × (core.old.view.held ≡ []) }
    requires within { fsync.node.0 < nodes_of table.now }
    requires waits { HasItsFsync core.old fsync }
    ensures work { IsWorking (given_by table.now) table.now core.new }
    ensures on { GoesOn core.old core.new }
    ensures caught { IfOk result (λ cut. MatchOption cut (LacksAlone (given_by table.now) fsync core.old core.new)
        (IsCaughtAlone (given_by table.now) (nodes_of table.now) fsync core.new)) }
    ensures none { OnErr result (LetsAllGo core.new) }
    ensures few { nodes_of table.now ≤ 2 ^ 32 - 1 }
{
    let shared = table.shared();
    let nodes = table.nodes();
    core.reserve(0, 2)?;
    let list = [fsync.node];
    hold_nodes(rt, shared, core, nodes, &list);
    core.look(shared);
    match cut_with_inode(core, nodes, fsync.node) {
        Some(cut) => Ok(Some(cut)),
        None => {
            let_all_go(shared, core);
            Ok(None)
        }
    }
}
