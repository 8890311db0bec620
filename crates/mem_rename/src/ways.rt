// The directories above another one, read under the lock of the tree.
ghost use Rattle.std.specs.Prelude.{◌≡◌, ◌<◌, map, IfOk, MatchOption};
ghost use Rattle.tree_laws.specs.NameRow.{node_number};
ghost use Rattle.tree_laws.specs.History.{IsLegal};
ghost use Rattle.stamp_table.specs.Events.{calls_in};
ghost use Rattle.mem_values.specs.Start.{given_by};
ghost use Rattle.mem_calls.specs.Table.{IsFileTable};
ghost use Rattle.mem_calls.specs.Working.{IsWorking};
ghost use Rattle.mem_rename.specs.Ways.{HoldsLock, SawStanding, ReadsOn, HasReadAll};

use mem_calls::{bucket_in, hold_more};
use mem_values::{CellId, FileCore, FileShared};
use sfs_base::{NoMemory, NodeId};
use std::alloc::Global;
use std::sync::Wait;

// Where a directory stands, by its first bucket, which is held and let go.
fn standing_of<R: Wait>(
    rt: &R,
    shared: &FileShared,
    core: &mut FileCore,
    nodes: u32,
    node: NodeId,
) -> Option<NodeId>
    requires table { IsFileTable shared.now nodes }
    requires work { IsWorking (given_by shared.now) shared.now core.old }
    requires lock { HoldsLock core.old }
    requires node { node.0 < nodes }
    requires room { 0 < core.old.room }
    ensures work { IsWorking (given_by shared.now) shared.now core.new }
    ensures saw { SawStanding node.0 core.old result core.new }
{
    let cell = CellId::Bucket { node, bucket: 0 };
    hold_more(rt, shared, core, nodes, cell);
    let stands = bucket_in(core, nodes, node, 0).stands;
    core.let_go(shared, 1);
    stands
}

/// The directories above one, its holder first, up to the root; none where one of them stands nowhere, so that this one is not alive. It
/// holds one bucket of each, and lets it go, under the lock of the tree.
pub(crate) fn read_way<R: Wait>(
    rt: &R,
    alloc: Global,
    shared: &FileShared,
    core: &mut FileCore,
    nodes: u32,
    node: NodeId,
) -> Result<Option<Vec<NodeId>>, NoMemory>
    requires table { IsFileTable shared.now nodes }
    requires work { IsWorking (given_by shared.now) shared.now core.old }
    requires lock { HoldsLock core.old }
    requires legal { IsLegal core.old.view.first (calls_in core.old.view.seen) }
    requires node { node.0 < nodes }
    requires room { 0 < core.old.room }
    ensures on { ReadsOn core.old core.new }
    ensures work { IsWorking (given_by shared.now) shared.now core.new }
    ensures way { IfOk result (λ way. MatchOption way Unit (λ above. HasReadAll core.new node.0 (map node_number above.items))) }
{
    let mut above = Vec::new(alloc);
    let mut at = node;
    for _ in rt.forever() {
        if at.0 == 0 {
            return Ok(Some(above));
        }
        let Some(holder) = standing_of(rt, shared, core, nodes, at) else {
            return Ok(None);
        };
        above.push(holder)?;
        at = holder;
    }
    unreachable!()
}
