// What was flushed of some nodes, held.
ghost use Rattle.std.specs.Prelude.{◌≡◌, ◌+◌, ◌*◌, ◌<◌, ◌≤◌, [], length, map, All};
ghost use Rattle.stamp_table.specs.Ascending.{LiesAbove, RiseAbove};
ghost use Rattle.mem_values.specs.Start.{given_by};
ghost use Rattle.mem_calls.specs.Table.{IsFileTable};
ghost use Rattle.mem_calls.specs.Working.{IsWorking, WorksOn};
ghost use Rattle.fsync_look.specs.Look.{IsBelow, flushed_place, HoldsNodes};

use mem_calls::hold_more;
use mem_values::{CellId, FileCore, FileShared};
use sfs_base::NodeId;
use std::sync::Wait;

/// Holds what was flushed of each of these nodes, ascending, and nothing else. It waits while another core has one of the cells. It takes
/// no memory.
pub fn hold_nodes<R: Wait>(
    rt: &R,
    shared: &FileShared,
    core: &mut FileCore,
    nodes: u32,
    list: &[NodeId],
)
    requires table { IsFileTable shared.now nodes }
    requires work { IsWorking (given_by shared.now) shared.now core.old }
    requires none { (core.old.held ≡ []) × (core.old.view.held ≡ []) }
    requires within { All (IsBelow nodes) list.now }
    requires rise { RiseAbove [] (map (flushed_place nodes) list.now) }
    requires room { length list.now ≤ core.old.room }
    ensures work { IsWorking (given_by shared.now) shared.now core.new }
    ensures on { WorksOn core.old core.new }
    ensures holds { HoldsNodes nodes list.now core.new }
    ensures below { LiesAbove (32 + 10 * nodes) core.new.view.held }
{
    for node in list {
        hold_more(rt, shared, core, nodes, CellId::Pending { node: *node });
    }
}
