// The logs of all cores, each of which is held, trimmed for a commit that the core has told, and let go before the next one.
ghost use Rattle.std.specs.Prelude.{◌≡◌, ◌+◌, ◌*◌, ◌<◌, ◌≤◌, length, map};
ghost use Rattle.tree_laws.specs.NameRow.{node_number};
ghost use Rattle.stamp_table.specs.Ascending.{LiesAbove};
ghost use Rattle.mem_values.specs.Start.{given_by};
ghost use Rattle.mem_values.specs.Places.{cell_place};
ghost use Rattle.mem_values.specs.declared.cell_id.CellId.TheVariants as id;
ghost use Rattle.mem_calls.specs.Table.{IsFileTable};
ghost use Rattle.fsync_end.specs.Trimming.{IsFlushing, HasTold, AreTrimmedOrBlank, TrimsPart, TrimsAll};

use fsync_look::take_log;
use mem_calls::put;
use mem_values::{Cell, CellId, Fact, FileCore, FileShared, PartCell};
use sfs_base::{CoreId, NodeId, Stamp};
use std::sync::Wait;

// The log without the changes of these directories below a stamp.
fn trimmed(part: Box<PartCell>, members: &[NodeId], below: Stamp) -> Box<PartCell>
    ensures log { AreTrimmedOrBlank part.value.log (map node_number members.now) below.0 result.value.log }
    ensures made { result.value.made ≡ part.value.made }
{
    let mut part = part;
    for member in members {
        part.log.trim(*member, below);
    }
    part
}

/// Holds the log of a core, drops the changes of a commit's members below its stamp, tells that it is trimmed for the commit, and lets it
/// go. The core has told the commit. It waits while another core has the log, and takes no memory.
pub fn trim_part<R: Wait>(
    rt: &R,
    shared: &FileShared,
    core: &mut FileCore,
    nodes: u32,
    part: CoreId,
    members: &[NodeId],
    stamp: Stamp,
    number: u64,
)
    requires table { IsFileTable shared.now nodes }
    requires at { IsFlushing shared.now core.old }
    requires within { part.0 < length shared.now.first.made }
    requires above { LiesAbove (cell_place nodes (id.Part part)) core.old.view.held }
    requires room { 0 < core.old.room }
    requires told { HasTold core.old.view.mine core.old.view.core number stamp.0 (map node_number members.now) }
    ensures at { IsFlushing shared.now core.new }
    ensures trims { TrimsPart (given_by shared.now) number part.0 core.old core.new }
{
    let cell = CellId::Part { core: part };
    core.hold_one(rt, shared, cell.place(nodes));
    let log = trimmed(take_log(core, nodes, part), members, stamp);
    put(core, nodes, cell, Cell::Part { part: log });
    core.tell(shared, &Fact::Trimmed { number, part });
    core.let_go(shared, cell.place(nodes));
}

/// The same of the first logs, so many of them, one after another.
pub fn trim_all<R: Wait>(
    rt: &R,
    shared: &FileShared,
    core: &mut FileCore,
    nodes: u32,
    cores: u8,
    members: &[NodeId],
    stamp: Stamp,
    number: u64,
)
    requires table { IsFileTable shared.now nodes }
    requires cores { cores ≤ length shared.now.first.made }
    requires at { IsFlushing shared.now core.old }
    requires below { LiesAbove (32 + 10 * nodes) core.old.view.held }
    requires room { 0 < core.old.room }
    requires told { HasTold core.old.view.mine core.old.view.core number stamp.0 (map node_number members.now) }
    ensures at { IsFlushing shared.now core.new }
    ensures trims { TrimsAll (given_by shared.now) number cores core.old core.new }
{
    for part in 0..cores {
        trim_part(
            rt,
            shared,
            core,
            nodes,
            CoreId(part),
            members,
            stamp,
            number,
        );
    }
}
