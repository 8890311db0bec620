// The end of an fsync whose commit has become durable.
ghost use Rattle.std.specs.Prelude.{◌≡◌, ◌+◌, ◌*◌, ◌<◌, length};
ghost use Rattle.stamp_table.specs.Ascending.{LiesAbove};
ghost use Rattle.mem_calls.specs.Table.{IsFileTable, nodes_of};
ghost use Rattle.landing_laws.specs.Landed.{LandedFsync};
ghost use Rattle.fsync_dir.specs.Ending.{HasLandedHere, LandsSo};

use crate::site::FlushSite;
use fsync_catch::WaitingFsync;
use fsync_commit::Landed;
use fsync_end::{Ending, finish};
use fsync_values::{Renewal, renew};
use mem_values::{Cell, FileCore, KeptNode};
use sfs_base::{NodeId, NodeList};
use sfs_dev::Disk;
use std::marker::Brand;
use std::sync::Wait;

/// What is left of a plan once its commit is durable: the members, the directories among these, all nodes, boxes enough for those of which the disk gets its
/// first entry, and the values of the nodes, out of which what the disk has of them was lent.
#[derive(Drop)]
pub(crate) struct PlanLeft {
    pub(crate) members: NodeList,
    pub(crate) directories: Vec<NodeId>,
    pub(crate) nodes: NodeList,
    pub(crate) spares: Vec<KeptNode>,
    pub(crate) values: Vec<Cell>,
}

/// Gives the values what the commit leaves of the nodes, tells the commit, trims all logs for it, brings the values home and answers Ok. It waits while another
/// core has a log, and takes no memory.
pub(crate) fn end_landed<R: Wait, D: Disk>(
    rt: &R,
    site: &FlushSite<D>,
    core: &mut FileCore,
    fsync: WaitingFsync,
    left: PlanLeft,
    landed: Landed,
)
    requires table { IsFileTable site.now.table.now (nodes_of site.now.table.now) }
    requires cores { site.now.cores ≡ length site.now.table.now.first.made }
    requires below { LiesAbove (32 + 10 * nodes_of site.now.table.now) core.old.view.held }
    requires room { 0 < core.old.room }
    requires landed { (s : LandedFsync) × HasLandedHere site.now.table.now fsync left landed s core.old }
    ensures lands { (s : LandedFsync) → HasLandedHere site.now.table.now fsync left landed s core.old
        → LandsSo site.now.table.now fsync s landed.ack core.old core.new }
{
    let Landed {
        ack,
        nodes: changes,
    } = landed;
    let PlanLeft {
        members,
        directories,
        nodes,
        spares,
        values,
    } = left;
    let mut values = values;
    let renewal = Renewal {
        number: ack.commit,
        stamp: fsync.stamp,
    };
    renew(
        renewal,
        members.as_slice(),
        nodes.as_slice(),
        &mut values,
        changes.into_after(),
        spares,
    );
    let ending = Ending {
        number: ack.commit,
        node: fsync.node,
        stamp: fsync.stamp,
        members: directories,
        nodes,
        values,
        ack: ack.moment,
    };
    finish::<R, Brand>(rt, site.table, core, site.cores, ending);
}
