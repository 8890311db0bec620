// The end of an fsync whose commit is durable.
ghost use Rattle.std.specs.Prelude.{◌≡◌, ◌+◌, ◌*◌, ◌<◌, Some, length};
ghost use Rattle.stamp_table.specs.Ascending.{LiesAbove};
ghost use Rattle.stamp_table.specs.Table.{IsBetweenCalls};
ghost use Rattle.mem_values.specs.Start.{given_by};
ghost use Rattle.mem_values.specs.declared.fact.Fact.{Fact as FactValue};
ghost use Rattle.mem_calls.specs.Table.{nodes_of};
ghost use Rattle.fsync_end.specs.Finishing.{logs_trimmed, MayEnd, Finishes};

use crate::trimming::trim_all;
use mem_calls::TreeTable;
use mem_values::{Cell, Fact, FileCore};
use sfs_base::{NodeId, NodeList, Stamp};
use stamp_table::Telling;
use std::sync::Wait;
use tree_laws::Reply;

/// How an fsync ends: the number of its commit, its node and its stamp, the directories among the commit's members, the nodes of which the core holds what
/// was flushed, what it wrote of each, in the order of the held cells, and the moment at which it was acknowledged.
#[derive(Drop)]
pub struct Ending {
    pub number: u64,
    pub node: NodeId,
    pub stamp: Stamp,
    pub members: Vec<NodeId>,
    pub nodes: NodeList,
    pub values: Vec<Cell>,
    pub ack: u64,
}

// How many logs are trimmed for a commit with these members.
fn logs_to_trim(members: &[NodeId], cores: u8) -> u8
    ensures { result ≡ logs_trimmed members.now cores }
{
    match members {
        [] => 0,
        _ => cores,
    }
}

/// Ends an fsync whose commit is durable: tells the commit, which is the fact of `J`, puts what it wrote into the cells, trims the logs of
/// all cores below the stamp where it has a member, lets all go, and answers the call. It waits while another core has a log. It takes no memory.
pub fn finish<R: Wait, J: Telling<Fact>>(
    rt: &R,
    table: &TreeTable,
    core: &mut FileCore,
    cores: u8,
    ending: Ending,
)
    requires cores { cores ≡ length table.now.first.made }
    requires below { LiesAbove (32 + 10 * nodes_of table.now) core.old.view.held }
    requires room { 0 < core.old.room }
    requires waits { core.old.waiting ≡ Some ending.stamp.0 }
    requires may { MayEnd (given_by table.now) table.now (nodes_of table.now) J.fact ending core.old }
    ensures between { IsBetweenCalls table.now core.new }
    ensures finishes { (told : FactValue) → J.fact ≡ Some told → Finishes (given_by table.now) cores told ending core.old core.new }
{
    let shared = table.shared();
    let nodes = table.nodes();
    let Ending {
        number,
        node: _,
        stamp,
        members,
        nodes: _,
        values,
        ack,
    } = ending;
    let mut values = values;
    core.tell_ghost::<J>(shared);
    core.swap_values(&mut values);
    let logs = logs_to_trim(&members, cores);
    trim_all(rt, shared, core, nodes, logs, &members, stamp, number);
    core.let_go(shared, 0);
    core.answer(stamp, Reply::Ok, Some(ack));
}
