// An fsync looks again until what it concerns is exactly what it held as it looked.
ghost use Rattle.std.specs.Prelude.{◌≡◌, ◌-◌, ◌^◌, ◌≤◌, ◌↔◌, ◌+◌, ◌*◌, ◌<◌, true, [], ◌∷◌, IfOk, OnErr, length};
ghost use Rattle.stamp_table.specs.Ascending.{LiesAbove};
ghost use Rattle.mem_values.specs.Start.{given_by};
ghost use Rattle.mem_calls.specs.Table.{nodes_of};
ghost use Rattle.mem_calls.specs.Working.{IsWorking};
ghost use Rattle.fsync_catch.specs.Catch.{HasItsFsync, IsCaught, GoesOn, LetsAllGo};

use crate::looking::{Caught, Holding, WaitingFsync, look_once};
use fsync_look::hold_nodes;
use mem_calls::{TreeTable, let_all_go};
use mem_values::FileCore;
use sfs_base::{NoMemory, NodeId, NodeList};
use std::alloc::Global;
use std::sync::Wait;

/// How many looks of an fsync copy of each log only what they ask for. Each of them learns the nodes that it concerns one step further, which
/// is seldom more than two or three; an fsync that still concerns others than it held then copies whole logs, and learns all at once.
const SMALL_LOOKS: u32 = 8;

/// A list of one node.
pub fn one_node(alloc: Global, node: NodeId) -> Result<NodeList, NoMemory>
    ensures { IfOk result (λ nodes. nodes.items ≡ node ∷ []) }
{
    let mut nodes = NodeList::new(alloc);
    nodes.reserve(1)?;
    nodes.push(node);
    Ok(nodes)
}

// Whether lists have the same nodes in the same order.
fn are_same(some: &[NodeId], others: &[NodeId]) -> bool
    ensures { (result ≡ true) ↔ (some.now ≡ others.now) }
{
    some == others
}

// How many cells a core holds at most with these nodes: theirs and a log.
fn cells_for(nodes: &NodeList) -> Result<u32, NoMemory>
    ensures { IfOk result (λ cells. cells ≡ length nodes.now.items + 1) }
{
    match u32::try_from(nodes.len().saturating_add(1)) {
        Ok(cells) => Ok(cells),
        Err(_) => Err(NoMemory),
    }
}

/// Holds what was flushed of the nodes that an fsync concerns by the logs of all cores, each as it was at some moment since all of that was
/// held. It holds what it knows, looks, and where it concerns other nodes than it holds it lets all go and begins again with those, with the
/// same stamp; it waits while another core has one of the cells. There is room for one cell more then, which may lie above all of these, as a log
/// does. Where memory is refused it holds nothing.
pub fn catch_nodes<R: Wait>(
    rt: &R,
    alloc: Global,
    table: &TreeTable,
    core: &mut FileCore,
    cores: u8,
    fsync: WaitingFsync,
) -> Result<Caught, NoMemory>
    requires work { IsWorking (given_by table.now) table.now core.old }
    requires none { (core.old.held ≡ []) × (core.old.view.held ≡ []) }
    requires cores { cores ≡ length table.now.first.made }
    requires within { fsync.node.0 < nodes_of table.now }
    requires waits { HasItsFsync core.old fsync }
    ensures work { IsWorking (given_by table.now) table.now core.new }
    ensures on { GoesOn core.old core.new }
    ensures caught { IfOk result (IsCaught (given_by table.now) (nodes_of table.now) fsync core.new) }
    ensures room { IfOk result (λ caught. 0 < core.new.room) }
    ensures below { IfOk result (λ caught. LiesAbove (32 + 10 * nodes_of table.now) core.new.view.held) }
    ensures none { OnErr result (LetsAllGo core.new) }
    ensures few { nodes_of table.now ≤ 2 ^ 32 - 1 }
{
    let shared = table.shared();
    let nodes = table.nodes();
    let mut held = one_node(alloc, fsync.node)?;
    let mut looks = 0u32;
    for _ in rt.forever() {
        core.reserve(0, cells_for(&held)?)?;
        hold_nodes(rt, shared, core, nodes, held.as_slice());
        match look_once(
            rt,
            alloc,
            shared,
            core,
            nodes,
            cores,
            fsync,
            Holding {
                nodes: held.as_slice(),
                whole: looks >= SMALL_LOOKS,
            },
        ) {
            Ok(caught) => {
                if are_same(held.as_slice(), caught.concern.nodes.as_slice()) {
                    return Ok(caught);
                }
                let_all_go(shared, core);
                held = nodes_of(caught);
                looks = looks.saturating_add(1);
            }
            Err(fault) => {
                let_all_go(shared, core);
                return Err(fault);
            }
        }
    }
    unreachable!()
}

// The nodes that an fsync concerns.
fn nodes_of(caught: Caught) -> NodeList
    ensures { result ≡ caught.concern.nodes }
{
    let Caught {
        gathered: _,
        concern,
    } = caught;
    concern.nodes
}
