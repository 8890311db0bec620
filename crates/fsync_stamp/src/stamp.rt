// An fsync draws its stamp while what tells whether its node is alive is held, and the own log. Its answer comes later.
ghost use Rattle.std.specs.Prelude.{◌≡◌, ◌<◌, ◌≤◌, None};
ghost use Rattle.tree_laws.specs.Tree.{is_alive};
ghost use Rattle.stamp_table.specs.Table.{IsBetweenCalls};
ghost use Rattle.mem_values.specs.Places.{node_count};
ghost use Rattle.mem_values.specs.Start.{given_by};
ghost use Rattle.mem_calls.specs.Table.{IsFileTable};
ghost use Rattle.mem_calls.specs.Held.{HoldsDirectory, HoldsPart, InEach};
ghost use Rattle.mem_calls.specs.Working.{IsWorking};
ghost use Rattle.fsync_stamp.specs.Stamping.{ComesToStamp, StampsHeld, is_dead_fault, reply_for_now};

use mem_calls::{TreeTable, add_entry, directory_fault_in, hold_directory, hold_part};
use mem_values::{FileCore, FileShared};
use sfs_base::{Gate, NodeId, Stamp};
use std::alloc::Global;
use std::sync::Wait;
use tree_laws::{Call, Changes, Code, Reply};

/// How many cells a core holds at most as its fsync draws a stamp.
pub const STAMP_CELLS: u32 = 3;

// Whether a fault of a node as a directory is that it is not alive.
pub(crate) fn is_dead_fault(fault: Option<Code>) -> bool
    ensures { result ≡ is_dead_fault fault }
{
    match fault {
        Some(Code::NoEntry) => true,
        _ => false,
    }
}

// Whether a node is alive, by its first bucket, and by its file where it does not stand by that.
fn lives_in(core: &FileCore, nodes: u32, node: NodeId) -> bool
    requires counted { nodes ≡ node_count core.now.view.first }
    requires held { HoldsDirectory nodes core.now.held node 0 }
    ensures { InEach core.now (λ tree. result ≡ is_alive tree node.0) }
{
    !is_dead_fault(directory_fault_in(core, nodes, node, 0))
}

// The reply with which an fsync is stamped: want of memory, for now, where the node is alive.
fn reply_for_now(lives: bool) -> Reply
    ensures { result ≡ reply_for_now lives }
{
    if lives {
        Reply::NoMemory
    } else {
        Reply::Error {
            code: Code::NoEntry,
        }
    }
}

// Stamps the fsync of a node by what is held, counts its entry, and lets go of all cells.
pub(crate) fn stamp_held(
    alloc: Global,
    shared: &FileShared,
    core: &mut FileCore,
    nodes: u32,
    node: NodeId,
    lives: bool,
) -> Stamp
    requires table { IsFileTable shared.now nodes }
    requires work { IsWorking (given_by shared.now) shared.now core.old }
    requires answered { core.old.waiting ≡ None }
    requires part { HoldsPart nodes core.old }
    requires spare { 0 < core.old.spare }
    requires lives { InEach core.old (λ tree. lives ≡ is_alive tree node.0) }
    ensures { StampsHeld shared.now nodes node lives result.0 core.old core.new }
{
    core.calls_are_few();
    let stamp = core.stamp(shared, Call::Fsync { node }, reply_for_now(lives));
    add_entry(core, nodes, Changes::new(alloc));
    core.let_go(shared, 0);
    stamp
}

/// Draws the stamp of an fsync of a node. None, where the node is not alive: that is its answer then. Else it waits for its answer, which
/// `Core::answer` gives. It may wait for cells that other cores hold. It takes no memory, and the core holds no cell afterwards.
pub fn stamp_fsync<R: Wait, G: Gate>(
    rt: &R,
    alloc: Global,
    table: &TreeTable,
    core: &mut FileCore,
    node: NodeId,
    gate: &G,
) -> Option<Stamp>
    requires core { IsBetweenCalls table.now core.old }
    requires spare { 0 < core.old.spare }
    requires room { STAMP_CELLS ≤ core.old.room }
    ensures { ComesToStamp table.now node core.old core.new result }
{
    let shared = table.shared();
    let nodes = table.nodes();
    hold_directory(rt, shared, core, nodes, node, 0);
    hold_part(rt, shared, core, nodes, gate);
    let lives = lives_in(core, nodes, node);
    let stamp = stamp_held(alloc, shared, core, nodes, node, lives);
    if lives { Some(stamp) } else { None }
}
