// What a core looks at for an fsync: it holds what was flushed of a node, and copies the logs of all cores as far as that node asks.
ghost use Rattle.std.specs.Prelude.{◌≡◌, ◌≤◌, length};
ghost use Rattle.stamp_table.specs.Table.{IsBetweenCalls, IsSameCore};

use crate::helpers::{got, holds, some};
use begun_tables::{begun, make_call, root_alone};
use fsync_look::{copy_logs, hold_nodes};
use mem_calls::TreeTable;
use mem_cells::LogPart;
use mem_values::FileCore;
use sfs_base::{Kind, Name, NoGate, NodeId, Stamp};
use std::alloc::Global;
use std::sync::Wait;
use tree_laws::{Act, Call};

const ROOT: NodeId = NodeId(0);

const CORES: u8 = 2;

// Makes a file in the root.
fn make_file<R: Wait>(
    rt: &R,
    alloc: Global,
    table: &TreeTable,
    core: &mut FileCore,
    name: Name,
) -> bool
    requires core { IsBetweenCalls table.now core.old }
    ensures same { IsSameCore core.old core.new }
    ensures between { IsBetweenCalls table.now core.new }
{
    let asked = Call::Make {
        dir: ROOT,
        name,
        kind: Kind::File,
    };
    make_call(rt, alloc, table, core, asked, &NoGate).is_some()
}

// Whether a log has one change of the root, with stamp 0: the first file of core 0 was added.
fn has_one_change(log: &LogPart) -> bool {
    match log.get(ROOT, 0) {
        Some(change) => {
            change.stamp == Stamp(0)
                && change.child == NodeId(4)
                && change.act == Act::Add
                && log.get(ROOT, 1).is_none()
        }
        None => false,
    }
}

// Whether the first of two copies has the one change of a core that made a file, the second none. It is not said where they differ from both
// that and two copies without changes.
fn has_first(logs: &[LogPart]) -> Option<bool> {
    match logs {
        [first, second] => {
            if second.next_dir(None).is_some() {
                None
            } else if has_one_change(first) {
                Some(true)
            } else if first.next_dir(None).is_none() {
                Some(false)
            } else {
                None
            }
        }
        _ => None,
    }
}

// Holds what was flushed of the root, copies of both logs what a look at a node asks for, or all, and lets go: whether the change was copied.
fn looks<R: Wait>(
    rt: &R,
    alloc: Global,
    table: &TreeTable,
    core: &mut FileCore,
    node: NodeId,
    whole: bool,
) -> Option<bool>
    requires core { IsBetweenCalls table.now core.old }
    requires cores { CORES ≤ length table.now.first.made }
    ensures same { IsSameCore core.old core.new }
    ensures between { IsBetweenCalls table.now core.new }
{
    if core.reserve(0, 2).is_err() {
        return None;
    }
    let shared = table.shared();
    let nodes = table.nodes();
    hold_nodes(rt, shared, core, nodes, &[ROOT]);
    let logs = copy_logs(rt, alloc, shared, core, nodes, CORES, &[node], whole);
    core.let_go(shared, 0);
    match logs {
        Ok(logs) => has_first(&logs),
        Err(_) => None,
    }
}

#[test]
fn a_look_copies_what_its_node_asks_for_of_the_logs_of_all_cores(rt: HostRuntime) {
    let alloc = rt.alloc();
    let tree = got(&rt, root_alone(alloc, 4, 2, CORES));
    let (table, mut cores) = got(&rt, begun(alloc, &tree, 4, 2, CORES));
    let name = got(&rt, Name::new(alloc, b"a".as_slice()));
    let first = some(&rt, cores.get_mut(0));
    holds(&rt, make_file(&rt, alloc, &table, first, name));
    let second = some(&rt, cores.get_mut(1));
    let made = NodeId(4);
    let other = NodeId(5);
    holds(
        &rt,
        looks(&rt, alloc, &table, second, ROOT, false) == Some(true),
    );
    holds(
        &rt,
        looks(&rt, alloc, &table, second, made, false) == Some(true),
    );
    holds(
        &rt,
        looks(&rt, alloc, &table, second, other, false) == Some(false),
    );
    holds(
        &rt,
        looks(&rt, alloc, &table, second, other, true) == Some(true),
    );
}
