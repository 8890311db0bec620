// The plan of an fsync of any node.
ghost use Rattle.std.specs.Prelude.{◌≡◌, ◌||◌, map, IfErr, IfOk};
ghost use Rattle.sfs_base.specs.Listed.{is_listed};
ghost use Rattle.tree_laws.specs.NameRow.{node_number};
ghost use Rattle.dep_closure.specs.Gathered.{IsOrderly};
ghost use Rattle.disk_change.specs.Nodes.{enter_node};
ghost use Rattle.flush_plan.specs.Concerned.{IsConcernOf};
ghost use Rattle.flush_plan.specs.Plan.{IsPlanOf, MovesInodes, files_written, is_written};
ghost use Rattle.disk_change.specs.Planned.{planned};

use crate::concern::Concern;
use crate::moved::{entering, facts_of, leaving};
use crate::plans::FsyncPlan;
use dep_closure::Gathered;
use disk_change::{DiskChange, EnterList, FileChange, FileChangeList};
use disk_nodes::OldDisk;
use sfs_base::{NoMemory, NodeId, NodeList, Stamp};
use std::alloc::Global;

/// What an fsync of `start` at the stamp `below` comes to: what it concerns by what was gathered, what the
/// disk has of the concerned nodes, whether the node is a file, and the change of its bytes from its cut on
/// tell which nodes get and lose an inode and what the disk's change is. A file of which something later was
/// flushed has no change, or one that is left out. Only want of memory refuses it, and then it hands back what
/// the disk has of the nodes.
pub fn plan(
    alloc: Global,
    start: NodeId,
    below: Stamp,
    logs: &Gathered,
    concern: Concern,
    old: OldDisk,
    is_file: bool,
    change: Option<FileChange>,
) -> Result<FsyncPlan, OldDisk>
    requires logs { IsOrderly logs.now }
    requires concern { IsConcernOf start below logs.now concern }
    ensures ok { IfOk result (λ plan. IsPlanOf start below logs.now concern old.items is_file change plan) }
    ensures err { IfErr result (λ back. back.items ≡ old.items) }
{
    match moves_of(alloc, start, below, logs, &concern, &old, is_file, change) {
        Ok(moves) => plan_with(alloc, concern, old, moves),
        Err(_) => Err(old),
    }
}

// The nodes that get and lose an inode, and the changes of files.
#[derive(Drop)]
struct Moves {
    enter: EnterList,
    leave: NodeList,
    files: FileChangeList,
}

// The plan of these, for what an fsync concerns and what the disk has of it.
fn plan_with(
    alloc: Global,
    concern: Concern,
    old: OldDisk,
    moves: Moves,
) -> Result<FsyncPlan, OldDisk>
    ensures change { IfOk result (λ plan. plan.change
        ≡ planned old.items concern.nets.items moves.files.items moves.enter.items moves.leave.items) }
    ensures members { IfOk result (λ plan. plan.members.items ≡ concern.members.items) }
    ensures nodes { IfOk result (λ plan. plan.nodes.items ≡ concern.nodes.items) }
    ensures leave { IfOk result (λ plan. plan.leave.items ≡ moves.leave.items) }
    ensures err { IfErr result (λ back. back.items ≡ old.items) }
{
    let Moves {
        enter,
        leave,
        files,
    } = moves;
    match DiskChange::new(alloc, old, concern.nets, files, &enter, &leave) {
        Ok(change) => Ok(FsyncPlan {
            members: concern.members,
            nodes: concern.nodes,
            leave,
            change,
        }),
        Err(old) => Err(old),
    }
}

// Which nodes an fsync gives an inode and which it takes theirs, and what it writes of its own file.
fn moves_of(
    alloc: Global,
    start: NodeId,
    below: Stamp,
    logs: &Gathered,
    concern: &Concern,
    old: &OldDisk,
    is_file: bool,
    change: Option<FileChange>,
) -> Result<Moves, NoMemory>
    requires logs { IsOrderly logs.now }
    requires concern { IsConcernOf start below logs.now concern.now }
    ensures moves { IfOk result (λ moves. MovesInodes start below logs.now concern.now old.now.items is_file moves.enter.items moves.leave.items) }
    ensures files { IfOk result (λ moves. moves.files.items ≡ files_written (is_written logs.now moves.enter.items start.0 below.0) change) }
{
    let facts = facts_of(alloc, below, logs, concern, old)?;
    let enter = entering(alloc, start, is_file, logs, &facts, &concern.nodes)?;
    let leave = leaving(alloc, logs, &facts, &concern.nodes)?;
    let written = writes_own_file(logs, &enter, start, below);
    let files = file_changes(alloc, written, change)?;
    Ok(Moves {
        enter,
        leave,
        files,
    })
}

// The change of the fsync's own file, where there is one and it is written.
fn file_changes(
    alloc: Global,
    written: bool,
    change: Option<FileChange>,
) -> Result<FileChangeList, NoMemory>
    ensures { IfOk result (λ files. files.items ≡ files_written written change) }
{
    let mut files = FileChangeList::new(alloc);
    if written {
        if let Some(change) = change {
            files.reserve(1)?;
            files.push(change);
        }
    }
    Ok(files)
}

// Whether an fsync at a stamp writes of its own file.
fn writes_own_file(logs: &Gathered, enter: &EnterList, node: NodeId, below: Stamp) -> bool
    requires { IsOrderly logs.now }
    ensures { result ≡ is_written logs.now enter.now.items node.0 below.0 }
{
    has_or_gets_inode(logs, enter, node) && logs.cut(node).0 <= below.0
}

// Whether a node has an inode or gets one.
fn has_or_gets_inode(logs: &Gathered, enter: &EnterList, node: NodeId) -> bool
    requires { IsOrderly logs.now }
    ensures { result
        ≡ (is_listed (map node_number logs.now.inodes.items) node.0 || is_listed (map enter_node enter.now.items) node.0) }
{
    logs.has_inode(node) || enter.find(node.0).is_some()
}
