// What an fsync plans by what it caught, over the values of the nodes that it concerns.
ghost use Rattle.std.specs.Prelude.{◌≡◌, IfOk, OnErr, length};
ghost use Rattle.std.specs.Option.{option_copied};
ghost use Rattle.dep_closure.specs.Gathered.{IsOrderly};
ghost use Rattle.flush_plan.specs.Concerned.{IsConcernOf};
ghost use Rattle.fsync_draft.specs.Drafting.{IsDrafted, IsDraftedFile};

use crate::seeing::seen_of;
use dep_closure::Gathered;
use disk_change::FileChange;
use flush_plan::{FsyncPlan, file_change, plan};
use fsync_catch::{Caught, WaitingFsync};
use fsync_values::{lend, restore, spare_boxes};
use mem_files::FileBytes;
use mem_values::{Cell, KeptNode};
use sfs_base::{NoMemory, NodeId};
use slot_laws::Seen;
use std::alloc::Global;

/// What an fsync has planned: the plan, to which is lent what the disk has of the nodes; boxes enough for nodes of which the disk gets its first entry; and
/// each node with the number of its last commit.
#[derive(Drop)]
pub struct Draft {
    pub plan: FsyncPlan,
    pub spares: Vec<KeptNode>,
    pub seen: Vec<Seen>,
}

// The change of a node's file from the node's cut on, where it is one.
fn own_change(
    alloc: Global,
    node: NodeId,
    gathered: &Gathered,
    file: Option<&FileBytes>,
) -> Result<Option<FileChange>, NoMemory>
    requires { IsOrderly gathered.now }
    ensures { IfOk result (IsDraftedFile node gathered.now (option_copied file.entry)) }
{
    match file {
        Some(bytes) => {
            let change = file_change(alloc, node, gathered.cut(node), bytes)?;
            Ok(Some(change))
        }
        None => Ok(None),
    }
}

/// Plans what an fsync changes, by what it caught, the values of the nodes that it concerns, a value a node, and the bytes of its own file, where it is one.
/// What the disk has of the nodes is taken out of the values. Where memory is wanting they are as they were.
pub(crate) fn drafted(
    alloc: Global,
    fsync: WaitingFsync,
    caught: Caught,
    file: Option<&FileBytes>,
    values: &mut Vec<Cell>,
) -> Result<Draft, NoMemory>
    requires orderly { IsOrderly caught.gathered }
    requires concern { IsConcernOf fsync.node fsync.stamp caught.gathered caught.concern }
    requires count { length values.old.items ≡ length caught.concern.nodes.items }
    ensures drafted { IfOk result (λ draft. IsDrafted fsync caught (option_copied file.entry) values.old.items values.new.items draft) }
    ensures same { OnErr result (values.new.items ≡ values.old.items) }
{
    let Caught { gathered, concern } = caught;
    let nodes = concern.nodes.as_slice();
    let seen = seen_of(alloc, nodes, values)?;
    let spares = spare_boxes(alloc, values)?;
    let entries = Vec::with_capacity(alloc, nodes.len())?;
    let change = own_change(alloc, fsync.node, &gathered, file)?;
    let old = lend(alloc, values, nodes, entries);
    match plan(
        alloc,
        fsync.node,
        fsync.stamp,
        &gathered,
        concern,
        old,
        file.is_some(),
        change,
    ) {
        Ok(plan) => Ok(Draft { plan, spares, seen }),
        Err(old) => {
            restore(values, old);
            Err(NoMemory)
        }
    }
}
