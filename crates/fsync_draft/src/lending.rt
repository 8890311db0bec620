// A core lends what the disk has of the nodes that it holds to a plan, and gets it back.
ghost use Rattle.std.specs.Prelude.{◌≡◌, IfOk, OnErr, length};
ghost use Rattle.std.specs.Option.{option_copied};
ghost use Rattle.mem_files.specs.File.{File};
ghost use Rattle.dep_closure.specs.Gathered.{IsOrderly};
ghost use Rattle.flush_plan.specs.Concerned.{IsConcernOf};
ghost use Rattle.mem_values.specs.Start.{FileHand};
ghost use Rattle.fsync_draft.specs.Drafting.{IsDraftOf, IsHollow, IsLentOut};

use crate::drafting::{Draft, drafted};
use disk_nodes::OldDisk;
use fsync_catch::{Caught, WaitingFsync};
use fsync_values::{hollow_values, restore};
use mem_files::FileBytes;
use mem_values::{Cell, FileCore};
use sfs_base::NoMemory;
use std::alloc::Global;

/// An fsync that is planned: what was planned, and the values of the nodes that it concerns, out of their cells, in which hollow ones stand.
#[derive(Drop)]
pub struct DraftedFsync {
    pub draft: Draft,
    pub values: Vec<Cell>,
}

/// Plans what an fsync changes, by what it caught and still holds, and the bytes of its own file, where it is one. The values of the nodes are taken out of
/// their cells, and what the disk has of them is lent to the plan. Where memory is wanting the core is as it was.
pub fn draft_plan(
    alloc: Global,
    core: &mut FileCore,
    fsync: WaitingFsync,
    caught: Caught,
    file: Option<&FileBytes>,
) -> Result<DraftedFsync, NoMemory>
    requires holds { length caught.concern.nodes.items ≡ length core.old.held }
    requires orderly { IsOrderly caught.gathered }
    requires concern { IsConcernOf fsync.node fsync.stamp caught.gathered caught.concern }
    ensures drafted { IfOk result (IsDraftOf fsync caught (option_copied file.entry) core.old) }
    ensures hollow { IfOk result (λ drafted. IsHollow core.old core.new) }
    ensures back { OnErr result (core.new ≡ core.old) }
{
    let mut values = hollow_values(alloc, caught.concern.nodes.as_slice().len())?;
    core.swap_values(&mut values);
    match drafted(alloc, fsync, caught, file, &mut values) {
        Ok(draft) => Ok(DraftedFsync { draft, values }),
        Err(fault) => {
            core.swap_values(&mut values);
            Err(fault)
        }
    }
}

/// Puts what was lent back into the values of the nodes, and these into their cells: the core is what it was before. It takes no memory.
pub fn put_back(core: &mut FileCore, values: Vec<Cell>, old: OldDisk)
    requires { (before : FileHand) × IsLentOut before core.old values.items old.items }
    ensures { (before : FileHand) → IsLentOut before core.old values.items old.items → core.new ≡ before }
{
    let mut values = values;
    restore(&mut values, old);
    core.swap_values(&mut values);
}
