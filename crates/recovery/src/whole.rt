// Recovery: the superblock and the open slots are read and checked, then the image that they settle. Only
// then is anything written: the newest records into the table, the gates, and a commit that frees orphans.
ghost use Rattle.std.specs.Prelude.{◌≡◌, ℕ, ◌<◌, ◌^◌, length, IfOk, IfErr, OnOk};
ghost use Rattle.sfs_dev.specs.Run.{CountsOn, EachMoment};
ghost use Rattle.sfs_dev.specs.Steps.{IfTold};
ghost use Rattle.journal_one.specs.Calls.{IsCalm};
ghost use Rattle.recovery.specs.Judging.{IsFaultOf};
ghost use Rattle.recovery.specs.Recovered.{ShowsTheSame, WritesIfDue, IsReportOf, IsSoundReport, HoldsRecovered, RunsRecovery};

use crate::fault::RecoverFault;
use crate::judged::{Judged, judge};
use crate::linked::linked_parts;
use crate::orphans::{pack_freeing, unlinked_in};
use crate::settling::settle_disk;
use disk_tree::{Found, PartList};
use fmt_super::Layout;
use sfs_dev::Disk;
use sfs_tree::Tree;
use std::alloc::Global;

/// What a recovery found and did.
#[derive(Drop)]
pub struct Report {
    pub layout: Layout,
    /// The tree, each node under its inode's number; no core may make a node yet.
    pub tree: Tree,
    /// What is kept of the inodes in use, ascending by inode, once orphans are freed.
    pub parts: PartList,
    /// How many journal slots were open and are closed.
    pub closed: u32,
    /// How many orphans were freed.
    pub freed: u32,
}

/// Recovers a disk: it reads and checks its image, brings what open slots have into the inode table, closes
/// them, and frees the inodes of files of link count 0. An image in which something is wrong is refused with
/// its first fault, and not written to; nor is one written to that has no open slot and no orphan. After a failure, and after a crash at any device call, it may be
/// begun again: the image shows the same tree.
pub fn recover<D: Disk>(alloc: Global, disk: &mut D) -> Result<Report, RecoverFault>
    ensures ok { IfTold (D.view disk.old).content (λ image. IfOk result (IsReportOf image)) }
    ensures bad { IfTold (D.view disk.old).content (λ image. IfErr result (IsFaultOf image)) }
    ensures sound { IfOk result (IsSoundReport (D.view disk.old).size) }
    ensures moments { IfTold (D.view disk.old).content (λ image. IsCalm (D.view disk.old) → CountsOn (D.view disk.new)
        → EachMoment (D.view disk.old) (D.view disk.new) (λ _ now. ShowsTheSame now image)) }
    ensures ended { IfTold (D.view disk.old).content (λ image. IsCalm (D.view disk.old)
        → OnOk result (HoldsRecovered image (D.view disk.old) (D.view disk.new))) }
    ensures calm { IsCalm (D.view disk.old) → OnOk result (IsCalm (D.view disk.new)) }
    ensures unwritten { WritesIfDue (D.view disk.old) (D.view disk.new) result }
    ensures runs { RunsRecovery (D.view disk.old) (D.view disk.new) result }
{
    let Judged {
        layout,
        open_slots,
        stamps,
        records,
        found,
    } = judge(alloc, disk)?;
    let Found { tree, parts } = found;
    let parts = linked_parts(alloc, parts)?;
    let unlinked = unlinked_in(alloc, records.as_slice())?;
    let packed = pack_freeing(alloc, &unlinked)?;
    settle_disk(
        disk,
        &layout,
        &open_slots,
        &stamps,
        records.as_slice(),
        packed,
    )?;
    Ok(Report {
        layout,
        tree,
        parts,
        closed: count_of(&open_slots),
        freed: count_of(&unlinked),
    })
}

// How many items there are.
fn count_of<T>(items: &[T]) -> u32
    requires few { length items.now < 2 ^ 32 }
    ensures { result ≡ length items.now }
{
    items.len() as u32
}
