// A mount: the disk is recovered, and what is kept of it is gathered for the commits to come.
ghost use Rattle.std.specs.Prelude.{◌≡◌, ◌≤◌, IfOk, IfErr, OnOk};
ghost use Rattle.sfs_dev.specs.Run.{CountsOn, EachMoment};
ghost use Rattle.sfs_dev.specs.Steps.{IfTold};
ghost use Rattle.journal_one.specs.Calls.{IsCalm};
ghost use Rattle.recovery.specs.Judging.{IsFaultOf};
ghost use Rattle.recovery.specs.Recovered.{ShowsTheSame, LeavesRefused, HoldsRecovered, RunsRecovery};
ghost use Rattle.sfs_image.specs.Super.{InRange};
ghost use Rattle.mount_begin.specs.Mounted.{IsMountOf, IsSoundMount, share_of_nodes};

use crate::entries::entries_of;
use crate::free::free_space;
use disk_nodes::OldDisk;
use fmt_super::Layout;
use recovery::{RecoverFault, Report, recover};
use sfs_dev::Disk;
use sfs_tree::Tree;
use space_map::SpaceMap;
use std::alloc::Global;

/// What a mount begins with.
#[derive(Drop)]
pub struct Mounted {
    pub layout: Layout,
    /// The tree. Each node has the number of its inode, and each core may make its share of new ones.
    pub tree: Tree,
    /// What the disk has of each node.
    pub old: OldDisk,
    /// Which blocks and inodes are free.
    pub space: SpaceMap,
}

/// Mounts a disk, in whose tree `nodes` new nodes may be made, shared among the cores, each as many, rounded
/// down: it recovers the disk and gathers what commits go by. It refuses what `recover` refuses, and leaves
/// the disk as that does; after want of memory it may be recovered.
pub fn mount<D: Disk>(alloc: Global, disk: &mut D, nodes: u32) -> Result<Mounted, RecoverFault>
    requires most { nodes ≤ 65536 }
    ensures ok { IfTold (D.view disk.old).content (λ image. IfOk result (IsMountOf nodes image)) }
    ensures bad { IfTold (D.view disk.old).content (λ image. IfErr result (IsFaultOf image)) }
    ensures sound { IfOk result (IsSoundMount nodes (D.view disk.old).size) }
    ensures moments { IfTold (D.view disk.old).content (λ image. IsCalm (D.view disk.old) → CountsOn (D.view disk.new)
        → EachMoment (D.view disk.old) (D.view disk.new) (λ _ now. ShowsTheSame now image)) }
    ensures ended { IfTold (D.view disk.old).content (λ image. IsCalm (D.view disk.old)
        → OnOk result (HoldsRecovered image (D.view disk.old) (D.view disk.new))) }
    ensures calm { IsCalm (D.view disk.old) → OnOk result (IsCalm (D.view disk.new)) }
    ensures refused { IfErr result (LeavesRefused (D.view disk.old) (D.view disk.new)) }
    ensures runs { RunsRecovery (D.view disk.old) (D.view disk.new) result }
{
    let Report {
        layout,
        mut tree,
        parts,
        closed: _,
        freed: _,
    } = recover(alloc, disk)?;
    tree.allow(share_of(nodes, &layout));
    let old = entries_of(alloc, parts)?;
    let space = free_space(alloc, &layout, &old)?;
    Ok(Mounted {
        layout,
        tree,
        old,
        space,
    })
}

// How many of so many new nodes each core may make.
fn share_of(nodes: u32, layout: &Layout) -> u32
    requires { InRange layout.now }
    ensures { result ≡ share_of_nodes nodes layout.now }
{
    nodes / layout.cores
}
