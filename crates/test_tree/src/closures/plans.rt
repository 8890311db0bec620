// The plan of each fsync, made, granted and built: the disk then has exactly the nodes that the machine gives an inode.
ghost use Rattle.space_map.specs.Space.{AllGranted};

use super::{NODES, Watched};
use crate::helpers::{got, holds, same};
use disk_change::{DiskChange, build, need};
use disk_nodes::{DirectorySlots, OldDisk, OldEntry, OldNode, take_old};
use flush_plan::{concerned, file_change, plan};
use fmt_inode::{Inode, Tables};
use mem_files::FileBytes;
use sfs_base::{Kind, NodeId, NodeList, Stamp};
use space_map::{Grant, Need, SpaceMap};
use std::alloc::Global;
use std::process::Abort;

// What the disk has of each node, what is free on it, and what the last commit needed.
#[derive(Drop)]
pub(super) struct OnDisk {
    nodes: OldDisk,
    space: SpaceMap,
    pub(super) needed: Need,
}

// A disk of 4,096 blocks and 512 inodes whose data begins at block 29, with the root alone.
pub(super) fn made(rt: &impl Abort, alloc: Global) -> OnDisk {
    let mut nodes = OldDisk::new(alloc);
    let root = OldNode {
        inode: 0,
        meta: Inode {
            kind: 2,
            links: 2,
            size: 0,
            direct: [0; 108],
            indirect: [0; 16],
        },
        tables: Tables::new(alloc),
        slots: DirectorySlots::new(alloc),
    };
    put(rt, &mut nodes, NodeId(0), root);
    OnDisk {
        nodes,
        space: got(rt, SpaceMap::new(alloc, 29, 4_096, 512, &[], &[0])),
        needed: Need {
            inodes: 0,
            blocks: 0,
        },
    }
}

// Puts what the disk has of a node among the others, where it is not there.
fn put(rt: &impl Abort, nodes: &mut OldDisk, node: NodeId, one: OldNode) {
    if nodes.find(node.0).is_none() {
        got(rt, nodes.add(OldEntry { node, old: one }));
    }
}

// Moves what the disk has of some nodes to others.
fn move_nodes(rt: &impl Abort, from: &mut OldDisk, to: &mut OldDisk, nodes: &NodeList) {
    for node in nodes.as_slice() {
        if let Some(one) = take_old(from, *node) {
            put(rt, to, *node, one);
        }
    }
}

// A need that is met.
fn reserved(rt: &impl Abort, space: &mut SpaceMap, due: Need) -> Grant
    ensures inodes { AllGranted space.new.inodes result.inodes }
    ensures blocks { AllGranted space.new.blocks result.blocks }
{
    match space.reserve(due) {
        Ok(grant) => grant,
        Err(_) => panic!(rt; "refused"),
    }
}

// Builds a change with a grant of what it needs, which is then no more free.
fn granted(rt: &impl Abort, alloc: Global, change: DiskChange, space: &mut SpaceMap) -> OldDisk {
    let grant = reserved(rt, space, need(&change));
    match build(alloc, change, &grant) {
        Ok(built) => {
            let blocks = built.tx.freed_blocks.as_slice();
            let inodes = built.tx.freed_inodes.as_slice();
            space.free_after(grant, blocks, inodes);
            built.nodes.into_after()
        }
        Err(fault) => {
            space.give_back(grant);
            panic!(rt; "refused")
        }
    }
}

impl OnDisk {
    // Whether the disk has an inode of a node.
    pub(super) fn has(&self, node: NodeId) -> bool {
        self.nodes.find(node.0).is_some()
    }
}

impl Watched {
    // Commits the plan of an fsync by what is not flushed, and compares its members with others.
    pub(super) fn commit_plan(&mut self, rt: &impl Abort, node: u32, members: &[u32]) {
        let start = NodeId(node);
        let below = Stamp(self.stamp);
        let logs = self.gathered(rt, false);
        holds(rt, logs.is_orderly());
        let concern = got(rt, concerned(self.alloc, start, below, &logs));
        let nodes = got(rt, concern.nodes.copy());
        let mut old = OldDisk::new(self.alloc);
        move_nodes(rt, &mut self.disk.nodes, &mut old, &nodes);
        let bytes = FileBytes::new(self.alloc);
        let is_file = self.kind(start) == Kind::File;
        let change = if is_file {
            Some(got(rt, file_change(self.alloc, start, logs.cut(start), &bytes)))
        } else {
            None
        };
        let plan = got(
            rt,
            plan(
                self.alloc, start, below, &logs, concern, old, is_file, change,
            ),
        );
        same(rt, &plan.members.len(), &(members.len() as u64));
        self.disk.needed = need(&plan.change);
        let mut after = granted(rt, self.alloc, plan.change, &mut self.disk.space);
        move_nodes(rt, &mut after, &mut self.disk.nodes, &nodes);
    }

    // The disk has an inode of exactly the nodes that have one by the machine.
    pub(super) fn same_inodes(&self, rt: &impl Abort) {
        for node in 0..NODES {
            let node = NodeId(node);
            same(rt, &self.disk.has(node), &self.run.state.has_inode(node));
        }
    }
}
