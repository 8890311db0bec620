ghost use Rattle.std.specs.Prelude.{◌≤◌};

use crate::due::Came;
use crate::job::Job;
use disk_box::Fsync;
use journal_set::{Ack, CommitFault};
use sfs_base::{NodeId, Stamp};
use slot_laws::Seen;
use std::alloc::Global;

/// A commit that a core made: which size it gave the shared file, where it gave one; and what was answered, where it is durable.
#[derive(Clone, Copy, Debug, PartialEq, Eq)]
pub struct Made {
    pub size: Option<u64>,
    pub ack: Option<Ack>,
}

/// A file as a commit left it: its inode, its block, the number of that commit, and the byte that it is filled with next.
#[derive(Clone, Copy)]
pub struct File {
    pub inode: u32,
    pub block: Option<u32>,
    pub last: u64,
    pub byte: u8,
}

/// What a core commits: its file, and the file that all cores share; its file's block, and of both files the last commit as the core saw it; the
/// byte that its file is filled with next; how many commits are left to make; each which of them gives the shared file a size, counted from a place that is its inode, 0 for none; those
/// that were granted, in their order; and why its last one was refused or failed, unless the shared file had moved.
#[derive(Drop)]
pub struct Book {
    pub inode: u32,
    pub shared: u32,
    pub block: Option<u32>,
    pub last: u64,
    pub shared_last: u64,
    pub byte: u8,
    pub left: u32,
    pub every: u32,
    pub made: Vec<Made>,
    pub fault: Option<CommitFault>,
    // the block that was granted for the commit under way
    pub(crate) granted: u32,
}

impl Book {
    /// The book of a core by its number, of so many, that makes so many commits.
    pub(crate) fn new(alloc: Global, core: u32, cores: u32, left: u32, every: u32) -> Book {
        Book {
            inode: core.saturating_add(1),
            shared: cores.saturating_add(1),
            block: None,
            last: 0,
            shared_last: 0,
            byte: 1,
            left,
            every,
            made: Vec::new(alloc),
            fault: None,
            granted: 0,
        }
    }

    /// It commits this file from now on, so often.
    pub(crate) fn take(&mut self, file: File, left: u32) {
        self.inode = file.inode;
        self.block = file.block;
        self.last = file.last;
        self.byte = file.byte;
        self.left = left;
    }

    // Whether its next commit gives the shared file a size.
    fn shares_next(&self) -> bool {
        let place = (self.made.len() as u64).wrapping_add(u64::from(self.inode));
        self.every != 0 && place % u64::from(self.every) == 0
    }

    /// Its next commit. The size of the shared file is one above the number of the last commit that gave it one.
    pub(crate) fn job(&self) -> Job {
        let size = if self.shares_next() {
            Some(self.shared_last.wrapping_add(1))
        } else {
            None
        };
        Job {
            fsync: Fsync {
                node: NodeId(self.inode),
                stamp: Stamp(self.made.len() as u64),
            },
            inode: self.inode,
            shared: self.shared,
            byte: self.byte,
            size,
            gives_up: self.block,
        }
    }

    /// The nodes of its next commit as they were seen, and how many they are.
    pub(crate) fn seen(&self) -> ([Seen; 2], usize)
        ensures { result.1 ≤ 2 }
    {
        let own = Seen {
            node: NodeId(self.inode),
            last: self.last,
        };
        let shared = Seen {
            node: NodeId(self.shared),
            last: self.shared_last,
        };
        ([own, shared], if self.shares_next() { 2 } else { 1 })
    }

    // A commit was granted this block.
    fn note_granted(&mut self, block: u32) {
        self.granted = block;
        let size = self.job().size;
        if self.made.push(Made { size, ack: None }).is_err() {
            self.left = 0;
        }
    }

    // It is durable.
    fn note_durable(&mut self, ack: Ack) {
        if let Some(last) = self.made.last_mut() {
            last.ack = Some(ack);
            if last.size.is_some() {
                self.shared_last = ack.commit;
            }
        }
        self.block = Some(self.granted);
        self.last = ack.commit;
        self.byte = self.byte.wrapping_add(1);
        self.left = self.left.saturating_sub(1);
    }

    /// A commit without records has ended, of the nodes of its next one.
    pub(crate) fn note_empty(&mut self, ack: Ack) {
        if self.shares_next() {
            self.shared_last = ack.commit;
        }
        self.last = ack.commit;
    }

    // It was refused, or has failed: the core begins again where the shared file has moved, and makes no more in any other case.
    fn note_refused(&mut self, fault: CommitFault) {
        if let CommitFault::Moved { node, last } = fault {
            if node == NodeId(self.shared) {
                self.shared_last = last;
                return;
            }
        }
        self.fault = Some(fault);
        self.left = 0;
    }

    /// Takes note of what a turn of its core came to.
    pub(crate) fn note(&mut self, came: Came) {
        match came {
            Came::Granted { block } => self.note_granted(block),
            Came::Durable { ack } => self.note_durable(ack),
            Came::Refused { fault } => self.note_refused(fault),
            Came::Goes | Came::Filled => {}
        }
    }
}
