use commit_ledger::Ledger;
use journal_one::{Closing, Copied, Durable, Filled, Filling, Idle, Opened, Placed, Sealed};
use sfs_base::{InodeList, NodeId, Stamp};
use tree_laws::{Turn, Turns};

/// How far a journal slot has come. `Lost` stands where a step has its state in hand, and behind a device call that failed.
#[derive(Drop)]
pub enum Phase {
    Idle { idle: Idle },
    Filling { filling: Filling },
    Filled { filled: Filled },
    Sealed { sealed: Sealed },
    Opened { opened: Opened },
    Durable { durable: Durable },
    Placed { placed: Placed },
    Copied { copied: Copied },
    Closing { closing: Closing },
    Lost,
}

/// A journal slot, and of the commit that is in it its number, its fsync, its commit stamp and the inodes of its records, ascending. An idle
/// slot's are those of the last commit.
#[derive(Drop)]
pub struct Slot {
    pub phase: Phase,
    pub commit: u64,
    pub node: NodeId,
    pub stamp: Stamp,
    pub drawn: u64,
    pub inodes: InodeList,
}

/// What lies in the box: the disk; its slots, those of core 0 first; for each core the turn that made its commit durable, where the core has not
/// learned of it; what is kept of nodes, numbers and free space; how many commit stamps were drawn; the disk's count of faults
/// as the box was made, and at the first failure, where there was one; and the record of turns.
#[derive(Drop)]
pub struct Desk<D> {
    pub disk: D,
    pub slots: Vec<Slot>,
    pub waits: Vec<Option<Turn>>,
    pub ledger: Ledger,
    pub stamps: u64,
    pub faults: u64,
    pub failed: Option<u64>,
    pub turns: Turns,
}
