use journal_one::Filling;
use sfs_base::{BlockList, InodeList, NodeId, RoomyList, Stamp};
use space_map::Grant;
use tree_laws::Turn;

/// A node that a commit concerns, and the number of the last commit of it that was known as the
/// commit reserved; 0 where there was none.
#[derive(Clone, Copy)]
pub struct Seen {
    pub node: NodeId,
    pub last: u64,
}

/// What a core tells of the box with the disk and its journal slots. A slot is told by its number.
#[derive(Drop)]
pub enum Label {
    /// The core has taken the box.
    Took,
    /// It brings the box home.
    Gave,
    /// It took a turn that neither opens a commit nor makes one durable.
    Noted {
        turn: Turn,
    },
    /// It reserved this number for its next commit, which concerns these nodes, with what it was
    /// granted: nothing, where it needs nothing.
    Reserved {
        commit: u64,
        seen: RoomyList<Seen>,
        grant: Grant,
    },
    /// It gave the number back.
    Returned {
        commit: u64,
    },
    /// The commit with the number, of an fsync of this node at this stamp, began in a slot. It gives
    /// up these blocks and inodes.
    Began {
        filling: Filling,
        commit: u64,
        node: NodeId,
        stamp: Stamp,
        blocks: BlockList,
        inodes: InodeList,
    },
    /// A piece of the commit in a slot was written, or failed to be.
    Filled {
        slot: usize,
        piece: usize,
        done: bool,
    },
    /// The disk was synced, and this many device calls were made by then.
    Synced {
        now: u64,
    },
    /// The gate of a slot was written open, or failed to be: its commit's two turns.
    Opened {
        slot: usize,
        done: bool,
        cut: Turn,
        opened: Turn,
    },
    /// The commit in a slot is durable, whoever tells it: its turn.
    Settled {
        slot: usize,
        turn: Turn,
    },
    /// The core has found the turn that made its commit durable.
    Learned {
        turn: Turn,
    },
    /// A record of a durable commit was placed in the table, or failed to be.
    Placed {
        slot: usize,
        record: usize,
        done: bool,
    },
    /// The gate of a slot was written shut, or failed to be.
    Shut {
        slot: usize,
        done: bool,
    },
    /// A slot is idle again.
    Idled {
        slot: usize,
    },
    /// A commit with this number wrote nothing: its three turns.
    Empty {
        commit: u64,
        cut: Turn,
        opened: Turn,
        durable: Turn,
    },
}
