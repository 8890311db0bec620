ghost use Rattle.std.specs.Prelude.{◌≡◌};
ghost use Rattle.journal_set.specs.declared.fault.CommitFault.TheVariants.{NoMemory as WantsMemory};

use sfs_base::{NoMemory, NodeId, SpaceKind};

/// A commit that is durable.
#[derive(Clone, Copy, Debug, PartialEq, Eq)]
pub struct Ack {
    /// The disk's count of device calls when the sync had returned that made it durable, whoever made that.
    pub moment: u64,
    /// Its number.
    pub commit: u64,
}

/// Why a commit did not become durable, or was not begun.
#[derive(Clone, Copy, Debug, PartialEq, Eq, Drop)]
pub enum CommitFault {
    /// A device call of this commit failed, and the disk counted so many faults then.
    DiskFailed {
        faults: u64,
    },
    /// So much was needed, and so much is free.
    NoSpace {
        kind: SpaceKind,
        need: u32,
        free: u32,
    },
    /// An earlier commit had failed, with this count of faults.
    Stopped {
        faults: u64,
    },
    /// A node's last commit is this one, and not the one that was seen, or it has not ended.
    Moved {
        node: NodeId,
        last: u64,
    },
    NoMemory,
}

impl From<NoMemory> for CommitFault {
    ghost from_gives = { λ _ fault. fault ≡ WantsMemory };

    fn from(_: NoMemory) -> Self {
        CommitFault::NoMemory
    }
}
