ghost use Rattle.std.specs.Prelude.{◌≡◌};
ghost use Rattle.cut_laws.specs.declared.event.Refused.TheVariants.{NoMemory as WantsMemory};

use sfs_base::{NoMemory, NodeId, RoomyList, Stamp};
use std::alloc::{AllocError, AllocFailed};
use tree_laws::{Entry, Reply};

/// Numbers of commits.
pub type CommitList = RoomyList<u64>;

/// What the machine of calls and commits is told.
#[derive(Drop)]
pub enum Event {
    /// A call was answered.
    Call {
        entry: Entry,
    },
    /// A commit begins, for an fsync of this node at this stamp.
    CutAt {
        commit: u64,
        node: NodeId,
        stamp: Stamp,
    },
    /// What a commit writes may count after a crash from now on.
    Opened {
        commit: u64,
    },
    /// What a commit writes counts after each crash from now on.
    Durable {
        commit: u64,
    },
    /// A commit was left in doubt.
    Fail {
        commit: u64,
    },
    /// The run ends. What these commits have written counts, and what others that are in flight have written does not.
    Crash {
        kept: CommitList,
    },
}

/// Why an event can't come, in the order in which the reasons are looked for.
#[derive(Drop)]
pub enum Refused {
    /// The run has ended.
    Crashed,
    /// The call's stamp is not the count of the calls before it.
    NotNext { want: Stamp },
    /// The call's answer, or its moment of acknowledgement, is not one that it may have. This reply was due.
    NotLegal { reply: Reply },
    /// This commit was the first to be left in doubt.
    Stopped { commit: u64 },
    /// A commit has begun under this number before.
    Used { commit: u64 },
    /// A flight concerns this node, which is the least of those that the commit would concern too.
    Meets { node: NodeId },
    /// The commit's stamp is above the count of calls.
    Late { stamp: Stamp },
    /// This commit, the first that the event names so, is not in flight.
    NotFlying { commit: u64 },
    /// This commit, the first that the event names so, was not opened.
    NotOpened { commit: u64 },
    /// The commit was opened before.
    AlreadyOpened { commit: u64 },
    /// Memory was refused.
    NoMemory,
}

impl From<NoMemory> for Refused {
    ghost from_gives = { λ _ why. why ≡ WantsMemory };

    fn from(_: NoMemory) -> Self {
        Refused::NoMemory
    }
}

impl From<AllocError> for Refused {
    ghost from_gives = { λ _ why. why ≡ WantsMemory };

    fn from(_: AllocError) -> Self {
        Refused::NoMemory
    }
}

impl<T: Drop> From<AllocFailed<T>> for Refused {
    ghost from_gives = { λ _ why. why ≡ WantsMemory };

    fn from(_: AllocFailed<T>) -> Self {
        Refused::NoMemory
    }
}
