use sfs_base::{CoreId, NodeId, RoomyList, SpaceKind, Stamp};

/// What a turn at the disk did for a commit.
#[derive(Clone, Copy, Debug, PartialEq, Eq)]
pub enum TurnAct {
    /// Blocks and inodes were reserved.
    Granted,
    /// What was reserved was given back.
    GivenBack,
    /// Too few blocks or inodes were free.
    Short {
        kind: SpaceKind,
        need: u32,
        free: u32,
    },
    /// An earlier commit had failed.
    Halted,
    CutAt,
    Opened,
    Durable,
    Fail,
}

/// A turn of a commit at the disk.
#[derive(Clone, Copy, Debug, PartialEq, Eq)]
pub struct Turn {
    pub core: CoreId,
    pub node: NodeId,
    pub stamp: Stamp,
    /// The commit's number, 0 where it has none.
    pub commit: u64,
    /// The disk's count of calls after the event's device call, or at the turn where there was none.
    pub now: u64,
    /// The disk's count of faults: after the failed call for `Fail`, else as the turn began.
    pub faults: u64,
    pub act: TurnAct,
}

/// The turns of a mount, in their order.
pub type Turns = RoomyList<Turn>;
