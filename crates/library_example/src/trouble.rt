// What may come in the way.
use mount::MountFault;
use recovery::{MkfsFault, RecoverFault};
use sfs_base::{ChunkFault, NameFault, NoMemory};
use std::alloc::AllocError;
use tree_laws::Reply;

/// Why a visit did not come to its end.
#[derive(Drop)]
pub enum Trouble {
    NoMemory,
    /// No disk could be made.
    NoDisk,
    /// A disk was not mounted, or not recovered, for this fault.
    NoTree { fault: RecoverFault },
    /// A name or bytes that no call takes.
    BadWord,
    /// A call was answered so, and not as it was meant.
    Refused { reply: Reply },
}

impl Trouble {
    /// What is said of it.
    pub fn as_text(&self) -> &'static str {
        match self {
            Trouble::NoMemory => "out of memory",
            Trouble::NoDisk => "no disk",
            Trouble::NoTree { .. } => "a disk without a tree",
            Trouble::BadWord => "a name or bytes that no call takes",
            Trouble::Refused { .. } => "a call was refused",
        }
    }
}

impl From<NoMemory> for Trouble {
    fn from(_: NoMemory) -> Self {
        Trouble::NoMemory
    }
}

impl From<AllocError> for Trouble {
    fn from(_: AllocError) -> Self {
        Trouble::NoMemory
    }
}

impl From<NameFault> for Trouble {
    fn from(fault: NameFault) -> Self {
        match fault {
            NameFault::NoMemory => Trouble::NoMemory,
            _ => Trouble::BadWord,
        }
    }
}

impl From<ChunkFault> for Trouble {
    fn from(_: ChunkFault) -> Self {
        Trouble::BadWord
    }
}

impl From<MkfsFault> for Trouble {
    fn from(fault: MkfsFault) -> Self {
        match fault {
            MkfsFault::NoMemory => Trouble::NoMemory,
            MkfsFault::DiskFailed => Trouble::NoDisk,
        }
    }
}

impl From<RecoverFault> for Trouble {
    fn from(fault: RecoverFault) -> Self {
        match fault {
            RecoverFault::NoMemory => Trouble::NoMemory,
            _ => Trouble::NoTree { fault },
        }
    }
}

impl<D: Drop> From<MountFault<D>> for Trouble {
    fn from(refused: MountFault<D>) -> Self {
        Trouble::from(refused.fault)
    }
}
