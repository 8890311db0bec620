ghost use Rattle.std.specs.Prelude.{◌≡◌};
ghost use Rattle.disk_tree.specs.declared.fault.TreeFault.TheVariants.{DiskFailed as Faulty, NoMemory as WantsMemory};

use sfs_base::{Failed, NoMemory};
use std::alloc::{AllocError, AllocFailed};
use thiserror::Error;

/// Why no tree was read: the disk failed, an inode breaks a rule, from 1 to 14, or memory is wanting.
#[derive(Debug, PartialEq, Eq, Drop, Error)]
pub enum TreeFault {
    #[error("the disk failed")]
    DiskFailed,
    #[error("inode {inode} breaks rule {rule}")]
    BadImage { inode: u32, rule: u8 },
    #[error("out of memory")]
    NoMemory,
}

impl From<Failed> for TreeFault {
    ghost from_gives = { λ _ fault. fault ≡ Faulty };

    fn from(_: Failed) -> Self {
        TreeFault::DiskFailed
    }
}

impl From<NoMemory> for TreeFault {
    ghost from_gives = { λ _ fault. fault ≡ WantsMemory };

    fn from(_: NoMemory) -> Self {
        TreeFault::NoMemory
    }
}

impl From<AllocError> for TreeFault {
    ghost from_gives = { λ _ fault. fault ≡ WantsMemory };

    fn from(_: AllocError) -> Self {
        TreeFault::NoMemory
    }
}

impl<T: Drop> From<AllocFailed<T>> for TreeFault {
    ghost from_gives = { λ _ fault. fault ≡ WantsMemory };

    fn from(_: AllocFailed<T>) -> Self {
        TreeFault::NoMemory
    }
}
