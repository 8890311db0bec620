ghost use Rattle.std.specs.Prelude.{◌≡◌};
ghost use Rattle.recovery.specs.declared.fault.RecoverFault.TheVariants.{DiskFailed as Faulty, NoMemory as WantsMemory};

use sfs_base::{Failed, NoMemory};
use std::alloc::AllocError;

/// Why a disk was not made.
#[derive(Clone, Copy, Debug, PartialEq, Eq)]
pub enum MkfsFault {
    /// A device call failed.
    DiskFailed,
    NoMemory,
}

/// Why a disk was not recovered.
#[derive(Clone, Copy, Debug, PartialEq, Eq)]
pub enum RecoverFault {
    /// A device call failed.
    DiskFailed,
    /// The superblock is wrong: `at` is the byte of the first wrong field, or of the first byte behind
    /// the fields that is not zero.
    BadSuper { at: u32 },
    /// An open journal slot is wrong: the first by core, then slot, then byte, `at` being counted from
    /// the slot's begin.
    BadJournal { core: u8, slot: u8, at: u32 },
    /// The least rule that an inode breaks, and the least inode that breaks it.
    BadImage { inode: u32, rule: u8 },
    NoMemory,
}

impl From<Failed> for RecoverFault {
    ghost from_gives = { λ _ fault. fault ≡ Faulty };

    fn from(_: Failed) -> Self {
        RecoverFault::DiskFailed
    }
}

impl From<NoMemory> for RecoverFault {
    ghost from_gives = { λ _ fault. fault ≡ WantsMemory };

    fn from(_: NoMemory) -> Self {
        RecoverFault::NoMemory
    }
}

impl From<AllocError> for RecoverFault {
    ghost from_gives = { λ _ fault. fault ≡ WantsMemory };

    fn from(_: AllocError) -> Self {
        RecoverFault::NoMemory
    }
}
