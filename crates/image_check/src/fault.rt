// Why no certificate or no verdict is given.
ghost use Rattle.std.specs.Prelude.{◌≡◌};
ghost use Rattle.image_check.specs.declared.fault.AcceptFault.TheVariants.{DiskFailed as AcceptFailed, NoMemory as AcceptWants};
ghost use Rattle.image_check.specs.declared.fault.VerifyFault.TheVariants.{NoMemory as VerifyWants};

use sfs_base::NoMemory;
use std::alloc::AllocError;

/// Why an image gets no certificate.
#[derive(Clone, Copy, Debug, PartialEq, Eq)]
pub enum VerifyFault {
    /// A read failed.
    DiskFailed,
    /// The superblock is wrong: `at` is the byte of the first wrong field, or of the first byte behind
    /// the fields that is not zero.
    BadSuper {
        at: u32,
    },
    /// An open journal slot is wrong: the first by core, then slot, then byte, `at` being counted from
    /// the slot's begin.
    BadJournal {
        core: u8,
        slot: u8,
        at: u32,
    },
    /// The least rule that an inode breaks, from 1 to 14, the least inode that breaks it, and the 512
    /// bytes of that inode's settled record.
    BadImage {
        inode: u32,
        rule: u8,
        bytes: [u8; 512],
    },
    NoMemory,
}

impl From<NoMemory> for VerifyFault {
    ghost from_gives = { λ _ fault. fault ≡ VerifyWants };

    fn from(_: NoMemory) -> Self {
        VerifyFault::NoMemory
    }
}

/// Why there is no verdict on a certificate.
#[derive(Clone, Copy, Debug, PartialEq, Eq)]
pub enum AcceptFault {
    /// A read failed.
    DiskFailed,
    NoMemory,
}

impl From<NoMemory> for AcceptFault {
    ghost from_gives = { λ _ fault. fault ≡ AcceptWants };

    fn from(_: NoMemory) -> Self {
        AcceptFault::NoMemory
    }
}
