ghost use Rattle.std.specs.Prelude.{◌≡◌};
ghost use Rattle.script.specs.declared.fault.ScriptFault.TheVariants.{NoMemory as WantsMemory};

use sfs_base::{Measure, NoMemory};
use std::alloc::AllocFailed;
use thiserror::Error;

/// Why a script was not read: it has more than 16,777,216 bytes; or its first line outside the
/// grammar has this number, counted from 1.
#[derive(Debug, Drop, Error)]
pub enum ScriptFault {
    #[error("the script is too long")]
    TooLong { measure: Measure },
    #[error("line {line} is no command")]
    BadLine { line: u32 },
    #[error("out of memory")]
    NoMemory,
}

impl From<NoMemory> for ScriptFault {
    ghost from_gives = { λ _ fault. fault ≡ WantsMemory };

    fn from(_: NoMemory) -> Self {
        ScriptFault::NoMemory
    }
}

impl<T: Drop> From<AllocFailed<T>> for ScriptFault {
    ghost from_gives = { λ _ fault. fault ≡ WantsMemory };

    fn from(_: AllocFailed<T>) -> Self {
        ScriptFault::NoMemory
    }
}
