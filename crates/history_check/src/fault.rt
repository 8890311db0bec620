ghost use Rattle.std.specs.Prelude.{◌≡◌};
ghost use Rattle.history_check.specs.declared.fault.CheckFault.TheVariants.{NoMemory as WantsMemory};

use sfs_base::NoMemory;
use thiserror::Error;

/// Why a text was not found to be that of a legal history: this is its first wrong line, counted from
/// 1; or memory was refused.
#[derive(Debug, PartialEq, Eq, Drop, Error)]
pub enum CheckFault {
    #[error("line {line} is wrong")]
    WrongLine { line: u32 },
    #[error("out of memory")]
    NoMemory,
}

impl From<NoMemory> for CheckFault {
    ghost from_gives = { λ _ fault. fault ≡ WantsMemory };

    fn from(_: NoMemory) -> Self {
        CheckFault::NoMemory
    }
}
