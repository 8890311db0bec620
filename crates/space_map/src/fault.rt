ghost use Rattle.std.specs.Prelude.{◌≡◌};
ghost use Rattle.space_map.specs.declared.fault.SpaceFault.TheVariants.{NoMemory as WantsMemory};

use sfs_base::{NoMemory, SpaceKind};
use thiserror::Error;

/// Why nothing was granted.
#[derive(Debug, PartialEq, Eq, Drop, Error)]
pub enum SpaceFault {
    /// So many were needed, and so many are free.
    #[error("{need} {kind:?} needed, {free} free")]
    NoSpace {
        kind: SpaceKind,
        need: u32,
        free: u32,
    },
    #[error("out of memory")]
    NoMemory,
}

impl From<NoMemory> for SpaceFault {
    ghost from_gives = { λ _ fault. fault ≡ WantsMemory };

    fn from(_: NoMemory) -> Self {
        SpaceFault::NoMemory
    }
}
