//! A volume: a disk is mounted, its workers run phases on the table over its tree, their fsyncs reach the disk, and it is unmounted.
#![tactic(auto)]

mod calling;
mod counting;
mod flushing;
mod mounting;
mod running;
mod unmounting;
mod volume;

pub use calling::make_call;
pub use counting::totals;
pub use flushing::{PairAgreement, run_phase, serve};
pub use mounting::{MountFault, begin, mount};
pub use running::run_phases;
pub use unmounting::unmount;
pub use volume::{Mounted, Room, Volume};
