// The device calls of a commit, one at a time.
ghost use Rattle.std.specs.Prelude.{◌≡◌, ◌+◌, ◌*◌, ◌<◌, ◌≤◌, length, IfErr};
ghost use Rattle.journal_one.specs.Calls.{IsWrite, IsSync};

use sfs_base::Failed;
use sfs_dev::Disk;

/// A device call of a commit failed: each image is one that the state before that call allows, or
/// the one that Ok would have given. Only recovery goes on from it.
#[derive(Clone, Copy, PartialEq, Eq)]
pub struct Doubt {
    /// The disk's count of faults after that call.
    pub faults: u64,
}

/// Writes these bytes from byte `at` on: one device call.
pub(crate) fn put<D: Disk>(disk: &mut D, at: u64, bytes: &[u8]) -> Result<(), Doubt>
    requires some { 0 < length bytes.now }
    requires within { at + length bytes.now ≤ 4096 * (D.view disk.old).size }

    ensures write { IsWrite (record { at = at; bytes = bytes.now }) (D.view disk.old) (D.view disk.new) result }
    ensures faults { IfErr result (λ doubt. doubt.faults ≡ (D.view disk.new).faults) }
{
    match disk.write_at(at, bytes) {
        Ok(()) => Ok(()),
        Err(Failed) => Err(Doubt {
            faults: disk.faults(),
        }),
    }
}

/// Waits until all that was written is on the disk: one device call.
pub fn sync<D: Disk>(disk: &mut D) -> Result<(), Doubt>
    ensures sync { IsSync (D.view disk.old) (D.view disk.new) result }
    ensures faults { IfErr result (λ doubt. doubt.faults ≡ (D.view disk.new).faults) }
{
    match disk.sync() {
        Ok(()) => Ok(()),
        Err(Failed) => Err(Doubt {
            faults: disk.faults(),
        }),
    }
}
