//! Device calls that come together.
ghost use Rattle.std.specs.Prelude.{◌≡◌, ◌+◌, ◌*◌, ◌<◌, ◌≤◌, length, OnOk};
ghost use Rattle.sfs_base.specs.Ends.{HasCause};
ghost use Rattle.sfs_dev.specs.Run.{Advances};
ghost use Rattle.sfs_dev.specs.Steps.{TellsAlike, Puts, TearsOnly};

use crate::Disk;
use sfs_base::Failed;

/// Writes these bytes from byte `at` on, and syncs: two device calls. After Ok a crash leaves them
/// there.
pub fn write_and_sync<D: Disk>(disk: &mut D, at: u64, bytes: &[u8]) -> Result<(), Failed>
    requires some { 0 < length bytes.now }
    requires within { at + length bytes.now ≤ 4096 * (D.view disk.old).size }

    ensures ok { OnOk result (Puts at bytes.now (D.view disk.old) (D.view disk.new)) }
    ensures torn { TearsOnly at (length bytes.now) (D.view disk.old) (D.view disk.new) }
    ensures tells { TellsAlike (D.view disk.old) (D.view disk.new) }
    ensures advances { Advances (D.view disk.old) (D.view disk.new) }
    ensures cause { HasCause (D.view disk.old).faults (D.view disk.new).faults result }
{
    disk.write_at(at, bytes)?;
    disk.sync()?;
    Ok(())
}
