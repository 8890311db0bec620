//! What is proved of the example: each function's contract is a law.
ghost use Rattle.example_mount.specs.Laws.{TwoCoresMount};

use sfs_dev::Disk;

/// Two cores that each flush one of two directories at one time, and their pens, meet all that is asked of the end of a mount, so it survives
/// each crash, is read back, and its turns are recorded.
pub fn two_cores_mount<D: Disk>(disk: &D)
    ensures { TwoCoresMount D }
{}
