// What is proved of the words for counts and moments: each function's contract is a law.
ghost use Rattle.sfs_dev.specs.Laws.{CountsRise, HasMoments, HasBothEnds};

use crate::Disk;

/// A count of faults has risen where it is greater, or stands at the last value of `u64`.
pub fn counts_rise()
    ensures { CountsRise }
{}

/// What a crash since a moment may leave is what a crash at it, or at a later one up to now, may leave.
pub fn moments_are_told<D: Disk>(_disk: &D)
    ensures { HasMoments (D.view _disk.now) }
{}

/// Of the moments from one disk to a later one both ends are among them.
pub fn both_ends_are_moments<D: Disk>(_old: &D, _new: &D)
    ensures { HasBothEnds (D.view _old.now) (D.view _new.now) }
{}
