// What is proved of the definitions: each function's contract is a law.
ghost use Rattle.volume_laws.specs.Begun.{MountsBegin, ToldMountsBegin, ToldMountsLeave};
ghost use Rattle.volume_laws.specs.Commits.{OkCommitsGoOn, EmptyCommitsWrite, BuiltJobsWritePlans};
ghost use Rattle.volume_laws.specs.Laws.{LongerHistoriesStayBetween};
ghost use Rattle.volume_laws.specs.Mounting.{MountsAreVolumes};
ghost use Rattle.volume_laws.specs.Read.{ReadPartsStand};
ghost use Rattle.volume_laws.specs.Stores.{StoresGoOn, CommitsStayStanding};

use sfs_dev::Disk;

/// A volume goes on standing once a call has come.
pub fn longer_histories_stay_between()
    ensures { LongerHistoriesStayBetween }
{}

/// The transaction that was built of a planned fsync can be committed through the first slot.
pub fn built_jobs_write_plans()
    ensures { BuiltJobsWritePlans }
{}

/// After an Ok of its commit each image stands for the parts that the fsync leaves.
pub fn ok_commits_go_on<D: Disk>(disk: &D, later: &D)
    ensures { OkCommitsGoOn (D.view disk.now) (D.view later.now) }
{}

/// An fsync whose records the disk has already is durable at once.
pub fn empty_commits_write<D: Disk>(disk: &D)
    ensures { EmptyCommitsWrite (D.view disk.now) }
{}

/// There are blocks in which what a planned fsync leaves stands.
pub fn stores_go_on()
    ensures { StoresGoOn }
{}

/// And a volume goes on standing over them.
pub fn commits_stay_standing()
    ensures { CommitsStayStanding }
{}

/// A mount whose parts stand in blocks begins a volume.
pub fn mounts_begin()
    ensures { MountsBegin }
{}

/// Where the disk told its content, each image stands for the parts of the volume, and the tree was mounted.
pub fn told_mounts_leave<D: Disk>(disk: &D, later: &D)
    ensures { ToldMountsLeave (D.view disk.now) (D.view later.now) }
{}

/// So does one of a disk that told an image, with the image's own parts.
pub fn told_mounts_begin()
    ensures { ToldMountsBegin }
{}

/// Parts without a fault that were read whole stand in blocks.
pub fn read_parts_stand()
    ensures { ReadPartsStand }
{}

/// Each mount that ended with an Ok begins a volume, whether its disk told its content or not.
pub fn mounts_are_volumes<D: Disk>(disk: &D, later: &D)
    ensures { MountsAreVolumes (D.view disk.now) (D.view later.now) }
{}
