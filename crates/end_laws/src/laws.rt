// What is proved of the end of a mount: each function's contract is a law.
ghost use Rattle.end_laws.specs.Fitting.{MadesFit};
ghost use Rattle.end_laws.specs.Laws.{MountsAreNamed, NamedPensTell};
ghost use Rattle.end_laws.specs.Reaches.{MountsReachEnds};
ghost use Rattle.end_laws.specs.Along.{NamedTellAlong};
ghost use Rattle.end_laws.specs.Survives.{MountsSurvive, TurnsOfMountsEnd};
ghost use Rattle.end_laws.specs.Agreed.{AgreedFreeNothing};
ghost use Rattle.end_laws.specs.Frees.{CommitsLeaveWell, MadesFreeNothing, MountsKeepWell};
ghost use Rattle.end_laws.specs.Runs.{ReservedAreAbove, RunsFreeNothing, RunsKeepWell};
ghost use Rattle.end_laws.specs.Begins.{BegunDisksGoOn, MountsBeginLabels};
ghost use Rattle.end_laws.specs.Rests.{ClosedDisksBegan, ClosedPensRest};
ghost use Rattle.end_laws.specs.Lacks.{AgreedMountsAreRecorded, LacksAreAgreed, MadeLacksAreTold};
ghost use Rattle.end_laws.specs.Recorded.{MountsAreRecorded};

use sfs_dev::Disk;

/// Each turn at the box that is of what was made for a number fits what the commit under its stamp brings.
pub fn mades_fit()
    ensures { MadesFit }
{}

/// Cores and pens that have come to the end agree on the whole of it, and numbers have stamps there.
pub fn mounts_reach_ends<D: Disk>(disk: &D)
    ensures { MountsReachEnds D }
{}

/// There is what commits bring by the stamps of the fsyncs.
pub fn mounts_are_named<D: Disk>(disk: &D)
    ensures { MountsAreNamed D }
{}

/// By that the pens told turn by turn at the box, each the turns of its core's fsyncs, and are at rest.
pub fn named_pens_tell<D: Disk>(disk: &D)
    ensures { NamedPensTell D }
{}

/// Each core tells of its pair as its number is reserved.
pub fn named_tell_along<D: Disk>(disk: &D)
    ensures { NamedTellAlong D }
{}

/// Its cores agree with their pens on its turns, which tell what its fsyncs did.
pub fn turns_of_mounts_end<D: Disk>(disk: &D)
    ensures { TurnsOfMountsEnd D }
{}

/// It survives each crash and is read back at its end.
pub fn mounts_survive<D: Disk>(disk: &D)
    ensures { MountsSurvive D (D.view disk.now) }
{}

/// What a core made of nodes that are well kept gives nothing up, where it has no record to write.
pub fn mades_free_nothing()
    ensures { MadesFreeNothing }
{}

/// What was mounted is well kept.
pub fn mounts_keep_well()
    ensures { MountsKeepWell }
{}

/// And so is what a commit leaves of nodes that are, with a grant of what it needs.
pub fn commits_leave_well()
    ensures { CommitsLeaveWell }
{}

/// So all that a core makes something of in a run is well kept, where each commit that the run tells was granted what it needs.
pub fn runs_keep_well()
    ensures { RunsKeepWell }
{}

/// Then what was made in the run gives nothing up, where it has no record to write.
pub fn runs_free_nothing()
    ensures { RunsFreeNothing }
{}

/// A number that was reserved by the rules of labels is above those of the last commits of its nodes, of which its core knew.
pub fn reserved_are_above()
    ensures { ReservedAreAbove }
{}

/// So what agreeing cores made gives nothing up, where it has no record to write, over all that a mount leaves.
pub fn agreed_free_nothing<D: Disk>(disk: &D)
    ensures { AgreedFreeNothing D }
{}

/// What was mounted begins a volume whose history is any legal one, with which labels may begin.
pub fn mounts_begin_labels<D: Disk>(disk: &D, later: &D)
    ensures { MountsBeginLabels (D.view disk.now) (D.view later.now) }
{}

/// A disk that has gone on from there began with the parts that each image stood for then.
pub fn begun_disks_go_on<D: Disk>(disk: &D, later: &D)
    ensures { BegunDisksGoOn (D.view disk.now) (D.view later.now) }
{}

/// Where journals were closed each core is at rest with what it told, also one that has no pen.
pub fn closed_pens_rest<D: Disk>(disk: &D)
    ensures { ClosedPensRest D.view }
{}

/// And their disk began with the parts for which each image stood as they were made.
pub fn closed_disks_began<D: Disk>(disk: &D)
    ensures { ClosedDisksBegan D.view }
{}

/// The turns of a mount that has ended are recorded, where each turn that tells a shortage tells what was so at its place of the turns.
pub fn mounts_are_recorded<D: Disk>(disk: &D)
    ensures { MountsAreRecorded D }
{}

/// Each does, where its core made what it says of its place of the labels.
pub fn made_lacks_are_told<D: Disk>(disk: &D)
    ensures { MadeLacksAreTold D }
{}

/// What cores and pens agree on of turns that tell shortages is that.
pub fn lacks_are_agreed<D: Disk>(disk: &D)
    ensures { LacksAreAgreed D }
{}

/// So they are recorded.
pub fn agreed_mounts_are_recorded<D: Disk>(disk: &D)
    ensures { AgreedMountsAreRecorded D }
{}
