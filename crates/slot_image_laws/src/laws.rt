//! What is proved of images: each function's contract is a law.
ghost use Rattle.slot_image_laws.specs.Held.{DurableCommitsStand, FirstImagesHaveTheParts};
ghost use Rattle.slot_image_laws.specs.Labels.{DeviceCallsAreTold, DoneLabelsFit, FailedSyncsFit, FirstRunsFit, RecordsAreLeft, ToldLabelsFit};
ghost use Rattle.slot_image_laws.specs.Laws.{BeginsKeep, EmptyCommitsKeep, FailedSyncsKeep, FillsKeep, IdlesKeep, OpensKeep, PlacesKeep, QuietTurnsKeep, RunsStart, SettlesKeep, ShutsKeep, SyncsKeep};

use sfs_dev::Disk;

/// A run begins where no slot is open and no turn was told.
pub fn runs_start<D: Disk>(disk: &D)
    ensures { RunsStart (D.view disk.now) }
{}

/// A turn keeps a run that neither opens a commit nor makes one durable.
pub fn quiet_turns_keep<D: Disk>(disk: &D)
    ensures { QuietTurnsKeep (D.view disk.now) }
{}

/// So do the turns of a commit that gives nothing.
pub fn empty_commits_keep<D: Disk>(disk: &D)
    ensures { EmptyCommitsKeep (D.view disk.now) }
{}

/// A sync that answered Ok keeps a run, and serves every slot.
pub fn syncs_keep<D: Disk>(old: &D, new: &D)
    ensures { SyncsKeep (D.view old.now) (D.view new.now) }
{}

/// A sync that failed keeps a run.
pub fn failed_syncs_keep<D: Disk>(old: &D, new: &D)
    ensures { FailedSyncsKeep (D.view old.now) (D.view new.now) }
{}

/// A slot with a durable commit and a shut gate may be idle again.
pub fn idles_keep<D: Disk>(disk: &D)
    ensures { IdlesKeep (D.view disk.now) }
{}

/// A commit that fits what the disk stands for may begin in an idle slot.
pub fn begins_keep<D: Disk>(disk: &D)
    ensures { BeginsKeep (D.view disk.now) }
{}

/// A commit whose gate is open in each image is durable from now on.
pub fn settles_keep<D: Disk>(disk: &D)
    ensures { SettlesKeep (D.view disk.now) }
{}

/// A piece that fills a slot is written, or that failed, behind the shut gate.
pub fn fills_keep<D: Disk>(old: &D, new: &D)
    ensures { FillsKeep (D.view old.now) (D.view new.now) }
{}

/// A record of a durable commit is placed, the oldest of its inode, or that failed.
pub fn places_keep<D: Disk>(old: &D, new: &D)
    ensures { PlacesKeep (D.view old.now) (D.view new.now) }
{}

/// The gate of a commit whose slot is filled is written open, or that failed.
pub fn opens_keep<D: Disk>(old: &D, new: &D)
    ensures { OpensKeep (D.view old.now) (D.view new.now) }
{}

/// The gate of a durable commit whose records are placed is written shut, or that failed.
pub fn shuts_keep<D: Disk>(old: &D, new: &D)
    ensures { ShutsKeep (D.view old.now) (D.view new.now) }
{}

/// Before the first label a disk is in the run that none tell.
pub fn first_runs_fit<D: Disk>(disk: &D)
    ensures { FirstRunsFit (D.view disk.now) }
{}

/// A label that is told by the rules of the disk as it is goes on with the run.
pub fn told_labels_fit<D: Disk>(disk: &D)
    ensures { ToldLabelsFit (D.view disk.now) }
{}

/// So does one that tells of a device call.
pub fn done_labels_fit<D: Disk>(old: &D, new: &D)
    ensures { DoneLabelsFit (D.view old.now) (D.view new.now) }
{}

/// Those labels count as device calls that tell of one, and no others.
pub fn device_calls_are_told<D: Disk>(old: &D, new: &D)
    ensures { DeviceCallsAreTold (D.view old.now) (D.view new.now) }
{}

/// So does a sync that failed.
pub fn failed_syncs_fit<D: Disk>(old: &D, new: &D)
    ensures { FailedSyncsFit (D.view old.now) (D.view new.now) }
{}

/// Each image since the start shows a front of the record that labels make.
pub fn records_are_left<D: Disk>(disk: &D)
    ensures { RecordsAreLeft (D.view disk.now) }
{}

/// Before the first turn an image shows the parts that the run began with.
pub fn first_images_have_the_parts()
    ensures { FirstImagesHaveTheParts }
{}

/// Behind a commit that is durable an image shows the parts that it gives.
pub fn durable_commits_stand()
    ensures { DurableCommitsStand }
{}
