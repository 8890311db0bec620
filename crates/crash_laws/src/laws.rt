// What is proved of the definitions: each function's contract is a law.
ghost use Rattle.crash_laws.specs.Laws.{RunsBegin, CallsKeep, CommitsKeep, FailuresKeep, StoppedKeep, ImagesSurvive, RefusalsRaiseNothing, RunsReadBack};
ghost use Rattle.crash_laws.specs.Laws.{DisksStay, PastIsKept, ReadsWriteNothing, NothingIsACommit};

use sfs_dev::Disk;

/// After a mount the first tree stands.
pub fn runs_begin<D: Disk>(disk: &D)
    ensures { RunsBegin (D.view disk.now) }
{}

/// A call that is not acknowledged, and writes nothing, leaves standing what stood.
pub fn calls_keep<D: Disk>(disk: &D, later: &D)
    ensures { CallsKeep (D.view disk.now) (D.view later.now) }
{}

/// An fsync answered Ok makes the cut stand that it raises.
pub fn commits_keep<D: Disk>(disk: &D, later: &D)
    ensures { CommitsKeep (D.view disk.now) (D.view later.now) }
{}

/// An fsync answered DiskFailed leaves each image at a cut.
pub fn failures_keep<D: Disk>(disk: &D, later: &D)
    ensures { FailuresKeep (D.view disk.now) (D.view later.now) }
{}

/// So does any call after it that is not acknowledged.
pub fn stopped_keep<D: Disk>(disk: &D)
    ensures { StoppedKeep (D.view disk.now) }
{}

/// What is at a cut at each moment so far survives each crash.
pub fn images_survive<D: Disk>(disk: &D)
    ensures { ImagesSurvive (D.view disk.now) }
{}

/// No fsync that was refused has raised the cut of an image.
pub fn refusals_raise_nothing()
    ensures { RefusalsRaiseNothing }
{}

/// A run at whose end all stands, or in which an fsync has failed, reads back.
pub fn runs_read_back<D: Disk>(disk: &D)
    ensures { RunsReadBack (D.view disk.now) }
{}

/// Nothing was written to a disk that is left alone.
pub fn disks_stay<D: Disk>(disk: &D)
    ensures { DisksStay (D.view disk.now) }
{}

/// Device calls keep what a crash before them may have left.
pub fn past_is_kept<D: Disk>(disk: &D, later: &D)
    ensures { PastIsKept (D.view disk.now) (D.view later.now) }
{}

/// Nothing is written by reads.
pub fn reads_write_nothing<D: Disk>(disk: &D, later: &D)
    ensures { ReadsWriteNothing (D.view disk.now) (D.view later.now) }
{}

/// Where both trees have one shape, a commit may write nothing.
pub fn nothing_is_a_commit<D: Disk>(disk: &D, later: &D)
    ensures { NothingIsACommit (D.view disk.now) (D.view later.now) }
{}
