// What is proved of the definitions: each function's contract is a law.
ghost use Rattle.scalefs_run.specs.Complete.{RunsAreComplete, MakingsAreComplete, ShowingsAreComplete, ChecksAreComplete, VerdictsAreComplete, FreshDisksAreAsked, FreshDisksCountOn};
ghost use Rattle.scalefs_run.specs.Crowded.{LoadsAskForCores};

use sfs_dev::Disk;

/// Where nothing fails, what is due is done, but for want of memory; no commit fails, and each fsync of a live node is answered Ok, or
/// for want of memory or of space. A check tells whether the text is legal, and a verdict what the image's first fault is.
pub fn calls_are_complete<D: Disk>(_old: &D, _new: &D)
    ensures runs { RunsAreComplete (D.view _old.now) (D.view _new.now) }
    ensures makings { MakingsAreComplete (D.view _old.now) (D.view _new.now) }
    ensures showings { ShowingsAreComplete (D.view _old.now) (D.view _new.now) }
    ensures checks { ChecksAreComplete (D.view _old.now) (D.view _new.now) }
    ensures verdicts { VerdictsAreComplete (D.view _old.now) (D.view _new.now) }
{}

/// There are disks of which all is asked that is asked for what a crash leaves: those in memory of which no call was made yet.
pub fn fresh_disks_are_asked()
    ensures asked { FreshDisksAreAsked }
    ensures count_on { FreshDisksCountOn }
{}

/// Exactly where a made script has more workers than there are cores one has none, and the first is that behind the last core.
pub fn loads_ask_for_cores()
    ensures { LoadsAskForCores }
{}
