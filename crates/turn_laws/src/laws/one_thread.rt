//! Laws of turns where one thread makes whole fsyncs.
ghost use Rattle.turn_laws.specs.LawsOneThread.{CallsFail, CallsStand, CommitsStand, DoubtsFail, EmptyCommitsStand, FailedAreRecorded};
ghost use Rattle.turn_laws.specs.LawsOneThread.{GivenBackStand, HaltsFail, OpenedDoubtsFail, ShortsStand, StandingAreRecorded, TurnsBegin};

/// Before the first call no turns stand.
pub fn turns_begin()
    ensures { TurnsBegin }
{}

/// A call that takes no turn leaves standing what stood.
pub fn calls_stand()
    ensures { CallsStand }
{}

/// So do the turns of an fsync that was answered Ok.
pub fn commits_stand()
    ensures { CommitsStand }
{}

/// And those of one that needed nothing.
pub fn empty_commits_stand()
    ensures { EmptyCommitsStand }
{}

/// The turn of an fsync for which there was no room.
pub fn shorts_stand()
    ensures { ShortsStand }
{}

/// The turns of an fsync that gave back what it had reserved.
pub fn given_back_stand()
    ensures { GivenBackStand }
{}

/// The turns of an fsync whose commit failed before it was opened.
pub fn doubts_fail()
    ensures { DoubtsFail }
{}

/// The turns of an fsync whose commit failed once it was opened.
pub fn opened_doubts_fail()
    ensures { OpenedDoubtsFail }
{}

/// The turn of an fsync that comes after a failure.
pub fn halts_fail()
    ensures { HaltsFail }
{}

/// A call that comes after a failure and takes no turn.
pub fn calls_fail()
    ensures { CallsFail }
{}

/// Turns that stand at the end of a run are recorded.
pub fn standing_are_recorded()
    ensures { StandingAreRecorded }
{}

/// So are turns of which one has failed.
pub fn failed_are_recorded()
    ensures { FailedAreRecorded }
{}
