//! Laws of turns, whichever cores they are of.
ghost use Rattle.turn_laws.specs.LawsTurns.{FailuresStopCommits, GrantsAreTakenUp, LeastAreTaken, RepliesHaveCauses, ReservedIsNotFree, TurnsAreARun, TurnsAreFlushed};

/// The machine has the cut that the fsyncs of durable commits have raised.
pub fn turns_are_flushed()
    ensures { TurnsAreFlushed }
{}

/// The machine of calls and commits accepts the events of turns.
pub fn turns_are_a_run()
    ensures { TurnsAreARun }
{}

/// The replies of recorded fsyncs have their causes.
pub fn replies_have_causes()
    ensures { RepliesHaveCauses }
{}

/// Behind a failure turns only halt or give back, and none halts elsewhere.
pub fn failures_stop_commits()
    ensures { FailuresStopCommits }
{}

/// What a turn reserves is no longer free.
pub fn reserved_is_not_free()
    ensures { ReservedIsNotFree }
{}

/// Each turn that reserves is followed by one that begins the commit, halts or gives back.
pub fn grants_are_taken_up()
    ensures { GrantsAreTakenUp }
{}

/// A turn that reserves takes the least inodes that are free and not reserved.
pub fn least_are_taken()
    ensures { LeastAreTaken }
{}
