// Laws of runs of the machine.
ghost use Rattle.cut_laws.specs.Laws.{CommitsAreTied, FlightsStay, RunsKeep};
ghost use Rattle.cut_laws.specs.LawsRuns.{AllAreTied, CallsAreARun, CommitsAreAccepted, EmptyRuns, RunsLengthen};
ghost use Rattle.cut_laws.specs.LawsRuns.{DurablesAreCovered, FailuresStopCuts, RunsAreFlushed};

/// In each state of a run, and when any fsyncs have raised its cut, the cut is closed, the tree at it is sound, and what its rows name has an inode.
pub fn runs_keep()
    ensures { RunsKeep }
{}

/// Whichever of the other flights have raised the cut, a flight makes the commit that it would have made as it began.
pub fn flights_stay()
    ensures { FlightsStay }
{}

/// A commit is the one that it would have been, had only the commits come before it to which it is tied.
pub fn commits_are_tied()
    ensures { CommitsAreTied }
{}

/// To each commit all commits can be tied, with all entries counted.
pub fn all_are_tied()
    ensures { AllAreTied }
{}

/// A run's state is what its durable commits have raised.
pub fn runs_are_flushed()
    ensures { RunsAreFlushed }
{}

/// A commit that became durable is covered from then on.
pub fn durables_are_covered()
    ensures { DurablesAreCovered }
{}

/// Once a commit was left in doubt, nothing but a crash moves the cut.
pub fn failures_stop_cuts()
    ensures { FailuresStopCuts }
{}

/// No events are a run.
pub fn empty_runs()
    ensures { EmptyRuns }
{}

/// A run is lengthened by an event that its last state accepts.
pub fn runs_lengthen()
    ensures { RunsLengthen }
{}

/// The calls of a legal history are a run.
pub fn calls_are_a_run()
    ensures { CallsAreARun }
{}

/// Where no commit is in flight, the events of a commit are accepted, and raise the cut.
pub fn commits_are_accepted()
    ensures { CommitsAreAccepted }
{}
