// What is proved of what calls tell: each function's contract is a law.
ghost use Rattle.journal_set.specs.Ties.{BeginningsTell, CommitsTell, EmptyCommitsTell, FlightsTell, ReservingsTell, ReturnsTell};

/// What reserving tells is of a commit of its core's.
pub fn reservings_tell()
    ensures { ReservingsTell }
{}

/// So is what a commit without records tells.
pub fn empty_commits_tell()
    ensures { EmptyCommitsTell }
{}

/// So is what giving back tells.
pub fn returns_tell()
    ensures { ReturnsTell }
{}

/// So is what a turn towards a beginning tells.
pub fn beginnings_tell()
    ensures { BeginningsTell }
{}

/// So is what a turn of a commit in a slot tells.
pub fn flights_tell()
    ensures { FlightsTell }
{}

/// So is what a whole commit tells, turn by turn.
pub fn commits_tell()
    ensures { CommitsTell }
{}
