//! What is proved of ledgers and labels: each function's contract is a law.
ghost use Rattle.commit_ledger.specs.Laws.{BegunMayEnd, GrantedMayReturn, OpenOnesAreToldOnce, OpenOnesHavePlaces, QuietLabelsKeepIt, UnmovedAreAsSeen};

/// A label that leaves numbers and nodes as they are leaves a ledger what labels have told.
pub fn quiet_labels_keep_it()
    ensures { QuietLabelsKeepIt }
{}

/// Where none of some nodes has moved, the last commit of each is that which was seen.
pub fn unmoved_are_as_seen()
    ensures { UnmovedAreAsSeen }
{}

/// An open commit was told once, with a number that was given.
pub fn open_ones_are_told_once()
    ensures { OpenOnesAreToldOnce }
{}

/// An open commit's nodes have their places.
pub fn open_ones_have_places()
    ensures { OpenOnesHavePlaces }
{}

/// A commit that has not begun in a slot may give back what it was granted.
pub fn granted_may_return()
    ensures { GrantedMayReturn }
{}

/// A commit that has begun in a slot may end.
pub fn begun_may_end()
    ensures { BegunMayEnd }
{}
