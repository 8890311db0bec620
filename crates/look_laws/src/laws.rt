// What is proved of the definitions: each function's contract is a law.
ghost use Rattle.look_laws.specs.Laws.{LooksFit, LateEntriesMayBeMissing, LooksAreMade};
ghost use Rattle.look_laws.specs.Beside.{LooksKnow};

/// Where a look knows enough, what it gathers is the closure, and what it touches are the concerned nodes.
pub fn looks_fit()
    ensures { LooksFit }
{}

/// The same where entries from a stamp on are missing that no cut is above.
pub fn late_entries_may_be_missing()
    ensures { LateEntriesMayBeMissing }
{}

/// What is made by such a look is the commit of the fsync.
pub fn looks_are_made()
    ensures { LooksAreMade }
{}

/// What an fsync knows while other commits go on is enough of the whole history: it is given of the nodes that
/// it touches alone, and stays so at each later cut at which these nodes are as they were.
pub fn looks_know()
    ensures { LooksKnow }
{}
