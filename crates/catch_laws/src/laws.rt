// What is proved of what was caught: each function's contract is a law.
ghost use Rattle.catch_laws.specs.Laws.{CaughtAreGathered};

/// What was caught is gathered by notes of all parts, of exactly the nodes that the fsync concerns.
pub fn caught_are_gathered()
    ensures { CaughtAreGathered }
{}
