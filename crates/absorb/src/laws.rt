// What is proved of the definitions: each function's contract is a law.
ghost use Rattle.absorb.specs.Laws.{OneNet, LogsAreChanges};

/// Earlier and later rows have one net.
pub fn there_is_one_net()
    ensures { OneNet }
{}

/// Logged changes do to rows what the changes do that they erase to.
pub fn logs_are_changes()
    ensures { LogsAreChanges }
{}
