// What is proved of the definitions: each function's contract is a law.
ghost use Rattle.dep_closure.specs.Laws.{LogsAreTrue, UnflushedIsEnough, ListsAreClosures};

/// What was gathered of a legal history is so in it.
pub fn logs_are_true()
    ensures { LogsAreTrue }
{}

/// What has all of a legal history that counts and is not flushed is enough of it.
pub fn unflushed_is_enough()
    ensures { UnflushedIsEnough }
{}

/// Where what was gathered is enough of a history, a list of what it gathers is the closure.
pub fn lists_are_closures()
    ensures { ListsAreClosures }
{}
