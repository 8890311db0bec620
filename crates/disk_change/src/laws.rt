// What is proved of the definitions: each function's contract is a law.
ghost use Rattle.disk_change.specs.Laws.{OnlyWhatDiffersIsWritten};

/// A record is written exactly where it differs, in its size alone too.
pub fn only_what_differs_is_written()
    ensures { OnlyWhatDiffersIsWritten }
{}
