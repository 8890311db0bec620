// What is proved of the definitions: each function's contract is a law.
ghost use Rattle.core_logs.specs.Laws.{BlankLogsKeep, RoomKeeps, EntriesMayBeAdded, EntriesKeep, TrimsKeepUnflushed, UnflushedIsGathered};

/// Blank logs keep what is not flushed of no history.
pub fn blank_logs_keep()
    ensures { BlankLogsKeep }
{}

/// Room that was made changes nothing of what is kept.
pub fn room_keeps()
    ensures { RoomKeeps }
{}

/// The changes of a history's next entry may be added.
pub fn entries_may_be_added()
    ensures { EntriesMayBeAdded }
{}

/// And then the logs keep what is not flushed of the longer history.
pub fn entries_keep()
    ensures { EntriesKeep }
{}

/// What was flushed may be trimmed.
pub fn trims_keep_unflushed()
    ensures { TrimsKeepUnflushed }
{}

/// What is gathered has all that is not flushed.
pub fn unflushed_is_gathered()
    ensures { UnflushedIsGathered }
{}
