//! What is proved of what a core has seen: each function's contract is a law.
ghost use Rattle.fsync_file.specs.Laws.{AnsweredCoresHaveSeen, SeenStaysSeen};

/// Where `has_inode` answers that a file has an inode, its core has seen so.
pub fn answered_cores_have_seen()
    ensures { AnsweredCoresHaveSeen }
{}

/// What a core has seen so it has seen for good.
pub fn seen_stays_seen()
    ensures { SeenStaysSeen }
{}
