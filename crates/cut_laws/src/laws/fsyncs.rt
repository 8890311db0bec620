// Laws of fsyncs over one history, one alone and in lists.
ghost use Rattle.cut_laws.specs.Laws.{FsyncsCover, FsyncsKeep, HistoriesAreCovered, ListsCover, ListsKeep};
ghost use Rattle.cut_laws.specs.LawsLeast.{ClosuresAreLeast};

/// An fsync keeps the cut closed, and each directory with an inode has its making below its birth place's cut.
pub fn fsyncs_keep()
    ensures { FsyncsKeep }
{}

/// An fsync is covered by the cut that it leaves, and so is what was covered before.
pub fn fsyncs_cover()
    ensures { FsyncsCover }
{}

/// After any list of fsyncs the cut is closed, the tree at it is sound, and what its rows name has an inode.
pub fn lists_keep()
    ensures { ListsKeep }
{}

/// After a list of fsyncs each of them is covered.
pub fn lists_cover()
    ensures { ListsCover }
{}

/// A list of fsyncs that has all those acknowledged by a moment covers the history at it.
pub fn histories_are_covered()
    ensures { HistoriesAreCovered }
{}

/// What an fsync flushes is the least set of nodes that keeps its rules.
pub fn closures_are_least()
    ensures { ClosuresAreLeast }
{}
