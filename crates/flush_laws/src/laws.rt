// What is proved of the definitions: each function's contract is a law.
ghost use Rattle.flush_laws.specs.Journal.{JobsShowCommits, CarriedCommitsWrite, DoubtfulCommitsWrite};
ghost use Rattle.flush_laws.specs.Laws.{FsyncsAreCommits, FsyncsLeaveReady, FsyncsKeepEntries};

use sfs_dev::Disk;

/// The plan of an fsync is a commit from the tree at the cut to the tree at the raised cut.
pub fn fsyncs_are_commits()
    ensures { FsyncsAreCommits }
{}

/// Once it is made all is ready for the next fsync.
pub fn fsyncs_leave_ready()
    ensures { FsyncsLeaveReady }
{}

/// And memory keeps an entry of each node that then has a number.
pub fn fsyncs_keep_entries()
    ensures { FsyncsKeepEntries }
{}

/// Each image of a job's commit is read as the tree at the cut before it, or as the tree at the raised cut.
pub fn jobs_show_commits()
    ensures { JobsShowCommits }
{}

/// A crash during a commit leaves the old tree or the new one, and from its durable moment on the new one.
pub fn carried_commits_write<D: Disk>(disk: &D, later: &D)
    ensures { CarriedCommitsWrite (D.view disk.now) (D.view later.now) }
{}

/// A crash during one that failed leaves the one or the other.
pub fn doubtful_commits_write<D: Disk>(disk: &D, later: &D)
    ensures { DoubtfulCommitsWrite (D.view disk.now) (D.view later.now) }
{}
