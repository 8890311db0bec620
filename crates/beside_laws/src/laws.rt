// What is proved of the definitions: each function's contract is a law.
ghost use Rattle.beside_laws.specs.Steps.{CommitsBegin, CommitsOpen, CommitsEnd};
ghost use Rattle.beside_laws.specs.Failure.{CommitsFail, CrashesKeep};
ghost use Rattle.beside_laws.specs.Answers.{AnswersTellNothing};
ghost use Rattle.beside_laws.specs.Worked.{TwoMayBeOpen};
ghost use Rattle.beside_laws.specs.OwnFile.{OwnFilesMayBeOpen};
ghost use Rattle.beside_laws.specs.Laws.{RuledKnow, KnowingRaise, BoxesGive, FoundOnce, ReadyRaise, FsyncsRaiseOneCut};

/// A commit that was not moved as it reserved knows enough, whatever became durable before it.
pub fn ruled_know()
    ensures { RuledKnow }
{}

/// One that knows enough raises the cut as its look says, and those that share no node with it go on knowing enough.
pub fn knowing_raise()
    ensures { KnowingRaise }
{}

/// What the box keeps tells that a commit that reserves is later than those that are done, apart from those that are
/// open, and has seen all that will ever be done before it.
pub fn boxes_give()
    ensures { BoxesGive }
{}

/// What a commit found once is so wherever it knows enough.
pub fn found_once()
    ensures { FoundOnce }
{}

/// Commits that are ready raise the cut in any order.
pub fn ready_raise()
    ensures { ReadyRaise }
{}

/// An fsync raises one cut, and leaves one set of nodes with an inode.
pub fn fsyncs_raise_one_cut()
    ensures { FsyncsRaiseOneCut }
{}

/// In the midst of a record with several open commits the machine takes the begin of one that waits.
pub fn commits_begin()
    ensures { CommitsBegin }
{}

/// It takes that one is opened.
pub fn commits_open()
    ensures { CommitsOpen }
{}

/// It takes that an opened one becomes durable, with whichever cut and inodes its fsync leaves, and it is the midst of
/// the record again.
pub fn commits_end()
    ensures { CommitsEnd }
{}

/// A commit may be left in doubt: what was open stays open, and no commit begins, is opened or becomes durable any more.
pub fn commits_fail()
    ensures { CommitsFail }
{}

/// A crash may keep any opened commits, behind a failure too, and all stands with them done.
pub fn crashes_keep()
    ensures { CrashesKeep }
{}

/// The commit of a live file that has an inode may be open beside others though it noted nothing: it is made by the look
/// that it would have had.
pub fn own_files_may_be_open()
    ensures { OwnFilesMayBeOpen }
{}

/// All that is asked of commits beside commits can be met: two fsyncs of two directories side by side, in each of which
/// a file was made, by commits that are known as they reserve, are not moved, and with which a record begins.
pub fn two_may_be_open()
    ensures { TwoMayBeOpen }
{}

/// Histories that ask the same come to the same trees and changes, whatever was answered.
pub fn answers_tell_nothing()
    ensures { AnswersTellNothing }
{}
