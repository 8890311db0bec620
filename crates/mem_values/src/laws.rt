// What is proved of the cells: each function's contract is a law.
ghost use Rattle.mem_values.specs.Places.{PlacesApart, PlacesAscend};
ghost use Rattle.mem_values.specs.Laws.{CallsKeepCells, ToldWaysStay, CallsMayCome};
ghost use Rattle.mem_values.specs.Home.{CellsBegin, MovedLocksStand, PartsTakeEntries, TrimmedPartsStand, ToldPartsStand, WrittenNodesStand, OwnNodesStand};
ghost use Rattle.mem_values.specs.Telling.{CommitsMayBeTold, TrimsMayBeTold, CommitsStayLast};
ghost use Rattle.mem_values.specs.Writers.{WritersRise, NumbersNameWriters, EarlierWritersAreTrimmed, CommitsHaveFsyncs, InodesStayBelow, RootIsKept};
ghost use Rattle.mem_values.specs.Worked.{TablesCanBeMet};

/// Two cells at one place are one.
pub fn places_apart()
    ensures { PlacesApart }
{}

/// Places ascend in the order of the cells.
pub fn places_ascend()
    ensures { PlacesAscend }
{}

/// A call keeps what stands for each cell that it keeps.
pub fn calls_keep_cells()
    ensures { CallsKeepCells }
{}

/// Where no call since moved a directory to another one, holders that were read are still so.
pub fn told_ways_stay()
    ensures { ToldWaysStay }
{}

/// A call may be stamped with a reply where it fits each tree that the values show which its core knows.
pub fn calls_may_come()
    ensures { CallsMayCome }
{}

/// A commit may be told by a core that holds what was flushed of its nodes.
pub fn commits_may_be_told()
    ensures { CommitsMayBeTold }
{}

/// A core that holds a log may tell that it is trimmed for a commit of its own.
pub fn trims_may_be_told()
    ensures { TrimsMayBeTold }
{}

/// As long as a part is not trimmed for a commit with a member, the commit is the last one that holds each of its nodes.
pub fn commits_stay_last()
    ensures { CommitsStayLast }
{}

/// A cell begins with a value that stands for it.
pub fn cells_begin()
    ensures { CellsBegin }
{}

/// The lock goes home with the stamp of a call that moved a directory to another one.
pub fn moved_locks_stand()
    ensures { MovedLocksStand }
{}

/// A log goes home with what the core's entry logs behind what it had.
pub fn parts_take_entries()
    ensures { PartsTakeEntries }
{}

/// A log that is trimmed below a commit of a member of that stands as before.
pub fn trimmed_parts_stand()
    ensures { TrimmedPartsStand }
{}

/// Once it is told that a log is trimmed for a commit, it goes home where it is.
pub fn told_parts_stand()
    ensures { ToldPartsStand }
{}

/// What a commit with a member wrote of a node goes home once the last part is trimmed for the commit.
pub fn written_nodes_stand()
    ensures { WrittenNodesStand }
{}

/// What a commit without a member wrote of a node goes home as soon as it is told.
pub fn own_nodes_stand()
    ensures { OwnNodesStand }
{}

/// The last commit that holds a node has its greatest number and its greatest cut.
pub fn writers_rise()
    ensures { WritersRise }
{}

/// Two commits that hold a node under one number are one.
pub fn numbers_name_writers()
    ensures { NumbersNameWriters }
{}

/// For each earlier commit of a node every part was trimmed, where it has a member.
pub fn earlier_writers_are_trimmed()
    ensures { EarlierWritersAreTrimmed }
{}

/// A commit that was told is for an fsync of its core among the calls.
pub fn commits_have_fsyncs()
    ensures { CommitsHaveFsyncs }
{}

/// What was flushed of a node has an inode of a number below the first tree's, where what was given has.
pub fn inodes_stay_below()
    ensures { InodesStayBelow }
{}

/// The disk goes on to have something of the root.
pub fn root_is_kept()
    ensures { RootIsKept }
{}

/// In each tree with two cores and three directories the worked table can be met.
pub fn tables_can_be_met()
    ensures { TablesCanBeMet }
{}
