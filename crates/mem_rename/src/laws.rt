// What is proved of a rename: each function's contract is a law.
ghost use Rattle.mem_rename.specs.Laws.{RenamesAreAsSeen, RenamesKeepCells, RenamesLog, RenamesNeedLock, MovedBucketsShow, ReplacedFilesLoseALink};
ghost use Rattle.mem_rename.specs.Laws.{ReadingGoesUp, ReadingEndsAtTheRoot, ReadingBreaksOffBelowTheDead, ReadWaysStay, CallsMayComeOnAWay};

/// In every sound tree that shows what a rename reads, it answers and does what these values say.
pub fn renames_are_as_seen()
    ensures { RenamesAreAsSeen }
{}

/// It keeps every cell but those that the values name.
pub fn renames_keep_cells()
    ensures { RenamesKeepCells }
{}

/// It logs what the values say, the directories above the new one included.
pub fn renames_log()
    ensures { RenamesLog }
{}

/// It needs the lock of the tree exactly where a directory comes to another one.
pub fn renames_need_lock()
    ensures { RenamesNeedLock }
{}

/// Once a child has moved, a bucket that is as the rename leaves it shows the tree after it.
pub fn moved_buckets_show()
    ensures { MovedBucketsShow }
{}

/// And a file that it replaced has one row less that names it.
pub fn replaced_files_lose_a_link()
    ensures { ReplacedFilesLoseALink }
{}

/// A bucket of the last directory that was read gives the next one.
pub fn reading_goes_up()
    ensures { ReadingGoesUp }
{}

/// Reading has come to an end at the root.
pub fn reading_ends_at_the_root()
    ensures { ReadingEndsAtTheRoot }
{}

/// Where it comes to one that stands nowhere and is not the root, the directory below is not alive.
pub fn reading_breaks_off_below_the_dead()
    ensures { ReadingBreaksOffBelowTheDead }
{}

/// As long as the lock's value stands, directories that were read above a node are its holders.
pub fn read_ways_stay()
    ensures { ReadWaysStay }
{}

/// A core that has read directories above a node may stamp a call that fits each tree in which these are the holders.
pub fn calls_may_come_on_a_way()
    ensures { CallsMayComeOnAWay }
{}

ghost use Rattle.mem_rename.specs.Laws.{DecisionsAreVerdicts};

/// What a rename decides by what it has looked at is what the values say.
pub fn decisions_are_verdicts()
    ensures { DecisionsAreVerdicts }
{}

ghost use Rattle.mem_rename.specs.Laws.{ReadyCoresSeeAll, ReadyCoresHoldAll, MovedCellsGoHome};

/// What a core holds that is ready for a rename shows each tree that it may meet.
pub fn ready_cores_see_all()
    ensures { ReadyCoresSeeAll }
{}

/// And it holds each cell that the rename does not keep there.
pub fn ready_cores_hold_all()
    ensures { ReadyCoresHoldAll }
{}

/// Where a child has moved, each cell of its core goes home with the value that the rename leaves in it.
pub fn moved_cells_go_home()
    ensures { MovedCellsGoHome }
{}
