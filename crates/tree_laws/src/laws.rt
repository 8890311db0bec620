// What is proved of the definitions: each function's contract is a law.
ghost use Rattle.tree_laws.specs.Laws.{RootIsSound, CallsKeepSound, HistoriesKeepSound, CallsFit, FittingKeepsSound};
ghost use Rattle.tree_laws.specs.Laws.{DrawnIsNew, DrawnApart};
ghost use Rattle.tree_laws.specs.Laws.{EffectsAct, PartsAfter, NodesAfter, CountsAfter};
ghost use Rattle.tree_laws.specs.Laws.{CallsDoTheirOwn, CallsKeepTheRest, ReadingsDecide, BucketsMakeRows};
ghost use Rattle.tree_laws.specs.Laws.{LocksAreSeen, HoldersStay, WaysStay, DeadStayDead, WalksMeetThoseAbove};
ghost use Rattle.tree_laws.specs.Laws.{ReadHoldersStay, ReadHoldersAreAbove, StandingIsAlive};
ghost use Rattle.tree_laws.specs.Laws.{LogsErase, LogsTellWays, HistoriesStayWithin};
ghost use Rattle.tree_laws.specs.Laws.{TreesAgreeWithThemselves, OwnEntriesAreCores, TouchesAreNamed, CallsTouchOne};
ghost use Rattle.tree_laws.specs.Laws.{RowsAreTheTrees, BytesAreTheTrees, CoresMakeTheHistory};
ghost use Rattle.tree_laws.specs.Laws.{ShapeIsAsWorked};
ghost use Rattle.tree_laws.specs.LawsOfOrder.{ConditionsHaveTheirOrder};

/// The root alone is a sound tree.
pub fn root_alone_is_sound()
    ensures { RootIsSound }
{}

/// Each call keeps a sound tree sound.
pub fn calls_keep_sound()
    ensures { CallsKeepSound }
{}

/// Each tree of a legal history from a sound one on is sound.
pub fn histories_keep_sound()
    ensures { HistoriesKeepSound }
{}

/// What a call does fits a sound tree.
pub fn calls_fit()
    ensures { CallsFit }
{}

/// What fits a sound tree keeps it sound.
pub fn fitting_keeps_sound()
    ensures { FittingKeepsSound }
{}

/// A core's next number is no node's.
pub fn drawn_number_is_new()
    ensures { DrawnIsNew }
{}

/// No two creations have one number.
pub fn drawn_numbers_are_apart()
    ensures { DrawnApart }
{}

/// What stands at a place after an effect is what the effect makes of what stood there.
pub fn effects_act()
    ensures { EffectsAct }
{}

/// What an effect leaves of a part of a directory is made of that part alone.
pub fn parts_after()
    ensures { PartsAfter }
{}

/// What an effect that fits leaves of a node is made of what is said of that node alone.
pub fn nodes_after()
    ensures { NodesAfter }
{}

/// A core's creation counts for that core alone.
pub fn counts_after()
    ensures { CountsAfter }
{}

/// Each call does nothing, or its own.
pub fn calls_do_their_own()
    ensures { CallsDoTheirOwn }
{}

/// Each call keeps what it does not touch.
pub fn calls_keep_the_rest()
    ensures { CallsKeepTheRest }
{}

/// A call has one reply and one effect in two sound trees that agree on what it reads.
pub fn readings_decide()
    ensures { ReadingsDecide }
{}

/// A directory's eight buckets make its rows.
pub fn buckets_make_rows()
    ensures { BucketsMakeRows }
{}

/// A call under the tree lock is a rename between two directories of a directory.
pub fn locks_are_seen()
    ensures { LocksAreSeen }
{}

/// A directory that is alive after a call without the tree lock was alive, with the same holder.
pub fn holders_stay()
    ensures { HoldersStay }
{}

/// The directories above such a one stay.
pub fn ways_stay()
    ensures { WaysStay }
{}

/// No call makes a dead directory alive.
pub fn dead_stay_dead()
    ensures { DeadStayDead }
{}

/// What was read of holders under the tree lock stays so through each call of another core.
pub fn read_holders_stay()
    ensures { ReadHoldersStay }
{}

/// Holders that were read up to the root are the directories above.
pub fn read_holders_are_above()
    ensures { ReadHoldersAreAbove }
{}

/// A directory is alive exactly where it is the root or stands somewhere.
pub fn standing_is_alive()
    ensures { StandingIsAlive }
{}

/// A walk up from a directory meets the directories above it.
pub fn walks_meet_those_above()
    ensures { WalksMeetThoseAbove }
{}

/// A directory's rows at a stamp are those in the tree after the entries below it.
pub fn rows_are_the_trees()
    ensures { RowsAreTheTrees }
{}

/// A file's bytes at a stamp are those in the tree after the entries below it.
pub fn bytes_are_the_trees()
    ensures { BytesAreTheTrees }
{}

/// The lists of the cores of a history make it, each stamp once.
pub fn cores_make_the_history()
    ensures { CoresMakeTheHistory }
{}

/// What an entry logs erases to its changes of rows.
pub fn logs_erase()
    ensures { LogsErase }
{}

/// Each tree of a legal history from one within its limits is within them.
pub fn histories_stay_within()
    ensures { HistoriesStayWithin }
{}

/// A tree agrees with itself on what a call reads.
pub fn trees_agree_with_themselves()
    ensures { TreesAgreeWithThemselves }
{}

/// Of a legal history the lists of its cores' own entries are its cores' lists.
pub fn own_entries_are_cores()
    ensures { OwnEntriesAreCores }
{}

/// A call touches only parts in which a name stands that it names.
pub fn touches_are_named()
    ensures { TouchesAreNamed }
{}

/// A call touches the bytes of one file and the links of one node at most.
pub fn calls_touch_one()
    ensures { CallsTouchOne }
{}

/// The conditions of a directory, of a link and of a creation are tried in their order.
pub fn conditions_have_their_order()
    ensures { ConditionsHaveTheirOrder }
{}

/// The shape of a tree whose file has three names is the one that was worked out by hand.
pub fn shape_is_as_worked()
    ensures { ShapeIsAsWorked }
{}

/// Each change that an entry logs tells the directories above its own where it has to, and no others.
pub fn logs_tell_ways()
    ensures { LogsTellWays }
{}
