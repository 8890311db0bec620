// What is proved of the definitions: each function's contract is a law.
ghost use Rattle.image_laws.specs.Laws.{RenamedTreesHaveOneShape, StandingImagesShow, CommitsKeepStanding, CommitsKeepDirectoriesFit, CommitsHoldTheirBlocks};
ghost use Rattle.image_laws.specs.Laws.{NoCommitIsAStep, MadeImagesAreCommits, GrantsGiveNumbers, UnconcernedNodesStay, PlannedCommitsHoldElsewhere};
ghost use Rattle.image_laws.specs.Laws.{NetsGiveLinks, NetsKeepPlaces, BlocksEndWithRow, BlocksAreKeptOrRewritten, RanksServeGrants};
ghost use Rattle.image_laws.specs.Laws.{RanksGoOn, RanksTakeFreeBlocks, SlotBlocksShow, EmptyBlocksAreHoles, ByteBlocksShow};
ghost use Rattle.image_laws.specs.Laws.{RulesMakeStanding, FreedOrphansKeepTheTree, NoFaultIsRulesKept, FirstFaultIsLeast, FreeInodesBreakNoTreeRule};
ghost use Rattle.image_laws.specs.Laws.{OrphansBreakNoTreeRule, TreesOfImagesAreMounted, StandingImagesAreRead, StandingPartsAreRead};
ghost use Rattle.image_laws.specs.LawsOfNeed.{TablesAreRewrittenWhereTheyChange};

/// A tree under other numbers is sound where the first is, and has its shape.
pub fn renamed_trees_have_one_shape()
    ensures { RenamedTreesHaveOneShape }
{}

/// An image that stands for a sound tree keeps the rules, and shows a sound tree of its shape.
pub fn standing_images_show()
    ensures { StandingImagesShow }
{}

/// A commit keeps an image standing: for the next tree.
pub fn commits_keep_standing()
    ensures { CommitsKeepStanding }
{}

/// A commit keeps directories within the blocks that one may have.
pub fn commits_keep_directories_fit()
    ensures { CommitsKeepDirectoriesFit }
{}

/// After a commit a block is held where it was before, or it is a fresh one.
pub fn commits_hold_their_blocks()
    ensures { CommitsHoldTheirBlocks }
{}

/// A commit that concerns nothing is a step from each image that stands for a sound tree to itself.
pub fn no_commit_is_a_step()
    ensures { NoCommitIsAStep }
{}

/// What a commit makes of an image is a commit.
pub fn made_images_are_commits()
    ensures { MadeImagesAreCommits }
{}

/// A serving grant gives a commit its numbers.
pub fn grants_give_numbers()
    ensures { GrantsGiveNumbers }
{}

/// A node that a commit does not concern is left as it is.
pub fn unconcerned_nodes_stay()
    ensures { UnconcernedNodesStay }
{}

/// A commit that was planned in one state is one in each other that agrees with it on what it concerns.
pub fn planned_commits_hold_elsewhere()
    ensures { PlannedCommitsHoldElsewhere }
{}

/// Nets give each node's link count.
pub fn nets_give_links()
    ensures { NetsGiveLinks }
{}

/// Nets keep rows in their places, and new rows take the lowest empty slots.
pub fn nets_keep_places()
    ensures { NetsKeepPlaces }
{}

/// A directory's blocks after a commit end with the last one that has a row.
pub fn blocks_end_with_row()
    ensures { BlocksEndWithRow }
{}

/// A block of a directory is rewritten exactly where it does not keep its slots, or is there behind the last one with a row.
pub fn blocks_are_kept_or_rewritten()
    ensures { BlocksAreKeptOrRewritten }
{}

/// The ranks of the places that take a block serve to hand out a grant.
pub fn ranks_serve_grants()
    ensures { RanksServeGrants }
{}

/// The ranks of an inode's places are a slice.
pub fn ranks_go_on()
    ensures { RanksGoOn }
{}

/// A commit that takes its blocks from a serving grant by their ranks takes free blocks, each once.
pub fn ranks_take_free_blocks()
    ensures { RanksTakeFreeBlocks }
{}

/// The part of a directory whose blocks have a commit's slots shows them.
pub fn slot_blocks_show()
    ensures { SlotBlocksShow }
{}

/// A block of a directory without rows is read from a hole.
pub fn empty_blocks_are_holes()
    ensures { EmptyBlocksAreHoles }
{}

/// The part of a file whose blocks have some bytes shows these.
pub fn byte_blocks_show()
    ensures { ByteBlocksShow }
{}

/// An image that keeps the rules stands for its own tree.
pub fn rules_make_standing()
    ensures { RulesMakeStanding }
{}

/// Freeing its orphans leaves an image its tree.
pub fn freed_orphans_keep_the_tree()
    ensures { FreedOrphansKeepTheTree }
{}

/// The first fault is none exactly where the rules hold.
pub fn no_fault_is_rules_kept()
    ensures { NoFaultIsRulesKept }
{}

/// The first fault is that of the least rule that an inode breaks, and of that the least inode.
pub fn first_fault_is_least()
    ensures { FirstFaultIsLeast }
{}

/// A free inode breaks no rule across inodes.
pub fn free_inodes_break_no_tree_rule()
    ensures { FreeInodesBreakNoTreeRule }
{}

/// An orphan of link count 0 breaks no rule across inodes.
pub fn orphans_break_no_tree_rule()
    ensures { OrphansBreakNoTreeRule }
{}

/// An image that has a tree is mounted: its tree is sound, and it stands for it.
pub fn trees_of_images_are_mounted()
    ensures { TreesOfImagesAreMounted }
{}

/// An image with good bytes whose inodes stand for a sound tree has no fault, and a tree of that shape.
pub fn standing_images_are_read()
    ensures { StandingImagesAreRead }
{}

/// An image whose parts, with what its open journal slots give, stand for a sound tree has no fault, and a tree of that shape.
pub fn standing_parts_are_read()
    ensures { StandingPartsAreRead }
{}

/// An indirect block is rewritten exactly where one of its pointers changes, or it covers no byte any more.
pub fn tables_are_rewritten_where_they_change()
    ensures { TablesAreRewrittenWhereTheyChange }
{}
