// What is proved of the definitions: each function's contract is a law.
ghost use Rattle.commit_laws.specs.BytesKept.{GoodPartsHaveNoneBehind, GoodPartsFit, PlansLeaveGoodBytes, PlansKeepParts};
ghost use Rattle.commit_laws.specs.CommitMade.{ChangesMakeCommits};
ghost use Rattle.commit_laws.specs.CommitOfPlan.{PlansMakeCommits, PlansLeaveTrees};
ghost use Rattle.commit_laws.specs.Counting.{NetsCountLinks};
ghost use Rattle.commit_laws.specs.DirectoriesMade.{PlansMakeDirectories};
ghost use Rattle.commit_laws.specs.FilesMade.{PlansMakeFiles};
ghost use Rattle.commit_laws.specs.Granted.{FreshBlocksAreGranted, InodesAreGrantedOrOld, GrantedBlocksAreWritten};
ghost use Rattle.commit_laws.specs.KeptShown.{KeptPartsShow};
ghost use Rattle.commit_laws.specs.NumbersGiven.{GivenNumbersAreThose};
ghost use Rattle.commit_laws.specs.PartsMade.{PlansMakeParts, PlansWriteApart};
ghost use Rattle.commit_laws.specs.PartsStand.{AlikeImagesStand, PlansLeaveParts};
ghost use Rattle.commit_laws.specs.PartsTurned.{PlansTurnParts, PlansWriteParts, PlansPointToData};
ghost use Rattle.commit_laws.specs.PlanShown.{PlansShowInodes, PlansKeepShown};
ghost use Rattle.commit_laws.specs.Ranked.{NodesAreBuiltByRank, NeedsAreThose};
ghost use Rattle.commit_laws.specs.Rewritten.{SameRewritesTakeTheSame, PlansRewriteAsDefined, PlansNeedAsDefined};
ghost use Rattle.commit_laws.specs.Shown.{BuiltNodesShow};
ghost use Rattle.commit_laws.specs.SlotsKept.{NetSlotsAreThose};
ghost use Rattle.commit_laws.specs.Whole.{BuiltNodesShowTheirInodes, ChangesLeaveTrees};

/// A node's link count after nets is that in the tree after them.
pub fn nets_count_links()
    ensures { NetsCountLinks }
{}

/// The slots of a directory after a net, with the numbers of its children, are those of a commit.
pub fn net_slots_are_those()
    ensures { NetSlotsAreThose }
{}

/// What is built of a node shows it as the new tree has it.
pub fn built_nodes_show()
    ensures { BuiltNodesShow }
{}

/// Each node of a commit has the blocks that the grant has for its places by their ranks.
pub fn nodes_are_built_by_rank()
    ensures { NodesAreBuiltByRank }
{}

/// The fresh blocks that a commit needs are those of its rewritten nodes.
pub fn needs_are_those()
    ensures { NeedsAreThose }
{}

/// A change with a grant that serves is a commit.
pub fn changes_make_commits()
    ensures { ChangesMakeCommits }
{}

/// A node that stays keeps its number, and those that enter get the grant's in their order.
pub fn given_numbers_are_those()
    ensures { GivenNumbersAreThose }
{}

/// What is built of a node shows exactly the inode that the commit makes for it.
pub fn built_nodes_show_their_inodes()
    ensures { BuiltNodesShowTheirInodes }
{}

/// The image that a change makes stands for the new tree.
pub fn changes_leave_trees()
    ensures { ChangesLeaveTrees }
{}

/// Each fresh block that a commit writes is one of its grant.
pub fn fresh_blocks_are_granted()
    ensures { FreshBlocksAreGranted }
{}

/// Each inode in the records and in what the disk then has is one of the grant, or an old one.
pub fn inodes_are_granted_or_old()
    ensures { InodesAreGrantedOrOld }
{}

/// What a plan makes over an image with a grant is a commit.
pub fn plans_make_commits()
    ensures { PlansMakeCommits }
{}

/// The image that the commit of a plan makes stands for the new tree.
pub fn plans_leave_trees()
    ensures { PlansLeaveTrees }
{}

/// What is kept of a part is what its inode shows.
pub fn kept_parts_show()
    ensures { KeptPartsShow }
{}

/// What a plan builds of a node shows what its inode shows in the image that the commit makes.
pub fn plans_show_inodes()
    ensures { PlansShowInodes }
{}

/// What the disk has of a node after the commit of a plan is what its inode then shows.
pub fn plans_keep_shown()
    ensures { PlansKeepShown }
{}

/// Rewritings that say the same take fresh blocks at the same places.
pub fn same_rewrites_take_the_same()
    ensures { SameRewritesTakeTheSame }
{}

/// What a plan rewrites of each node is what the definition says.
pub fn plans_rewrite_as_defined()
    ensures { PlansRewriteAsDefined }
{}

/// A plan needs as many fresh blocks as the definition says.
pub fn plans_need_as_defined()
    ensures { PlansNeedAsDefined }
{}

/// The fresh blocks that a commit writes are exactly those of its grant, in their order.
pub fn granted_blocks_are_written()
    ensures { GrantedBlocksAreWritten }
{}

/// The part of a node after a commit is made of the fresh blocks and of the part before.
pub fn plans_make_parts()
    ensures { PlansMakeParts }
{}

/// No two fresh blocks are one, and none is one that a part points to.
pub fn plans_write_apart()
    ensures { PlansWriteApart }
{}

/// The part of a file after a commit has the new bytes, and shows what the next image shows.
pub fn plans_make_files()
    ensures { PlansMakeFiles }
{}

/// The part of a directory after a commit has the new slots, and is what the disk then has of it in memory.
pub fn plans_make_directories()
    ensures { PlansMakeDirectories }
{}

/// An image that shows what another one shows stands for the same tree.
pub fn alike_images_stand()
    ensures { AlikeImagesStand }
{}

/// The parts after the commit of a plan stand for the new tree.
pub fn plans_leave_parts()
    ensures { PlansLeaveParts }
{}

/// The fresh blocks of a commit turn each part before it into the part after it.
pub fn plans_turn_parts()
    ensures { PlansTurnParts }
{}

/// The records that a commit writes are those of the parts after it.
pub fn plans_write_parts()
    ensures { PlansWriteParts }
{}

/// The parts after a commit point to the data area.
pub fn plans_point_to_data()
    ensures { PlansPointToData }
{}

/// No directory of good parts has a block behind its slots.
pub fn good_parts_have_none_behind()
    ensures { GoodPartsHaveNoneBehind }
{}

/// And none has more blocks than a directory may have.
pub fn good_parts_fit()
    ensures { GoodPartsFit }
{}

/// The parts after a commit break no rule on the bytes of one inode.
pub fn plans_leave_good_bytes()
    ensures { PlansLeaveGoodBytes }
{}

/// What the disk has of a node after a commit is what is kept of its part.
pub fn plans_keep_parts()
    ensures { PlansKeepParts }
{}
