// What is proved of the definitions: each function's contract is a law.
ghost use Rattle.std.specs.Prelude.{◌≡◌, ℕ, None, false};
ghost use Rattle.sfs_image.specs.Format.{IsFormat};
ghost use Rattle.sfs_image.specs.Inode.{IsInode, inode_of, inode_fault, inode_bytes, ArePointers, pointers_of, pointers_bytes};
ghost use Rattle.sfs_image.specs.Journal.{Head, IsHead, head_of, head_bytes};
ghost use Rattle.sfs_image.specs.Laws.{NewestRecordsFill, JustMadeShowsRoot, AcceptedImagesStand, LeftGatesKeep, GatesSayWhichAreOpen};
ghost use Rattle.sfs_image.specs.Laws.{JournalFaultsAreFirst, FreshBlocksMakeParts, LayoutsDivide};
ghost use Rattle.sfs_image.specs.Laws.{RangesHaveEntries, SlotsAreNumbered, RingsLieCoreByCore, EntriesAreReadAgain, SettledIsNewest};
ghost use Rattle.sfs_image.specs.Laws.{MadePartsTurn, SettledIsTables, ImagesStandForParts, DataWritesKeep, TableWritesKeep};
ghost use Rattle.sfs_image.specs.Laws.{OldestOfItsInodesMayShut, TablesStayFull, BodyWritesKeep, OpenedGatesAdd, ShutGatesKeep};
ghost use Rattle.sfs_image.specs.LawsOfFields.{FieldsHavePlaces, RecordsSay, RootsSay};
ghost use Rattle.sfs_image.specs.LawsOfParts.{BytesAreShown, SlotsAreShown, SizesSay, PointersSay, TailsSay};
ghost use Rattle.sfs_image.specs.LawsOfParts.{PointersHavePlaces, BlocksCoverTheirOwn, TablesCoverFromTheirFirst, AreTheLimits};
ghost use Rattle.sfs_image.specs.LawsOfParts.{BlocksSay, SlotsSay, HolesAreZeros, BytesAreTheBlocks};
ghost use Rattle.sfs_image.specs.LawsOfParts.{PartsAreWhatTheyReach, FreeInodesBreakNone, BlocksHaveOnePlace};
ghost use Rattle.sfs_image.specs.Slot.{IsSlot, slot_of, slot_fault, slot_bytes};
ghost use Rattle.sfs_image.specs.SlotBlock.{AreSlots, slots_of, slots_fault, slots_bytes};
ghost use Rattle.sfs_image.specs.Super.{IsLayout, super_of, super_fault, super_bytes};

/// The superblock is a format of 4,096 bytes, on a disk of any number of blocks.
pub fn super_is_format()
    ensures { (len : ℕ) → IsFormat 4096 (IsLayout len) super_of (super_fault len) super_bytes }
{}

/// The record of an inode is a format of 512 bytes.
pub fn inode_is_format()
    ensures { IsFormat 512 IsInode inode_of inode_fault inode_bytes }
{}

/// An indirect block of 1,024 pointers is a format of 4,096 bytes, in which nothing is wrong.
pub fn pointers_are_format()
    ensures { IsFormat 4096 ArePointers pointers_of (λ _. None) pointers_bytes }
{}

/// A directory's slot is a format of 264 bytes.
pub fn slot_is_format()
    ensures { IsFormat 264 IsSlot slot_of slot_fault slot_bytes }
{}

/// A directory's block of 15 slots is a format of 4,096 bytes.
pub fn slot_block_is_format()
    ensures { IsFormat 4096 AreSlots slots_of slots_fault slots_bytes }
{}

/// The head of a journal slot is read again from its bytes, but for the gate, which they close.
pub fn head_is_read_again()
    ensures { (head : Head) → IsHead head → head_of (head_bytes head) ≡ record head { gate = false } }
{}

/// The fields of superblock, slot, record and head stand each at its bytes.
pub fn fields_have_places()
    ensures { FieldsHavePlaces }
{}

/// The parts of a disk lie one behind another.
pub fn layouts_divide()
    ensures { LayoutsDivide }
{}

/// Each slot of a core has its number.
pub fn slots_are_numbered()
    ensures { SlotsAreNumbered }
{}

/// On a disk of two cores with three slots each, the slots lie core by core, then in their order.
pub fn rings_lie_core_by_core()
    ensures { RingsLieCoreByCore }
{}

/// Entries that stand in a slot are read again from it.
pub fn entries_are_read_again()
    ensures { EntriesAreReadAgain }
{}

/// The settled record is that of the open slot with the greatest commit stamp that has one.
pub fn settled_is_newest()
    ensures { SettledIsNewest }
{}

/// The settled record that no open slot has is the table's.
pub fn settled_is_tables()
    ensures { SettledIsTables }
{}

/// A hole reads as zeros.
pub fn holes_are_zeros()
    ensures { HolesAreZeros }
{}

/// A byte of a file is that of the block that a pointer names.
pub fn bytes_are_the_blocks()
    ensures { BytesAreTheBlocks }
{}

/// A part is the same in each store that has the same blocks where it has pointers.
pub fn parts_are_what_they_reach()
    ensures { PartsAreWhatTheyReach }
{}

/// A free inode, other than inode 0, breaks no rule but the first.
pub fn free_inodes_break_none()
    ensures { FreeInodesBreakNone }
{}

/// Where no inode breaks the fifth rule each block stands at one place of one inode.
pub fn blocks_have_one_place()
    ensures { BlocksHaveOnePlace }
{}

/// An image that stands for parts is read as these, whichever of its slots are open.
pub fn images_stand_for_parts()
    ensures { ImagesStandForParts }
{}

/// A write apart from the blocks of all parts keeps what an image stands for.
pub fn data_writes_keep()
    ensures { DataWritesKeep }
{}

/// A write within the table's records of neighbouring inodes, each of which an open slot has, keeps what an
/// image stands for.
pub fn table_writes_keep()
    ensures { TableWritesKeep }
{}

/// A write behind the gate of a closed slot keeps what an image stands for.
pub fn body_writes_keep()
    ensures { BodyWritesKeep }
{}

/// A gate that opens over a whole body adds the body's transaction.
pub fn opened_gates_add()
    ensures { OpenedGatesAdd }
{}

/// A gate that shuts once the table has what its slot alone gives changes no part.
pub fn shut_gates_keep()
    ensures { ShutGatesKeep }
{}

/// Fresh blocks that turn the part of an inode into a new one make the new one in an image.
pub fn fresh_blocks_make_parts()
    ensures { FreshBlocksMakeParts }
{}

/// The fault of an image's journals is that of the first slot that has one.
pub fn journal_faults_are_first()
    ensures { JournalFaultsAreFirst }
{}

/// A file shows its bytes, as many as its size.
pub fn files_show_their_bytes()
    ensures { BytesAreShown }
{}

/// A directory shows the slots of its blocks, block after block.
pub fn directories_show_their_slots()
    ensures { SlotsAreShown }
{}

/// What the rules on records, on inode 0, on sizes, pointers, blocks, last blocks and slots say: an inode keeps one exactly where a
/// fact of it holds.
pub fn rules_say()
    ensures records { RecordsSay }
    ensures roots { RootsSay }
    ensures sizes { SizesSay }
    ensures pointers { PointersSay }
    ensures blocks { BlocksSay }
    ensures tails { TailsSay }
    ensures slots { SlotsSay }
{}

/// An image in which nothing is wrong stands for the parts of its table, with its open slots open.
pub fn accepted_images_stand()
    ensures { AcceptedImagesStand }
{}

/// A write at a gate that leaves the gate what it was keeps what an image stands for.
pub fn left_gates_keep()
    ensures { LeftGatesKeep }
{}

/// Where each slot may be that of a transaction, each is, of those whose gates are open.
pub fn gates_say_which_are_open()
    ensures { GatesSayWhichAreOpen }
{}

/// An open slot that is the oldest of its inodes may be closed where the table has the records of all parts, or
/// those of its own.
pub fn oldest_of_its_inodes_may_shut()
    ensures { OldestOfItsInodesMayShut }
{}

/// A table that has the records of all parts has them once a gate has shut.
pub fn tables_stay_full()
    ensures { TablesStayFull }
{}

/// An image that is just made shows the root alone.
pub fn just_made_shows_root()
    ensures { JustMadeShowsRoot }
{}

/// Entries whose numbers and records stand in two ranges of a slot have each its own at its place.
pub fn ranges_have_entries()
    ensures { RangesHaveEntries }
{}

/// Fresh blocks turn an old part into a new one that is made of them and of the old part.
pub fn made_parts_turn()
    ensures { MadePartsTurn }
{}

/// A table that has the newest records of the open slots has the records of all parts.
pub fn newest_records_fill()
    ensures { NewestRecordsFill }
{}

/// What pointers cover, and the limits of files and directories.
pub fn pointers_cover()
    ensures blocks { BlocksCoverTheirOwn }
    ensures tables { TablesCoverFromTheirFirst }
    ensures limits { AreTheLimits }
{}

/// Pointers stand in the record and in the indirect blocks, each at its place.
pub fn pointers_have_places()
    ensures { PointersHavePlaces }
{}
