// What is proved of the definitions: each function's contract is a law.
ghost use Rattle.block_map.specs.KeptLaws.{KeptPointersStand};
ghost use Rattle.block_map.specs.RemapLaws.{RemappedPointersStand, FreedBlocksAreLeft};

/// What is kept of a part has at each place the part's pointer.
pub fn kept_pointers_stand()
    ensures { KeptPointersStand }
{}

/// The pointers at all places after a rewriting are those of the new record and indirect blocks.
pub fn remapped_pointers_stand()
    ensures { RemappedPointersStand }
{}

/// What is given up is exactly what was held and is held no more.
pub fn freed_blocks_are_left()
    ensures { FreedBlocksAreLeft }
{}
