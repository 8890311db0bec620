//! Laws of needs, and of what is held.
ghost use Rattle.turn_laws.specs.LawsNeed.{BlocksAreListed, HeldAreFound, InodesAreListed, NeedsOnce, NodesAreCounted, RewritesNeedNoNumbers};

/// What is rewritten of a directory does not depend on which inodes are granted.
pub fn rewrites_need_no_numbers()
    ensures { RewritesNeedNoNumbers }
{}

/// What an fsync needs has one value.
pub fn needs_once()
    ensures { NeedsOnce }
{}

/// Each node lies below the bound up to which needs are counted.
pub fn nodes_are_counted()
    ensures { NodesAreCounted }
{}

/// The blocks that are needed are those of listed nodes.
pub fn blocks_are_listed()
    ensures { BlocksAreListed }
{}

/// So are the inodes.
pub fn inodes_are_listed()
    ensures { InodesAreListed }
{}

/// A block is held exactly where an inode in use has it.
pub fn held_are_found()
    ensures { HeldAreFound }
{}
