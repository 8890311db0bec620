// Laws of members, and of which nodes have an inode.
ghost use Rattle.cut_laws.specs.LawsInodes.{BirthsAreNewNodes, FilesEnterBlank, FilesSettle, InodesAreNamed, NoneIsDead};
ghost use Rattle.cut_laws.specs.LawsInodes.{DirectoriesAreNamed, DirectoriesStayNamed};
ghost use Rattle.cut_laws.specs.LawsInodes.{FilesFlushThemselves, FilesKeepInodes, MembersAreDirectories, OthersStay};

/// Each member of an fsync's closure is the fsync's own node or a directory.
pub fn members_are_directories()
    ensures { MembersAreDirectories }
{}

/// An fsync of a file that has an inode concerns that file alone.
pub fn files_flush_themselves()
    ensures { FilesFlushThemselves }
{}

/// An fsync of a live file that has an inode gives none and takes none.
pub fn files_keep_inodes()
    ensures { FilesKeepInodes }
{}

/// An fsync leaves a node that it does not concern as it was.
pub fn others_stay()
    ensures { OthersStay }
{}

/// No node with an inode is dead, but one that nothing ever names.
pub fn none_is_dead()
    ensures { NoneIsDead }
{}

/// Each directory with an inode is the root or is named at the cut, but for one that nothing ever names.
pub fn directories_are_named()
    ensures { DirectoriesAreNamed }
{}

/// Where each node of the first tree is alive, the root is the only node with an inode that nothing ever names.
pub fn inodes_are_named()
    ensures { InodesAreNamed }
{}

/// An fsync leaves a directory named that keeps its inode.
pub fn directories_stay_named()
    ensures { DirectoriesStayNamed }
{}

/// An fsync of a file leaves it with an inode, or dead.
pub fn files_settle()
    ensures { FilesSettle }
{}

/// A file that gets an inode had the stamp 0 and no bytes.
pub fn files_enter_blank()
    ensures { FilesEnterBlank }
{}

/// A node is made in a legal history exactly where the tree after it has the node and the first tree has not.
pub fn births_are_new_nodes()
    ensures { BirthsAreNewNodes }
{}
