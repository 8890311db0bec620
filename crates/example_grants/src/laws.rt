//! What is proved of the example: each function's contract is a law.
ghost use Rattle.example_grants.specs.Bytes.{FilesImageStands};
ghost use Rattle.example_grants.specs.Disk.{WritersClose};
ghost use Rattle.example_grants.specs.Laws.{FilesStand, WritersTell, WritersGoAlong};
ghost use Rattle.example_grants.specs.Told.{WritersTellLabels};

/// The volume of two files stands, and a walk may begin with it.
pub fn files_stand()
    ensures { FilesStand }
{}

/// Two cores that each flush one byte of their own file tell of their pairs, and their commits write a record and a block each.
pub fn writers_tell()
    ensures { WritersTell }
{}

/// They do so along a record in which both commits are aloft at a time, with a map of free space that goes along it, so its
/// turns are recorded.
pub fn writers_go_along()
    ensures { WritersGoAlong }
{}

/// They tell labels as each commit writes its record and its block through a journal slot, beside what both bring, and both
/// pens agree.
pub fn writers_tell_labels()
    ensures { WritersTellLabels }
{}

/// On a disk on which both commits are written call by call, they meet all that is asked of the end of a mount, so the mount
/// closes.
pub fn writers_close()
    ensures { WritersClose }
{}

/// There is an image with which such a disk begins, in bytes.
pub fn files_image_stands()
    ensures { FilesImageStands }
{}
