// What is proved of what cores tell as they reserve: each function's contract is a law.
ghost use Rattle.tell_laws.specs.Kept.{SawsAreKept};
ghost use Rattle.tell_laws.specs.Tells.{MadesTell, OwnsTell};

/// What a core saw of a node is, in a volume's words, what those that are done left of it, where what is told is what plans leave.
pub fn saws_are_kept()
    ensures { SawsAreKept }
{}

/// A core tells of its pair at the place at which its fsync reserves.
pub fn mades_tell()
    ensures { MadesTell }
{}

/// So does one whose fsync is of a file that has an inode.
pub fn owns_tell()
    ensures { OwnsTell }
{}
