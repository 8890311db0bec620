// What is proved of the definitions: each function's contract is a law.
ghost use Rattle.fsync_commit.specs.Laws.{PlansLieOnDisks};

/// A planned change may be committed on the disk of which its nodes are.
pub fn plans_lie_on_disks()
    ensures { PlansLieOnDisks }
{}
