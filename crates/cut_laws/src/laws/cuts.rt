// Laws of cuts, and of the tree at a cut.
ghost use Rattle.cut_laws.specs.Laws.{ClosedCutsAreSound, CutsKeepKinds, DirectoriesAreCut, FilesAreCut};

/// In the tree at a cut a directory has its rows at its own stamp.
pub fn directories_are_cut()
    ensures { DirectoriesAreCut }
{}

/// In the tree at a cut each node has its bytes at its own stamp.
pub fn files_are_cut()
    ensures { FilesAreCut }
{}

/// The tree at a cut has the nodes of the tree after the history, with their kinds.
pub fn cuts_keep_kinds()
    ensures { CutsKeepKinds }
{}

/// A closed cut gives a sound tree.
pub fn closed_cuts_are_sound()
    ensures { ClosedCutsAreSound }
{}
