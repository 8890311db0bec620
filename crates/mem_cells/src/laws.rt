// What is proved of the definitions: each function's contract is a law.
ghost use Rattle.mem_cells.specs.Laws.{PartsBegin, EntriesAreKept, TrimsKeep, NamingsAreLeft, OutsideNamingsTell};

/// A part without changes is what is left of no entries.
pub fn parts_begin()
    ensures { PartsBegin }
{}

/// A part with an entry more is what is left of the changes with those of the entry.
pub fn entries_are_kept()
    ensures { EntriesAreKept }
{}

/// A trimmed part is what is left of the same changes.
pub fn trims_keep()
    ensures { TrimsKeep }
{}

/// The kept changes that name a node are those of all the core's changes that are left.
pub fn namings_are_left()
    ensures { NamingsAreLeft }
{}

/// A node is named outside of some directories where more kept changes name it than those of these.
pub fn outside_namings_tell()
    ensures { OutsideNamingsTell }
{}
