// What is proved of the cells that an fsync puts home: each function's contract is a law.
ghost use Rattle.home_laws.specs.Laws.{BirthplacesStay, LogsNameNodes};
ghost use Rattle.home_laws.specs.Files.{ValuesAreFiles};
ghost use Rattle.home_laws.specs.Written.{WrittenValuesStand};

/// The directory in which a node was made stays the one, once the node is there.
pub fn birthplaces_stay()
    ensures { BirthplacesStay }
{}

/// What a log keeps names nodes of the tree alone.
pub fn logs_name_nodes()
    ensures { LogsNameNodes }
{}

/// What a commit wrote of a node goes home once the commit is the node's last one and every log is trimmed for it.
pub fn written_values_stand()
    ensures { WrittenValuesStand }
{}

/// The value of a file cell is the file of the history, so that its marks say which blocks an fsync has to write.
pub fn values_are_files()
    ensures { ValuesAreFiles }
{}
