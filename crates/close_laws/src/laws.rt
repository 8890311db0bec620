//! What is proved: each function's contract is a law.
ghost use Rattle.close_laws.specs.Close.{TableMountsClose, TurnsClose};
ghost use Rattle.close_laws.specs.Fronts.{LabelsAreOneRecord};
ghost use Rattle.close_laws.specs.Pens.{PensAreTurnsOf, PensMountsClose};

// What is proved of labels beside what commits bring: each function's contract is a law.
ghost use Rattle.close_laws.specs.Beside.{CommitsBeginWell, LabelsStandBeside, TurnsSayParts};
ghost use Rattle.close_laws.specs.Maps.{MapsAreDrawn, TurnsStandBeside};
ghost use Rattle.close_laws.specs.PenLabels.{PensBeginWell, PensHaveTurns, PensStandBeside, PensTellLabels};

/// Turns that reserve or give back stand beside the labels that do.
pub fn turns_stand_beside()
    ensures { TurnsStandBeside }
{}

/// So a map of free space along turns is drawn from the one along labels.
pub fn maps_are_drawn()
    ensures { MapsAreDrawn }
{}

/// Beside each volume that is imagined with the commits that have ended their pairs stand, and those of
/// the open ones; and the map is right.
pub fn labels_stand_beside()
    ensures { LabelsStandBeside }
{}

/// Each commit begins where it may.
pub fn commits_begin_well()
    ensures { CommitsBeginWell }
{}

/// The parts that the turns say are those that were brought.
pub fn turns_say_parts()
    ensures { TurnsSayParts }
{}

/// Where pens tell turn by turn at the box, the turns that they note stand beside their labels.
pub fn pens_stand_beside()
    ensures { PensStandBeside }
{}

/// And where each of these turns is of what commits bring, so is the history.
pub fn pens_tell_labels()
    ensures { PensTellLabels }
{}

/// So each commit begins where it may, where cores tell of their pairs.
pub fn pens_begin_well()
    ensures { PensBeginWell }
{}

/// A core at rest and its pen have the same turns.
pub fn pens_have_turns()
    ensures { PensHaveTurns }
{}

use sfs_dev::Disk;

/// Each front of the record that labels make is one record of volumes and of parts.
pub fn labels_are_one_record()
    ensures { LabelsAreOneRecord }
{}

/// A crash leaves of a mount, in the order of its turns, what its fsyncs have raised, and a read at its end gives exactly the durable ones.
pub fn turns_close<D: Disk>(disk: &D)
    ensures { TurnsClose (D.view disk.now) }
{}

/// So a mount of many cores that ends with its pens survives each crash, and is read back at its end.
pub fn table_mounts_close<D: Disk>(disk: &D)
    ensures { TableMountsClose (D.view disk.now) }
{}

/// Where pens tell turn by turn at the box and are at rest, each turn of the record is of the fsync whose commit stands under its stamp.
pub fn pens_are_turns_of()
    ensures { PensAreTurnsOf }
{}

/// So such a mount survives each crash, and is read back at its end.
pub fn pens_mounts_close<D: Disk>(disk: &D)
    ensures { PensMountsClose (D.view disk.now) }
{}
