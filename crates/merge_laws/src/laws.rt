//! What is proved of pens and of their turns: each function's contract is a law.
ghost use Rattle.merge_laws.specs.Laws.{DurablesAreAcknowledged, DurablesReadBack, DurablesSurvive, MergedTell, MergedTurns, MomentsCutTurns};
ghost use Rattle.merge_laws.specs.Worked.{EachWayIsMet, TwoPensAgree};

use sfs_dev::Disk;

/// Where all cores agree with their pens, the record of turns is what fsyncs do.
pub fn merged_turns()
    ensures { MergedTurns }
{}

/// Such a record tells of the answers of fsyncs and of their acknowledgements.
pub fn merged_tell()
    ensures { MergedTell }
{}

/// The turns up to a moment are a front of the record.
pub fn moments_cut_turns()
    ensures { MomentsCutTurns }
{}

/// The fsyncs durable up to a moment are those acknowledged by it, in their order.
pub fn durables_are_acknowledged()
    ensures { DurablesAreAcknowledged }
{}

/// What survives a crash in the order of turns survives it in that of acknowledgements.
pub fn durables_survive<D: Disk>(disk: &D)
    ensures { DurablesSurvive (D.view disk.now) }
{}

/// And so does what is read back at the end.
pub fn durables_read_back<D: Disk>(disk: &D)
    ensures { DurablesReadBack (D.view disk.now) }
{}

/// Two pens agree whose commits are aloft at a time, the second of which ends first.
pub fn two_pens_agree()
    ensures { TwoPensAgree }
{}

/// Each way is met by two cores that agree with their pens.
pub fn each_way_is_met()
    ensures { EachWayIsMet }
{}
