// The journals are closed.
ghost use Rattle.std.specs.Prelude.{List};
ghost use Rattle.stamp_table.specs.declared.event.Event.{Event as EventOf};
ghost use Rattle.slot_laws.specs.declared.label.Label.{Label as LabelOf};
ghost use Rattle.journal_set.specs.Making.{LeavesDisk, MayClose};

use crate::JournalSet;
use disk_box::{Desk, Pen};
use sfs_dev::Disk;
use tree_laws::Turns;

impl<D: Disk + Drop> JournalSet<D> {
    /// Ends the journals, and answers the disk and the record of turns. Slots that are open stay open. It takes all pens, ascending by number, none
    /// of which has a grant whose commit or return is still due. It takes no memory and makes no device call.
    pub fn close(self, pens: Vec<Pen<D>>) -> (D, Turns)
        requires may { MayClose self pens.items }
        ensures leaves { (log : List (EventOf LabelOf)) × LeavesDisk D.view self.table.given pens.items log result.0 result.1.items }
    {
        let JournalSet { table, .. } = self;
        let (_, mut values) = table.close(pens);
        let value = values.swap_remove(0);
        let Some(desk) = value else { unreachable!() };
        let Desk { disk, turns, .. } = desk;
        (disk, turns)
    }
}
