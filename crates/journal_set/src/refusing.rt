// Whether a commit may reserve.
ghost use Rattle.std.specs.Prelude.{◌≡◌, ◌<◌, IfErr, OnOk, Err};
ghost use Rattle.slot_laws.specs.Labels.{fsync_told};
ghost use Rattle.space_map.specs.declared.grant.Need.{Need};
ghost use Rattle.disk_box.specs.Pens.{IsAtDesk, PenGoes, own_at};
ghost use Rattle.journal_set.specs.Ready.{HasNothingDue};
ghost use Rattle.journal_set.specs.Refusing.{MayReserve};
ghost use Rattle.journal_set.specs.Reserving.{Reserves};
ghost use Rattle.journal_set.specs.Telling.{TellsAtBox, TellsRefusal};

use crate::CommitFault;
use crate::numbering::make_room;
use disk_box::{BoxTable, Desk, Fsync, Pen, halt};
use sfs_dev::Disk;
use slot_laws::Seen;

/// Checks whether the core may reserve for a commit of these nodes. It refuses where there is no memory for its turns, where an earlier commit
/// has failed, and where a node has moved.
pub(crate) fn check_first<D: Disk + Drop>(
    table: &BoxTable<D>,
    pen: &mut Pen<D>,
    desk: &mut Desk<D>,
    fsync: Fsync,
    seen: &[Seen],
) -> Result<(), CommitFault>
    requires at { IsAtDesk D.view table.now pen.old desk.old }
    requires rests { HasNothingDue (own_at pen.old) }
    ensures goes { PenGoes pen.old pen.new }
    ensures room { pen.new.room ≡ pen.old.room }
    ensures at { IsAtDesk D.view table.now pen.new desk.new }
    ensures ok { OnOk result ((pen.new ≡ pen.old) × MayReserve D.view table.now seen.now pen.new desk.new) }
    ensures err { IfErr result (λ fault. (need : Need)
        → Reserves (record { flush = fsync_told fsync.node fsync.stamp; seen = seen.now; need = need }) pen.old pen.new (Err fault)) }
    ensures tells { IfErr result (λ fault. TellsAtBox (TellsRefusal pen.old.view.core (fsync_told fsync.node fsync.stamp) fault) pen.old pen.new) }
{
    make_room(desk)?;
    if desk.failed.is_some() {
        let faults = halt(table, pen, desk, 0, fsync);
        return Err(CommitFault::Stopped { faults });
    }
    if let Some(moved) = desk.ledger.moved(seen) {
        return Err(CommitFault::Moved {
            node: moved.node,
            last: moved.last,
        });
    }
    Ok(())
}
