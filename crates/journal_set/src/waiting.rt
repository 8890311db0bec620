// A commit that has reserved begins in an idle slot of its core's own; while there is none its core works towards one.
ghost use Rattle.std.specs.Prelude.{◌≡◌, Some, IfErr, false, length};
ghost use Rattle.slot_laws.specs.Labels.{fsync_told, owner};
ghost use Rattle.disk_box.specs.Calls.{awaits_sync};
ghost use Rattle.disk_box.specs.Kind.{HasKind};
ghost use Rattle.disk_box.specs.Pens.{IsAtDesk, PenGoes, WorksAtDesk, calls_at, own_at, past_at};
ghost use Rattle.disk_box.specs.declared.kind.Kind.TheVariants as kind;
ghost use Rattle.journal_set.specs.Beginning.{CanBeWritten};
ghost use Rattle.journal_set.specs.Committing.{BeginComes, BeginsFlight};
ghost use Rattle.journal_set.specs.Counting.{BeginsOnce, IsBegunAlone};
ghost use Rattle.slot_laws.specs.Schedule.{AllIdle};
ghost use Rattle.journal_set.specs.Flying.{IsCausedBy};
ghost use Rattle.journal_set.specs.Grants.{grant_at};
ghost use Rattle.journal_set.specs.OwnSlots.{NoneIdle};
ghost use Rattle.journal_set.specs.Telling.{OfReserved, TellsAtBox, TellsBegin, begin_labels, written_in};

use crate::CommitFault;
use crate::beginning::{Writing, begin_one};
use crate::flying::{Flight, PATIENCE};
use crate::own_slots::{lets_others_write, own_with};
use disk_box::{BoxTable, Desk, Kind, Pen, fail_unopened, halt, oldest, step_oldest};
use sfs_dev::Disk;

/// What a turn towards a commit's beginning comes to.
#[derive(Drop)]
pub enum Beginning {
    /// No slot of the core's own is idle yet.
    Waits { writing: Writing },
    /// The commit has begun in a slot.
    Begun { flight: Flight },
}

/// One turn towards a commit's beginning, while the core has the box: it begins in an idle slot of its core's own, or the core makes one
/// device call towards one.
pub(crate) fn begin_at<D: Disk + Drop>(
    table: &BoxTable<D>,
    pen: &mut Pen<D>,
    desk: &mut Desk<D>,
    writing: Writing,
) -> Result<Beginning, CommitFault>
    requires at { IsAtDesk D.view table.now pen.old desk.old }
    requires grant { grant_at pen.old ≡ Some writing.grant }
    requires goes_on { (own_at pen.old).over ≡ false }
    requires written { CanBeWritten pen.old.table.given.layout writing }
    ensures at { IsAtDesk D.view table.now pen.new desk.new }
    ensures goes { PenGoes pen.old pen.new }
    ensures room { pen.new.room ≡ pen.old.room }
    ensures comes { BeginComes writing pen.old pen.new result }
    ensures tells { TellsAtBox (OfReserved (own_at pen.old) (λ number. begin_labels pen.old.view.core
        (fsync_told writing.fsync.node writing.fsync.stamp) (written_in writing) number result)) pen.old pen.new }
    ensures cause { IfErr result (IsCausedBy pen.new) }
    ensures counts { BeginsOnce writing.packed pen.old pen.new result }
{
    let core = pen.number();
    let Some(number) = desk.ledger.number(core) else {
        unreachable!()
    };
    if desk.failed.is_some() {
        let faults = halt(table, pen, desk, number, writing.fsync);
        return Err(CommitFault::Stopped { faults });
    }
    match own_with(desk, core, Kind::Idle) {
        Some(k) => {
            let flight = begin_in(table, pen, desk, k, number, writing);
            Ok(Beginning::Begun { flight })
        }
        None => free_slot(table, pen, desk, number, writing),
    }
}

// It begins in this slot.
fn begin_in<D: Disk + Drop>(
    table: &BoxTable<D>,
    pen: &mut Pen<D>,
    desk: &mut Desk<D>,
    k: usize,
    number: u64,
    writing: Writing,
) -> Flight
    requires work { WorksAtDesk D.view table.now pen.old desk.old }
    requires own { owner pen.old.table.given.layout k ≡ pen.old.view.core }
    requires kind { HasKind desk.old.slots.items k kind.Idle }
    requires number { (own_at pen.old).reserved ≡ Some number }
    requires grant { grant_at pen.old ≡ Some writing.grant }
    requires written { CanBeWritten pen.old.table.given.layout writing }
    ensures work { WorksAtDesk D.view table.now pen.new desk.new }
    ensures goes { PenGoes pen.old pen.new }
    ensures room { pen.new.room ≡ pen.old.room }
    ensures begins { BeginsFlight result (own_at pen.old) (own_at pen.new) }
    ensures fsync { result.fsync ≡ writing.fsync }
    ensures tells { TellsAtBox (OfReserved (own_at pen.old) (TellsBegin pen.old.view.core (fsync_told writing.fsync.node writing.fsync.stamp)
        (written_in writing))) pen.old pen.new }
    ensures calls { calls_at pen.new ≡ calls_at pen.old }
    ensures starts { AllIdle (past_at pen.old).slots → IsBegunAlone writing.packed result.slot (calls_at pen.old) pen.new }
{
    let fsync = writing.fsync;
    begin_one(table, pen, desk, k, writing);
    Flight {
        slot: k,
        commit: number,
        fsync,
        told: false,
        patience: PATIENCE,
    }
}

// No slot of the core's own is idle: one device call at most, on the oldest commit that lingers in a slot, whoever's it is.
fn free_slot<D: Disk + Drop>(
    table: &BoxTable<D>,
    pen: &mut Pen<D>,
    desk: &mut Desk<D>,
    number: u64,
    writing: Writing,
) -> Result<Beginning, CommitFault>
    requires work { WorksAtDesk D.view table.now pen.old desk.old }
    requires number { (own_at pen.old).reserved ≡ Some number }
    requires goes_on { (own_at pen.old).over ≡ false }
    requires none { NoneIdle desk.old.slots.items (length desk.old.waits.items) pen.old.view.core }
    ensures at { IsAtDesk D.view table.now pen.new desk.new }
    ensures goes { PenGoes pen.old pen.new }
    ensures room { pen.new.room ≡ pen.old.room }
    ensures comes { BeginComes writing pen.old pen.new result }
    ensures tells { TellsAtBox (OfReserved (own_at pen.old) (λ number. begin_labels pen.old.view.core
        (fsync_told writing.fsync.node writing.fsync.stamp) (written_in writing) number result)) pen.old pen.new }
    ensures cause { IfErr result (IsCausedBy pen.new) }
    ensures counts { BeginsOnce writing.packed pen.old pen.new result }
{
    let Some(k) = oldest(desk) else {
        unreachable!()
    };
    let mut patience = writing.patience;
    if awaits_sync(desk.kind_at(k)) && lets_others_write(desk, pen.number(), &mut patience) {
        let still = Writing {
            patience,
            ..writing
        };
        return Ok(Beginning::Waits { writing: still });
    }
    match step_oldest(table, pen, desk, k) {
        Ok(()) => Ok(Beginning::Waits { writing }),
        Err(faults) => {
            fail_unopened(table, pen, desk, number, writing.fsync, faults);
            Err(CommitFault::DiskFailed { faults })
        }
    }
}

// Whether what is done next for a slot of this phase is a sync.
fn awaits_sync(what: Kind) -> bool
    ensures { result ≡ awaits_sync what }
{
    match what {
        Kind::Filled | Kind::Opened | Kind::Placed | Kind::Closing => true,
        _ => false,
    }
}
