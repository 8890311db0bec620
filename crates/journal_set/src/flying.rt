// A commit under way in a slot of its core's own.
ghost use Rattle.std.specs.Prelude.{◌≡◌, ◌⊎◌, ◌<◌, length, Bool, None, IfOk, IfErr, OnOk, true, false};
ghost use Rattle.slot_laws.specs.Labels.{owner};
ghost use Rattle.disk_box.specs.Counting.{CountsDown};
ghost use Rattle.disk_box.specs.Kind.{HasKind};
ghost use Rattle.disk_box.specs.declared.kind.Kind.TheVariants as kind;
ghost use Rattle.disk_box.specs.Pens.{IsAtDesk, PenGoes, WorksAtDesk, calls_at, own_at, past_at};
ghost use Rattle.disk_box.specs.Steps.{Steps};
ghost use Rattle.journal_set.specs.declared.flying.Progress.TheVariants as progress;
ghost use Rattle.journal_set.specs.Counting.{BringsOn, WorksOnce};
ghost use Rattle.journal_set.specs.Flying.{IsCausedBy, IsUnderWay, NotLanded, TurnComes, flight_of, flush_of};
ghost use Rattle.journal_set.specs.Telling.{TellsAtBox, flight_labels};

use crate::own_slots::{lets_others_write, own_to_place, own_with};
use crate::{Ack, CommitFault};
use disk_box::{
    BoxTable, Desk, Fsync, Kind, Pen, fail_opened, fail_unopened, fill_one, halt, learn, open_one,
    place_one, shut_one, sync_all,
};
use sfs_dev::Disk;

/// How often a core lets others write before a sync of its own at most.
pub(crate) const PATIENCE: u32 = 64;

/// A commit in a slot of its core's own: the slot, its number and its fsync. It keeps whether the gate was told that the slot is filled,
/// and how often the core lets others write yet before it syncs.
#[derive(Clone, Copy)]
pub struct Flight {
    pub(crate) slot: usize,
    pub(crate) commit: u64,
    pub(crate) fsync: Fsync,
    pub(crate) told: bool,
    pub(crate) patience: u32,
}

/// How far a turn has brought a commit.
#[derive(Clone, Copy)]
pub enum Progress {
    /// It goes on.
    Goes,
    /// All that fills its slot is written, and the gate is told so before the next turn.
    Filled,
    /// It is durable.
    Durable { ack: Ack },
}

/// One turn of a commit under way, while the core has the box: it learns whether the commit is durable, and whether another has failed, and
/// makes one device call at most.
pub(crate) fn turn_at<D: Disk + Drop>(
    table: &BoxTable<D>,
    pen: &mut Pen<D>,
    desk: &mut Desk<D>,
    flight: &mut Flight,
) -> Result<Progress, CommitFault>
    requires at { IsAtDesk D.view table.now pen.old desk.old }
    requires under { (opened : Bool) × IsUnderWay flight.old opened (own_at pen.old) }
    ensures at { IsAtDesk D.view table.now pen.new desk.new }
    ensures goes { PenGoes pen.old pen.new }
    ensures room { pen.new.room ≡ pen.old.room }
    ensures same { (opened : Bool) → flight_of flight.new opened ≡ flight_of flight.old opened }
    ensures comes { TurnComes flight.old pen.old.view.core (own_at pen.old) (own_at pen.new) result }
    ensures tells { TellsAtBox (flight_labels pen.old.view.core flight.old.commit (flush_of flight.old) result) pen.old pen.new }
    ensures cause { IfErr result (IsCausedBy pen.new) }
    ensures counts { WorksOnce flight.old flight.new pen.old pen.new result }
{
    if let Some(turn) = learn(table, pen, desk) {
        let ack = Ack {
            moment: turn.now,
            commit: turn.commit,
        };
        return Ok(Progress::Durable { ack });
    }
    if desk.failed.is_some() {
        let faults = halt(table, pen, desk, flight.commit, flight.fsync);
        return Err(CommitFault::Stopped { faults });
    }
    advance(table, pen, desk, flight)
}

// The same, where its core has learned that it is not durable, and no commit has failed.
fn advance<D: Disk + Drop>(
    table: &BoxTable<D>,
    pen: &mut Pen<D>,
    desk: &mut Desk<D>,
    flight: &mut Flight,
) -> Result<Progress, CommitFault>
    requires work { WorksAtDesk D.view table.now pen.old desk.old }
    requires under { (opened : Bool) × IsUnderWay flight.old opened (own_at pen.old) }
    requires learned { (past_at pen.old).waits pen.old.view.core ≡ None }
    ensures at { IsAtDesk D.view table.now pen.new desk.new }
    ensures goes { PenGoes pen.old pen.new }
    ensures room { pen.new.room ≡ pen.old.room }
    ensures same { (opened : Bool) → flight_of flight.new opened ≡ flight_of flight.old opened }
    ensures comes { TurnComes flight.old pen.old.view.core (own_at pen.old) (own_at pen.new) result }
    ensures tells { TellsAtBox (flight_labels pen.old.view.core flight.old.commit (flush_of flight.old) result) pen.old pen.new }
    ensures cause { IfErr result (IsCausedBy pen.new) }
    ensures counts { WorksOnce flight.old flight.new pen.old pen.new result }
{
    match desk.kind_at(flight.slot) {
        Kind::Filling => before_gate(table, pen, desk, flight),
        Kind::Filled => before_gate(table, pen, desk, flight),
        Kind::Sealed => open_turn(table, pen, desk, flight),
        Kind::Opened => settle_turn(table, pen, desk, flight),
        _ => unreachable!(),
    }
}

// A turn before its gate is opened.
fn before_gate<D: Disk + Drop>(
    table: &BoxTable<D>,
    pen: &mut Pen<D>,
    desk: &mut Desk<D>,
    flight: &mut Flight,
) -> Result<Progress, CommitFault>
    requires work { WorksAtDesk D.view table.now pen.old desk.old }
    requires within { flight.old.slot < length desk.old.slots.items }
    requires kind { HasKind desk.old.slots.items flight.old.slot kind.Filling ⊎ HasKind desk.old.slots.items flight.old.slot kind.Filled }
    requires under { IsUnderWay flight.old false (own_at pen.old) }
    requires learned { (past_at pen.old).waits pen.old.view.core ≡ None }
    ensures at { IsAtDesk D.view table.now pen.new desk.new }
    ensures goes { PenGoes pen.old pen.new }
    ensures room { pen.new.room ≡ pen.old.room }
    ensures same { (opened : Bool) → flight_of flight.new opened ≡ flight_of flight.old opened }
    ensures comes { TurnComes flight.old pen.old.view.core (own_at pen.old) (own_at pen.new) result }
    ensures tells { TellsAtBox (flight_labels pen.old.view.core flight.old.commit (flush_of flight.old) result) pen.old pen.new }
    ensures cause { IfErr result (IsCausedBy pen.new) }
    ensures counts { WorksOnce flight.old flight.new pen.old pen.new result }
{
    match fill_or_seal(table, pen, desk, flight) {
        Ok(progress) => Ok(progress),
        Err(faults) => {
            fail_unopened(table, pen, desk, flight.commit, flight.fsync, faults);
            Err(CommitFault::DiskFailed { faults })
        }
    }
}

// A turn that opens it, once the gate of tests was told.
fn open_turn<D: Disk + Drop>(
    table: &BoxTable<D>,
    pen: &mut Pen<D>,
    desk: &mut Desk<D>,
    flight: &mut Flight,
) -> Result<Progress, CommitFault>
    requires work { WorksAtDesk D.view table.now pen.old desk.old }
    requires kind { HasKind desk.old.slots.items flight.old.slot kind.Sealed }
    requires under { IsUnderWay flight.old false (own_at pen.old) }
    requires learned { (past_at pen.old).waits pen.old.view.core ≡ None }
    ensures at { IsAtDesk D.view table.now pen.new desk.new }
    ensures goes { PenGoes pen.old pen.new }
    ensures room { pen.new.room ≡ pen.old.room }
    ensures same { (opened : Bool) → flight_of flight.new opened ≡ flight_of flight.old opened }
    ensures comes { TurnComes flight.old pen.old.view.core (own_at pen.old) (own_at pen.new) result }
    ensures tells { TellsAtBox (flight_labels pen.old.view.core flight.old.commit (flush_of flight.old) result) pen.old pen.new }
    ensures cause { IfErr result (IsCausedBy pen.new) }
    ensures counts { WorksOnce flight.old flight.new pen.old pen.new result }
{
    if !flight.told {
        flight.told = true;
        return Ok(Progress::Filled);
    }
    match open_one(table, pen, desk, flight.slot) {
        Ok(()) => {
            flight.patience = PATIENCE;
            Ok(Progress::Goes)
        }
        Err(faults) => {
            fail_opened(table, pen, desk, flight.commit, flight.fsync, faults);
            Err(CommitFault::DiskFailed { faults })
        }
    }
}

// A turn behind that.
fn settle_turn<D: Disk + Drop>(
    table: &BoxTable<D>,
    pen: &mut Pen<D>,
    desk: &mut Desk<D>,
    flight: &mut Flight,
) -> Result<Progress, CommitFault>
    requires work { WorksAtDesk D.view table.now pen.old desk.old }
    requires kind { HasKind desk.old.slots.items flight.old.slot kind.Opened }
    requires under { IsUnderWay flight.old true (own_at pen.old) }
    requires learned { (past_at pen.old).waits pen.old.view.core ≡ None }
    ensures at { IsAtDesk D.view table.now pen.new desk.new }
    ensures goes { PenGoes pen.old pen.new }
    ensures room { pen.new.room ≡ pen.old.room }
    ensures same { (opened : Bool) → flight_of flight.new opened ≡ flight_of flight.old opened }
    ensures comes { TurnComes flight.old pen.old.view.core (own_at pen.old) (own_at pen.new) result }
    ensures tells { TellsAtBox (flight_labels pen.old.view.core flight.old.commit (flush_of flight.old) result) pen.old pen.new }
    ensures cause { IfErr result (IsCausedBy pen.new) }
    ensures counts { WorksOnce flight.old flight.new pen.old pen.new result }
{
    match shut_or_settle(table, pen, desk, flight) {
        Ok(()) => Ok(Progress::Goes),
        Err(faults) => {
            fail_opened(table, pen, desk, flight.commit, flight.fsync, faults);
            Err(CommitFault::DiskFailed { faults })
        }
    }
}

// Before its gate is opened: records of its core's own durable commits are placed that may be; the slot is filled; then the disk is synced.
fn fill_or_seal<D: Disk + Drop>(
    table: &BoxTable<D>,
    pen: &mut Pen<D>,
    desk: &mut Desk<D>,
    flight: &mut Flight,
) -> Result<Progress, u64>
    requires work { WorksAtDesk D.view table.now pen.old desk.old }
    requires within { flight.old.slot < length desk.old.slots.items }
    requires kind { HasKind desk.old.slots.items flight.old.slot kind.Filling ⊎ HasKind desk.old.slots.items flight.old.slot kind.Filled }
    requires own { owner pen.old.table.given.layout flight.old.slot ≡ pen.old.view.core }
    ensures steps { Steps D.view table.now pen.old pen.new desk.new result }
    ensures own { own_at pen.new ≡ own_at pen.old }
    ensures same { (opened : Bool) → flight_of flight.new opened ≡ flight_of flight.old opened }
    ensures progress { IfOk result NotLanded }
    ensures counts { IfOk result (λ did. CountsDown flight.old.slot pen.old pen.new) }
    ensures brings { IfOk result (BringsOn flight.old flight.new (calls_at pen.old) (calls_at pen.new)) }
{
    let core = pen.number();
    if let Some(slot) = own_to_place(desk, core) {
        place_one(table, pen, desk, slot)?;
        return Ok(Progress::Goes);
    }
    if let Kind::Filling = desk.kind_at(flight.slot) {
        fill_one(table, pen, desk, flight.slot)?;
        return Ok(Progress::Goes);
    }
    if !flight.told {
        flight.told = true;
        return Ok(Progress::Filled);
    }
    if !lets_others_write(desk, core, &mut flight.patience) {
        sync_all(table, pen, desk)?;
    }
    Ok(Progress::Goes)
}

// Behind its gate: gates of its core's own commits are shut whose records are on the disk; then the disk is synced.
fn shut_or_settle<D: Disk + Drop>(
    table: &BoxTable<D>,
    pen: &mut Pen<D>,
    desk: &mut Desk<D>,
    flight: &mut Flight,
) -> Result<(), u64>
    requires work { WorksAtDesk D.view table.now pen.old desk.old }
    requires kind { HasKind desk.old.slots.items flight.old.slot kind.Opened }
    ensures steps { Steps D.view table.now pen.old pen.new desk.new result }
    ensures own { own_at pen.new ≡ own_at pen.old }
    ensures same { (opened : Bool) → flight_of flight.new opened ≡ flight_of flight.old opened }
    ensures counts { OnOk result (CountsDown flight.old.slot pen.old pen.new) }
    ensures brings { OnOk result (BringsOn flight.old flight.new (calls_at pen.old) (calls_at pen.new) progress.Goes) }
{
    let core = pen.number();
    if let Some(slot) = own_with(desk, core, Kind::Copied) {
        return shut_one(table, pen, desk, slot);
    }
    if lets_others_write(desk, core, &mut flight.patience) {
        return Ok(());
    }
    sync_all(table, pen, desk)
}
