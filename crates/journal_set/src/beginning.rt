// A commit begins in a slot of its core's own.
ghost use Rattle.std.specs.Prelude.{◌≡◌, ◌+◌, ◌<◌, Some, None, false, IfOk, IfErr, length, map};
ghost use Rattle.slot_laws.specs.Labels.{fsync_told, owner};
ghost use Rattle.disk_box.specs.Kind.{HasKind, kind_of};
ghost use Rattle.disk_box.specs.declared.desk.Phase.TheVariants as phase;
ghost use Rattle.disk_box.specs.declared.kind.Kind.TheVariants as kind;
ghost use Rattle.disk_box.specs.Pens.{WorksAtDesk, PenGoes, calls_at, own_at, past_at};
ghost use Rattle.journal_set.specs.Beginning.{BeginsInSlot, CanBeWritten};
ghost use Rattle.journal_set.specs.Committing.{IsPackedOf};
ghost use Rattle.journal_set.specs.Counting.{IsBegunAlone};
ghost use Rattle.slot_laws.specs.Schedule.{AllIdle};
ghost use Rattle.journal_set.specs.Grants.{grant_at};
ghost use Rattle.journal_set.specs.Telling.{OfReserved, TellsAtBox, TellsBegin, written_in};
ghost use Rattle.sfs_base.specs.Lists.{Roomy};
ghost use Rattle.sfs_base.specs.declared.numbers.NodeId.{NodeId as NodeOf};
ghost use Rattle.sfs_base.specs.declared.numbers.Stamp.{Stamp as StampOf};
ghost use Rattle.journal_one.specs.Packed.{inode_of_entry, record_entry};
ghost use Rattle.journal_one.specs.Stage.{Stage};
ghost use Rattle.std.specs.Prelude.{ℕ};
ghost use Rattle.slot_laws.specs.declared.label.Label.TheVariants as label;

use crate::flying::PATIENCE;
use disk_box::{BoxTable, Desk, Fsync, Pen, Phase, Slot, note};
use fmt_journal::{Tx, TxRecord};
use journal_one::{Filling, Idle, Packed};
use sfs_base::{BlockList, InodeList, NoMemory};
use sfs_dev::Disk;
use slot_laws::Label;
use space_map::Grant;
use std::alloc::Global;
use std::mem;

/// What a commit writes: its transaction, packed, with the inodes of its records, and what it gives up; its grant, and its fsync. It keeps how
/// often its core lets others write yet before it syncs.
#[derive(Drop)]
pub struct Writing {
    pub(crate) packed: Packed,
    pub(crate) inodes: InodeList,
    pub(crate) freed_blocks: BlockList,
    pub(crate) freed_inodes: InodeList,
    pub(crate) grant: Grant,
    pub(crate) fsync: Fsync,
    pub(crate) patience: u32,
}

impl Writing {
    /// Packs a transaction that has records, with what was granted for it. Where memory is wanting the grant is handed back.
    pub fn new(alloc: Global, tx: Tx, grant: Grant, fsync: Fsync) -> Result<Writing, Grant>
        requires some { 0 < length tx.records.items }
        ensures ok { IfOk result (IsPackedOf tx grant fsync) }
        ensures back { IfErr result (λ back. back ≡ grant) }
    {
        let Ok(inodes) = inodes_of(alloc, tx.records.as_slice()) else {
            return Err(grant);
        };
        let Tx {
            records,
            fresh,
            freed_blocks,
            freed_inodes,
        } = tx;
        let written = Tx {
            records,
            fresh,
            freed_blocks: BlockList::new(alloc),
            freed_inodes: InodeList::new(alloc),
        };
        match Packed::new(alloc, written) {
            Ok(packed) => Ok(Writing {
                packed,
                inodes,
                freed_blocks,
                freed_inodes,
                grant,
                fsync,
                patience: PATIENCE,
            }),
            Err(_) => Err(grant),
        }
    }
}

// The inodes of records.
fn inodes_of(alloc: Global, records: &[TxRecord]) -> Result<InodeList, NoMemory>
    ensures { IfOk result (λ inodes. inodes.items ≡ map inode_of_entry (map record_entry records.now)) }
{
    let mut inodes = Vec::with_capacity(alloc, records.len())?;
    for record in records {
        inodes.push(record.inode)?;
    }
    Ok(InodeList::from_vec(inodes))
}

// The state of an idle slot.
fn into_idle(state: Phase) -> Idle
    requires { kind_of state ≡ kind.Idle }
    ensures { state ≡ phase.Idle result }
{
    match state {
        Phase::Idle { idle } => idle,
        _ => unreachable!(),
    }
}

// The state of an idle slot, which is lost behind it.
fn take_idle(slot: &mut Slot) -> Idle
    requires { kind_of slot.old.phase ≡ kind.Idle }
    ensures { slot.old.phase ≡ phase.Idle result }
{
    into_idle(mem::replace(&mut slot.phase, Phase::Lost))
}

// A slot has a commit now.
fn put_begun(slot: &mut Slot, begun: Slot)
    ensures { slot.new ≡ begun }
{
    *slot = begun;
}

// The next commit stamp: fewer were drawn than numbers given.
fn next_stamp<D>(desk: &Desk<D>) -> u64
    requires { desk.now.stamps < desk.now.ledger.commits }
    ensures { result ≡ desk.now.stamps + 1 }
{
    let given = desk.ledger.commits();
    if desk.stamps >= given {
        unreachable!()
    }
    desk.stamps + 1
}

// What a label by which a commit begins has: its state, and what it gives up.
fn begun_parts(told: Label) -> (Filling, BlockList, InodeList)
    requires { (filling : Stage) × (number : ℕ) × (node : NodeOf) × (stamp : StampOf) × (blocks : Roomy ℕ) × (inodes : Roomy ℕ)
        × (told ≡ label.Began filling number node stamp blocks inodes) }
    ensures { (number : ℕ) × (node : NodeOf) × (stamp : StampOf) × (told ≡ label.Began result.0 number node stamp result.1 result.2) }
{
    match told {
        Label::Began {
            filling,
            blocks,
            inodes,
            ..
        } => (filling, blocks, inodes),
        _ => unreachable!(),
    }
}

/// Begins a commit in an idle slot of the core's own, with the number that it has reserved.
pub(crate) fn begin_one<D: Disk + Drop>(
    table: &BoxTable<D>,
    pen: &mut Pen<D>,
    desk: &mut Desk<D>,
    k: usize,
    writing: Writing,
)
    requires work { WorksAtDesk D.view table.now pen.old desk.old }
    requires own { owner pen.old.table.given.layout k ≡ pen.old.view.core }
    requires kind { HasKind desk.old.slots.items k kind.Idle }
    requires grant { grant_at pen.old ≡ Some writing.grant }
    requires written { CanBeWritten pen.old.table.given.layout writing }
    ensures work { WorksAtDesk D.view table.now pen.new desk.new }
    ensures goes { PenGoes pen.old pen.new }
    ensures room { pen.new.room ≡ pen.old.room }
    ensures begins { BeginsInSlot k (fsync_told writing.fsync.node writing.fsync.stamp) (own_at pen.old) (own_at pen.new) }
    ensures tells { TellsAtBox (OfReserved (own_at pen.old) (TellsBegin pen.old.view.core (fsync_told writing.fsync.node writing.fsync.stamp)
        (written_in writing))) pen.old pen.new }
    ensures calls { calls_at pen.new ≡ calls_at pen.old }
    ensures starts { AllIdle (past_at pen.old).slots → IsBegunAlone writing.packed k (calls_at pen.old) pen.new }
{
    let Writing {
        packed,
        inodes,
        freed_blocks,
        freed_inodes,
        grant,
        fsync,
        ..
    } = writing;
    let core = pen.number();
    let Some(number) = desk.ledger.number(core) else {
        unreachable!()
    };
    let drawn = next_stamp(desk);
    let idle = take_idle(&mut desk.slots[k]);
    let told = Label::Began {
        filling: idle.begin(packed, drawn),
        commit: number,
        node: fsync.node,
        stamp: fsync.stamp,
        blocks: freed_blocks,
        inodes: freed_inodes,
    };
    note(table, pen, &told);
    let (filling, blocks, freed) = begun_parts(told);
    desk.ledger.owe(core, grant, blocks, freed);
    desk.stamps = drawn;
    let begun = Slot {
        phase: Phase::Filling { filling },
        commit: number,
        node: fsync.node,
        stamp: fsync.stamp,
        drawn,
        inodes,
    };
    put_begun(&mut desk.slots[k], begun);
}
