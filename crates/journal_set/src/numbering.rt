// A commit's number, and what it is granted.
ghost use Rattle.std.specs.Prelude.{◌≡◌, ◌*◌, ◌≤◌, ℕ, IfOk, IfErr, IfNone, OnOk, OnErr, MatchOption, None, length};
ghost use Rattle.space_map.specs.Space.{shortage};
ghost use Rattle.space_map.specs.declared.fault.SpaceFault.TheVariants.{NoMemory as WantsMemory};
ghost use Rattle.journal_set.specs.Refusing.{MayReserve, MOST_TURNS};
ghost use Rattle.sfs_base.specs.Lists.{Roomy};
ghost use Rattle.space_map.specs.Space.{GrantedNumbers};
ghost use Rattle.slot_laws.specs.declared.label.Seen.{Seen};
ghost use Rattle.slot_laws.specs.declared.label.Label.TheVariants as label;
ghost use Rattle.journal_set.specs.Numbering.{Numbers};

use commit_ledger::Prepared;
use disk_box::{BoxTable, Desk, Pen, note};
use sfs_base::{NoMemory, RoomyList};
use sfs_dev::Disk;
use slot_laws::{Label, Seen};
use space_map::{Grant, Need, SpaceFault};
use std::alloc::Global;

/// A number for a core's next commit, and what it was granted.
#[derive(Drop)]
pub(crate) struct Numbered {
    pub(crate) number: u64,
    pub(crate) grant: Grant,
}

// How many turns there has to be room for by core: those of a commit that has reserved, and the reserving's own.
const TURNS: u32 = 4;

/// Makes room for all turns of a commit of this core, beside those that others may take yet.
pub(crate) fn make_room<D>(desk: &mut Desk<D>) -> Result<(), NoMemory>
    requires { length desk.old.waits.items ≤ 16 }
    ensures ok { OnOk result (MOST_TURNS * length desk.old.waits.items ≤ desk.new.turns.spare) }
    ensures same { desk.new ≡ record desk.old { turns = desk.new.turns } }
    ensures turns { (desk.new.turns.items ≡ desk.old.turns.items) × (desk.old.turns.spare ≤ desk.new.turns.spare) }
{
    let cores = desk.waits.len() as u32;
    desk.turns.reserve(TURNS * cores)
}

/// Reserves a number, and what the core's next commit needs. None of its nodes has moved.
pub(crate) fn number_commit<D: Disk + Drop>(
    alloc: Global,
    table: &BoxTable<D>,
    pen: &mut Pen<D>,
    desk: &mut Desk<D>,
    seen: &[Seen],
    need: Need,
) -> Result<Numbered, SpaceFault>
    requires may { MayReserve D.view table.now seen.now pen.old desk.old }
    ensures ok { IfOk result (λ made. Numbers D.view table.now seen.now need made pen.old pen.new desk.old desk.new) }
    ensures cause { IfErr result (λ fault. MatchOption (shortage desk.old.ledger.space need) (fault ≡ WantsMemory) (λ due. fault ≡ due)) }
    ensures err { OnErr result ((pen.new ≡ pen.old) × (desk.new ≡ desk.old)) }
{
    let prepared = desk.ledger.prepare(alloc, seen, need)?;
    let number = prepared.number;
    let label = label_for(prepared);
    note(table, pen, &label);
    let (nodes, grant) = parts_of(label);
    desk.ledger.enter(pen.number(), number, nodes);
    Ok(Numbered { number, grant })
}

// The label by which a commit reserves what was prepared.
fn label_for(prepared: Prepared) -> Label
    ensures { result ≡ label.Reserved prepared.number prepared.seen prepared.grant }
{
    let Prepared {
        number,
        seen,
        grant,
    } = prepared;
    Label::Reserved {
        commit: number,
        seen,
        grant,
    }
}

// Its nodes, and its grant.
fn parts_of(told: Label) -> (RoomyList<Seen>, Grant)
    requires { (number : ℕ) × (nodes : Roomy Seen) × (grant : GrantedNumbers) × (told ≡ label.Reserved number nodes grant) }
    ensures { (number : ℕ) × (told ≡ label.Reserved number result.0 result.1) }
{
    match told {
        Label::Reserved { seen, grant, .. } => (seen, grant),
        _ => unreachable!(),
    }
}
