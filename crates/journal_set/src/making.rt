// The journals of a disk are made, with a pen for each core.
ghost use Rattle.std.specs.Prelude.{◌≡◌, ◌≤◌, ◌∷◌, [], None, Some, replicate, IfOk, IfErr};
ghost use Rattle.sfs_image.specs.Super.{IsLayout};
ghost use Rattle.slot_laws.specs.Grants.{NoneGranted};
ghost use Rattle.journal_set.specs.Fresh.{IsFresh};
ghost use Rattle.journal_set.specs.Making.{AreIdleSlots, AreNewPens, BeganOver, IsKeyOf};
ghost use Rattle.disk_box.specs.declared.desk.Desk.{Desk as DeskOf};

use crate::JournalSet;
use crate::line::Line;
use commit_ledger::Ledger;
use disk_box::{BoxKey, Desk, Pen, Phase, Slot};
use fmt_super::Layout;
use journal_one::Idle;
use sfs_base::{InodeList, NoMemory, NodeId, Stamp};
use sfs_dev::Disk;
use sfs_tree::Tree;
use space_map::SpaceMap;
use stamp_table::Shared;
use std::alloc::Global;
use std::snapshot::Snapshot;
use tree_laws::{Turn, Turns};

/// Memory was wanting for the journals of a disk, which is handed back.
#[derive(Drop)]
pub struct NewFault<D> {
    pub disk: D,
}

// For how many cells a pen has room: the box.
const PEN_CELLS: u32 = 1;

impl<D: Disk + Drop> JournalSet<D> {
    /// The journals of a disk with this layout, on which nothing is pending and every slot is closed, and so much free space, of which nothing is
    /// granted; and one pen a core, ascending by number. No commit has a number yet. Where memory is wanting the disk is handed back. It makes no
    /// device call.
    pub fn new(
        alloc: Global,
        disk: D,
        layout: Layout,
        space: SpaceMap,
    ) -> Result<(JournalSet<D>, Vec<Pen<D>>), NewFault<D>>
        requires layout { IsLayout layout.blocks layout }
        requires large { layout.blocks ≤ (D.view disk).size }
        requires free { NoneGranted space.inodes × NoneGranted space.blocks }
        ensures key { IfOk result (λ made. IsKeyOf layout (D.view disk) space made.0.table.given) }
        ensures began { IfOk result (λ made. BeganOver disk made.0.table.given) }
        ensures pens { IfOk result (λ made. AreNewPens made.0 made.1.items) }
        ensures back { IfErr result (λ fault. fault.disk ≡ disk) }
    {
        let key = BoxKey {
            layout,
            faults: disk.faults(),
            start: disk.now(),
            space,
            first: Some(Snapshot::of(&disk)),
        };
        let given = Snapshot::of(&key);
        let Ok(fresh) = Fresh::new(alloc, &disk, key) else {
            return Err(NewFault { disk });
        };
        let Fresh {
            mut cells,
            tree,
            slots,
            waits,
            ledger,
            turns,
        } = fresh;
        let desk = Desk {
            faults: disk.faults(),
            disk,
            slots,
            waits,
            ledger,
            stamps: 0,
            failed: None,
            turns,
        };
        cells.push_reserved(Some(Some(desk)));
        let cores = layout.cores as u8;
        match Shared::make_of_slots(alloc, &tree, given, 0, cells, (cores, PEN_CELLS)) {
            Ok((table, pens)) => {
                let line = Line::new();
                Ok((JournalSet { table, line }, pens))
            }
            Err(cells) => Err(handed_back(cells)),
        }
    }
}

// The disk of a box that was not made, handed back.
fn handed_back<D: Disk + Drop>(mut cells: Vec<Option<Option<Desk<D>>>>) -> NewFault<D>
    requires one { (desk : DeskOf D) × (cells.items ≡ Some (Some desk) ∷ []) }
    ensures { (desk : DeskOf D) → cells.items ≡ Some (Some desk) ∷ [] → result.disk ≡ desk.disk }
{
    let cell = cells.swap_remove(0);
    let Some(value) = cell else { unreachable!() };
    let Some(desk) = value else { unreachable!() };
    let Desk { disk, .. } = desk;
    NewFault { disk }
}

// What a box is made of beside its disk: memory for its cell, a tree for its table, which has as many cores, and what lies in it.
struct Fresh<D: Disk + Drop> {
    cells: Vec<Option<Option<Desk<D>>>>,
    tree: Tree,
    slots: Vec<Slot>,
    waits: Vec<Option<Turn>>,
    ledger: Ledger,
    turns: Turns,
}

impl<D: Disk + Drop> Fresh<D> {
    // That of a disk, by its key.
    fn new(alloc: Global, disk: &D, key: BoxKey<D>) -> Result<Self, NoMemory>
        requires layout { IsLayout key.layout.blocks key.layout }
        requires large { key.layout.blocks ≤ (D.view disk.now).size }
        requires free { NoneGranted key.space.inodes × NoneGranted key.space.blocks }
        ensures fresh { IfOk result (IsFresh key) }
    {
        let BoxKey { layout, space, .. } = key;
        let cores = layout.cores as u8;
        let cells = Vec::with_capacity(alloc, 1)?;
        let tree = Tree::empty(alloc, 1, 0, cores)?;
        let slots = idle_slots(alloc, disk, &layout)?;
        let waits = no_waits(alloc, cores)?;
        let ledger = Ledger::new(alloc, space, cores)?;
        Ok(Fresh {
            cells,
            tree,
            slots,
            waits,
            ledger,
            turns: Turns::new(alloc),
        })
    }
}

// No turn waits for any core.
fn no_waits(alloc: Global, cores: u8) -> Result<Vec<Option<Turn>>, NoMemory>
    ensures { IfOk result (λ waits. waits.items ≡ replicate cores None) }
{
    let mut waits = Vec::new(alloc);
    for _ in 0..cores {
        waits.push(None)?;
    }
    Ok(waits)
}

// All slots of a disk, idle.
fn idle_slots<D: Disk>(alloc: Global, disk: &D, layout: &Layout) -> Result<Vec<Slot>, NoMemory>
    requires fits { IsLayout layout.now.blocks layout.now }
    requires large { layout.now.blocks ≤ (D.view disk.now).size }
    ensures { IfOk result (λ slots. AreIdleSlots layout.now slots.items) }
{
    let count = layout.cores * layout.slots;
    let mut slots = Vec::with_capacity(alloc, count as usize)?;
    for k in 0..count {
        let idle = Idle::at(disk, layout, k / layout.slots, k % layout.slots);
        slots.push_reserved(Slot {
            phase: Phase::Idle { idle },
            commit: 0,
            node: NodeId(0),
            stamp: Stamp(0),
            drawn: 0,
            inodes: InodeList::new(alloc),
        });
    }
    Ok(slots)
}
