// The cores of a disk begin.
ghost use Rattle.std.specs.Prelude.{◌≡◌, ◌≤◌, [], IfOk, length};
ghost use Rattle.std.specs.Vec.{vec_capacity};
ghost use Rattle.sfs_image.specs.Super.{IsLayout};
ghost use Rattle.driven_journals.specs.Seats.{AreNewSeats, IsDriven};
ghost use Rattle.slot_laws.specs.Grants.{NoneGranted};

use crate::book::Book;
use crate::driven::Driven;
use crate::due::Due;
use crate::seat::Seat;
use disk_box::Pen;
use fmt_super::Layout;
use journal_set::JournalSet;
use sfs_base::NoMemory;
use sfs_dev::Disk;
use space_map::SpaceMap;
use std::alloc::Global;

// What is free on a disk of this layout, all of whose data blocks are free but the first one.
fn free_space(alloc: Global, layout: &Layout) -> Result<SpaceMap, NoMemory>
    requires layout { IsLayout layout.now.blocks layout.now }
    ensures { IfOk result (λ space. NoneGranted space.inodes × NoneGranted space.blocks) }
{
    let first = layout.data_at();
    let space = SpaceMap::new(alloc, first, layout.blocks, layout.inodes, &[first], &[])?;
    Ok(space)
}

// Each pen as a core that has told nothing yet, with so many commits to make.
fn seats_of<D: Disk + Drop>(
    alloc: Global,
    seats: Vec<Seat<D>>,
    pens: Vec<Pen<D>>,
    cores: u32,
    left: u32,
    every: u32,
) -> Vec<Seat<D>>
    requires none { seats.items ≡ [] }
    requires room { length pens.items ≤ vec_capacity seats }
    ensures { AreNewSeats pens.items result.items }
{
    let mut seats = seats;
    for pen in pens {
        let core = u32::from(pen.number().0);
        seats.push_reserved(Seat {
            pen,
            due: Due::Rests,
            book: Book::new(alloc, core, cores, left, every),
        });
    }
    seats
}

/// The cores of a disk with this layout, on which nothing is pending and every slot is closed, and all of whose data blocks but the first are free;
/// each is to make so many commits, of which each `every`-th one gives a file a size that all share, and none for 0. Where memory is wanting the
/// disk is handed back, or lost with its journals.
pub fn begun<D: Disk + Drop>(
    alloc: Global,
    disk: D,
    layout: Layout,
    left: u32,
    every: u32,
) -> Result<Driven<D>, NoMemory>
    requires layout { IsLayout layout.blocks layout }
    requires large { layout.blocks ≤ (D.view disk).size }
    ensures { IfOk result IsDriven }
{
    let space = free_space(alloc, &layout)?;
    let Ok((set, pens)) = JournalSet::new(alloc, disk, layout, space) else {
        return Err(NoMemory);
    };
    let seats = Vec::with_capacity(alloc, pens.len())?;
    let seats = seats_of(alloc, seats, pens, layout.cores, left, every);
    Ok(Driven { set, layout, seats })
}
