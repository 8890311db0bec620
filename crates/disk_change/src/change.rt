// A commit's change, worked out as far as it can be without numbers and fresh blocks.
ghost use Rattle.std.specs.Prelude.{◌≡◌, ℕ, [], not, map, filter, IfOk, IfErr, count_by, sum_by};

use crate::begun::{entering_node, old_node, slots_kept};
use crate::enter::EnterList;
use crate::files::FileChangeList;
use crate::kinds::Directories;
use crate::links::{LinkChanges, times_of};
use crate::net_list::NetList;
use crate::plans::Plans;
use crate::seat::{Seat, seat_of};
use block_map::blocks_needed;
use disk_nodes::{DirectorySlots, OldDisk};
use sfs_base::{NoMemory, NodeList};
use space_map::Need;
use std::alloc::Global;
use std::marker::Model;

/// What a commit changes, worked out as far as it can be without numbers and fresh blocks, beside what the
/// disk has of the nodes, which stays as it is: what becomes of each node that has an inode afterwards, and
/// the nodes that lose theirs.
#[derive(Drop)]
pub struct DiskChange {
    pub(crate) old: OldDisk,
    pub(crate) seats: Vec<Seat>,
    pub(crate) leaving: Vec<u32>,
    pub(crate) plans: Plans,
}

impl Model for DiskChange {
    ghost use Rattle.std.specs.Prelude.{map, filter};
    ghost use Rattle.std.specs.List.Sorted.{IsSorted};
    ghost use Rattle.std.specs.Ordering.{nat_cmp};
    ghost use Rattle.disk_change.specs.Parts.{HavePatches, seat_in};
    ghost use Rattle.disk_change.specs.Planned.{Planned, has_listed_node};
    ghost use Rattle.disk_change.specs.Seated.{changes_in};

    ghost Value = { Planned };

    ghost view = { λ d. record {
      old = d.old.items;
      seats = map (seat_in d.old.items) d.seats.items;
      gone = filter (has_listed_node d.leaving.items) d.old.items;
      changes = changes_in d.plans.directories d.plans.nets.items d.plans.files.items;
    } };

    ghost invariant = { λ d. IsSorted nat_cmp d.leaving.items × HavePatches d.old.items d.plans.nets.items d.seats.items };
}

ghost use Rattle.std.specs.List.Sorted.{IsSorted};
ghost use Rattle.std.specs.Ordering.{nat_cmp};
ghost use Rattle.tree_laws.specs.NameRow.{node_number};
ghost use Rattle.disk_change.specs.Parts.{HavePatches, seat_in, seat_with};
ghost use Rattle.disk_change.specs.Planned.{planned, seated_old, has_listed_node, enters, blocks_taken, as_u32};
ghost use Rattle.disk_change.specs.Links.{times_in};
ghost use Rattle.disk_change.specs.Seated.{changes_in};

impl DiskChange {
    /// What a commit changes: the nodes that it concerns and that have an inode, the nets of
    /// directories, the changes of files, and the nodes that get and lose an inode. Only want of memory
    /// refuses it, and then it hands back what the disk has of the nodes.
    pub fn new(
        alloc: Global,
        old: OldDisk,
        nets: NetList,
        files: FileChangeList,
        enter: &EnterList,
        leave: &NodeList,
    ) -> Result<DiskChange, OldDisk>
        ensures ok { IfOk result (λ change. change ≡ planned old.items nets.items files.items enter.now.items leave.now.items) }
        ensures err { IfErr result (λ back. back ≡ old) }
    {
        match parts_of(alloc, &old, nets, files, enter, leave) {
            Ok(parts) => Ok(DiskChange {
                old,
                seats: parts.seats,
                leaving: parts.leaving,
                plans: parts.plans,
            }),
            Err(_) => Err(old),
        }
    }

    /// What the disk has of the nodes, as it was given. It takes no memory.
    pub fn into_old(self) -> OldDisk
        ensures { result.items ≡ self.old }
    {
        self.old
    }
}

// A change, but for what the disk has of its nodes.
#[derive(Drop)]
struct ChangeParts {
    seats: Vec<Seat>,
    leaving: Vec<u32>,
    plans: Plans,
}

// What a commit changes of nodes of which the disk has this.
fn parts_of(
    alloc: Global,
    old: &OldDisk,
    nets: NetList,
    files: FileChangeList,
    enter: &EnterList,
    leave: &NodeList,
) -> Result<ChangeParts, NoMemory>
    ensures seats { IfOk result (λ parts. map (seat_in old.now.items) parts.seats.items
        ≡ (planned old.now.items nets.items files.items enter.now.items leave.now.items).seats) }
    ensures gone { IfOk result (λ parts. filter (has_listed_node parts.leaving.items) old.now.items
        ≡ (planned old.now.items nets.items files.items enter.now.items leave.now.items).gone) }
    ensures changes { IfOk result (λ parts. changes_in parts.plans.directories parts.plans.nets.items parts.plans.files.items
        ≡ (planned old.now.items nets.items files.items enter.now.items leave.now.items).changes) }
    ensures sorted { IfOk result (λ parts. IsSorted nat_cmp parts.leaving.items) }
    ensures patches { IfOk result (λ parts. HavePatches old.now.items parts.plans.nets.items parts.seats.items) }
{
    let directories = Directories::of(alloc, old, enter)?;
    let links = LinkChanges::of(alloc, &nets, &directories)?;
    let plans = Plans {
        directories,
        nets,
        links,
        files,
    };
    let leaving = numbers_of(alloc, leave)?;
    let mut seats = staying_seats(alloc, old, &leaving, &plans)?;
    let none = DirectorySlots::new(alloc);
    for one in enter.as_slice() {
        seats.push(seat_of(alloc, entering_node(alloc, *one), &none, &plans)?)?;
    }
    Ok(ChangeParts {
        seats,
        leaving,
        plans,
    })
}

// What becomes of the nodes that keep their inodes; the numbers of those that leave ascend.
fn staying_seats(
    alloc: Global,
    old: &OldDisk,
    leaving: &[u32],
    plans: &Plans,
) -> Result<Vec<Seat>, NoMemory>
    requires { IsSorted nat_cmp leaving.now }
    ensures seats { IfOk result (λ seats. map (seat_in old.now.items) seats.items
        ≡ map (seated_old (changes_in plans.now.directories plans.now.nets.items plans.now.files.items))
        (filter (λ entry. not (has_listed_node leaving.now entry)) old.now.items)) }
    ensures patches { IfOk result (λ seats. HavePatches old.now.items plans.now.nets.items seats.items) }
{
    let mut seats = Vec::new(alloc);
    for entry in old.as_slice() {
        if times_of(leaving, entry.node.0) == 0 {
            seats.push(seat_of(alloc, old_node(entry)?, slots_kept(entry), plans)?)?;
        }
    }
    Ok(seats)
}

/// How many inodes and fresh blocks a change needs: an inode for each node that enters, and a block
/// for each rewritten one that is not all zeros and for each indirect block that is written. It takes
/// no memory.
pub fn need(change: &DiskChange) -> Need
    ensures inodes { result.inodes ≡ as_u32 (count_by enters change.now.seats) }
    ensures blocks { result.blocks ≡ as_u32 (sum_by blocks_taken change.now.seats) }
{
    need_of(&change.seats)
}

// How many inodes and fresh blocks nodes need.
fn need_of(seats: &[Seat]) -> Need
    ensures inodes { result.inodes ≡ as_u32 (count_by (λ seat. enters (seat_with [] seat)) seats.now) }
    ensures blocks { result.blocks ≡ as_u32 (sum_by (λ seat. blocks_taken (seat_with [] seat)) seats.now) }
{
    let mut inodes: u32 = 0;
    let mut blocks: u32 = 0;
    for seat in seats {
        if seat.number.is_none() {
            inodes = inodes.saturating_add(1);
        }
        blocks = blocks.saturating_add(blocks_needed(&seat.meta, &seat.tables, &seat.changed));
    }
    Need { inodes, blocks }
}

// The numbers of nodes, ascending.
fn numbers_of(alloc: Global, nodes: &NodeList) -> Result<Vec<u32>, NoMemory>
    ensures same { IfOk result (λ numbers. (n : ℕ) → times_in numbers.items n ≡ times_in (map node_number nodes.now.items) n) }
    ensures sorted { IfOk result (λ numbers. IsSorted nat_cmp numbers.items) }
{
    let mut numbers = Vec::new(alloc);
    for node in nodes.as_slice() {
        numbers.push(node.0)?;
    }
    numbers.sort_unstable();
    Ok(numbers)
}
