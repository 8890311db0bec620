// The blocks of a directory after a net.
ghost use Rattle.std.specs.Prelude.{◌≡◌, ◌<◌, ◌≤◌, ◌⊎◌, ℕ, List, [], None, All, Contains, is_none, is_some, length, map, reverse, slice_index_or, false, IfOk, OnOk};
ghost use Rattle.std.specs.Ordering.{nat_cmp};
ghost use Rattle.std.specs.List.Sorted.{IsSorted};
ghost use Rattle.std.specs.List.{list_any, range_with_len};
ghost use Rattle.std.specs.Option.{unwrap_or};
ghost use Rattle.keyed_list.specs.Ascending.{AscendBy, item_with};
ghost use Rattle.disk_change.specs.Lists.{NamesAscend};
ghost use Rattle.disk_change.specs.Directory.{rows_new, row_new, block_moved, fill_front, rows_left, block_is_touched};
ghost use Rattle.disk_change.specs.Directory.{block_added, blocks_for, blocks_touched, is_in_net, old_blocks_after, rows_behind, slot_blocks_after, directory_touched};
ghost use Rattle.disk_change.specs.Patched.{AreNamed, IsPatchFor, TellsTouched, patched, slots_place, with_placed};

use crate::block::{brought, fill, has_name, has_room, move_rows};
use crate::kinds::Directories;
use crate::patch::SlotPatch;
use crate::placed::PlacedSlots;
use absorb::NetRow;
use disk_nodes::DirectorySlots;
use fmt_slots::{SLOTS, SlotBlock, SlotRow};
use sfs_base::NoMemory;
use std::alloc::Global;

// What a net changes of a directory's blocks: names that are gone empty their slots, a name with another
// child keeps its slot, and new names take the lowest empty slots. Only blocks are looked at that have a name of
// the net or may take new rows. A block is copied where one of its slots changes, and only there.
pub(crate) fn directory_after(
    alloc: Global,
    slots: &DirectorySlots,
    net: &[NetRow],
    directories: &Directories,
) -> Result<SlotPatch, NoMemory>
    requires { NamesAscend net.now }
    ensures blocks { IfOk result (λ patch. patched patch slots.now ≡ slot_blocks_after directories.now net.now slots.now) }
    ensures touched { IfOk result (λ patch. TellsTouched slots.now patch (directory_touched directories.now net.now slots.now)) }
    ensures patch { IfOk result (λ patch. (end : ℕ) → IsPatchFor net.now end slots.now patch) }
{
    let mut waiting = new_rows(alloc, net, directories)?;
    let named = named_places(alloc, slots, net)?;
    let changed = blocks_changed(alloc, slots, net, &named, directories, &mut waiting)?;
    let further = blocks_behind(alloc, &mut waiting)?;
    if further.len() > usize::MAX - slots.len() {
        return Err(NoMemory);
    }
    Ok(SlotPatch { changed, further })
}

// The places of the blocks that have a name of a net, ascending.
fn named_places(
    alloc: Global,
    slots: &DirectorySlots,
    net: &[NetRow],
) -> Result<Vec<usize>, NoMemory>
    ensures { IfOk result (λ named. AreNamed net.now slots.now named.items) }
{
    let mut named = Vec::new(alloc);
    for row in net {
        slots.push_places(&mut named, row.name.bytes())?;
    }
    named.sort_unstable();
    Ok(named)
}

// What a net changes of the blocks that are there, which take as many of the rows that wait as they have room for.
fn blocks_changed(
    alloc: Global,
    slots: &DirectorySlots,
    net: &[NetRow],
    named: &[usize],
    directories: &Directories,
    waiting: &mut Vec<SlotRow>,
) -> Result<Vec<PlacedSlots>, NoMemory>
    requires ascending { NamesAscend net.now }
    requires named { AreNamed net.now slots.now named.now }
    ensures blocks { IfOk result (λ changed. with_placed changed.items slots.now
        ≡ old_blocks_after directories.now net.now slots.now (reverse waiting.old.items)) }
    ensures touched { IfOk result (λ changed. (n : ℕ) → n < length slots.now
        → slice_index_or (blocks_touched directories.now net.now slots.now (reverse waiting.old.items)) n false
        ≡ is_some (item_with slots_place n changed.items)) }
    ensures left { OnOk result (reverse waiting.new.items ≡ rows_behind directories.now net.now slots.now (reverse waiting.old.items)) }
    ensures within { IfOk result (λ changed. All (λ one. one.place < length slots.now) changed.items) }
    ensures ascending { IfOk result (λ changed. AscendBy slots_place changed.items) }
    ensures alone { IfOk result (λ changed. (n : ℕ) → n < length slots.now → item_with slots_place n changed.items ≡ None
        → list_any (is_in_net net.now) (slice_index_or slots.now n []) ≡ false) }
{
    let blocks = slots.as_slice();
    let mut changed = Vec::new(alloc);
    let mut place = next_place(slots, named, waiting, 0);
    while place < blocks.len() {
        if let Some(slots) = block_after(&blocks[place], net, directories, waiting)? {
            changed.push(PlacedSlots { place, slots })?;
        }
        place = next_place(slots, named, waiting, place + 1);
    }
    Ok(changed)
}

// The first block from a place on that has a name of a net, or an empty slot where rows wait; behind the last block
// where none has.
fn next_place(slots: &DirectorySlots, named: &[usize], waiting: &Vec<SlotRow>, from: usize) -> usize
    requires from { from ≤ length slots.now }
    requires sorted { IsSorted nat_cmp named.now }
    ensures on { from ≤ result }
    ensures within { result ≤ length slots.now }
    ensures passed { (n : ℕ) → from ≤ n → n < result
        → (Contains named.now n → ⊥) × ((waiting.now.items ≡ []) ⊎ (list_any is_none (slice_index_or slots.now n []) ≡ false)) }
{
    let next = first_from(named, from).min(slots.len());
    if waiting.is_empty() {
        next
    } else {
        next.min(slots.room_from(from))
    }
}

// The first of ascending numbers that is this one or above it, or the greatest number there is.
fn first_from(numbers: &[usize], from: usize) -> usize
    requires { IsSorted nat_cmp numbers.now }
    ensures on { from ≤ result }
    ensures passed { (n : ℕ) → from ≤ n → n < result → Contains numbers.now n → ⊥ }
{
    let at = numbers.partition_point(|number| *number < from);
    match numbers.get(at) {
        Some(number) => *number,
        None => usize::MAX,
    }
}

// The blocks that come behind all others: they take the rows that wait.
fn blocks_behind(alloc: Global, waiting: &mut Vec<SlotRow>) -> Result<Vec<SlotBlock>, NoMemory>
    ensures { IfOk result (λ blocks. blocks.items
        ≡ map (block_added (reverse waiting.old.items)) (range_with_len 0 (blocks_for (reverse waiting.old.items)))) }
{
    let mut blocks = Vec::new(alloc);
    for place in 0..waiting.len().div_ceil(SLOTS) {
        let mut block = SlotBlock::empty(alloc)?;
        fill(&mut block, waiting);
        blocks.push(block)?;
    }
    Ok(blocks)
}

// The rows of new names, the first of them last.
fn new_rows(
    alloc: Global,
    net: &[NetRow],
    directories: &Directories,
) -> Result<Vec<SlotRow>, NoMemory>
    ensures { IfOk result (λ rows. reverse rows.items ≡ rows_new directories.now net.now) }
{
    let mut rows = Vec::new(alloc);
    for row in net {
        if let Some(new) = new_row(row, directories)? {
            rows.push(new)?;
        }
    }
    rows.reverse();
    Ok(rows)
}

// The row of a name that is new.
fn new_row(row: &NetRow, directories: &Directories) -> Result<Option<SlotRow>, NoMemory>
    ensures { IfOk result (λ slot. slot ≡ row_new directories.now row.now) }
{
    match row.before {
        Some(_) => Ok(None),
        None => brought(row, directories),
    }
}

// A block of a directory after a net, with as many of the new rows as it has room for, where it changes.
fn block_after(
    block: &SlotBlock,
    net: &[NetRow],
    directories: &Directories,
    waiting: &mut Vec<SlotRow>,
) -> Result<Option<SlotBlock>, NoMemory>
    requires { NamesAscend net.now }
    ensures block { IfOk result (λ after. unwrap_or after block.now ≡ fill_front (block_moved directories.now net.now block.now) (reverse waiting.old.items)) }
    ensures left { OnOk result (reverse waiting.new.items ≡ rows_left (block_moved directories.now net.now block.now) (reverse waiting.old.items)) }
    ensures touched { IfOk result (λ after. is_some after ≡ block_is_touched directories.now net.now block.now (reverse waiting.old.items)) }
{
    if !is_touched(block, net, waiting) {
        return Ok(None);
    }
    let mut after = block.copy()?;
    move_rows(&mut after, net, directories)?;
    fill(&mut after, waiting);
    Ok(Some(after))
}

// Whether a block changes: it has a name of the net, or takes rows that wait.
fn is_touched(block: &SlotBlock, net: &[NetRow], waiting: &Vec<SlotRow>) -> bool
    requires { NamesAscend net.now }
    ensures { (directories : List ℕ) → result ≡ block_is_touched directories net.now block.now (reverse waiting.now.items) }
{
    if has_name(block, net) {
        return true;
    }
    if waiting.is_empty() {
        return false;
    }
    has_room(block)
}
