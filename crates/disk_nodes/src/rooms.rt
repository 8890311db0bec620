// Which blocks of a directory have empty slots.
//
// Blocks are grouped, and of each group it is kept whether all its slots are taken, so that a search passes full
// groups at once.
ghost use Rattle.std.specs.Prelude.{◌≡◌, ◌≤◌, ◌<◌, ◌/◌, ℕ, length, is_none, true, false, IfOk};
ghost use Rattle.std.specs.List.{list_any};
ghost use Rattle.disk_nodes.specs.Rooms.{GROUP_BLOCKS, AreFull, AreFullBut, AreFullBefore, has_empty};

use fmt_slots::SlotBlock;
use sfs_base::NoMemory;
use std::alloc::Global;

// How many blocks a group has.
pub(crate) const GROUP: usize = 32;

// So many groups of which none is said to be full.
pub(crate) fn open_groups(alloc: Global, count: usize) -> Result<Vec<bool>, NoMemory> {
    let mut full = Vec::with_capacity(alloc, count)?;
    for _ in 0..count {
        full.push(false)?;
    }
    Ok(full)
}

// Whether a block has an empty slot.
fn has_room(block: &SlotBlock) -> bool
    ensures { result ≡ list_any is_none block.now }
{
    for place in 0..block.len() {
        if block.row(place).is_none() {
            return true;
        }
    }
    false
}

// Whether no block of a group has an empty slot.
fn is_full(blocks: &[SlotBlock], group: usize) -> bool
    ensures { result ≡ true → (n : ℕ) → n < length blocks.now → n / GROUP_BLOCKS ≡ group → has_empty blocks.now n ≡ false }
{
    let from = group.saturating_mul(GROUP);
    let end = from.saturating_add(GROUP).min(blocks.len());
    for place in from..end {
        if has_room(&blocks[place]) {
            return false;
        }
    }
    true
}

// Looks at the group of a block again.
pub(crate) fn look_at(full: &mut Vec<bool>, blocks: &[SlotBlock], place: usize)
    requires { AreFullBut (place / GROUP_BLOCKS) full.old.items blocks.now }
    ensures { AreFull full.new.items blocks.now }
{
    let group = place / GROUP;
    if group < full.len() {
        full[group] = is_full(blocks, group);
    }
}

// Looks at the groups from that of a block on.
pub(crate) fn look_from(full: &mut Vec<bool>, blocks: &[SlotBlock], place: usize)
    requires { AreFullBefore (place / GROUP_BLOCKS) full.old.items blocks.now }
    ensures { AreFull full.new.items blocks.now }
{
    for group in place / GROUP..full.len() {
        full[group] = is_full(blocks, group);
    }
}

// The first block from a place on that may have an empty slot, or a place behind all blocks.
pub(crate) fn room_from(blocks: &[SlotBlock], full: &[bool], from: usize) -> usize
    requires { AreFull full.now blocks.now }
    ensures on { from ≤ result }
    ensures full { (n : ℕ) → from ≤ n → n < result → n < length blocks.now → has_empty blocks.now n ≡ false }
{
    let mut at = from;
    while at < blocks.len() {
        let group = at / GROUP;
        if group < full.len() && full[group] {
            at = (group + 1).saturating_mul(GROUP);
        } else if has_room(&blocks[at]) {
            return at;
        } else {
            at += 1;
        }
    }
    at
}
