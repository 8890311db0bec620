// The blocks of a directory's slots with an index: which blocks may have a name, and which have empty slots.
ghost use Rattle.std.specs.Prelude.{◌≡◌, ◌+◌, ◌<◌, ◌≤◌, ◌^◌, ◌++◌, ℕ, [], true, false, length, take, slice_set, slice_index_or, Contains, None, IfOk, OnOk, vec_capacity};
ghost use Rattle.disk_nodes.specs.Indexed.{has_name as has_row, slot_has_name as slot_named};
ghost use Rattle.disk_nodes.specs.Names.{is_noted};
ghost use Rattle.disk_nodes.specs.Rooms.{has_empty};

use crate::bucket::{Bucket, NOTES};
use crate::index::Index;
use crate::rooms::room_from;
use fmt_slots::{SlotBlock, SlotList};
use sfs_base::NoMemory;
use std::alloc::Global;
use std::marker::Model;

/// The blocks of a directory's slots, in their order, with an index by which a name and an empty slot are found
/// without a walk through all blocks. Contracts see the list of the blocks' lists of slots.
#[derive(Drop)]
pub struct DirectorySlots {
    blocks: Vec<SlotBlock>,
    index: Index,
}

impl Model for DirectorySlots {
    ghost use Rattle.std.specs.Prelude.{List, Option};
    ghost use Rattle.sfs_image.specs.Slot.{Row};
    ghost use Rattle.disk_nodes.specs.Indexed.{IsIndexOf};

    ghost Value = { List (List (Option Row)) };

    ghost view = { λ slots. slots.blocks.items };

    ghost invariant = { λ slots. IsIndexOf slots.blocks.items slots.index };
}

/// Room for a directory of more blocks. Contracts see of how many.
#[derive(Drop)]
pub struct SlotsRoom {
    blocks: Vec<SlotBlock>,
    larger: Option<Index>,
}

impl Model for SlotsRoom {
    ghost use Rattle.std.specs.Prelude.{◌≡◌, ℕ, [], vec_capacity};

    ghost Value = { ℕ };

    ghost view = { λ room. vec_capacity room.blocks };

    ghost invariant = { λ room. room.blocks.items ≡ [] };
}

impl DirectorySlots {
    /// No block. It takes no memory.
    pub fn new(alloc: Global) -> DirectorySlots
        ensures { result ≡ [] }
    {
        DirectorySlots {
            blocks: Vec::new(alloc),
            index: Index::none(alloc),
        }
    }

    /// The same blocks with an index. Only want of memory refuses it.
    pub fn from_list(alloc: Global, list: SlotList) -> Result<DirectorySlots, NoMemory>
        ensures { IfOk result (λ slots. slots ≡ list.items) }
    {
        let blocks = list.into_vec();
        let mut index = Index::for_blocks(alloc, blocks.len())?;
        index.note_from(&blocks, 0);
        Ok(DirectorySlots { blocks, index })
    }

    /// The blocks, in their order.
    pub fn as_slice(&self) -> &[SlotBlock]
        ensures { result.now ≡ self.now }
    {
        &self.blocks
    }

    /// How many blocks there are.
    pub fn len(&self) -> usize
        ensures { result ≡ length self.now }
    {
        self.blocks.len()
    }

    /// Gives the block of a place other slots. It takes no memory.
    pub fn put(&mut self, place: usize, block: SlotBlock)
        requires { place < length self.old }
        ensures { self.new ≡ slice_set self.old place block }
    {
        self.index.change(place, &self.blocks[place], &block);
        self.blocks[place] = block;
        self.index.look_at(&self.blocks, place);
    }

    /// Drops the blocks behind the first `count`. It takes no memory.
    pub fn truncate(&mut self, count: usize)
        ensures { self.new ≡ take count self.old }
    {
        self.index.forget_from(&self.blocks, count);
        self.blocks.truncate(count);
    }

    /// Room for these blocks and so many further ones.
    pub fn room_for(&self, alloc: Global, further: usize) -> Result<SlotsRoom, NoMemory>
        requires { length self.now + further < 2 ^ 64 }
        ensures { IfOk result (λ room. length self.now + further ≤ room) }
    {
        let count = self.blocks.len() + further;
        let blocks = Vec::with_capacity(alloc, count)?;
        let larger = self.index.grown(alloc, count)?;
        Ok(SlotsRoom { blocks, larger })
    }

    /// These blocks and further ones behind them, in a room for all. It takes no memory.
    pub fn join(self, room: SlotsRoom, further: Vec<SlotBlock>) -> DirectorySlots
        requires { length self + length further.items ≤ room }
        ensures { result ≡ self ++ further.items }
    {
        let count = self.blocks.len();
        let blocks = all_in(room.blocks, self.blocks, further);
        let index = match room.larger {
            Some(mut larger) => {
                larger.note_from(&blocks, 0);
                larger
            }
            None => {
                let mut index = self.index;
                index.note_from(&blocks, count);
                index
            }
        };
        DirectorySlots { blocks, index }
    }

    /// Puts the places of all blocks that have a row with this name behind others. Only want of memory refuses it.
    pub fn push_places(&self, places: &mut Vec<usize>, name: &[u8]) -> Result<(), NoMemory>
        ensures kept { OnOk result ((n : ℕ) → Contains places.old.items n → Contains places.new.items n) }
        ensures each { OnOk result ((n : ℕ) → n < length self.now → has_row name.now (slice_index_or self.now n []) ≡ true → Contains places.new.items n) }
    {
        let bucket = self.index.bucket_with(name);
        if bucket.is_crowded {
            push_all(places, &self.blocks, name)
        } else {
            push_noted(places, &self.blocks, &bucket, name)
        }
    }

    /// The first block from a place on that has an empty slot, or a place behind all blocks.
    pub fn room_from(&self, from: usize) -> usize
        ensures on { from ≤ result }
        ensures full { (n : ℕ) → from ≤ n → n < result → n < length self.now → has_empty self.now n ≡ false }
    {
        room_from(&self.blocks, &self.index.full, from)
    }
}

// Blocks and further ones behind them, in a vector that has room for all.
fn all_in(
    mut room: Vec<SlotBlock>,
    mut blocks: Vec<SlotBlock>,
    mut further: Vec<SlotBlock>,
) -> Vec<SlotBlock>
    requires empty { room.items ≡ [] }
    requires room { length blocks.items + length further.items ≤ vec_capacity room }
    ensures { result.items ≡ blocks.items ++ further.items }
{
    let Ok(()) = room.append(&mut blocks) else {
        unreachable!()
    };
    let Ok(()) = room.append(&mut further) else {
        unreachable!()
    };
    room
}

// Whether a block has a row with this name.
fn has_name(block: &SlotBlock, name: &[u8]) -> bool
    ensures { result ≡ has_row name.now block.now }
{
    for k in 0..block.len() {
        if slot_has_name(block, k, name) {
            return true;
        }
    }
    false
}

// Whether the slot of a place has this name.
fn slot_has_name(block: &SlotBlock, k: usize, name: &[u8]) -> bool
    requires { k < 15 }
    ensures { result ≡ slot_named name.now (slice_index_or block.now k None) }
{
    match block.row(k) {
        Some(row) => row.name.bytes() == name,
        None => false,
    }
}

// Puts a place behind others, where its block has a row with this name.
fn push_named(
    places: &mut Vec<usize>,
    blocks: &[SlotBlock],
    place: usize,
    name: &[u8],
) -> Result<(), NoMemory>
    ensures kept { OnOk result ((n : ℕ) → Contains places.old.items n → Contains places.new.items n) }
    ensures own { OnOk result (place < length blocks.now → has_row name.now (slice_index_or blocks.now place []) ≡ true → Contains places.new.items place) }
{
    if place < blocks.len() && has_name(&blocks[place], name) {
        places.push(place)?;
    }
    Ok(())
}

// The same of all blocks.
fn push_all(places: &mut Vec<usize>, blocks: &[SlotBlock], name: &[u8]) -> Result<(), NoMemory>
    ensures kept { OnOk result ((n : ℕ) → Contains places.old.items n → Contains places.new.items n) }
    ensures each { OnOk result ((n : ℕ) → n < length blocks.now → has_row name.now (slice_index_or blocks.now n []) ≡ true → Contains places.new.items n) }
{
    for place in 0..blocks.len() {
        push_named(places, blocks, place, name)?;
    }
    Ok(())
}

// The same of the blocks that a bucket notes.
fn push_noted(
    places: &mut Vec<usize>,
    blocks: &[SlotBlock],
    bucket: &Bucket,
    name: &[u8],
) -> Result<(), NoMemory>
    ensures kept { OnOk result ((n : ℕ) → Contains places.old.items n → Contains places.new.items n) }
    ensures each { OnOk result ((n : ℕ) → n < length blocks.now → is_noted bucket.now n ≡ true
        → has_row name.now (slice_index_or blocks.now n []) ≡ true → Contains places.new.items n) }
{
    for k in 0..NOTES {
        let note = bucket.notes[k] as usize;
        if note != 0 {
            push_named(places, blocks, note - 1, name)?;
        }
    }
    Ok(())
}
