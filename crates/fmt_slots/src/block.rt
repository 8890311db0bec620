ghost use Rattle.std.specs.Prelude.{◌≡◌, ◌<◌, length, None, IfOk, IfErr, replicate, slice_index_or, slice_set};
ghost use Rattle.std.specs.Option.{option_copied};
ghost use Rattle.fmt_slots.specs.Fault.{Names};
ghost use Rattle.sfs_image.specs.SlotBlock.{slot_in, fault_in, slots_of, slots_fault, slots_bytes, AreSlots};

use crate::slot::{SLOT_BYTES, SlotFault, SlotRow, decode_slot, encode_slot};
use sfs_base::NoMemory;
use sfs_image::{clear, first_nonzero};
use std::alloc::Global;
use std::marker::Model;

/// How many slots a block has.
pub const SLOTS: usize = 15;

/// Where the slots of a block end.
const SLOTS_END: usize = SLOTS * SLOT_BYTES;

/// The 15 slots of a directory's block, each empty or a row. Contracts see their list.
#[derive(Drop)]
pub struct SlotBlock {
    slots: Vec<Option<SlotRow>>,
}

impl Model for SlotBlock {
    ghost use Rattle.std.specs.Prelude.{◌≡◌, List, Option, length};
    ghost use Rattle.sfs_image.specs.Slot.{Row};

    ghost Value = { List (Option Row) };

    ghost view = { λ block. block.slots.items };

    ghost invariant = { λ block. length block.slots.items ≡ 15 };
}

impl SlotBlock {
    /// A block of 15 empty slots.
    pub fn empty(alloc: Global) -> Result<SlotBlock, NoMemory>
        ensures ok { IfOk result (λ slots. slots ≡ replicate 15 None) }
    {
        let mut slots = Vec::with_capacity(alloc, SLOTS)?;
        for _ in 0..SLOTS {
            slots.push(None)?;
        }
        Ok(SlotBlock { slots })
    }

    /// How many slots there are: 15 in each block.
    pub fn len(&self) -> usize
        ensures count { result ≡ length self.now }
        ensures slots { result ≡ 15 }
    {
        self.slots.len()
    }

    /// The row in the slot of a place, from 0 to 14, or none where it is empty.
    pub fn row(&self, place: usize) -> Option<&SlotRow>
        requires { place < 15 }
        ensures { option_copied result ≡ slice_index_or self.now place None }
    {
        self.slots[place].as_ref()
    }

    /// The 15 slots.
    pub fn as_slice(&self) -> &[Option<SlotRow>]
        ensures { result.now ≡ self.now }
    {
        &self.slots
    }

    /// Puts a row, or none, into the slot of a place, from 0 to 14. It takes no memory.
    pub fn put(&mut self, place: usize, row: Option<SlotRow>)
        requires { place < 15 }
        ensures { self.new ≡ slice_set self.old place row }
    {
        self.slots[place] = row;
    }

    /// An equal block.
    pub fn copy(&self) -> Result<SlotBlock, NoMemory>
        ensures ok { IfOk result (λ slots. slots ≡ self.now) }
    {
        let mut slots = Vec::with_capacity(*self.slots.allocator(), SLOTS)?;
        for slot in &self.slots {
            slots.push(copy_slot(slot)?)?;
        }
        Ok(SlotBlock { slots })
    }
}

// An equal slot.
fn copy_slot(slot: &Option<SlotRow>) -> Result<Option<SlotRow>, NoMemory>
    ensures ok { IfOk result (λ copy. copy ≡ slot.now) }
{
    match slot {
        None => Ok(None),
        Some(row) => Ok(Some(row.copy()?)),
    }
}

/// The slots of a block. `Bad` names the first wrong byte, counted from the begin of the block.
pub fn decode(alloc: Global, block: &[u8; 4096]) -> Result<SlotBlock, SlotFault>
    ensures ok { IfOk result (λ slots. (slots_fault block.now ≡ None) × (slots ≡ slots_of block.now)) }
    ensures fits { IfOk result AreSlots }
    ensures err { IfErr result (λ fault. Names fault (slots_fault block.now)) }
{
    let mut slots = Vec::with_capacity(alloc, SLOTS)?;
    for k in 0..SLOTS {
        slots.push(decode_in(alloc, block, k)?)?;
    }
    if let Some(at) = first_nonzero(block, SLOTS_END, 4096) {
        return Err(SlotFault::Bad { at });
    }
    Ok(SlotBlock { slots })
}

// The slot of a place in a block.
fn decode_in(alloc: Global, block: &[u8; 4096], k: usize) -> Result<Option<SlotRow>, SlotFault>
    requires { k < 15 }
    ensures ok { IfOk result (λ slot. (fault_in block.now k ≡ None) × (slot ≡ slot_in block.now k)) }
    ensures err { IfErr result (λ fault. Names fault (fault_in block.now k)) }
{
    let from = SLOT_BYTES * k;
    match decode_slot(alloc, &block[from..from + SLOT_BYTES]) {
        Ok(slot) => Ok(slot),
        Err(fault) => match fault {
            SlotFault::Bad { at } => Err(SlotFault::Bad {
                at: from as u32 + at,
            }),
            SlotFault::NoMemory => Err(SlotFault::NoMemory),
        },
    }
}

/// Writes the 4,096 bytes of a block of slots. It takes no memory.
pub fn encode(slots: &SlotBlock, block: &mut [u8; 4096])
    ensures bytes { block.new ≡ slots_bytes slots.now }
    ensures fits { AreSlots slots.now }
{
    let rows = &slots.slots;
    for k in 0..SLOTS {
        let from = SLOT_BYTES * k;
        encode_slot(rows[k].as_ref(), &mut block[from..from + SLOT_BYTES]);
    }
    clear(&mut block[SLOTS_END..]);
}
