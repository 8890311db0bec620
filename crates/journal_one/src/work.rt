// A commit and where it goes: the bytes of each of its writes, and their place.
ghost use Rattle.std.specs.Prelude.{◌≡◌, ◌+◌, ◌*◌, ◌<◌, ◌≤◌, length, ◌++◌, map, All, IfErr};
ghost use Rattle.sfs_image.specs.Bytes.{zeros, u32_bytes, u64_bytes};
ghost use Rattle.sfs_image.specs.Settled.{slot_byte};
ghost use Rattle.sfs_image.specs.Journal.{record_byte as record_at};
ghost use Rattle.sfs_image.specs.Super.{IsLayout};
ghost use Rattle.journal_one.specs.Calls.{IsWrite};
ghost use Rattle.journal_one.specs.Job.{IsPlace, IsJob, LiesInData, LiesOn, gate_piece, fill_count, fill_piece, body_piece, table_piece, without_fresh};
ghost use Rattle.journal_one.specs.Packed.{block_of};

use crate::doubt::put;
use crate::{Doubt, Packed};
use fmt_journal::{TxBlock, number_place, record_place};
use fmt_super::Layout;
use sfs_base::RoomyList;
use sfs_dev::Disk;
use std::alloc::Global;

/// A slot of a disk.
#[derive(Drop)]
pub(crate) struct Spot {
    layout: Layout,
    // its number
    slot: u32,
    // the byte with which it begins
    at: u64,
    ghost sound: { IsPlace (record { layout = layout; slot = slot }) },
    ghost begins: { at ≡ slot_byte layout slot },
}

/// A commit through a slot.
#[derive(Drop)]
pub(crate) struct Work {
    spot: Spot,
    packed: Packed,
    stamp: u64,
    // the count and the commit stamp, as they stand in the slot
    head: [u8; 16],
    ghost sound: { IsJob (record {
      place = record { layout = spot.layout; slot = spot.slot };
      stamp = stamp;
      entries = packed.entries;
      fresh = packed.fresh;
    }) },
    ghost headed: { head ≡ u32_bytes (length packed.entries) ++ zeros 4 ++ u64_bytes stamp },
}

impl Spot {
    ghost use Rattle.sfs_image.specs.Super.{IsLayout as Fits};
    ghost use Rattle.journal_one.specs.Work.{spot_place};

    /// A slot of a core.
    pub(crate) fn of(layout: &Layout, core: u32, slot: u32) -> Spot
        requires fits { Fits layout.now.blocks layout.now }
        requires core { core < layout.now.cores }
        requires slot { slot < layout.now.slots }
        ensures layout { result.layout ≡ layout.now }
        ensures slot { result.slot ≡ core * layout.now.slots + slot }
    {
        Spot {
            layout: *layout,
            slot: core * layout.slots + slot,
            at: 4096 * layout.slot_at(core, slot) as u64,
        }
    }

    // How many inodes the disk has.
    fn inodes(&self) -> u32
        ensures inodes { result ≡ self.now.layout.inodes }
        ensures few { result ≤ 16384 }
    {
        self.layout.inodes
    }

    /// The byte of the gate.
    pub(crate) fn gate(&self) -> u64
        ensures at { result ≡ (gate_piece (spot_place self.now) 0).at }
        ensures within { result + 1 ≤ 4096 * self.now.layout.blocks }
    {
        self.at
    }
}

impl Work {
    ghost use Rattle.journal_one.specs.Work.{spot_place, job_of};

    /// A commit of what is packed, under a commit stamp.
    pub(crate) fn new(spot: Spot, packed: Packed, stamp: u64) -> Work
        requires below { All (λ entry. entry.inode < spot.layout.inodes) packed.entries }
        requires in_data { All (LiesInData spot.layout) packed.fresh }
        ensures { job_of result ≡ record { place = spot_place spot; stamp = stamp; entries = packed.entries; fresh = packed.fresh } }
    {
        let head = head_of(packed.count() as u32, stamp);
        Work {
            spot,
            packed,
            stamp,
            head,
        }
    }

    /// The slot, once the commit is over.
    pub(crate) fn into_spot(self) -> Spot
        ensures { spot_place result ≡ (job_of self).place }
    {
        self.spot
    }

    /// The slot and the transaction, once the commit is over.
    pub(crate) fn into_parts(self) -> (Spot, Packed)
        ensures spot { spot_place result.0 ≡ (job_of self).place }
        ensures packed { result.1 ≡ record { entries = (job_of self).entries; fresh = (job_of self).fresh } }
    {
        (self.spot, self.packed)
    }

    /// The commit without its fresh blocks, and these.
    pub(crate) fn shed(self, alloc: Global) -> (Work, RoomyList<TxBlock>)
        ensures work { job_of result.0 ≡ without_fresh (job_of self) }
        ensures fresh { map block_of result.1.items ≡ (job_of self).fresh }
    {
        let Work {
            spot,
            packed,
            stamp,
            head,
        } = self;
        let (packed, fresh) = packed.shed(alloc);
        (
            Work {
                spot,
                packed,
                stamp,
                head,
            },
            fresh,
        )
    }

    /// Writes the gate's byte: one write.
    pub(crate) fn put_gate<D: Disk>(&self, disk: &mut D, byte: u8) -> Result<(), Doubt>
        requires { (job_of self.now).place.layout.blocks ≤ (D.view disk.old).size }
        ensures write { IsWrite (gate_piece (job_of self.now).place byte) (D.view disk.old) (D.view disk.new) result }
        ensures within { (gate_piece (job_of self.now).place byte).at + 1 ≤ 4096 * (job_of self.now).place.layout.blocks }
        ensures faults { IfErr result (λ doubt. doubt.faults ≡ (D.view disk.new).faults) }
    {
        put(disk, self.spot.gate(), &[byte])
    }

    /// Writes the piece of a number that fills the slot: one write.
    pub(crate) fn put_piece<D: Disk>(&self, disk: &mut D, number: usize) -> Result<(), Doubt>
        requires large { (job_of self.now).place.layout.blocks ≤ (D.view disk.old).size }
        requires number { number < fill_count (job_of self.now) }
        ensures write { IsWrite (fill_piece (job_of self.now) number) (D.view disk.old) (D.view disk.new) result }
        ensures within { LiesOn (job_of self.now).place.layout (fill_piece (job_of self.now) number) }
        ensures whole { number < length (job_of self.now).fresh → length (fill_piece (job_of self.now) number).bytes ≡ 4096 }
        ensures faults { IfErr result (λ doubt. doubt.faults ≡ (D.view disk.new).faults) }
    {
        let (at, bytes) = self.fill_piece(number);
        put(disk, at, bytes)
    }

    /// Places the record of a number in the table: one write.
    pub(crate) fn put_record<D: Disk>(&self, disk: &mut D, number: usize) -> Result<(), Doubt>
        requires large { (job_of self.now).place.layout.blocks ≤ (D.view disk.old).size }
        requires number { number < length (job_of self.now).entries }
        ensures write { IsWrite (table_piece (job_of self.now) number) (D.view disk.old) (D.view disk.new) result }
        ensures within { LiesOn (job_of self.now).place.layout (table_piece (job_of self.now) number) }
        ensures faults { IfErr result (λ doubt. doubt.faults ≡ (D.view disk.new).faults) }
    {
        let (at, bytes) = self.table_piece(number);
        put(disk, at, bytes)
    }

    /// How many pieces fill the slot.
    pub(crate) fn fill_count(&self) -> usize
        ensures { result ≡ fill_count (job_of self.now) }
    {
        self.packed.fresh().len() + 3
    }

    // The piece of a number that fills the slot: its place and its bytes.
    fn fill_piece(&self, number: usize) -> (u64, &[u8])
        requires { number < fill_count (job_of self.now) }
        ensures piece { record { at = result.0; bytes = result.1.now } ≡ fill_piece (job_of self.now) number }
        ensures some { 0 < length result.1.now }
        ensures within { result.0 + length result.1.now ≤ 4096 * (job_of self.now).place.layout.blocks }
        ensures whole { number < length (job_of self.now).fresh → length result.1.now ≡ 4096 }
    {
        let fresh = self.packed.fresh();
        if number < fresh.len() {
            let one = &fresh[number];
            (4096 * one.block as u64, &one.bytes)
        } else {
            self.body_piece(number - fresh.len())
        }
    }

    // The piece of a number of the slot's body.
    fn body_piece(&self, number: usize) -> (u64, &[u8])
        ensures piece { record { at = result.0; bytes = result.1.now } ≡ body_piece (job_of self.now) number }
        ensures some { 0 < length result.1.now }
        ensures within { result.0 + length result.1.now ≤ 4096 * (job_of self.now).place.layout.blocks }
    {
        match number {
            0 => (self.spot.at + number_byte(), self.packed.numbers()),
            1 => (
                self.spot.at + record_byte(self.spot.inodes()),
                self.packed.records(),
            ),
            _ => (self.spot.at + 512, &self.head),
        }
    }

    /// How many records are placed in the table.
    pub(crate) fn table_count(&self) -> usize
        ensures { result ≡ length (job_of self.now).entries }
    {
        self.packed.count()
    }

    // The record of a number in the table: its place and its bytes.
    fn table_piece(&self, number: usize) -> (u64, &[u8])
        requires { number < length (job_of self.now).entries }
        ensures piece { record { at = result.0; bytes = result.1.now } ≡ table_piece (job_of self.now) number }
        ensures long { length result.1.now ≡ 512 }
        ensures within { result.0 + length result.1.now ≤ 4096 * (job_of self.now).place.layout.blocks }
    {
        let one = &self.packed.entries()[number];
        (
            4096 * self.spot.layout.table_at() as u64 + 512 * one.inode as u64,
            &one.bytes,
        )
    }
}

// The byte of a slot with which its numbers begin.
fn number_byte() -> u64
    ensures { result ≡ 4096 }
{
    let place = number_place(0);
    4096 * place.block as u64 + place.byte as u64
}

// The byte of a slot with which its records begin.
fn record_byte(inodes: u32) -> u64
    requires { inodes ≤ 16384 }
    ensures { result ≡ record_at inodes 0 }
{
    let place = record_place(inodes, 0);
    4096 * place.block as u64 + place.byte as u64
}

// The count and the commit stamp of a slot.
fn head_of(count: u32, stamp: u64) -> [u8; 16]
    ensures { result ≡ u32_bytes count ++ zeros 4 ++ u64_bytes stamp }
{
    let mut head = [0; 16];
    head[..4].copy_from_slice(&count.to_le_bytes());
    head[8..].copy_from_slice(&stamp.to_le_bytes());
    head
}
