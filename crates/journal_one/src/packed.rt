ghost use Rattle.std.specs.Prelude.{◌≡◌, ◌<◌, [], map, length, ◌++◌, IfOk, OnOk};
ghost use Rattle.sfs_image.specs.Bytes.{u32_bytes, u32s_bytes};
ghost use Rattle.std.specs.List.{flat_map};
ghost use Rattle.journal_one.specs.Packed.{contents_of, record_entry, block_of, inode_of_entry, bytes_of_entry, AreContents};

use fmt_journal::{Tx, TxBlock, TxRecord};
use sfs_base::{NoMemory, RoomyList};
use std::alloc::Global;
use std::marker::Model;
use std::mem;

/// A transaction with its numbers and its records each one behind another, as a journal slot has
/// them: what a slot is filled with, which takes no memory any more. It has at least one record.
/// Contracts see its records and its fresh blocks.
#[derive(Drop)]
pub struct Packed {
    tx: Tx,
    numbers: Vec<u8>,
    records: Vec<u8>,
}

impl Model for Packed {
    ghost use Rattle.journal_one.specs.Packed.{Contents, contents_of, IsPacked};

    ghost Value = { Contents };

    ghost view = { λ packed. contents_of packed.tx };

    ghost invariant = { λ packed. IsPacked (contents_of packed.tx) packed.numbers.items packed.records.items };
}

impl Packed {
    /// Packs the numbers and the records of a transaction that has records. It copies 516 bytes for
    /// each of them.
    pub fn new(alloc: Global, tx: Tx) -> Result<Packed, NoMemory>
        requires { 0 < length tx.records.items }
        ensures { IfOk result (λ packed. packed ≡ contents_of tx) }
    {
        let mut numbers = Vec::new(alloc);
        let mut records = Vec::new(alloc);
        for one in tx.records.as_slice() {
            pack(one, &mut numbers, &mut records)?;
        }
        for one in tx.fresh.as_slice() {
            look(one);
        }
        Ok(Packed {
            tx,
            numbers,
            records,
        })
    }

    /// The transaction, as it is now.
    pub fn into_tx(self) -> Tx
        ensures { contents_of result ≡ self }
    {
        self.tx
    }

    // Lets go of its fresh blocks, and hands them out.
    pub(crate) fn shed(self, alloc: Global) -> (Packed, RoomyList<TxBlock>)
        ensures packed { result.0 ≡ record { entries = self.entries; fresh = [] } }
        ensures fresh { map block_of result.1.items ≡ self.fresh }
    {
        let mut packed = self;
        let fresh = mem::replace(&mut packed.tx.fresh, RoomyList::new(alloc));
        (packed, fresh)
    }

    // How many records it has. They ascend by inode, and each has its 512 bytes.
    pub(crate) fn count(&self) -> usize
        ensures count { result ≡ length self.now.entries }
        ensures sound { AreContents self.now }
    {
        self.tx.records.as_slice().len()
    }

    // Its numbers, one behind another.
    pub(crate) fn numbers(&self) -> &[u8]
        ensures { result.now ≡ u32s_bytes (map inode_of_entry self.now.entries) }
    {
        &self.numbers
    }

    // Its records, one behind another.
    pub(crate) fn records(&self) -> &[u8]
        ensures { result.now ≡ flat_map bytes_of_entry self.now.entries }
    {
        &self.records
    }

    // Its fresh blocks.
    pub(crate) fn fresh(&self) -> &[TxBlock]
        ensures { map block_of result.now ≡ self.now.fresh }
    {
        self.tx.fresh.as_slice()
    }

    // Its records, each for itself.
    pub(crate) fn entries(&self) -> &[TxRecord]
        ensures { map record_entry result.now ≡ self.now.entries }
    {
        self.tx.records.as_slice()
    }
}

// A fresh block's bytes, of which there are 4,096.
fn look(one: &TxBlock) -> &[u8]
    ensures { length one.now.bytes ≡ 4096 }
{
    &one.bytes
}

// Adds the number of a record and its bytes behind those of the records before it.
fn pack(one: &TxRecord, numbers: &mut Vec<u8>, records: &mut Vec<u8>) -> Result<(), NoMemory>
    ensures numbers { OnOk result (numbers.new.items ≡ numbers.old.items ++ u32_bytes one.now.inode) }
    ensures records { OnOk result (records.new.items ≡ records.old.items ++ one.now.bytes) }
    ensures long { length one.now.bytes ≡ 512 }
{
    numbers.extend_from_slice(&one.inode.to_le_bytes())?;
    records.extend_from_slice(&one.bytes)?;
    Ok(())
}
