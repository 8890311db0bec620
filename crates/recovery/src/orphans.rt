// Orphans: files of link count 0. They are freed by one commit through the first slot of core 0.
ghost use Rattle.std.specs.Prelude.{◌≡◌, ℕ, Bool, ◌<◌, ◌≤◌, ◌++◌, ◌∷◌, [], All, if◌then◌else◌, length, map, IfOk, OnOk};
ghost use Rattle.std.specs.List.Sorted.{IsStrictlyIncreasing};
ghost use Rattle.std.specs.List.{range_with_len, filter};
ghost use Rattle.sfs_image.specs.ImageOf.{IsImageOf};
ghost use Rattle.sfs_image.specs.Journal.{Entry};
ghost use Rattle.sfs_image.specs.Part.{Part};
ghost use Rattle.sfs_image.specs.Super.{IsLayout};
ghost use Rattle.fmt_journal.specs.Ascending.{AscendByInode};
ghost use Rattle.journal_one.specs.Calls.{IsCalm};
ghost use Rattle.journal_one.specs.Known.{EachLeft};
ghost use Rattle.journal_one.specs.Packed.{record_entry};
ghost use Rattle.commit_one.specs.Change.{nothing_open};
ghost use Rattle.recovery.specs.Cause.{Ran};
ghost use Rattle.recovery.specs.Freed.{is_unlinked, unlinked_in, free_record, PacksFreeing, freeing, freed_by, FreesUnlinked};

use byteorder::{ByteOrder, LittleEndian};
use commit_one::{Committed, commit};
use fmt_journal::{Tx, TxRecord};
use fmt_super::Layout;
use journal_one::{Idle, Packed};
use sfs_base::{BlockList, Failed, InodeList, NoMemory, RoomyList};
use sfs_dev::Disk;
use std::alloc::Global;

/// The inodes whose records are those of a file of link count 0, ascending.
pub fn unlinked_in(alloc: Global, records: &[[u8; 512]]) -> Result<Vec<u32>, NoMemory>
    requires few { length records.now ≤ 16384 }
    ensures { IfOk result (λ inodes. inodes.items ≡ unlinked_in records.now) }
{
    let mut inodes = Vec::new(alloc);
    for place in 0..records.len() {
        add_unlinked(&mut inodes, place as u32, &records[place])?;
    }
    Ok(inodes)
}

// Puts an inode last, where its record is so.
fn add_unlinked(inodes: &mut Vec<u32>, inode: u32, bytes: &[u8; 512]) -> Result<(), NoMemory>
    ensures { OnOk result (inodes.new.items ≡ inodes.old.items ++ (if is_unlinked bytes.now then inode ∷ [] else [])) }
{
    if is_unlinked(bytes) {
        inodes.push(inode)?;
    }
    Ok(())
}

// Whether a record is that of a file of link count 0.
fn is_unlinked(bytes: &[u8; 512]) -> bool
    ensures { result ≡ is_unlinked bytes.now }
{
    bytes[0] == 1 && LittleEndian::read_u32(&bytes[4..8]) == 0
}

/// A transaction that frees these inodes, which ascend: a free record for each. None where there are none.
pub fn pack_freeing(alloc: Global, inodes: &[u32]) -> Result<Option<Packed>, NoMemory>
    requires { IsStrictlyIncreasing inodes.now }
    ensures { IfOk result (PacksFreeing inodes.now) }
{
    if inodes.is_empty() {
        return Ok(None);
    }
    let tx = Tx {
        records: RoomyList::from_vec(free_records(alloc, inodes)?),
        fresh: RoomyList::new(alloc),
        freed_blocks: BlockList::new(alloc),
        freed_inodes: InodeList::new(alloc),
    };
    Ok(Some(Packed::new(alloc, tx)?))
}

// A free record for each inode.
fn free_records(alloc: Global, inodes: &[u32]) -> Result<Vec<TxRecord>, NoMemory>
    ensures { IfOk result (λ records. records.items ≡ map free_record inodes.now) }
{
    let mut records = Vec::new(alloc);
    for inode in inodes {
        records.push(TxRecord {
            inode: *inode,
            bytes: [0; 512],
        })?;
    }
    Ok(records)
}

/// Commits a transaction that frees inodes, through the first slot of core 0, on a disk whose slots are
/// all closed.
pub fn free_unlinked<D: Disk>(disk: &mut D, layout: &Layout, packed: Packed) -> Result<(), Failed>
    requires layout { IsLayout (D.view disk.old).size layout.now }
    requires below { All (λ (entry : Entry). entry.inode < layout.now.inodes) packed.entries }
    requires fresh { packed.fresh ≡ [] }
    ensures ran { Ran (D.view disk.old) (D.view disk.new) result }
    ensures calm { OnOk result (IsCalm (D.view disk.new)) }
    ensures frees { (parts : ℕ → Part) (n : ℕ) (test : ℕ → Bool) → packed ≡ freeing (filter test (range_with_len 0 n)) → layout.now.inodes ≤ n
        → EachLeft (D.view disk.old) (IsImageOf layout.now nothing_open parts)
        → FreesUnlinked layout.now parts (freed_by layout.now test n parts) (D.view disk.old) (D.view disk.new) result }
{
    let idle = Idle::at(disk, layout, 0, 0);
    match commit(disk, idle, packed, 1) {
        Ok(Committed { idle, moment: _ }) => {
            idle.leave();
            Ok(())
        }
        Err(_) => Err(Failed),
    }
}
