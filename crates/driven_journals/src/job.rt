// What a core commits: files of one block, or of no block.
ghost use Rattle.std.specs.Prelude.{◌≡◌, ◌<◌, ◌≤◌, All, IfOk, IfSome, length, true};
ghost use Rattle.sfs_image.specs.Super.{data_start};
ghost use Rattle.fmt_journal.specs.Ascending.{AscendByInode};
ghost use Rattle.fmt_journal.specs.declared.tx.TxRecord.{TxRecord};
ghost use Rattle.journal_set.specs.Committing.{CanBeCommitted};
ghost use Rattle.driven_journals.specs.Jobs.{IsWithin};

use disk_box::Fsync;
use fmt_journal::{Tx, TxBlock, TxRecord};
use fmt_super::Layout;
use sfs_base::{BlockList, InodeList, NoMemory, RoomyList};
use space_map::Grant;
use std::alloc::Global;

/// A commit that a core is to make: its own file has one block, all of whose bytes are this one, and gives up the block that it had; and the file
/// that all cores share, whose inode is above, has this size and no block, where a size is given.
#[derive(Clone, Copy)]
pub struct Job {
    pub fsync: Fsync,
    pub inode: u32,
    pub shared: u32,
    pub byte: u8,
    pub size: Option<u64>,
    pub gives_up: Option<u32>,
}

// The record of a file with one name, of so many bytes, whose first block is this one, 0 for a hole.
fn file_record(size: u64, block: u32) -> [u8; 512] {
    let mut bytes = [0u8; 512];
    bytes[0] = 1;
    bytes[4] = 1;
    bytes[8..16].copy_from_slice(&size.to_le_bytes());
    bytes[16..20].copy_from_slice(&block.to_le_bytes());
    bytes
}

// Whether a job and a block lie on a disk of this layout.
fn is_within(layout: &Layout, job: &Job, block: u32) -> bool
    ensures { result ≡ true → IsWithin layout.now job.now block }
{
    layout.is_valid(layout.blocks)
        && layout.data_at() <= block
        && block < layout.blocks
        && job.inode < job.shared
        && job.shared < layout.inodes
}

// The records of a job.
fn records_of(alloc: Global, job: &Job, block: u32) -> Result<RoomyList<TxRecord>, NoMemory>
    requires order { job.now.inode < job.now.shared }
    ensures some { IfOk result (λ records. 0 < length records.items) }
    ensures ascend { IfOk result (λ records. AscendByInode records.items) }
    ensures below { IfOk result (λ records. All (λ (one : TxRecord). one.inode ≤ job.now.shared) records.items) }
{
    let mut records = RoomyList::<TxRecord>::new(alloc);
    records.reserve(2)?;
    records.push(TxRecord {
        inode: job.inode,
        bytes: file_record(4_096, block),
    });
    if let Some(size) = job.size {
        records.push(TxRecord {
            inode: job.shared,
            bytes: file_record(size, 0),
        });
    }
    Ok(records)
}

// The block that is given up, where there is one.
fn freed_of(alloc: Global, job: &Job) -> Result<BlockList, NoMemory>
    ensures { IfOk result (λ blocks. length blocks.items ≤ 1) }
{
    let mut freed = BlockList::new(alloc);
    freed.reserve(1)?;
    if let Some(block) = job.gives_up {
        freed.push(block);
    }
    Ok(freed)
}

// The transaction of a job, with the first block of a grant. None, where it does not lie on a disk of this layout, or memory is wanting.
pub(crate) fn tx_of(alloc: Global, layout: &Layout, job: &Job, grant: &Grant) -> Option<Tx>
    ensures { IfSome result (CanBeCommitted layout.now) }
{
    let block = *grant.blocks().get(0)?;
    if !is_within(layout, job, block) {
        return None;
    }
    let records = records_of(alloc, job, block).ok()?;
    let freed_blocks = freed_of(alloc, job).ok()?;
    let mut fresh = RoomyList::<TxBlock>::new(alloc);
    fresh.reserve(1).ok()?;
    fresh.push(TxBlock {
        block,
        bytes: [job.byte; 4096],
    });
    Some(Tx {
        records,
        fresh,
        freed_blocks,
        freed_inodes: InodeList::new(alloc),
    })
}
