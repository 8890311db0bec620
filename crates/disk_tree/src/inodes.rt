// The inodes in the records: rules 1 to 3, which speak of one record each.
ghost use Rattle.std.specs.Prelude.{◌≡◌, ◌≢◌, ℕ, ◌<◌, ◌≤◌, ◌+◌, ◌*◌, ◌==◌, length, map, None, Some, All, IfOk, IfErr, Option, List};
ghost use Rattle.std.specs.List.{position};
ghost use Rattle.sfs_image.specs.Inode.{IsInode, inode_of, inode_fault};
ghost use Rattle.disk_tree.specs.Judged.{IsRefusal, Refused};
ghost use Rattle.disk_tree.specs.First.{FindsFirst};
ghost use Rattle.disk_tree.specs.Inodes.{inode_at, breaks_size_by, KeepRecordRules, IsMalformed, SoundRecords};
ghost use Rattle.disk_tree.specs.Whole.{IsWholeRecord, WholeRecords};

use crate::TreeFault;
use fmt_inode::{Bad, Inode, LARGEST, Records, decode};
use fmt_super::Layout;
use std::alloc::Global;

/// The kind of a file in a record.
pub const FILE: u8 = 1;

/// The kind of a directory.
pub const DIRECTORY: u8 = 2;

/// How many bytes a block has.
const BLOCK_BYTES: u64 = 4096;

/// How many blocks a directory has at most.
const DIRECTORY_BLOCKS: u64 = 2185;

/// The inodes in the records, where none of them breaks one of the first three rules.
pub fn read_inodes(
    alloc: Global,
    layout: &Layout,
    records: &Records,
) -> Result<Vec<Inode>, TreeFault>
    requires count { length records.now.items ≡ layout.now.inodes }
    requires some { 0 < layout.now.inodes }
    requires few { layout.now.inodes ≤ 16384 }
    ensures inodes { IfOk result (λ inodes. inodes.items ≡ map inode_of records.now.items) }
    ensures fit { IfOk result (λ inodes. All IsInode inodes.items) }
    ensures keep { IfOk result (λ _. KeepRecordRules layout.now records.now.items) }
    ensures bad { IfErr result (IsRefusal (λ inode rule. (told : Option (List ℕ)) → Refused told layout.now records.now.items inode rule)) }
{
    let inodes = match decoded(alloc, records) {
        Ok(inodes) => inodes,
        Err(fault) => return Err(fault),
    };
    if !has_root(&inodes) {
        return Err(TreeFault::BadImage { inode: 0, rule: 2 });
    }
    if let Some(inode) = first_of_wrong_size(&inodes) {
        return Err(TreeFault::BadImage { inode, rule: 3 });
    }
    let _ = layout.inodes;
    Ok(inodes)
}

// The inodes in the records, where none of these is malformed.
fn decoded(alloc: Global, records: &Records) -> Result<Vec<Inode>, TreeFault>
    requires { length records.now.items ≤ 16384 }
    ensures inodes { IfOk result (λ inodes. inodes.items ≡ map inode_of records.now.items) }
    ensures fit { IfOk result (λ inodes. All IsInode inodes.items) }
    ensures sound { IfOk result (λ _. SoundRecords (length records.now.items) records.now.items) }
    ensures whole { IfOk result (λ _. WholeRecords (length records.now.items) records.now.items) }
    ensures bad { IfErr result (IsRefusal (IsMalformed records.now.items)) }
{
    let mut inodes = Vec::new(alloc);
    for (place, record) in records.as_slice().iter().enumerate() {
        match inode_in(record) {
            Ok(inode) => inodes.push(inode)?,
            Err(_) => {
                return Err(TreeFault::BadImage {
                    inode: place as u32,
                    rule: 1,
                });
            }
        }
    }
    Ok(inodes)
}

// The inode in a record, which is whole.
fn inode_in(bytes: &[u8; 512]) -> Result<Inode, Bad>
    ensures ok { IfOk result (λ inode. (inode_fault bytes.now ≡ None) × (inode ≡ inode_of bytes.now)) }
    ensures fits { IfOk result IsInode }
    ensures err { IfErr result (λ bad. inode_fault bytes.now ≡ Some bad.at) }
    ensures whole { IsWholeRecord bytes.now }
{
    decode(bytes)
}

// A size that its kind can't have: rule 3.
fn breaks_size(inode: &Inode) -> bool
    ensures { result ≡ breaks_size_by inode.now }
{
    (inode.kind == FILE && inode.size > BLOCK_BYTES * u64::from(LARGEST))
        || (inode.kind == DIRECTORY
            && (inode.size % BLOCK_BYTES != 0 || inode.size > BLOCK_BYTES * DIRECTORY_BLOCKS))
}

// The first inode is a directory.
fn has_root(inodes: &[Inode]) -> bool
    requires { 0 < length inodes.now }
    ensures { result ≡ ((inode_at inodes.now 0).kind == 2) }
{
    let root = &inodes[0];
    root.kind == DIRECTORY
}

// The first inode whose size its kind can't have.
fn first_of_wrong_size(inodes: &[Inode]) -> Option<u32>
    requires { length inodes.now ≤ 16384 }
    ensures { FindsFirst (length inodes.now) (λ i. breaks_size_by (inode_at inodes.now i)) result }
{
    for (place, inode) in inodes.iter().enumerate() {
        if breaks_size(inode) {
            return Some(place as u32);
        }
    }
    None
}
