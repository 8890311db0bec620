// Which pointers and indirect blocks of an inode a commit rewrites, and how many fresh blocks that needs.
ghost use Rattle.std.specs.Prelude.{◌≡◌, ◌+◌, ◌<◌, ◌≤◌, count_by};
ghost use Rattle.std.specs.List.{list_any};
ghost use Rattle.sfs_image.specs.Part.{tabulate};
ghost use Rattle.sfs_image.specs.Seen.{FILE_BLOCKS, PLACES};
ghost use Rattle.image_laws.specs.Need.{changes_pointer as pointer_changes, has_pointer as pointer_there, table_blocks, first_block};
ghost use Rattle.image_laws.specs.Need.{rewrites_table as table_rewritten, table_has_pointer as table_points, takes_place, rank};
ghost use Rattle.block_map.specs.Changed.{AscendByBlock};
ghost use Rattle.block_map.specs.Kept.{pointer_kept};
ghost use Rattle.block_map.specs.Remap.{rewrite_of, takes_fresh, touches_table as table_touched, table_fate, fresh_by_fate, TABLES as MOST_TABLES};

use crate::changed::{Changed, ChangedBlock};
use crate::pointers::block_at;
use fmt_inode::{Inode, LARGEST, Tables};

/// How many indirect blocks an inode has at most.
pub const TABLES: usize = 16;

/// How many pointers an indirect block has.
pub(crate) const POINTERS: u32 = 1024;

/// What becomes of an indirect block in a commit: it stays as it is; or it is rewritten, and then it
/// goes where it has no pointer left, and else it is written into a fresh block.
#[derive(Clone, Copy)]
pub enum TableFate {
    Stays,
    Goes,
    IsWritten,
}

impl TableFate {
    // How many fresh blocks the indirect block takes.
    pub(crate) fn fresh_blocks(self) -> u32
        ensures { result ≡ fresh_by_fate self }
    {
        match self {
            TableFate::IsWritten => 1,
            _ => 0,
        }
    }
}

/// How many fresh blocks an inode needs whose blocks are rewritten so: one for each that is not all
/// zeros, and one for each indirect block that is written. The inode has its new size. It takes no
/// memory.
pub fn blocks_needed(inode: &Inode, tables: &Tables, changed: &Changed) -> u32
    ensures { result ≡ rank (takes_place (rewrite_of inode.now tables.now.items changed.now.items)) PLACES }
{
    let mut count = data_needed(changed);
    let fates = table_fates(inode, tables, changed);
    for k in 0..TABLES {
        count += fates[k].fresh_blocks();
    }
    count
}

// How many of the rewritten blocks take a fresh one.
pub(crate) fn data_needed(changed: &Changed) -> u32
    ensures count { result ≡ count_by takes_fresh changed.now.items }
    ensures fits { result ≤ FILE_BLOCKS }
    ensures ascending { AscendByBlock changed.now.items }
{
    let mut count = 0;
    for one in changed.as_slice() {
        if one.block < LARGEST && !one.is_zero {
            count += 1;
        }
    }
    count
}

// What becomes of each indirect block.
pub(crate) fn table_fates(inode: &Inode, tables: &Tables, changed: &Changed) -> [TableFate; TABLES]
    ensures { result ≡ tabulate MOST_TABLES (table_fate (rewrite_of inode.now tables.now.items changed.now.items)) }
{
    let mut fates = [TableFate::Stays; TABLES];
    for k in 0..TABLES {
        fates[k] = fate_of(inode, tables, changed, k as u32);
    }
    fates
}

// What becomes of the indirect block of a place.
fn fate_of(inode: &Inode, tables: &Tables, changed: &Changed, k: u32) -> TableFate
    requires { k < MOST_TABLES }
    ensures { result ≡ table_fate (rewrite_of inode.now tables.now.items changed.now.items) k }
{
    if !rewrites_table(inode, tables, changed, k) {
        TableFate::Stays
    } else if has_pointers(inode, tables, changed, k) {
        TableFate::IsWritten
    } else {
        TableFate::Goes
    }
}

// The first block whose pointer an indirect block has.
pub(crate) fn first_of(k: u32) -> u32
    requires { k < MOST_TABLES }
    ensures { result ≡ first_block k }
{
    108 + POINTERS * k
}

// Whether an indirect block is rewritten: one of its pointers changes, or it covers no byte any more.
fn rewrites_table(inode: &Inode, tables: &Tables, changed: &Changed, k: u32) -> bool
    requires { k < MOST_TABLES }
    ensures { result ≡ table_rewritten (rewrite_of inode.now tables.now.items changed.now.items) k }
{
    changes_pointers(inode, tables, changed, k)
        || (inode.indirect[k as usize] != 0 && inode.size.div_ceil(4096) <= u64::from(first_of(k)))
}

// Whether a pointer of an indirect block changes.
fn changes_pointers(inode: &Inode, tables: &Tables, changed: &Changed, k: u32) -> bool
    requires { k < MOST_TABLES }
    ensures { result ≡ list_any (pointer_changes (rewrite_of inode.now tables.now.items changed.now.items)) (table_blocks k) }
{
    for one in changed.as_slice() {
        if touches_table(inode, tables, k, *one) {
            return true;
        }
    }
    false
}

// Whether a rewritten block changes a pointer of an indirect block.
fn touches_table(inode: &Inode, tables: &Tables, k: u32, one: ChangedBlock) -> bool
    requires { k < MOST_TABLES }
    ensures { result ≡ table_touched (pointer_kept inode.now tables.now.items) k one }
{
    let first = first_of(k);
    let is_inside = first <= one.block && one.block < first + POINTERS;
    is_inside && (!one.is_zero || block_at(inode, tables, one.block) != 0)
}

// Whether an indirect block has a pointer afterwards.
fn has_pointers(inode: &Inode, tables: &Tables, changed: &Changed, k: u32) -> bool
    requires { k < MOST_TABLES }
    ensures { result ≡ table_points (rewrite_of inode.now tables.now.items changed.now.items) k }
{
    let first = first_of(k);
    for entry in 0..POINTERS {
        if has_pointer(inode, tables, changed, first + entry) {
            return true;
        }
    }
    false
}

// Whether a block has a pointer afterwards.
fn has_pointer(inode: &Inode, tables: &Tables, changed: &Changed, n: u32) -> bool
    requires { n < FILE_BLOCKS }
    ensures { result ≡ pointer_there (rewrite_of inode.now tables.now.items changed.now.items) n }
{
    match changed.find(n) {
        Some(one) => !one.is_zero,
        None => block_at(inode, tables, n) != 0,
    }
}
