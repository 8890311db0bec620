// Which blocks of a node a commit rewrites.
ghost use Rattle.std.specs.Prelude.{◌≡◌, ◌<◌, ◌≤◌, ◌==◌, ◌&&◌, ℕ, Bool, false, List, [], length, nat_le, not, slice_index_or, IfOk, IfSome};
ghost use Rattle.sfs_image.specs.Seen.{FILE_BLOCKS};
ghost use Rattle.block_map.specs.Kept.{pointer_kept};
ghost use Rattle.disk_change.specs.Patched.{FitsBlocks, IsPassed, TellsTouched, patched};
ghost use Rattle.disk_change.specs.Seat.{has_no_row, blocks_to_last_row as rows_end, directory_changed as blocks_changed, file_changed as pages_changed, block_said, page_said as said_of_page};

use crate::pages::{Page, PageList};
use crate::patch::{SlotPatch, count_of, is_empty_at};
use block_map::{Changed, ChangedBlock, block_at};
use fmt_inode::{Inode, LARGEST, Tables};
use fmt_slots::SlotBlock;
use sfs_base::NoMemory;
use sfs_image::first_nonzero;
use std::alloc::Global;

// Whether a block has no row.
pub(crate) fn is_empty(block: &SlotBlock) -> bool
    ensures { result ≡ has_no_row block.now }
{
    for place in 0..block.len() {
        if block.row(place).is_some() {
            return false;
        }
    }
    true
}

// The blocks of a directory that are rewritten, with a patch after which so many stay: those that change, and
// those that are there behind the last one with a row.
pub(crate) fn directory_changed(
    alloc: Global,
    inode: &Inode,
    tables: &Tables,
    slots: &[SlotBlock],
    patch: &SlotPatch,
    end: usize,
) -> Result<Changed, NoMemory>
    requires fits { FitsBlocks slots.now patch.now }
    requires end { end ≡ rows_end (patched patch.now slots.now) }
    ensures { (touched : List Bool) → TellsTouched slots.now patch.now touched
        → IfOk result (λ changed. changed.items ≡ blocks_changed (pointer_kept inode.now tables.now.items) (patched patch.now slots.now) touched) }
{
    let mut changed = Changed::new(alloc);
    let most = count_of(slots, patch).min(LARGEST as usize);
    let mut n = next_said(slots, patch, end, most, 0);
    while n < most {
        if let Some(one) = said_of(inode, tables, slots, patch, end, n) {
            changed.reserve(1)?;
            changed.push(one);
        }
        n = next_said(slots, patch, end, most, n + 1);
    }
    Ok(changed)
}

// The first block from a place on that may be rewritten, below a limit: one that changes, or one behind an end.
fn next_said(slots: &[SlotBlock], patch: &SlotPatch, end: usize, most: usize, from: usize) -> usize
    requires { from ≤ most }
    ensures on { from ≤ result }
    ensures within { result ≤ most }
    ensures passed { (n : ℕ) → from ≤ n → n < result → IsPassed slots.now patch.now end n }
{
    let behind = end.min(slots.len());
    if from >= behind {
        return from;
    }
    let at = patch.changed.partition_point(|one| one.place < from);
    let next = match patch.changed.get(at) {
        Some(one) => one.place,
        None => behind,
    };
    next.min(behind).min(most)
}

// What is said of a block of a directory, where it is rewritten.
fn said_of(
    inode: &Inode,
    tables: &Tables,
    slots: &[SlotBlock],
    patch: &SlotPatch,
    end: usize,
    n: usize,
) -> Option<ChangedBlock>
    requires end { end ≡ rows_end (patched patch.now slots.now) }
    requires within { n < FILE_BLOCKS }
    requires there { n < length (patched patch.now slots.now) }
    ensures said { (touched : List Bool) → TellsTouched slots.now patch.now touched
        → result ≡ block_said (pointer_kept inode.now tables.now.items) (patched patch.now slots.now) touched n }
    ensures own { IfSome result (λ one. one.block ≡ n) }
{
    if is_touched(slots, patch, n) {
        return Some(rewritten(slots, patch, n));
    }
    if is_behind(inode, tables, end, n) {
        return Some(rewritten(slots, patch, n));
    }
    None
}

// Whether the block of a place changes with a patch.
fn is_touched(slots: &[SlotBlock], patch: &SlotPatch, n: usize) -> bool
    requires { n < length (patched patch.now slots.now) }
    ensures { (touched : List Bool) → TellsTouched slots.now patch.now touched → result ≡ slice_index_or touched n false }
{
    if n >= slots.len() {
        return true;
    }
    match patch.changed.binary_search_by_key(&n, |one| one.place) {
        Ok(_) => true,
        Err(_) => false,
    }
}

// A block of a directory that is rewritten.
fn rewritten(slots: &[SlotBlock], patch: &SlotPatch, n: usize) -> ChangedBlock
    requires { n < FILE_BLOCKS }
    ensures { result ≡ record { block = n; is_zero = has_no_row (slice_index_or (patched patch.now slots.now) n []) } }
{
    ChangedBlock {
        block: n as u32,
        is_zero: is_empty_at(slots, patch, n),
    }
}

// Whether a block is there behind an end.
fn is_behind(inode: &Inode, tables: &Tables, end: usize, n: usize) -> bool
    requires { n < FILE_BLOCKS }
    ensures { result ≡ (nat_le end n && not (pointer_kept inode.now tables.now.items n == 0)) }
{
    if n < end {
        return false;
    }
    block_at(inode, tables, n as u32) != 0
}

// The blocks of a file that are rewritten.
pub(crate) fn file_changed(alloc: Global, pages: &PageList) -> Result<Changed, NoMemory>
    ensures { IfOk result (λ changed. changed.items ≡ pages_changed pages.now.items) }
{
    let pages = pages.as_slice();
    let mut changed = Changed::new(alloc);
    for page in pages {
        changed.reserve(1)?;
        changed.push(page_said(page));
    }
    Ok(changed)
}

// What is said of a page.
fn page_said(page: &Page) -> ChangedBlock
    ensures { result ≡ said_of_page page.now }
{
    ChangedBlock {
        block: page.block,
        is_zero: first_nonzero(&page.bytes, 0, 4096).is_none(),
    }
}
