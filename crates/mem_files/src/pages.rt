ghost use Rattle.std.specs.Prelude.{◌≡◌, ◌+◌, ◌-◌, ◌*◌, ◌/◌, ◌%◌, ◌<◌, ◌≤◌, ◌^◌, ℕ, [], length, slice_index, slice_index_or, nat_lt, OnOk, IfOk, if◌then◌else◌};
ghost use Rattle.mem_files.specs.Pages.{byte_at, byte_after, is_within, IsPieceIn, IsWrittenPage, SameBytes};

use crate::page::{PAGE, Page};
use sfs_base::NoMemory;
use std::alloc::Global;

/// Makes the list of pages `end` long at least, by pages that keep no byte.
pub(crate) fn grow(pages: &mut Vec<Page>, end: usize) -> Result<(), NoMemory>
    ensures ok { OnOk result (end ≤ length pages.new.items) }
    ensures same { SameBytes pages.old.items pages.new.items }
{
    for _ in pages.len()..end {
        pages.push(Page::new())?;
    }
    Ok(())
}

/// The pages from `first` to below `end` as they are with bytes written at a place, which lie within them.
pub(crate) fn written(
    alloc: Global,
    pages: &[Page],
    at: usize,
    from: &[u8],
    first: usize,
    end: usize,
) -> Result<Vec<Page>, NoMemory>
    requires first { first * PAGE ≤ at }
    requires end { at + length from.now ≤ end * PAGE }
    requires small { end * PAGE < 2 ^ 62 }
    ensures count { IfOk result (λ fresh. length fresh.items ≡ end - first) }
    ensures written { IfOk result (λ fresh. (place : ℕ) → first * PAGE ≤ place → place < end * PAGE
        → byte_at fresh.items (place - first * PAGE) ≡ byte_after (byte_at pages.now) at from.now place) }
{
    let mut fresh = Vec::with_capacity(alloc, end - first)?;
    for block in first..end {
        fresh.push_reserved(written_page(alloc, pages, at, from, block)?);
    }
    Ok(fresh)
}

// One page as it is then.
fn written_page(
    alloc: Global,
    pages: &[Page],
    at: usize,
    from: &[u8],
    block: usize,
) -> Result<Page, NoMemory>
    requires end { at + length from.now < 2 ^ 62 }
    requires small { block * PAGE < 2 ^ 62 }
    ensures { IfOk result (λ page. IsWrittenPage pages.now at from.now block page) }
{
    let (offset, piece) = piece_in(at, from, block);
    match pages.get(block) {
        Some(page) => page.written(alloc, offset, piece),
        None => Page::new().written(alloc, offset, piece),
    }
}

// The bytes of a write that fall into a block, and where in it they begin.
fn piece_in(at: usize, from: &[u8], block: usize) -> (usize, &[u8])
    requires end { at + length from.now < 2 ^ 62 }
    requires small { block * PAGE < 2 ^ 62 }
    ensures fits { result.0 + length result.1.now ≤ PAGE }
    ensures piece { IsPieceIn at from.now block result.0 result.1.now }
{
    let start = block * PAGE;
    let end = at + from.len();
    let low = at.max(start).min(start + PAGE);
    let high = end.max(low).min(start + PAGE);
    let skip = low.saturating_sub(at).min(from.len());
    let stop = high.saturating_sub(at).min(from.len());
    (low - start, &from[skip..stop.max(skip)])
}

/// Puts pages in the place of those from `first` on.
pub(crate) fn put(pages: &mut Vec<Page>, first: usize, fresh: Vec<Page>)
    requires within { first + length fresh.items ≤ length pages.old.items }
    ensures length { length pages.new.items ≡ length pages.old.items }
    ensures pages { (block : ℕ) → slice_index_or pages.new.items block []
        ≡ (if is_within first (length fresh.items) block then slice_index_or fresh.items (block - first) []
        else slice_index_or pages.old.items block []) }
{
    let mut fresh = fresh;
    let end = first + fresh.len();
    pages[first..end].swap_with_slice(&mut fresh);
}

/// Keeps no byte from `size` on.
pub(crate) fn cut(pages: &mut Vec<Page>, size: usize)
    ensures { (place : ℕ) → byte_at pages.new.items place
        ≡ (if nat_lt place size then byte_at pages.old.items place else 0) }
{
    pages.truncate(size / PAGE + 1);
    if size / PAGE < pages.len() {
        let last = &mut pages[size / PAGE];
        last.cut(size % PAGE);
    }
}

/// Copies the bytes from a place on.
pub(crate) fn copy_to(pages: &[Page], at: usize, into: &mut [u8])
    requires { at + length into.old < 2 ^ 62 }
    ensures { (k : ℕ) → k < length into.old → slice_index into.new k ≡ byte_at pages.now (at + k) }
{
    let mut done = 0;
    while done < into.len() {
        let from = at + done;
        let end = into.len().min(done + (PAGE - from % PAGE));
        copy_page(pages, from, &mut into[done..end]);
        done = end;
    }
}

// Copies bytes of one page.
fn copy_page(pages: &[Page], at: usize, into: &mut [u8])
    requires { at % PAGE + length into.old ≤ PAGE }
    ensures { (k : ℕ) → k < length into.old → slice_index into.new k ≡ byte_at pages.now (at + k) }
{
    match pages.get(at / PAGE) {
        Some(page) => page.copy_to(at % PAGE, into),
        None => into.fill(0),
    }
}
