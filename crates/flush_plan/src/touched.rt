// A file's size, and the blocks that were touched from a stamp on.
ghost use Rattle.std.specs.Prelude.{◌≡◌, IfOk};
ghost use Rattle.flush_plan.specs.Touched.{page_of, is_marked_from, pages_from, IsFileChange};

use disk_change::{FileChange, Page, PageList};
use mem_files::FileBytes;
use sfs_base::{NoMemory, NodeId, Stamp};
use std::alloc::Global;

/// How many bytes a block has.
const BLOCK: u64 = 4096;

/// What a commit changes in a file: its size, and a page of each block whose mark is `cut` at least, with
/// the file's bytes in it and zeros behind the file's end. It looks at the marks of the file, and reads the
/// blocks of which it makes pages. Only want of memory refuses it.
pub fn file_change(
    alloc: Global,
    node: NodeId,
    cut: Stamp,
    bytes: &FileBytes,
) -> Result<FileChange, NoMemory>
    ensures { IfOk result (λ change. IsFileChange node cut.0 bytes.now change) }
{
    Ok(FileChange {
        node,
        size: bytes.size(),
        pages: touched_pages(alloc, cut, bytes)?,
    })
}

// The pages of the blocks that were touched from a stamp on.
fn touched_pages(alloc: Global, cut: Stamp, bytes: &FileBytes) -> Result<PageList, NoMemory>
    ensures { IfOk result (λ pages. pages.items ≡ pages_from cut.0 bytes.now) }
{
    let mut pages = PageList::new(alloc);
    for block in 0..bytes.room() {
        if is_touched(bytes, block, cut) {
            pages.reserve(1)?;
            pages.push(page_at(bytes, block));
        }
    }
    Ok(pages)
}

// Whether a block was touched from a stamp on.
fn is_touched(bytes: &FileBytes, block: u32, cut: Stamp) -> bool
    ensures { result ≡ is_marked_from cut.0 bytes.now block }
{
    match bytes.last(block) {
        Some(mark) => cut.0 <= mark.0,
        None => false,
    }
}

// The page of a block.
fn page_at(bytes: &FileBytes, block: u32) -> Page
    ensures { result ≡ page_of bytes.now.bytes block }
{
    let mut page = [0; 4096];
    let _ = bytes.read(u64::from(block) * BLOCK, &mut page);
    Page { block, bytes: page }
}
