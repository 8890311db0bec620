// The fresh blocks that a commit writes of one node.
ghost use Rattle.std.specs.Prelude.{◌≡◌, ◌<◌, ◌++◌, ◌==◌, [], OnOk, option_to_list, slice_get, slice_index, slice_index_or, take, filter_map};
ghost use Rattle.std.specs.Option.{option_copied, option_map_or};
ghost use Rattle.std.specs.List.{range_with_len, find};
ghost use Rattle.block_map.specs.declared.rewrite.TableFate.TheVariants.{Stays};
ghost use Rattle.sfs_image.specs.Inode.{pointers_bytes};
ghost use Rattle.sfs_image.specs.SlotBlock.{slots_bytes};
ghost use Rattle.keyed_list.specs.Ascending.{item_with};
ghost use Rattle.disk_change.specs.Pages.{page_block};
ghost use Rattle.disk_change.specs.Parts.{built_with};
ghost use Rattle.disk_change.specs.Patched.{patched};
ghost use Rattle.disk_change.specs.Fresh.{zero_bytes, content_of, data_written, table_at, table_of_place, fresh_written};

use crate::kinds::DIRECTORY;
use crate::node_built::NodeBuilt;
use crate::pages::PageList;
use crate::patch::block_of;
use block_map::{ChangedBlock, TABLES, TableFate, block_at};
use fmt_inode::{Inode, LARGEST, Table};
use fmt_journal::TxBlock;
use fmt_slots::{SlotBlock, encode};
use sfs_base::NoMemory;

// Puts the fresh blocks of a node that begins with these slots behind others: those of its data, then its
// indirect blocks.
pub(crate) fn push_fresh(
    fresh: &mut Vec<TxBlock>,
    built: &NodeBuilt,
    slots: &[SlotBlock],
    pages: &PageList,
) -> Result<(), NoMemory>
    ensures { OnOk result (fresh.new.items ≡ fresh.old.items ++ fresh_written (built_with slots.now built.now) pages.now.items) }
{
    push_data(fresh, built, slots, pages)?;
    push_tables(fresh, built)
}

// Puts the fresh blocks of a node's data behind others.
fn push_data(
    fresh: &mut Vec<TxBlock>,
    built: &NodeBuilt,
    slots: &[SlotBlock],
    pages: &PageList,
) -> Result<(), NoMemory>
    ensures { OnOk result (fresh.new.items
        ≡ fresh.old.items ++ filter_map (data_written (built_with slots.now built.now) pages.now.items) built.now.changed) }
{
    for one in built.changed.as_slice() {
        push_block(fresh, data_block(built, slots, pages, one))?;
    }
    Ok(())
}

// Puts the fresh blocks of a node's indirect blocks behind others.
fn push_tables(fresh: &mut Vec<TxBlock>, built: &NodeBuilt) -> Result<(), NoMemory>
    ensures { OnOk result (fresh.new.items ≡ fresh.old.items ++ filter_map (table_of_place (built_with [] built.now)) (range_with_len 0 16)) }
{
    for k in 0..TABLES {
        push_table(fresh, built, k)?;
    }
    Ok(())
}

// Puts the indirect block of a place behind others, where it is written. Its fate is asked first, so that no
// array of a block is made where none is written.
fn push_table(fresh: &mut Vec<TxBlock>, built: &NodeBuilt, k: usize) -> Result<(), NoMemory>
    requires { k < 16 }
    ensures { OnOk result (fresh.new.items ≡ fresh.old.items ++ option_to_list (table_of_place (built_with [] built.now) k)) }
{
    match fate_at(built, k) {
        TableFate::Stays => Ok(()),
        TableFate::Goes => Ok(()),
        TableFate::IsWritten => {
            push_written(fresh, indirect_at(&built.meta, k), table_at_place(built, k))
        }
    }
}

// Puts an indirect block that is written behind others, where its own pointer is this.
fn push_written(fresh: &mut Vec<TxBlock>, block: u32, table: Option<&Table>) -> Result<(), NoMemory>
    ensures { OnOk result (fresh.new.items ≡ fresh.old.items ++ option_to_list (table_at block (option_copied table.entry))) }
{
    if block != 0 {
        let bytes = table_content(table);
        fresh.push(TxBlock { block, bytes })?;
    }
    Ok(())
}

// Puts a block last, where there is one.
fn push_block(fresh: &mut Vec<TxBlock>, block: Option<TxBlock>) -> Result<(), NoMemory>
    ensures { OnOk result (fresh.new.items ≡ fresh.old.items ++ option_to_list block) }
{
    if let Some(block) = block {
        fresh.push(block)?;
    }
    Ok(())
}

// The fresh block of a rewritten one, where it takes one.
fn data_block(
    built: &NodeBuilt,
    slots: &[SlotBlock],
    pages: &PageList,
    one: &ChangedBlock,
) -> Option<TxBlock>
    ensures { result ≡ data_written (built_with slots.now built.now) pages.now.items one.now }
{
    if one.is_zero || one.block >= LARGEST {
        return None;
    }
    let block = block_at(&built.meta, &built.tables, one.block);
    if block == 0 {
        return None;
    }
    let bytes = content(built, slots, pages, one.block);
    Some(TxBlock { block, bytes })
}

// What is written to a block: of a directory its slots, and of a file its page.
fn content(built: &NodeBuilt, slots: &[SlotBlock], pages: &PageList, n: u32) -> [u8; 4096]
    ensures { result ≡ content_of (built_with slots.now built.now) pages.now.items n }
{
    if built.meta.kind == DIRECTORY {
        slots_content(built, slots, n)
    } else {
        page_content(pages, n)
    }
}

// The bytes of a directory's block.
fn slots_content(built: &NodeBuilt, slots: &[SlotBlock], n: u32) -> [u8; 4096]
    ensures { result ≡ option_map_or slots_bytes (slice_get (take built.now.end (patched built.now.patch slots.now)) n) zero_bytes }
{
    if n as usize >= built.end {
        return [0; 4096];
    }
    match block_of(slots, &built.patch, n as usize) {
        Some(block) => bytes_of_slots(block),
        None => [0; 4096],
    }
}

// The bytes of a block of slots.
fn bytes_of_slots(block: &SlotBlock) -> [u8; 4096]
    ensures { result ≡ slots_bytes block.now }
{
    let mut bytes = [0; 4096];
    encode(block, &mut bytes);
    bytes
}

// The bytes of a file's page.
fn page_content(pages: &PageList, n: u32) -> [u8; 4096]
    ensures { result ≡ option_map_or (λ page. page.bytes) (item_with page_block n pages.now.items) zero_bytes }
{
    match pages.find(n) {
        Some(page) => page.bytes,
        None => [0; 4096],
    }
}

// The pointer of an inode's indirect block.
fn indirect_at(inode: &Inode, k: usize) -> u32
    requires { k < 16 }
    ensures { result ≡ slice_index inode.now.indirect k }
{
    inode.indirect[k]
}

// What becomes of the indirect block of a place.
fn fate_at(built: &NodeBuilt, k: usize) -> TableFate
    requires { k < 16 }
    ensures { result ≡ slice_index_or built.now.fates k Stays }
{
    built.fates[k]
}

// The indirect block of a place, where there is one.
fn table_at_place(built: &NodeBuilt, k: usize) -> Option<&Table>
    requires { k < 16 }
    ensures { option_copied result ≡ find (λ t. t.place == k) built.now.tables }
{
    built.tables.find(k as u32)
}

// The bytes of an indirect block.
fn table_content(table: Option<&Table>) -> [u8; 4096]
    ensures { result ≡ option_map_or (λ t. pointers_bytes t.pointers) (option_copied table.entry) zero_bytes }
{
    match table {
        Some(table) => bytes_of_table(table),
        None => [0; 4096],
    }
}

// The bytes of a table's pointers.
fn bytes_of_table(table: &Table) -> [u8; 4096]
    ensures { result ≡ pointers_bytes table.now.pointers }
{
    let mut bytes = [0; 4096];
    table.encode(&mut bytes);
    bytes
}
