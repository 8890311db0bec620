// Bare writes, as a control: what the disk itself takes for 4,096 bytes that are to last.
use sfs_dev::Disk;

/// How many there are.
pub const BARE_WRITES: u32 = 200;

// Where they go: the last block of the image.
const AT: u64 = 4096 * 16_383;

/// Writes a block again and again, with a sync after each, and answers how many times that went well.
pub fn bare_writes<D: Disk>(disk: &mut D) -> u32 {
    let block = [0x6du8; 4096];
    let mut well = 0u32;
    for _ in 0..BARE_WRITES {
        if is_written(disk, &block) {
            well = well.saturating_add(1);
        }
    }
    well
}

// Writes a block with a sync, and says whether that went well. A disk without that block is left as it is.
fn is_written<D: Disk>(disk: &mut D, block: &[u8; 4096]) -> bool {
    if disk.len() < 16_384 {
        return false;
    }
    disk.write_at(AT, block).is_ok() && disk.sync().is_ok()
}
