// Where the blocks of an inode lie, by what is kept of it in memory.
ghost use Rattle.std.specs.Prelude.{◌≡◌, ◌<◌};
ghost use Rattle.block_map.specs.Kept.{pointer_kept};
ghost use Rattle.sfs_image.specs.Seen.{FILE_BLOCKS};

use fmt_inode::{Inode, PointerPlace, Tables, pointer_of};

/// The block of the disk that holds block `n` of an inode, by its record and its indirect blocks. It
/// is 0 for a hole, and a block is one too where the indirect block of its pointer is missing.
pub fn block_at(inode: &Inode, tables: &Tables, n: u32) -> u32
    requires { n < FILE_BLOCKS }
    ensures { result ≡ pointer_kept inode.now tables.now.items n }
{
    match pointer_of(n) {
        PointerPlace::Direct { place } => inode.direct[place as usize],
        PointerPlace::Indirect { table, place } => match tables.find(table) {
            Some(found) => found.pointer(place as usize),
            None => 0,
        },
    }
}
