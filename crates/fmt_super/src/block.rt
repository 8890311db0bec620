ghost use Rattle.std.specs.Prelude.{◌≡◌, ◌≤◌, ◌+◌, None, Some, IfOk, IfErr, codes, bytes_eq, nat_le, ◌&&◌};
ghost use Rattle.sfs_image.specs.Bytes.{u32_at, part};
ghost use Rattle.sfs_image.specs.Super.{IsLayout, super_of, super_fault, super_bytes, layout_fault, data_start};

use crate::Layout;
use byteorder::{ByteOrder, LittleEndian};
use sfs_image::{Bad, MOST_SLOTS, clear, first_nonzero};

/// The text at the begin of a superblock.
const TEXT: &[u8; 8] = b"SCALEFS1";

/// The version of the format.
const VERSION: u32 = 1;

/// The layout in a superblock, on a disk of `len` blocks. `Bad` names the first wrong field, or the
/// first byte behind the fields that is not zero: 0 the text, or a disk of no blocks; 8 the version;
/// 12 the cores; 20 the inodes; 24 the slots; 16 the blocks; from 28 on the zeros.
pub fn decode(block: &[u8; 4096], len: u32) -> Result<Layout, Bad>
    ensures ok { IfOk result (λ layout. (super_fault len block.now ≡ None) × (layout ≡ super_of block.now)) }
    ensures fits { IfOk result (IsLayout len) }
    ensures err { IfErr result (λ bad. super_fault len block.now ≡ Some bad.at) }
{
    let layout = Layout {
        blocks: LittleEndian::read_u32(&block[16..20]),
        inodes: LittleEndian::read_u32(&block[20..24]),
        cores: LittleEndian::read_u32(&block[12..16]),
        slots: LittleEndian::read_u32(&block[24..28]),
    };
    match fault_of(block, len, &layout) {
        None => Ok(layout),
        Some(at) => Err(Bad { at }),
    }
}

// The first wrong place of a superblock with this layout.
fn fault_of(block: &[u8; 4096], len: u32, layout: &Layout) -> Option<u32>
    ensures { result ≡ layout_fault len layout.now block.now }
{
    if len == 0 || block[..8] != TEXT[..] {
        return Some(0);
    }
    if LittleEndian::read_u32(&block[8..12]) != VERSION {
        return Some(8);
    }
    if layout.cores < 1 || layout.cores > 16 {
        return Some(12);
    }
    if layout.inodes < 16 || layout.inodes > 16_384 {
        return Some(20);
    }
    if layout.slots < 1 || layout.slots > MOST_SLOTS {
        return Some(24);
    }
    if layout.blocks > 262_144 || layout.blocks > len || layout.data_at() >= layout.blocks {
        return Some(16);
    }
    first_nonzero(block, 28, 4096)
}

/// Writes the superblock of a layout that a disk of its blocks can have, from which `decode` reads it
/// again. It takes no memory.
pub fn encode(layout: &Layout, block: &mut [u8; 4096])
    requires { IsLayout layout.now.blocks layout.now }
    ensures spelled { block.new ≡ super_bytes layout.now }
    ensures sound { super_fault layout.now.blocks block.new ≡ None }
    ensures again { super_of block.new ≡ layout.now }
{
    block[..8].copy_from_slice(TEXT);
    LittleEndian::write_u32_into(
        &[
            VERSION,
            layout.cores,
            layout.blocks,
            layout.inodes,
            layout.slots,
        ],
        &mut block[8..28],
    );
    clear(&mut block[28..]);
}
