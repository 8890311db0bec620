ghost use Rattle.std.specs.Prelude.{◌≡◌, ◌≤◌, None, Some, IfOk, IfErr};
ghost use Rattle.sfs_image.specs.Inode.{IsFree, IsInode, inode_of, inode_fault, inode_bytes};

use byteorder::{ByteOrder, LittleEndian};
use sfs_image::{Bad, first_nonzero};
use std::marker::Model;

/// What the record of an inode says: the kind (0 free, 1 file, 2 directory), the link count, the
/// size in bytes, the pointers to data blocks, and those to indirect blocks. A pointer is a
/// block's number, or 0 for a hole.
#[derive(Clone, Copy)]
pub struct Inode {
    pub kind: u8,
    pub links: u32,
    pub size: u64,
    pub direct: [u32; 108],
    pub indirect: [u32; 16],
}

impl Model for Inode {
    ghost use Rattle.sfs_image.specs.Inode.{Inode as Recorded};

    ghost Value = { Recorded };

    ghost view = { λ i. record { kind = i.kind; links = i.links; size = i.size; direct = i.direct; indirect = i.indirect } };

    ghost inverse = { λ i. record { kind = i.kind; links = i.links; size = i.size; direct = i.direct; indirect = i.indirect } };
}

/// The inode in a record. `Bad` names the first wrong byte: a kind above 2, a byte at 1 to 3 that is
/// not zero, or in a free record any byte that is not zero.
pub fn decode(bytes: &[u8; 512]) -> Result<Inode, Bad>
    ensures ok { IfOk result (λ inode. (inode_fault bytes.now ≡ None) × (inode ≡ inode_of bytes.now)) }
    ensures fits { IfOk result IsInode }
    ensures err { IfErr result (λ bad. inode_fault bytes.now ≡ Some bad.at) }
{
    if let Some(at) = fault_of(bytes) {
        return Err(Bad { at });
    }
    let mut direct = [0u32; 108];
    LittleEndian::read_u32_into(&bytes[16..448], &mut direct);
    let mut indirect = [0u32; 16];
    LittleEndian::read_u32_into(&bytes[448..], &mut indirect);
    Ok(Inode {
        kind: bytes[0],
        links: LittleEndian::read_u32(&bytes[4..8]),
        size: LittleEndian::read_u64(&bytes[8..16]),
        direct,
        indirect,
    })
}

// The first wrong place of a record.
fn fault_of(bytes: &[u8; 512]) -> Option<u32>
    ensures { result ≡ inode_fault bytes.now }
{
    if bytes[0] > 2 {
        return Some(0);
    }
    if let Some(at) = first_nonzero(bytes, 1, 4) {
        return Some(at);
    }
    if bytes[0] == 0 {
        first_nonzero(bytes, 4, 512)
    } else {
        None
    }
}

/// Writes the record of an inode, from which `decode` reads it again. It takes no memory.
pub fn encode(inode: &Inode, bytes: &mut [u8; 512])
    requires kind { inode.now.kind ≤ 2 }
    requires free { inode.now.kind ≡ 0 → IsFree inode.now }
    ensures spelled { bytes.new ≡ inode_bytes inode.now }
    ensures sound { inode_fault bytes.new ≡ None }
    ensures again { inode_of bytes.new ≡ inode.now }
{
    let inode = *inode;
    bytes[..4].copy_from_slice(&[inode.kind, 0, 0, 0]);
    LittleEndian::write_u32(&mut bytes[4..8], inode.links);
    LittleEndian::write_u64(&mut bytes[8..16], inode.size);
    LittleEndian::write_u32_into(&inode.direct, &mut bytes[16..448]);
    LittleEndian::write_u32_into(&inode.indirect, &mut bytes[448..]);
}
