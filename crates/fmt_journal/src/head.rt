ghost use Rattle.std.specs.Prelude.{◌≡◌};
ghost use Rattle.sfs_image.specs.Journal.{head_of, head_bytes, head_fault as fault_of_head};

use byteorder::{ByteOrder, LittleEndian};
use sfs_image::clear;
use std::marker::Model;

/// What the first block of a slot says: whether the gate is open (byte 0 is 1), how many inodes the
/// slot has (4 bytes at 512), and its commit stamp (8 bytes at 520).
#[derive(Clone, Copy, Debug, PartialEq, Eq)]
pub struct Head {
    pub gate: bool,
    pub count: u32,
    pub stamp: u64,
}

impl Model for Head {
    ghost use Rattle.sfs_image.specs.Journal.{Head as Said};

    ghost Value = { Said };

    ghost view = { λ h. record { gate = h.gate; count = h.count; stamp = h.stamp } };

    ghost inverse = { λ h. record { gate = h.gate; count = h.count; stamp = h.stamp } };
}

/// The head in the first block of a slot. Any bytes are one.
pub fn decode_head(block: &[u8; 4096]) -> Head
    ensures { result ≡ head_of block.now }
{
    Head {
        gate: block[0] == 1,
        count: LittleEndian::read_u32(&block[512..516]),
        stamp: LittleEndian::read_u64(&block[520..528]),
    }
}

/// Writes the first block of a slot, with a closed gate whatever the head says of it: the gate is
/// opened by a write of its own. It takes no memory.
pub fn encode_head(head: &Head, block: &mut [u8; 4096])
    ensures { block.new ≡ head_bytes head.now }
{
    clear(&mut block[..512]);
    LittleEndian::write_u32(&mut block[512..516], head.count);
    clear(&mut block[516..520]);
    LittleEndian::write_u64(&mut block[520..528], head.stamp);
    clear(&mut block[528..]);
}

/// The first wrong place of an open slot's head, on a disk of so many inodes, where `stamps` are the
/// commit stamps of the open slots before it: 512 for a count above the inodes, 520 for a commit
/// stamp that one of them has.
pub fn head_fault(head: &Head, inodes: u32, stamps: &[u64]) -> Option<u32>
    ensures { result ≡ fault_of_head inodes stamps.now head.now }
{
    if head.count > inodes {
        return Some(512);
    }
    if stamps.contains(&head.stamp) {
        return Some(520);
    }
    None
}
