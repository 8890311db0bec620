ghost use Rattle.std.specs.Prelude.{◌≡◌, ◌<◌, ◌≤◌, ◌↔◌, IsTrue};
ghost use Rattle.sfs_image.specs.Super.{InRange, IsLayout, slot_blocks, record_blocks, slot_start, table_start, data_start};

use sfs_image::MOST_SLOTS;
use std::marker::Model;

/// How a disk is divided: its blocks of 4,096 bytes, its inodes, its cores, and the journal slots
/// of each core.
#[derive(Clone, Copy, Debug, PartialEq, Eq)]
pub struct Layout {
    pub blocks: u32,
    pub inodes: u32,
    pub cores: u32,
    pub slots: u32,
}

impl Model for Layout {
    ghost use Rattle.sfs_image.specs.Super.{Layout as Divided};

    ghost Value = { Divided };

    ghost view = { λ l. record { blocks = l.blocks; inodes = l.inodes; cores = l.cores; slots = l.slots } };

    ghost inverse = { λ l. record { blocks = l.blocks; inodes = l.inodes; cores = l.cores; slots = l.slots } };
}

impl Layout {
    /// Whether the layout can be that of a disk of `len` blocks: its numbers are in their ranges, it
    /// has room for one data block at least, and the disk has its blocks.
    pub fn is_valid(&self, len: u32) -> bool
        ensures { IsTrue result ↔ IsLayout len self.now }
    {
        self.is_in_range() && self.blocks <= len && self.data_at() < self.blocks
    }

    // Whether the numbers are in their ranges.
    fn is_in_range(&self) -> bool
        ensures { IsTrue result ↔ InRange self.now }
    {
        self.blocks <= 262_144
            && self.inodes >= 16
            && self.inodes <= 16_384
            && self.cores >= 1
            && self.cores <= 16
            && self.slots >= 1
            && self.slots <= MOST_SLOTS
    }

    /// The block at which a slot of a core begins.
    pub fn slot_at(&self, core: u32, slot: u32) -> u32
        requires ranges { InRange self.now }
        requires core { core < self.now.cores }
        requires slot { slot < self.now.slots }
        ensures { result ≡ slot_start self.now core slot }
    {
        1 + (core * self.slots + slot) * slot_size(self.inodes)
    }

    /// The block at which the inode table begins.
    pub fn table_at(&self) -> u32
        requires { InRange self.now }
        ensures { result ≡ table_start self.now }
    {
        1 + self.cores * self.slots * slot_size(self.inodes)
    }

    /// The block at which the data area begins.
    pub fn data_at(&self) -> u32
        requires { InRange self.now }
        ensures { result ≡ data_start self.now }
    {
        self.table_at() + self.inodes.div_ceil(8)
    }
}

// How many blocks a slot of a journal has.
fn slot_size(inodes: u32) -> u32
    requires { inodes ≤ 16384 }
    ensures size { result ≡ slot_blocks inodes }
    ensures small { result ≤ 2065 }
{
    1 + inodes.div_ceil(1024) + inodes.div_ceil(8)
}
