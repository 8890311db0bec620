// Where the parts of a disk begin, in bytes.
ghost use Rattle.std.specs.Prelude.{◌≡◌, ◌<◌};
ghost use Rattle.sfs_image.specs.Settled.{slot_byte, slot_count, table_byte};
ghost use Rattle.sfs_image.specs.Super.{InRange};

use fmt_super::Layout;

/// How many bytes a block has.
pub const BLOCK: u64 = 4096;

/// How many journal slots a disk has.
pub fn slot_count(layout: &Layout) -> u32
    requires { InRange layout.now }
    ensures { result ≡ slot_count layout.now }
{
    layout.cores * layout.slots
}

/// The byte at which the journal slot of a number begins: slot s of core c is number c * slots + s.
pub fn slot_byte(layout: &Layout, number: u32) -> u64
    requires ranges { InRange layout.now }
    requires number { number < slot_count layout.now }
    ensures { result ≡ slot_byte layout.now number }
{
    let core = number / layout.slots;
    let slot = number % layout.slots;
    BLOCK * u64::from(layout.slot_at(core, slot))
}

/// The byte at which the inode table begins.
pub fn table_byte(layout: &Layout) -> u64
    requires { InRange layout.now }
    ensures { result ≡ table_byte layout.now 0 }
{
    BLOCK * u64::from(layout.table_at())
}
