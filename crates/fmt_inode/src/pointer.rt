ghost use Rattle.std.specs.Prelude.{◌≡◌};

/// How many blocks a largest file has: 108 with direct pointers, and 1,024 for each of 16 indirect
/// blocks.
pub const LARGEST: u32 = 16_492;

/// Where the pointer of a file's block stands: in the record, or in the indirect block whose own
/// pointer has the place `table`.
#[derive(Clone, Copy, Debug, PartialEq, Eq)]
pub enum PointerPlace {
    Direct { place: u32 },
    Indirect { table: u32, place: u32 },
}

ghost use Rattle.fmt_inode.specs.Pointer.{pointer_place};

/// Where the pointer of a file's block stands. For a block of a largest file `table` is below 16.
pub fn pointer_of(block: u32) -> PointerPlace
    ensures { result ≡ pointer_place block }
{
    if block < 108 {
        PointerPlace::Direct { place: block }
    } else {
        PointerPlace::Indirect {
            table: (block - 108) / 1024,
            place: (block - 108) % 1024,
        }
    }
}
