ghost use Rattle.std.specs.Prelude.{◌≡◌, ◌≤◌};

use crate::LONGEST_FILE;
use sfs_base::Stamp;

/// How many bytes a block has.
const BLOCK: u64 = 4096;

/// The blocks of 4,096 bytes that a change touched, from `first` to below `end`.
#[derive(Clone, Copy, Debug, PartialEq, Eq)]
pub struct Touched {
    pub first: u32,
    pub end: u32,
}

impl Touched {
    ghost use Rattle.mem_files.specs.File.{blocks_of, no_blocks};

    // No blocks.
    pub(crate) fn none() -> Self
        ensures { result ≡ no_blocks }
    {
        Touched { first: 0, end: 0 }
    }

    // The blocks that bytes overlap, from one place to below another.
    pub(crate) fn of(first: u64, end: u64) -> Self
        requires first { first ≤ LONGEST_FILE }
        requires end { end ≤ LONGEST_FILE }
        ensures { result ≡ blocks_of first end }
    {
        Touched {
            first: (first / BLOCK) as u32,
            end: ((end + BLOCK - 1) / BLOCK) as u32,
        }
    }
}

/// A block that was touched: its number, its mark, and its bytes, with zeros behind the file's end.
#[derive(Drop)]
pub struct TouchedBlock {
    pub block: u32,
    pub mark: Stamp,
    pub bytes: [u8; 4096],
}

/// What was touched of a file: its size in bytes, and the blocks that were touched, ascending.
#[derive(Drop)]
pub struct TouchedFile {
    pub size: u64,
    pub blocks: Vec<TouchedBlock>,
}
