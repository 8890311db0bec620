// What is flushed, and what changes of it.
use sfs_base::{Name, bucket_of};
use std::alloc::Global;

/// What an fsync is measured of.
#[derive(Clone, Copy)]
pub(crate) enum Case {
    /// One renamed row in a directory of so many.
    Rows { rows: u32 },
    /// One changed block in a file of so many.
    Blocks { blocks: u32 },
    /// One renamed row in a directory of one core, beside so many times four changes of another core that are not flushed.
    Beside { rounds: u32 },
}

/// Each with what it is compared to before it.
pub(crate) const PAIRS: [(Case, Case); 3] = [
    (Case::Rows { rows: 100 }, Case::Rows { rows: 32_767 }),
    (Case::Blocks { blocks: 16 }, Case::Blocks { blocks: 8192 }),
    (Case::Beside { rounds: 0 }, Case::Beside { rounds: 25_000 }),
];

// How many rows a directory has whose size is not what is compared.
const ROWS: u32 = 100;

/// The letters of names.
const LETTERS: [char; 16] = [
    'a', 'b', 'c', 'd', 'e', 'f', 'g', 'h', 'i', 'j', 'k', 'l', 'm', 'n', 'o', 'p',
];

impl Case {
    /// How many rows its directory has.
    pub(crate) fn rows(self) -> u32 {
        match self {
            Case::Rows { rows } => rows,
            _ => ROWS,
        }
    }

    /// How many blocks its file has.
    pub(crate) fn blocks(self) -> u32 {
        match self {
            Case::Blocks { blocks } => blocks,
            _ => 0,
        }
    }

    /// How many times four changes another core makes.
    pub(crate) fn rounds(self) -> u32 {
        match self {
            Case::Beside { rounds } => rounds,
            _ => 0,
        }
    }

    /// What it is, and how many there are of it.
    pub(crate) fn text(self) -> (&'static str, u32) {
        match self {
            Case::Rows { rows } => ("one renamed row, rows of its directory", rows),
            Case::Blocks { blocks } => ("one changed block, blocks of its file", blocks),
            Case::Beside { rounds } => (
                "one renamed row, unflushed changes of another core",
                rounds.saturating_mul(4),
            ),
        }
    }
}

/// A name that is told by a text.
pub(crate) fn plain_name(alloc: Global, text: &str) -> Option<Name> {
    Name::new(alloc, text.as_bytes()).ok()
}

/// The name of a row: its number, and a letter by which as many names lie in each bucket of the directory. Eight
/// letters on there is another name in the same bucket.
pub(crate) fn row_name(alloc: Global, row: u32, further: u32) -> Option<Name> {
    let plain = format!(in alloc; "{row}a").ok()?;
    let bucket = u32::from(bucket_of(&plain_name(alloc, plain.as_str())?));
    let letter = LETTERS[((row.wrapping_add(8).wrapping_sub(bucket)) % 8 + further % 9) as usize];
    let name = format!(in alloc; "{row}{letter}").ok()?;
    plain_name(alloc, name.as_str())
}
