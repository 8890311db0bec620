ghost use Rattle.std.specs.Prelude.{◌≡◌};
ghost use Rattle.words.specs.declared.command.WordsFault.TheVariants.{NoMemory as WantsMemory};

use std::alloc::AllocError;

/// What the words ask for.
#[derive(Clone, Copy)]
pub enum Command {
    /// An empty image of so many blocks, inodes and cores, each core with so many journal slots.
    Mkfs {
        blocks: u32,
        inodes: u32,
        cores: u32,
        slots: u32,
    },
    /// The tree of an image.
    Show,
    /// A script, in which so many nodes may be made.
    Run {
        nodes: u32,
    },
    /// The script that is made of a seed, so many items a worker and so many workers.
    Load {
        seed: u32,
        count: u32,
        workers: u32,
    },
    /// Whether a printed history is legal, in whose tree so many nodes may be made.
    Check {
        nodes: u32,
    },
    /// A verdict on an image.
    Verify,
}

/// Why the words ask for nothing.
#[derive(Clone, Copy)]
pub enum WordsFault {
    /// A word begins with `-` or the words are no command (place 0), or the number in this place,
    /// from 1, is the first that is none of its range.
    BadWords { place: u32 },
    /// Memory was refused.
    NoMemory,
}

impl From<AllocError> for WordsFault {
    ghost from_gives = { λ _ fault. fault ≡ WantsMemory };

    fn from(_: AllocError) -> Self {
        WordsFault::NoMemory
    }
}
