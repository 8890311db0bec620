// What threads do.
ghost use Rattle.std.specs.Prelude.{IfSome};
ghost use Rattle.tree_laws.specs.Step.{IsReadable};

use sfs_base::{CoreId, Kind, Name, NodeId};
use std::alloc::Global;
use tree_laws::Call;

/// How many rows a directory has of which names are looked up or renamed, and how many it comes to have by creations, where it is measured.
pub(crate) const ROWS: u32 = 4_000;

/// What each thread does again and again.
#[derive(Clone, Copy)]
pub(crate) enum Load {
    /// It makes a file with the next name.
    Creations,
    /// It looks up one after another of the names of its directory.
    LookUps,
    /// It gives a file of its own the next name.
    Renames,
}

impl Load {
    /// The name of the calls.
    pub(crate) fn name(self) -> &'static str {
        match self {
            Load::Creations => "creations",
            Load::LookUps => "look-ups",
            Load::Renames => "renames",
        }
    }

    /// How often a thread calls on one table, where so many threads call in its directory.
    pub(crate) fn rounds(self, together: u32) -> u32 {
        match self {
            Load::Creations => ROWS / together.max(1),
            Load::LookUps => 500_000,
            Load::Renames => 200_000,
        }
    }

    /// On how many tables threads do so, one after another. No table has room for creations that last long.
    pub(crate) fn tables(self) -> u32 {
        match self {
            Load::Creations => 40,
            _ => 1,
        }
    }

    /// How many rows a directory has from the beginning that can be looked up.
    pub(crate) fn rows(self) -> u32 {
        match self {
            Load::Creations => 0,
            _ => ROWS,
        }
    }
}

/// A name that a directory has from the beginning.
pub(crate) fn first_name(alloc: Global, number: u32) -> Option<Name> {
    let text = format!(in alloc; "f{number}").ok()?;
    Name::new(alloc, text.as_bytes()).ok()
}

/// A name that one thread alone uses: of the file that it renames, or of one that it makes.
pub(crate) fn own_name(alloc: Global, load: Load, thread: CoreId, number: u32) -> Option<Name> {
    let letter = match load {
        Load::Creations => 'n',
        _ => 'c',
    };
    let text = format!(in alloc; "{letter}{}_{number}", thread.0).ok()?;
    Name::new(alloc, text.as_bytes()).ok()
}

/// The call of a thread in a round, in this directory, of which so many rows can be looked up. None, where there is no memory for it.
pub(crate) fn call_of(
    alloc: Global,
    load: Load,
    rows: u32,
    dir: NodeId,
    thread: CoreId,
    round: u32,
) -> Option<Call>
    ensures { IfSome result (λ call. IsReadable call) }
{
    match load {
        Load::Creations => Some(Call::Make {
            dir,
            name: own_name(alloc, load, thread, round)?,
            kind: Kind::File,
        }),
        Load::LookUps => {
            let number = round.wrapping_mul(7).wrapping_add(thread.0 as u32) % rows.max(1);
            let name = first_name(alloc, number)?;
            Some(Call::Look { dir, name })
        }
        Load::Renames => Some(Call::Rename {
            dir,
            name: own_name(alloc, load, thread, round)?,
            to_dir: dir,
            to_name: own_name(alloc, load, thread, round.wrapping_add(1))?,
        }),
    }
}
