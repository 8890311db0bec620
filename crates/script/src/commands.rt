ghost use Rattle.std.specs.Prelude.{◌≡◌, [], MatchOption};
ghost use Rattle.script.specs.Places.{parent, last_name};

use sfs_base::{Chunk, Name, Path};
use std::marker::Model;

/// A path with at least one name: a place in the directory that the names before the last lead to.
/// Contracts see the list of its names.
#[derive(Drop)]
pub struct NamePath {
    path: Path,
}

impl Model for NamePath {
    ghost use Rattle.std.specs.Prelude.{ℕ, ◌<◌, List, length};

    ghost Value = { List (List ℕ) };

    ghost view = { λ place. place.path };

    ghost invariant = { λ place. 0 < length place.path };
}

impl NamePath {
    /// The place that a path names. The root names none.
    pub fn new(path: Path) -> Option<NamePath>
        ensures { MatchOption result (path ≡ []) (λ place. place ≡ path) }
    {
        if path.names().is_empty() {
            return None;
        }
        Some(NamePath { path })
    }

    /// The names that lead to the directory, from the root on.
    pub fn parent(&self) -> &[Name]
        ensures { result.now ≡ parent self.now }
    {
        let names = self.path.names();
        &names[..names.len() - 1]
    }

    /// The name in the directory.
    pub fn name(&self) -> &Name
        ensures { result.now ≡ last_name self.now }
    {
        let names = self.path.names();
        &names[names.len() - 1]
    }
}

/// What a worker is told to do, in paths.
#[derive(Drop)]
pub enum Command {
    /// Makes a file.
    Create { path: NamePath },
    /// Makes a directory.
    Mkdir { path: NamePath },
    /// Gives the file at the first path a second name.
    Link { from: Path, to: NamePath },
    /// Removes the row of a file.
    Unlink { path: NamePath },
    /// Removes the row of an empty directory.
    Rmdir { path: NamePath },
    /// Moves what is at the first path to the second.
    Rename { from: NamePath, to: NamePath },
    /// Puts bytes into a file from byte `at` on.
    Write { path: Path, at: u64, bytes: Chunk },
    /// Asks for bytes of a file, from byte `at` on.
    Read { path: Path, at: u64, count: u32 },
    /// Gives a file this size, in bytes.
    Trunc { path: Path, size: u64 },
    /// Asks for a node's kind, link count and size.
    Stat { path: Path },
    /// Asks for the names in a directory.
    List { path: Path },
    /// Brings a node's changes to the disk.
    Fsync { path: Path },
}

/// A command and the worker that runs it.
#[derive(Drop)]
pub struct Line {
    pub worker: u16,
    pub command: Command,
}
