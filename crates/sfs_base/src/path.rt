ghost use Rattle.std.specs.Prelude.{◌≡◌, ◌-◌, ◌^◌, ◌<◌, ◌≤◌, min, IfOk, IfErr};
ghost use Rattle.sfs_base.specs.Path.{path_length};

use crate::{Name, NoMemory};
use std::marker::Model;

/// How long a path may be, in bytes.
pub const LONGEST_PATH: u64 = 4096;

/// Why names make no path.
#[derive(Drop)]
pub enum PathFault {
    /// The path would have `len` bytes, more than 4,096. The names come back as they were.
    TooLong { len: u64, names: Vec<Name> },
}

/// An absolute path of at most 4,096 bytes. It is one byte long for the root, which has no names,
/// and otherwise each name counts with the `/` before it. Contracts see the list of its names.
#[derive(Drop)]
pub struct Path {
    names: Vec<Name>,
}

impl Model for Path {
    ghost use Rattle.std.specs.Prelude.{◌≤◌, ℕ, List};
    ghost use Rattle.sfs_base.specs.Path.{path_length};

    ghost Value = { List (List ℕ) };

    ghost view = { λ path. path.names.items };

    ghost invariant = { λ path. path_length path.names.items ≤ 4096 };
}

impl Path {
    /// The path with these names, from the root on. A length past the last value of `u64` is
    /// answered as that value.
    pub fn new(names: Vec<Name>) -> Result<Path, PathFault>
        ensures ok { IfOk result (λ path. (path ≡ names.items)
            × (path_length names.items ≤ LONGEST_PATH)) }
        ensures err { IfErr result (λ fault.
            (fault ≡ PathFault.TooLong (min (path_length names.items) (2 ^ 64 - 1)) names)
            × (LONGEST_PATH < path_length names.items)) }
    {
        let len = length_of(&names);
        if len > LONGEST_PATH {
            return Err(PathFault::TooLong { len, names });
        }
        Ok(Path { names })
    }

    /// The names, from the root on.
    pub fn names(&self) -> &[Name]
        ensures names { result.now ≡ self.now }
        ensures length { path_length self.now ≤ LONGEST_PATH }
    {
        &self.names
    }

    /// An equal path.
    pub fn copy(&self) -> Result<Path, NoMemory>
        ensures ok { IfOk result (λ path. path ≡ self.now) }
    {
        let mut names = Vec::with_capacity(*self.names.allocator(), self.names.len())?;
        for name in &self.names {
            names.push(name.copy()?)?;
        }
        Ok(Path { names })
    }
}

// How long the path with these names is, up to the last value of `u64`.
fn length_of(names: &[Name]) -> u64
    ensures { result ≡ min (path_length names.now) (2 ^ 64 - 1) }
{
    if names.is_empty() {
        return 1;
    }
    let mut len = 0u64;
    for name in names {
        len = len.saturating_add(1 + name.bytes().len() as u64);
    }
    len
}
