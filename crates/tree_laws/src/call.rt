ghost use Rattle.std.specs.Prelude.{◌≡◌, IfOk};

use sfs_base::{Chunk, Kind, Name, NoMemory, NodeId};

/// A call on the tree. A node that is not alive, or of the wrong kind, is a refusal and no fault of the caller.
#[derive(Drop)]
pub enum Call {
    /// Asks for the child of the row with this name.
    Look {
        dir: NodeId,
        name: Name,
    },
    /// Makes an empty node and a row that names it.
    Make {
        dir: NodeId,
        name: Name,
        kind: Kind,
    },
    /// Makes one more row that names a file.
    Link {
        file: NodeId,
        dir: NodeId,
        name: Name,
    },
    /// Removes the row of a file.
    Unlink {
        dir: NodeId,
        name: Name,
    },
    /// Removes the row of an empty directory.
    Rmdir {
        dir: NodeId,
        name: Name,
    },
    /// Gives a row's child another row in place of this one, and of the one that stands there.
    Rename {
        dir: NodeId,
        name: Name,
        to_dir: NodeId,
        to_name: Name,
    },
    /// Puts bytes into a file from byte `at` on.
    Write {
        file: NodeId,
        at: u64,
        bytes: Chunk,
    },
    /// Asks for `count` bytes of a file, at most 65,536, from byte `at` on.
    Read {
        file: NodeId,
        at: u64,
        count: u32,
    },
    /// Gives a file this size, in bytes.
    Trunc {
        file: NodeId,
        size: u64,
    },
    /// Asks for a node's kind, link count and size.
    Stat {
        node: NodeId,
    },
    /// Asks for the names in a directory.
    List {
        dir: NodeId,
    },
    /// Brings a node's changes to the disk.
    Fsync {
        node: NodeId,
    },
}

impl Call {
    /// An equal call.
    pub fn copy(&self) -> Result<Call, NoMemory>
        ensures ok { IfOk result (λ call. call ≡ self.now) }
    {
        match self {
            Call::Look { dir, name } => Ok(Call::Look {
                dir: *dir,
                name: name.copy()?,
            }),
            Call::Make { dir, name, kind } => copy_make(*dir, name, *kind),
            Call::Link { file, dir, name } => copy_link(*file, *dir, name),
            Call::Unlink { dir, name } => Ok(Call::Unlink {
                dir: *dir,
                name: name.copy()?,
            }),
            Call::Rmdir { dir, name } => Ok(Call::Rmdir {
                dir: *dir,
                name: name.copy()?,
            }),
            Call::Rename {
                dir,
                name,
                to_dir,
                to_name,
            } => copy_rename(*dir, name, *to_dir, to_name),
            Call::Write { file, at, bytes } => copy_write(*file, *at, bytes),
            Call::Read { file, at, count } => Ok(Call::Read {
                file: *file,
                at: *at,
                count: *count,
            }),
            Call::Trunc { file, size } => Ok(Call::Trunc {
                file: *file,
                size: *size,
            }),
            Call::Stat { node } => Ok(Call::Stat { node: *node }),
            Call::List { dir } => Ok(Call::List { dir: *dir }),
            Call::Fsync { node } => Ok(Call::Fsync { node: *node }),
        }
    }
}

// A call that makes such a node.
fn copy_make(dir: NodeId, name: &Name, kind: Kind) -> Result<Call, NoMemory>
    ensures ok { IfOk result (λ call. call ≡ Call.Make dir name.now kind) }
{
    let name = name.copy()?;
    Ok(Call::Make { dir, name, kind })
}

// A call that makes such a row.
fn copy_link(file: NodeId, dir: NodeId, name: &Name) -> Result<Call, NoMemory>
    ensures ok { IfOk result (λ call. call ≡ Call.Link file dir name.now) }
{
    let name = name.copy()?;
    Ok(Call::Link { file, dir, name })
}

// A write of these bytes.
fn copy_write(file: NodeId, at: u64, bytes: &Chunk) -> Result<Call, NoMemory>
    ensures ok { IfOk result (λ call. call ≡ Call.Write file at bytes.now) }
{
    let bytes = bytes.copy()?;
    Ok(Call::Write { file, at, bytes })
}

// A rename of these rows.
fn copy_rename(dir: NodeId, name: &Name, to_dir: NodeId, to_name: &Name) -> Result<Call, NoMemory>
    ensures ok { IfOk result (λ call. call ≡ Call.Rename dir name.now to_dir to_name.now) }
{
    Ok(Call::Rename {
        dir,
        name: name.copy()?,
        to_dir,
        to_name: to_name.copy()?,
    })
}
