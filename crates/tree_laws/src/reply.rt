ghost use Rattle.std.specs.Prelude.{◌≡◌, ◌↔◌, true, IfOk};

use crate::NameRows;
use sfs_base::{Chunk, Kind, NoMemory, NodeId, SpaceKind};

/// Why a call was refused.
#[derive(Clone, Copy, PartialEq, Eq)]
pub enum Code {
    NoEntry,
    Exists,
    NotDir,
    IsDir,
    NotEmpty,
    Invalid,
    NotPermitted,
    TooManyLinks,
    FileTooBig,
    DirFull,
    NoNodes,
}

/// What a call answers. The last four are those of an fsync alone.
#[derive(Drop)]
pub enum Reply {
    Ok,
    Node {
        node: NodeId,
        kind: Kind,
    },
    Bytes {
        bytes: Chunk,
    },
    /// A file's size is in bytes, a directory's is its number of rows.
    Stat {
        kind: Kind,
        links: u32,
        size: u64,
    },
    /// Names ascending by their bytes.
    Names {
        rows: NameRows,
    },
    Error {
        code: Code,
    },
    /// A device call of the commit failed. The disk has the changes or not.
    DiskFailed,
    /// The disk has too few free inodes or blocks.
    NoSpace {
        kind: SpaceKind,
        need: u32,
        free: u32,
    },
    /// An earlier commit had failed; `faults` is the disk's count of faults then.
    Stopped {
        faults: u64,
    },
    NoMemory,
}

impl Reply {
    /// An equal reply.
    pub fn copy(&self) -> Result<Reply, NoMemory>
        ensures ok { IfOk result (λ reply. reply ≡ self.now) }
    {
        match self {
            Reply::Ok => Ok(Reply::Ok),
            Reply::Node { node, kind } => Ok(Reply::Node {
                node: *node,
                kind: *kind,
            }),
            Reply::Bytes { bytes } => Ok(Reply::Bytes {
                bytes: bytes.copy()?,
            }),
            Reply::Stat { kind, links, size } => Ok(Reply::Stat {
                kind: *kind,
                links: *links,
                size: *size,
            }),
            Reply::Names { rows } => Ok(Reply::Names { rows: rows.copy()? }),
            Reply::Error { code } => Ok(Reply::Error { code: *code }),
            Reply::DiskFailed => Ok(Reply::DiskFailed),
            Reply::NoSpace { kind, need, free } => Ok(Reply::NoSpace {
                kind: *kind,
                need: *need,
                free: *free,
            }),
            Reply::Stopped { faults } => Ok(Reply::Stopped { faults: *faults }),
            Reply::NoMemory => Ok(Reply::NoMemory),
        }
    }
}

impl Reply {
    /// Whether it is the same reply.
    pub fn equals(&self, other: &Reply) -> bool
        ensures { (result ≡ true) ↔ (self.now ≡ other.now) }
    {
        match self {
            Reply::Ok => matches!(other, Reply::Ok),
            Reply::Node { node, kind } => other.is_node(*node, *kind),
            Reply::Bytes { bytes } => other.is_bytes(bytes),
            Reply::Stat { kind, links, size } => other.is_stat(*kind, *links, *size),
            Reply::Names { rows } => other.is_names(rows),
            Reply::Error { code } => other.is_error(*code),
            Reply::DiskFailed => matches!(other, Reply::DiskFailed),
            Reply::NoSpace { kind, need, free } => other.is_no_space(*kind, *need, *free),
            Reply::Stopped { faults } => other.is_stopped(*faults),
            Reply::NoMemory => matches!(other, Reply::NoMemory),
        }
    }

    fn is_node(&self, node: NodeId, kind: Kind) -> bool
        ensures { (result ≡ true) ↔ (Reply.Node node kind ≡ self.now) }
    {
        match self {
            Reply::Node {
                node: own,
                kind: own_kind,
            } => *own == node && *own_kind == kind,
            _ => false,
        }
    }

    fn is_bytes(&self, bytes: &Chunk) -> bool
        ensures { (result ≡ true) ↔ (Reply.Bytes bytes.now ≡ self.now) }
    {
        match self {
            Reply::Bytes { bytes: own } => own.bytes() == bytes.bytes(),
            _ => false,
        }
    }

    fn is_stat(&self, kind: Kind, links: u32, size: u64) -> bool
        ensures { (result ≡ true) ↔ (Reply.Stat kind links size ≡ self.now) }
    {
        match self {
            Reply::Stat {
                kind: own_kind,
                links: own_links,
                size: own_size,
            } => *own_kind == kind && *own_links == links && *own_size == size,
            _ => false,
        }
    }

    fn is_names(&self, rows: &NameRows) -> bool
        ensures { (result ≡ true) ↔ (Reply.Names rows.now ≡ self.now) }
    {
        match self {
            Reply::Names { rows: own } => own.equals(rows),
            _ => false,
        }
    }

    fn is_error(&self, code: Code) -> bool
        ensures { (result ≡ true) ↔ (Reply.Error code ≡ self.now) }
    {
        match self {
            Reply::Error { code: own } => *own == code,
            _ => false,
        }
    }

    fn is_no_space(&self, kind: SpaceKind, need: u32, free: u32) -> bool
        ensures { (result ≡ true) ↔ (Reply.NoSpace kind need free ≡ self.now) }
    {
        match self {
            Reply::NoSpace {
                kind: own_kind,
                need: own_need,
                free: own_free,
            } => *own_kind == kind && *own_need == need && *own_free == free,
            _ => false,
        }
    }

    fn is_stopped(&self, faults: u64) -> bool
        ensures { (result ≡ true) ↔ (Reply.Stopped faults ≡ self.now) }
    {
        match self {
            Reply::Stopped { faults: own } => *own == faults,
            _ => false,
        }
    }
}
