// Replies that take no memory.
ghost use Rattle.std.specs.Prelude.{◌≡◌};
ghost use Rattle.mem_calls.specs.Reply.{reply_of};

use sfs_base::{Kind, NodeId};
use tree_laws::{Code, Reply};

/// A reply that takes no memory, so that a call may answer it once it is stamped.
#[derive(Clone, Copy)]
pub enum Short {
    Done,
    Node { node: NodeId, kind: Kind },
    Stat { kind: Kind, links: u32, size: u64 },
    Error { code: Code },
}

impl Short {
    /// The reply.
    pub fn reply(self) -> Reply
        ensures { result ≡ reply_of self }
    {
        match self {
            Short::Done => Reply::Ok,
            Short::Node { node, kind } => Reply::Node { node, kind },
            Short::Stat { kind, links, size } => Reply::Stat { kind, links, size },
            Short::Error { code } => Reply::Error { code },
        }
    }
}
