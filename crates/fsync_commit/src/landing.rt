// What a commit hands out.
ghost use Rattle.std.specs.Prelude.{◌≡◌};

use disk_change::NodeChanges;
use disk_nodes::OldDisk;
use journal_set::{Ack, CommitFault};

/// A commit that is durable, with what the disk has of its nodes, as it was and as it is from then on.
#[derive(Drop)]
pub struct Landed {
    pub ack: Ack,
    pub nodes: NodeChanges,
}

/// Why a commit did not become durable, with what the disk has of its nodes, as it was.
#[derive(Drop)]
pub struct CommitRefusal {
    pub fault: CommitFault,
    pub old: OldDisk,
}

// A refusal.
pub(crate) fn refusal(fault: CommitFault, old: OldDisk) -> CommitRefusal
    ensures { result ≡ record { fault = fault; old = old } }
{
    CommitRefusal { fault, old }
}
