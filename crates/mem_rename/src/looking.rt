// What the two buckets of a rename tell, and what it decides by them.
ghost use Rattle.std.specs.Prelude.{◌≡◌};
ghost use Rattle.mem_calls.specs.declared.short.Short.TheVariants as short;
ghost use Rattle.mem_rename.specs.Decisions.{look_by, same_child, fault_if, place_fault_of, move_fault_of, decision_by};

use crate::sides::Move;
use mem_calls::{Short, is_standing};
use mem_values::Bucket;
use sfs_base::NodeId;
use tree_laws::Code;

/// Whether the two directories stand, the child of the old row and what stands at the new one, and whether these two are directories.
#[derive(Clone, Copy)]
pub(crate) struct Look {
    pub(crate) stands: bool,
    pub(crate) to_stands: bool,
    pub(crate) child: Option<NodeId>,
    pub(crate) there: Option<NodeId>,
    pub(crate) child_is_directory: bool,
    pub(crate) there_is_directory: bool,
}

/// What a rename reads besides: the links of either directory as a file, whether the new row's bucket is full, whether the directory
/// that would be replaced has no row, and whether the child is the new directory or above it.
#[derive(Clone, Copy)]
pub(crate) struct Reads {
    pub(crate) old_links: u32,
    pub(crate) new_links: u32,
    pub(crate) full: bool,
    pub(crate) bare: bool,
    pub(crate) below: bool,
}

/// What a rename does: it answers and nothing changes, or a child moves.
#[derive(Clone, Copy)]
pub(crate) enum Decision {
    Answers { short: Short },
    Moves { child: NodeId },
}

/// What the two buckets tell.
pub(crate) fn look_at(old: &Bucket, new: &Bucket, move_: &Move) -> Look
    ensures { result ≡ look_by old.now new.now move_.now }
{
    Look {
        stands: is_standing(move_.directory, old),
        to_stands: is_standing(move_.to_directory, new),
        child: old.rows.get(&move_.name),
        there: new.rows.get(&move_.to_name),
        child_is_directory: old.directories.get(&move_.name).is_some(),
        there_is_directory: new.directories.get(&move_.to_name).is_some(),
    }
}

impl Look {
    /// Whether the new row names the child already.
    pub(crate) fn is_same(self) -> bool
        ensures { result ≡ same_child self.child self.there }
    {
        match (self.child, self.there) {
            (Some(child), Some(there)) => there == child,
            _ => false,
        }
    }
}

// Why a directory can't be used.
fn fault_of(stands: bool, links: u32) -> Option<Code>
    ensures { result ≡ fault_if stands links }
{
    if stands {
        return None;
    }
    if links == 0 {
        Some(Code::NoEntry)
    } else {
        Some(Code::NotDir)
    }
}

// Why the new row can't be had.
fn place_fault(look: Look, reads: Reads) -> Option<Code>
    ensures { result ≡ place_fault_of look reads }
{
    if look.there.is_none() {
        return if reads.full {
            Some(Code::DirFull)
        } else {
            None
        };
    }
    if look.child_is_directory && !look.there_is_directory {
        return Some(Code::NotDir);
    }
    if !look.child_is_directory && look.there_is_directory {
        return Some(Code::IsDir);
    }
    if look.there_is_directory && !reads.bare {
        return Some(Code::NotEmpty);
    }
    None
}

// Why the child can't move.
fn move_fault(look: Look, reads: Reads, move_: &Move) -> Option<Code>
    ensures { result ≡ move_fault_of look reads move_.now }
{
    if move_.directory != move_.to_directory && look.child_is_directory && reads.below {
        return Some(Code::Invalid);
    }
    place_fault(look, reads)
}

// A refusal.
fn refused(code: Code) -> Decision
    ensures { result ≡ Decision.Answers (short.Error code) }
{
    Decision::Answers {
        short: Short::Error { code },
    }
}

/// What a rename does.
pub(crate) fn decide(look: Look, reads: Reads, move_: &Move) -> Decision
    ensures { result ≡ decision_by look reads move_.now }
{
    if let Some(code) = fault_of(look.stands, reads.old_links) {
        return refused(code);
    }
    if let Some(code) = fault_of(look.to_stands, reads.new_links) {
        return refused(code);
    }
    let Some(child) = look.child else {
        return refused(Code::NoEntry);
    };
    if look.is_same() {
        return Decision::Answers { short: Short::Done };
    }
    match move_fault(look, reads, move_) {
        Some(code) => refused(code),
        None => Decision::Moves { child },
    }
}
