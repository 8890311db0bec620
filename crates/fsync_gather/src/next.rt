// The next directory of which one of some cores' logs keeps changes.
ghost use Rattle.std.specs.Prelude.{◌≡◌};
ghost use Rattle.fsync_gather.specs.Next.{lesser_of, IsNextOfAll};

use mem_cells::LogPart;
use sfs_base::NodeId;

/// The next directory after one of which one of the logs keeps a change, and the first where there is none before. It asks each log once.
pub(crate) fn next_directory(parts: &[LogPart], after: Option<NodeId>) -> Option<NodeId>
    ensures { IsNextOfAll parts.now after result }
{
    let mut next = None;
    for part in parts {
        next = lesser(next, part.next_dir(after));
    }
    next
}

// The lesser of two nodes, of which one may be missing.
fn lesser(one: Option<NodeId>, other: Option<NodeId>) -> Option<NodeId>
    ensures { result ≡ lesser_of one other }
{
    match (one, other) {
        (Some(first), Some(second)) => {
            if second.0 < first.0 {
                Some(second)
            } else {
                Some(first)
            }
        }
        (Some(first), None) => Some(first),
        (None, found) => found,
    }
}
