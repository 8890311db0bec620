// Which cell lies at a place.
ghost use Rattle.std.specs.Prelude.{◌≡◌, ◌+◌, ◌*◌, ◌^◌, ◌<◌, ℕ};
ghost use Rattle.mem_values.specs.Places.{place_count};
ghost use Rattle.mem_begin.specs.Beginning.{IsFlushedOf};
ghost use Rattle.mem_begin.specs.Lying.{IsWhatLiesAt, LiesBehind};

use mem_values::CellId;
use sfs_base::{CoreId, NodeId};

/// How many places a table of so many nodes and cores has.
pub(crate) fn place_count(nodes: u32, cores: u8) -> usize
    ensures { result ≡ place_count nodes cores }
{
    32 + 10 * nodes as usize + 16 * cores as usize
}

// The bucket or file at a place behind the lock's line, nine places to a node.
fn bucket_or_file(place: usize) -> CellId
    requires { place < 9 * 2 ^ 32 }
    ensures { LiesBehind place result }
{
    let node = NodeId((place / 9) as u32);
    let number = (place % 9) as u8;
    if number < 8 {
        CellId::Bucket {
            node,
            bucket: number,
        }
    } else {
        CellId::File { node }
    }
}

/// The cell that lies at a place of a table of so many nodes, where one does; else the lock.
pub(crate) fn cell_lying_at(nodes: u32, place: usize) -> CellId
    requires { place < place_count nodes 256 }
    ensures lies { IsWhatLiesAt nodes place result }
    ensures flushed { (node : ℕ) → IsFlushedOf node result → place ≡ 16 + 9 * nodes + node }
{
    let flushed = 16 + 9 * nodes as usize;
    let parts = 32 + 10 * nodes as usize;
    if place < 16 {
        CellId::Lock
    } else if place < flushed {
        bucket_or_file(place - 16)
    } else if place < flushed + nodes as usize {
        CellId::Pending {
            node: NodeId((place - flushed) as u32),
        }
    } else if place >= parts && (place - parts) % 16 == 0 {
        CellId::Part {
            core: CoreId(((place - parts) / 16) as u8),
        }
    } else {
        CellId::Lock
    }
}
