// Where directories stand, without memory, behind the stamp.
ghost use Rattle.std.specs.Prelude.{IsSome};
ghost use Rattle.mem_calls.specs.Held.{bucket_held};
ghost use Rattle.mem_calls.specs.Sums.{HoldsBuckets};
ghost use Rattle.mem_calls.specs.Ends.{IsPlacedBucket, PlacesBucket, PlacesDirectory};

use crate::taking::{put_bucket, take_bucket};
use mem_values::{Bucket, FileCore};
use sfs_base::NodeId;

// The bucket of a directory that stands here.
fn placed(bucket: Box<Bucket>, place: Option<NodeId>) -> Box<Bucket>
    ensures { IsPlacedBucket place bucket.value result.value }
{
    let mut bucket = bucket;
    bucket.stands = place;
    bucket
}

// By one bucket a directory stands here.
fn place_bucket(core: &mut FileCore, nodes: u32, node: NodeId, number: u8, place: Option<NodeId>)
    requires { IsSome (bucket_held nodes core.old.held node number) }
    ensures { PlacesBucket nodes node number place core.old core.new }
{
    let bucket = placed(take_bucket(core, nodes, node, number), place);
    put_bucket(core, nodes, node, number, bucket);
}

/// By all buckets of a directory, which are held, it stands here, or nowhere.
pub(crate) fn place_directory(core: &mut FileCore, nodes: u32, node: NodeId, place: Option<NodeId>)
    requires { HoldsBuckets nodes core.old.held node }
    ensures { PlacesDirectory nodes node 8 place core.old core.new }
{
    for number in 0..8u8 {
        place_bucket(core, nodes, node, number, place);
    }
}
