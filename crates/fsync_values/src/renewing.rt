// What a durable commit leaves of the nodes that it held, in the values of their cells.
ghost use Rattle.std.specs.Prelude.{◌≡◌, ◌<◌, ◌≤◌, ◌+◌, ◌&&◌, not, if◌then◌else◌, length, map, is_some, true, false};
ghost use Rattle.std.specs.List.Sorted.{IsStrictlyIncreasing};
ghost use Rattle.sfs_base.specs.Listed.{is_listed};
ghost use Rattle.tree_laws.specs.NameRow.{node_number};
ghost use Rattle.fsync_values.specs.Renewing.{asks_box, boxes_asked, cut_then, renewed_by, values_renewed};

use disk_nodes::{OldDisk, OldNode, take_old};
use mem_values::{Cell, KeptNode};
use sfs_base::{NodeId, Stamp};

/// A commit that has become durable: its number, and the stamp of its fsync.
#[derive(Clone, Copy)]
pub struct Renewal {
    pub number: u64,
    pub stamp: Stamp,
}

// The cut of a node behind a commit with this stamp.
fn cut_then(stamp: Stamp, member: bool, cut: Stamp) -> Stamp
    ensures { result ≡ cut_then stamp member cut }
{
    if member {
        Stamp(cut.0.max(stamp.0))
    } else {
        cut
    }
}

// Whether a node is one of some that ascend.
fn is_among(nodes: &[NodeId], node: NodeId) -> bool
    requires { IsStrictlyIncreasing (map node_number nodes.now) }
    ensures { result ≡ is_listed (map node_number nodes.now) node.0 }
{
    match nodes.binary_search_by_key(&node.0, |one| one.0) {
        Ok(_) => true,
        Err(_) => false,
    }
}

// A box with what the disk has of a node, in the one that its value had, or else in a spare one.
fn boxed(
    had: Option<KeptNode>,
    old: Option<OldNode>,
    spares: &mut Vec<KeptNode>,
) -> Option<KeptNode>
    requires { is_some old ≡ true → is_some had ≡ false → 0 < length spares.old.items }
    ensures kept { result ≡ old }
    ensures spares { length spares.old.items ≤ length spares.new.items + (if is_some old && not (is_some had) then 1 else 0) }
{
    let node = old?;
    let mut kept = match had {
        Some(kept) => kept,
        None => match spares.pop() {
            Some(kept) => kept,
            None => unreachable!(),
        },
    };
    kept.replace(node);
    Some(kept)
}

// Gives a value what a commit leaves of its node.
fn renew_one(
    renewal: Renewal,
    member: bool,
    value: &mut Cell,
    old: Option<OldNode>,
    spares: &mut Vec<KeptNode>,
)
    requires { asks_box old value.old ≡ true → 0 < length spares.old.items }
    ensures value { value.new ≡ renewed_by renewal.stamp member renewal.number old value.old }
    ensures spares { length spares.old.items ≤ length spares.new.items + (if asks_box old value.old then 1 else 0) }
{
    if let Cell::Pending { pending } = value {
        pending.cut = cut_then(renewal.stamp, member, pending.cut);
        pending.last = renewal.number;
        pending.old = boxed(pending.old.take(), old, spares);
    }
}

/// Gives the values of nodes, a value a node, what a durable commit leaves of them: a member's cut is its stamp at least, the last commit is
/// this one, and the disk has of them what `after` says, which has entries of these nodes alone. Nodes and members ascend. Where a node gets its first entry a
/// box of `spares` is taken, of which there are enough. It takes no memory.
pub fn renew(
    renewal: Renewal,
    members: &[NodeId],
    nodes: &[NodeId],
    values: &mut Vec<Cell>,
    after: OldDisk,
    spares: Vec<KeptNode>,
)
    requires count { length values.old.items ≡ length nodes.now }
    requires ascend { IsStrictlyIncreasing (map node_number nodes.now) }
    requires members { IsStrictlyIncreasing (map node_number members.now) }
    requires spares { boxes_asked after.items nodes.now values.old.items ≤ length spares.items }
    ensures { values.new.items ≡ values_renewed renewal members.now after.items nodes.now values.old.items }
{
    let mut after = after;
    let mut spares = spares;
    let mut at = nodes.len();
    while at > 0 {
        at -= 1;
        let node = nodes[at];
        let old = take_old(&mut after, node);
        renew_one(
            renewal,
            is_among(members, node),
            &mut values[at],
            old,
            &mut spares,
        );
    }
}
