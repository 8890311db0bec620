// What a rename reads of the cells that its core holds.
ghost use Rattle.std.specs.Prelude.{◌≡◌, ◌<◌, ◌+◌, map, true, Some, IsSome, MatchOption};
ghost use Rattle.sfs_base.specs.Name.{bucket};
ghost use Rattle.tree_laws.specs.NameRow.{node_number};
ghost use Rattle.mem_values.specs.declared.cell_id.CellId.TheVariants as id;
ghost use Rattle.mem_calls.specs.Held.{bucket_held, file_held};
ghost use Rattle.mem_rename.specs.Sights.{are_bare};
ghost use Rattle.mem_rename.specs.Decisions.{look_by, look_seen, reads_of};
ghost use Rattle.mem_rename.specs.Holding.{HoldsCells};
ghost use Rattle.mem_rename.specs.Plans.{asked_cells};
ghost use Rattle.mem_rename.specs.Ready.{bucket_or, links_if, buckets_held, is_empty_held, is_at_or_in, is_among_nodes, sight_of};

use crate::looking::{Look, Reads, look_at};
use crate::plans::{Plan, plan_for};
use crate::sides::Move;
use mem_calls::{BUCKET_ROWS, bucket_in, file_in};
use mem_values::FileCore;
use sfs_base::{NodeId, bucket_of};

// What the two buckets tell that are held.
fn look_in(core: &FileCore, nodes: u32, move_: &Move) -> Look
    requires old { IsSome (bucket_held nodes core.now.held move_.now.directory (bucket move_.now.name)) }
    requires new { IsSome (bucket_held nodes core.now.held move_.now.to_directory (bucket move_.now.to_name)) }
    ensures { result ≡ look_by (bucket_or (bucket_held nodes core.now.held move_.now.directory (bucket move_.now.name)))
        (bucket_or (bucket_held nodes core.now.held move_.now.to_directory (bucket move_.now.to_name))) move_.now }
{
    let old = bucket_in(core, nodes, move_.directory, bucket_of(&move_.name));
    let new = bucket_in(core, nodes, move_.to_directory, bucket_of(&move_.to_name));
    look_at(old, new, move_)
}

// How many rows name a file that is asked for.
fn links_in(core: &FileCore, nodes: u32, node: NodeId, asked: bool) -> u32
    requires { asked ≡ true → IsSome (file_held nodes core.now.held node) }
    ensures { result ≡ links_if asked (file_held nodes core.now.held node) }
{
    if asked {
        file_in(core, nodes, node).links
    } else {
        0
    }
}

// Whether a bucket that is held has no row.
fn is_empty_in(core: &FileCore, nodes: u32, node: NodeId, number: u8) -> bool
    requires { IsSome (bucket_held nodes core.now.held node number) }
    ensures { result ≡ is_empty_held nodes core.now.held node number }
{
    bucket_in(core, nodes, node, number).rows.len() == 0
}

// Whether the buckets of a directory that may be there have no row.
fn bare_in(core: &FileCore, nodes: u32, node: Option<NodeId>) -> bool
    requires { MatchOption node Unit (λ n. (number : _) → number < 8 → IsSome (bucket_held nodes core.now.held n number)) }
    ensures { result ≡ are_bare (buckets_held nodes core.now.held node) }
{
    let Some(node) = node else {
        return true;
    };
    is_empty_in(core, nodes, node, 0)
        && is_empty_in(core, nodes, node, 1)
        && is_empty_in(core, nodes, node, 2)
        && is_empty_in(core, nodes, node, 3)
        && is_empty_in(core, nodes, node, 4)
        && is_empty_in(core, nodes, node, 5)
        && is_empty_in(core, nodes, node, 6)
        && is_empty_in(core, nodes, node, 7)
}

// Whether a child is a directory or one of some.
fn is_among(child: Option<NodeId>, directory: NodeId, above: &[NodeId]) -> bool
    ensures { result ≡ is_at_or_in child directory.0 (map node_number above.now) }
{
    let Some(child) = child else {
        return false;
    };
    directory == child || is_in(child, above)
}

// Whether a node is one of some.
fn is_in(node: NodeId, nodes: &[NodeId]) -> bool
    ensures { result ≡ is_among_nodes node.0 (map node_number nodes.now) }
{
    nodes.contains(&node)
}

/// What a rename reads besides.
pub(crate) fn reads_in(
    core: &FileCore,
    nodes: u32,
    move_: &Move,
    plan: Plan,
    look: Look,
    above: &[NodeId],
) -> Reads
    requires held { HoldsCells nodes core.now.held (asked_cells move_.now plan) }
    requires look { look ≡ look_seen (sight_of nodes core.now.held move_.now plan (map node_number above.now)) move_.now }
    ensures { result ≡ reads_of (sight_of nodes core.now.held move_.now plan (map node_number above.now)) move_.now }
{
    let new = bucket_in(core, nodes, move_.to_directory, bucket_of(&move_.to_name));
    Reads {
        old_links: links_in(core, nodes, move_.directory, plan.old_file),
        new_links: links_in(core, nodes, move_.to_directory, plan.new_file),
        full: BUCKET_ROWS <= new.rows.len(),
        bare: bare_in(core, nodes, plan.directory),
        below: is_among(look.child, move_.to_directory, above),
    }
}

ghost use Rattle.mem_values.specs.Places.{node_count};
ghost use Rattle.mem_values.specs.Laws.{MayMeet};
ghost use Rattle.mem_rename.specs.Plans.{plan_by};
ghost use Rattle.mem_rename.specs.Ready.{AreSidesWithin};
ghost use Rattle.mem_rename.specs.Rounds.{IsPlanWithin};
ghost use Rattle.mem_rename.specs.Ways.{tree_seen};

/// What the two buckets tell that are held by a plan, and what a rename asks for by this. Where it is that plan, all is held that it asks for.
pub(crate) fn next_plan(core: &FileCore, nodes: u32, move_: &Move, plan: Plan) -> (Look, Plan)
    requires counted { nodes ≡ node_count core.now.view.first }
    requires within { AreSidesWithin nodes move_.now }
    requires held { HoldsCells nodes core.now.held (asked_cells move_.now plan) }
    requires met { MayMeet core.now.view core.now.held (tree_seen core.now) }
    ensures look { (above : _) → result.0 ≡ look_seen (sight_of nodes core.now.held move_.now plan above) move_.now }
    ensures asked { result.1 ≡ plan_by result.0 move_.now }
    ensures within { IsPlanWithin nodes result.1 }
{
    let _held = plan;
    let look = look_in(core, nodes, move_);
    (look, plan_for(look, move_))
}
