ghost use Rattle.std.specs.Prelude.{◌≡◌, IsSome, MatchResult};
ghost use Rattle.script.specs.Walks.{first_walk, second_walk, last_call, on_first, on_second, begun, call_of, after};
ghost use Rattle.script.specs.Workers.{walk_state_of};

use crate::Command;
use crate::working::calls::{first_walk, last_call, look, second_walk};
use sfs_base::{Name, NoMemory, NodeId};
use tree_laws::{Call, Reply};

/// What is left of a command.
#[derive(Clone, Copy)]
pub enum Walk<'a> {
    /// A name to look up in a node, and names behind it, on the first walk.
    First {
        command: &'a Command,
        node: NodeId,
        name: &'a Name,
        names: &'a [Name],
    },
    /// The same on the second walk, after the first has ended at a node.
    Second {
        command: &'a Command,
        first: NodeId,
        node: NodeId,
        name: &'a Name,
        names: &'a [Name],
    },
    /// The last call, after the walks have ended at these nodes.
    Last {
        command: &'a Command,
        first: NodeId,
        second: NodeId,
    },
    /// Nothing.
    Done,
}

/// The root, where each walk begins.
const ROOT: NodeId = NodeId(0);

// What is left of a command before its first call.
pub fn begun(command: &Command) -> Walk<'_>
    ensures { walk_state_of result ≡ begun command.now }
{
    on_first(command, ROOT, first_walk(command))
}

// What is left on the first walk, at a node with these names ahead.
fn on_first<'a>(command: &'a Command, node: NodeId, names: &'a [Name]) -> Walk<'a>
    ensures { walk_state_of result ≡ on_first command.now node.0 names.now }
{
    match names {
        [name, names @ ..] => Walk::First {
            command,
            node,
            name,
            names,
        },
        [] => on_second(command, node, ROOT, second_walk(command)),
    }
}

// What is left on the second walk, at a node with these names ahead.
fn on_second<'a>(command: &'a Command, first: NodeId, node: NodeId, names: &'a [Name]) -> Walk<'a>
    ensures { walk_state_of result ≡ on_second command.now first.0 node.0 names.now }
{
    match names {
        [name, names @ ..] => Walk::Second {
            command,
            first,
            node,
            name,
            names,
        },
        [] => Walk::Last {
            command,
            first,
            second: node,
        },
    }
}

// What is left after a reply.
pub fn after<'a>(leg: Walk<'a>, reply: &Reply) -> Walk<'a>
    ensures { walk_state_of result ≡ after (walk_state_of leg.entry) reply.now }
{
    let child = match reply {
        Reply::Node { node, .. } => *node,
        _ => return Walk::Done,
    };
    match leg {
        Walk::First { command, names, .. } => on_first(command, child, names),
        Walk::Second {
            command,
            first,
            names,
            ..
        } => on_second(command, first, child, names),
        Walk::Last { .. } | Walk::Done => Walk::Done,
    }
}

// The next call, if one is left. Memory is refused for a call alone.
pub fn call_of(leg: Walk<'_>) -> Result<Option<Call>, NoMemory>
    ensures { MatchResult result (λ call. call ≡ call_of (walk_state_of leg.entry)) (λ fault. IsSome (call_of (walk_state_of leg.entry))) }
{
    match leg {
        Walk::First { node, name, .. } => Ok(Some(look(node, name)?)),
        Walk::Second { node, name, .. } => Ok(Some(look(node, name)?)),
        Walk::Last {
            command,
            first,
            second,
        } => Ok(Some(last_call(command, first, second)?)),
        Walk::Done => Ok(None),
    }
}
