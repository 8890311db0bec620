// What a member brings in: nodes of the changes in its span, and the directory in which it was made.
ghost use Rattle.std.specs.Prelude.{◌≡◌, ◌↔◌, ◌∷◌, ℕ, true, OnOk};
ghost use Rattle.std.specs.Ordering.{nat_cmp};
ghost use Rattle.std.specs.BTreeSet.{contains};
ghost use Rattle.sfs_base.specs.declared.numbers.NodeId.{NodeId};
ghost use Rattle.mem_cells.specs.Log.{IsInOrder};
ghost use Rattle.cut_laws.specs.Elements.{OfSome};
ghost use Rattle.look_laws.specs.Look.{SeesNaming};
ghost use Rattle.dep_closure.specs.Brought.{GrowsBy, ChangeBrings, LoggedBrings, AreOfOneDirectory, SpanBrings, MemberBrings};
ghost use Rattle.dep_closure.specs.Gathered.{IsOrderly, look_of, noted_as};

use crate::births::birthplace;
use crate::gathered::Gathered;
use crate::lookup::{cut_of, find_node};
use crate::members::Found;
use crate::spans::{ended_child, span};
use sfs_base::{NoMemory, NodeId, Stamp};
use std::collections::BTreeSet;
use tree_laws::Change;

// Adds what a member brings in.
pub(crate) fn follow(
    found: &mut Found,
    gathered: &Gathered,
    named: &BTreeSet<u32>,
    below: Stamp,
    node: NodeId,
) -> Result<(), NoMemory>
    requires gathered { IsOrderly gathered.now }
    requires named { (start : NodeId) (other : ℕ) →
        (contains nat_cmp named.now other ≡ true) ↔ SeesNaming (look_of start below gathered.now) (look_of start below gathered.now).cut other }
    ensures { OnOk result ((start : NodeId) → GrowsBy found.old found.new (MemberBrings (look_of start below gathered.now) node.0)) }
{
    follow_log(found, gathered, below, node)?;
    found.add_some(birthplace(gathered, named, node))
}

// Adds what the changes in a member's span bring in. The log is read once, from the member's cut to below the stamp.
fn follow_log(
    found: &mut Found,
    gathered: &Gathered,
    below: Stamp,
    node: NodeId,
) -> Result<(), NoMemory>
    requires { IsOrderly gathered.now }
    ensures { OnOk result ((start : NodeId) → GrowsBy found.old found.new (SpanBrings (look_of start below gathered.now) node.0)) }
{
    match find_node(gathered.logs.as_slice(), node) {
        Some(log) => {
            let cut = cut_of(gathered.cuts.as_slice(), node);
            follow_span(found, span(log.changes.as_slice(), cut, below))
        }
        None => Ok(()),
    }
}

// Adds what the changes of a span bring in.
fn follow_span(found: &mut Found, span: &[Change]) -> Result<(), NoMemory>
    requires in_order { IsInOrder span.now }
    requires own { AreOfOneDirectory span.now }
    ensures { OnOk result (GrowsBy found.old found.new (OfSome span.now (λ change. ChangeBrings (noted_as span.now change)))) }
{
    for at in 0..span.len() {
        follow_change(found, &span[at], &span[at + 1..])?;
    }
    Ok(())
}

// Adds what a change brings in, by the changes of its directory that stand behind it.
fn follow_change(found: &mut Found, change: &Change, later: &[Change]) -> Result<(), NoMemory>
    requires { IsInOrder (change.now ∷ later.now) }
    ensures { OnOk result (GrowsBy found.old found.new (LoggedBrings change.now later.now)) }
{
    found.add_some(change.other)?;
    found.add_some(ended_child(change, later))?;
    found.add_all(change.above.nodes())
}
