// The kinds that changes tell of their children.
ghost use Rattle.std.specs.Prelude.{◌≡◌, ℕ, IfOk, OnOk};
ghost use Rattle.std.specs.Option.{option_or};
ghost use Rattle.std.specs.Ordering.{nat_cmp};
ghost use Rattle.std.specs.BTreeMap.{get};
ghost use Rattle.dep_closure.specs.Gathered.{IsOrderly};
ghost use Rattle.flush_plan.specs.Kinds.{kind_told, spans_in};

use dep_closure::Gathered;
use sfs_base::{Kind, NoMemory, NodeList, Stamp};
use std::alloc::Global;
use std::collections::BTreeMap;
use tree_laws::Change;

// The kinds of the nodes that the changes in the spans of members name, by their numbers.
pub(crate) fn kinds_told(
    alloc: Global,
    members: &NodeList,
    below: Stamp,
    logs: &Gathered,
) -> Result<BTreeMap<u32, Kind>, NoMemory>
    requires { IsOrderly logs.now }
    ensures { IfOk result (λ kinds. (node : ℕ) → get nat_cmp kinds node ≡ kind_told (spans_in logs.now below members.now.items) node) }
{
    let mut kinds = BTreeMap::new(alloc);
    let nodes = members.as_slice();
    for member in nodes {
        add_kinds(&mut kinds, logs.span(*member, below))?;
    }
    Ok(kinds)
}

// Adds the kinds of the children of some changes: of a node that several name, the last one tells it.
fn add_kinds(kinds: &mut BTreeMap<u32, Kind>, changes: &[Change]) -> Result<(), NoMemory>
    ensures { OnOk result ((node : ℕ) → get nat_cmp kinds.new node ≡ option_or (kind_told changes.now node) (get nat_cmp kinds.old node)) }
{
    for change in changes {
        kinds.insert(change.child.0, change.kind)?;
    }
    Ok(())
}
