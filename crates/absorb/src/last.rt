// The last change of each name, by which the net is made: of a name's changes only the last counts.
ghost use Rattle.std.specs.Prelude.{IfOk};
ghost use Rattle.absorb.specs.Last.{lent, AreLast};

use sfs_base::NoMemory;
use std::alloc::Global;
use std::collections::BTreeMap;
use tree_laws::Change;

// Changes by the bytes of their names, one a name.
pub(crate) type ByName<'a> = BTreeMap<&'a [u8], &'a Change>;

// The last change of each name that some changes have.
pub(crate) fn last_changes(alloc: Global, changes: &[Change]) -> Result<ByName<'_>, NoMemory>
    ensures { IfOk result (λ last. AreLast changes.now (lent last.entries)) }
{
    let mut last = BTreeMap::new(alloc);
    for change in changes {
        last.insert(change.name.bytes(), change)?;
    }
    Ok(last)
}
