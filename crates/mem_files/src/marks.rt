ghost use Rattle.std.specs.Prelude.{◌≡◌, ◌≤◌, ℕ, length, slice_index_or, None, max, OnOk, OnErr};

use sfs_base::{NoMemory, Stamp};

/// Makes the list of marks `end` long at least.
pub(crate) fn make_room(marks: &mut Vec<Option<Stamp>>, end: usize) -> Result<(), NoMemory>
    ensures ok { OnOk result (end ≤ length marks.new.items) }
    ensures same { (block : ℕ) → slice_index_or marks.new.items block None
        ≡ slice_index_or marks.old.items block None }
    ensures never_lowers { length marks.old.items ≤ length marks.new.items }
    ensures no_longer { length marks.new.items ≤ max end (length marks.old.items) }
    ensures err { OnErr result (marks.new.items ≡ marks.old.items) }
{
    if marks.len() < end {
        marks.resize(end, None)?;
    }
    Ok(())
}
