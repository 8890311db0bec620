// What is kept of the inodes in use once orphans are freed.
ghost use Rattle.std.specs.Prelude.{◌≡◌, ◌++◌, ◌∷◌, [], if◌then◌else◌, filter, IfOk, OnOk};
ghost use Rattle.recovery.specs.Freed.{is_linked_kept};

use disk_tree::{KeptPart, PartList};
use sfs_base::{NoMemory, RoomyList};
use std::alloc::Global;

/// These parts without those of orphans, in their order.
pub fn linked_parts(alloc: Global, parts: PartList) -> Result<PartList, NoMemory>
    ensures { IfOk result (λ linked. linked.items ≡ filter is_linked_kept parts.items) }
{
    let mut linked = Vec::new(alloc);
    for part in parts.into_vec() {
        add_linked(&mut linked, part)?;
    }
    Ok(RoomyList::from_vec(linked))
}

// Puts a part last, where it is no orphan's.
fn add_linked(linked: &mut Vec<KeptPart>, part: KeptPart) -> Result<(), NoMemory>
    ensures { OnOk result (linked.new.items ≡ linked.old.items ++ (if is_linked_kept part then part ∷ [] else [])) }
{
    if part.meta.kind != 1 || part.meta.links != 0 {
        linked.push(part)?;
    }
    Ok(())
}
