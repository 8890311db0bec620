ghost use Rattle.std.specs.Prelude.{◌≡◌, IfOk};

use crate::SlotBlock;
use sfs_base::{NoMemory, RoomyList};
use std::alloc::Global;

/// The blocks of a directory, in their order. Contracts see the list of their lists of slots, and
/// the number `spare` of pushes that are reserved.
pub type SlotList = RoomyList<SlotBlock>;

/// A list of equal blocks.
pub fn copy_list(alloc: Global, list: &SlotList) -> Result<SlotList, NoMemory>
    ensures ok { IfOk result (λ copy. copy.items ≡ list.now.items) }
{
    let mut blocks = Vec::with_capacity(alloc, list.as_slice().len())?;
    for block in list.as_slice() {
        blocks.push(block.copy()?)?;
    }
    Ok(SlotList::from_vec(blocks))
}
