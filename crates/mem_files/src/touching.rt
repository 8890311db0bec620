// What of a file was touched from a stamp on: its blocks are copied, and no others.
ghost use Rattle.std.specs.Prelude.{◌≡◌, ◌∷◌, ◌++◌, [], filter_map, OnOk, IfOk};
ghost use Rattle.mem_files.specs.TouchedFrom.{padded_block, touched_at, IsTouchedFrom};

use crate::{FileBytes, TouchedBlock, TouchedFile};
use sfs_base::{NoMemory, Stamp};
use std::alloc::Global;

/// How many bytes a block has.
const BLOCK: u64 = 4096;

impl FileBytes {
    /// The size of the file, and the blocks whose mark is `cut` at least, ascending, each with its mark and
    /// its bytes. It looks at the marks, and copies these blocks alone. Only want of memory refuses it.
    pub fn touched_from(&self, alloc: Global, cut: Stamp) -> Result<TouchedFile, NoMemory>
        ensures { IfOk result (IsTouchedFrom cut.0 self.now) }
    {
        let mut blocks = Vec::new(alloc);
        for block in 0..self.room() {
            self.copy_touched(&mut blocks, block, cut)?;
        }
        Ok(TouchedFile {
            size: self.size(),
            blocks,
        })
    }

    // Copies a block, where its mark is `cut` at least.
    fn copy_touched(
        &self,
        blocks: &mut Vec<TouchedBlock>,
        block: u32,
        cut: Stamp,
    ) -> Result<(), NoMemory>
        ensures { OnOk result (blocks.new.items
            ≡ blocks.old.items ++ filter_map (touched_at cut.0 self.now) (block ∷ [])) }
    {
        if let Some(mark) = self.last(block) {
            if cut.0 <= mark.0 {
                let bytes = self.block_at(block);
                blocks.push(TouchedBlock { block, mark, bytes })?;
            }
        }
        Ok(())
    }

    // The bytes of a block, with zeros behind the file's end.
    fn block_at(&self, block: u32) -> [u8; 4096]
        ensures { result ≡ padded_block self.now.bytes block }
    {
        let mut bytes = [0; 4096];
        let _ = self.read(u64::from(block) * BLOCK, &mut bytes);
        bytes
    }
}
