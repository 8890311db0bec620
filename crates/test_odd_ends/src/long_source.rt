ghost use Rattle.std.specs.Prelude.{None};

use sfs_base::{Failed, Source};

/// A source of so many bytes that never fails. A read takes as many as the buffer has, and puts the first one there alone: the others
/// are those that stood in the buffer. It does not tell what it gives.
#[derive(Drop)]
pub struct LongSource {
    first: u8,
    left: u64,
}

impl LongSource {
    /// A source of so many bytes, `first` being the first of each read.
    pub fn new(first: u8, count: u64) -> LongSource {
        LongSource { first, left: count }
    }
}

impl Source for LongSource {
    ghost left = { λ _. None };

    ghost faults = { λ _. 0 };

    fn read(&mut self, into: &mut [u8]) -> Result<usize, Failed> {
        let count = self.left.min(into.len() as u64);
        into[0] = self.first;
        self.left -= count;
        Ok(count as usize)
    }

    fn faults(&self) -> u64 {
        0
    }
}
