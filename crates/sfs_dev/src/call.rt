/// What a device call asked for.
#[derive(Clone, Copy, Debug, PartialEq, Eq)]
pub enum Act {
    /// A read of `count` bytes from byte `at` of the disk on.
    Read { at: u64, count: u64 },
    /// A write of `count` bytes from byte `at` of the disk on.
    Write { at: u64, count: u64 },
    /// A sync of all that was written.
    Sync,
}

/// One device call of a disk in memory.
#[derive(Clone, Copy, Debug, PartialEq, Eq)]
pub struct Call {
    /// The number of device calls once it was made, this one among them.
    pub moment: u64,
    pub act: Act,
}
