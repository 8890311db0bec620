use std::alloc::{AllocError, AllocFailed};

/// A call of a source, a sink or a disk that failed.
#[derive(Clone, Copy, PartialEq, Eq)]
pub struct Failed;

/// Want of memory. What answers it leaves everything as it was, unless it says otherwise.
#[derive(Clone, Copy, PartialEq, Eq)]
pub struct NoMemory;

impl From<AllocError> for NoMemory {
    fn from(_: AllocError) -> Self {
        NoMemory
    }
}

impl<T: Drop> From<AllocFailed<T>> for NoMemory {
    fn from(_: AllocFailed<T>) -> Self {
        NoMemory
    }
}
