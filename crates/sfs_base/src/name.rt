ghost use Rattle.std.specs.Prelude.{◌≡◌, ◌⊎◌, None, Some, IfOk, IfErr, position};
ghost use Rattle.sfs_base.specs.declared.name.NameFault.TheVariants.{NoMemory as WantsMemory};

use crate::NoMemory;
use std::alloc::{AllocError, Global};
use std::marker::Model;
use thiserror::Error;

/// Why bytes are no name.
#[derive(Debug, PartialEq, Eq, Drop, Error)]
pub enum NameFault {
    #[error("the name is empty")]
    Empty,
    #[error("the name has {len} bytes, more than 255")]
    TooLong { len: u64 },
    #[error("the name's byte {at} is 0 or `/`")]
    BadByte { at: u64 },
    #[error("the name is `.` or `..`")]
    Dot,
    #[error("out of memory")]
    NoMemory,
}

impl From<AllocError> for NameFault {
    ghost from_gives = { λ _ fault. fault ≡ WantsMemory };

    fn from(_: AllocError) -> Self {
        NameFault::NoMemory
    }
}

/// A name in a directory: 1 to 255 bytes, none of them 0 or `/`, and neither `.` nor `..`.
/// Contracts see the list of its bytes.
#[derive(Drop)]
pub struct Name {
    bytes: Vec<u8>,
}

impl Model for Name {
    ghost use Rattle.std.specs.Prelude.{◌≡◌, ℕ, List, None};

    ghost Value = { List ℕ };

    ghost use Rattle.sfs_base.specs.Name.{name_fault};

    ghost view = { λ name. name.bytes.items };

    ghost invariant = { λ name. name_fault name.bytes.items ≡ None };
}

impl Name {
    ghost use Rattle.sfs_base.specs.Name.{name_fault};

    /// The name with these bytes. The first of the faults that they have refuses them, in the order
    /// of `NameFault`.
    pub fn new(alloc: Global, bytes: &[u8]) -> Result<Name, NameFault>
        ensures ok { IfOk result (λ name. (name ≡ bytes.now) × (name_fault bytes.now ≡ None)) }
        ensures err { IfErr result (λ fault.
            (fault ≡ NameFault.NoMemory) ⊎ (name_fault bytes.now ≡ Some fault)) }
    {
        if let Some(fault) = fault_of(bytes) {
            return Err(fault);
        }
        Ok(Name {
            bytes: bytes.to_vec(alloc)?,
        })
    }

    /// The name's bytes.
    pub fn bytes(&self) -> &[u8]
        ensures bytes { result.now ≡ self.now }
        ensures grammar { name_fault self.now ≡ None }
    {
        &self.bytes
    }

    /// An equal name.
    pub fn copy(&self) -> Result<Name, NoMemory>
        ensures ok { IfOk result (λ name. name ≡ self.now) }
    {
        Ok(Name {
            bytes: self.bytes.clone()?,
        })
    }
}

ghost use Rattle.sfs_base.specs.Name.{name_fault, is_bad_byte, bucket, name_hash};

// The first reason why bytes are no name.
fn fault_of(bytes: &[u8]) -> Option<NameFault>
    ensures { result ≡ name_fault bytes.now }
{
    if bytes.is_empty() {
        return Some(NameFault::Empty);
    }
    if bytes.len() > 255 {
        return Some(NameFault::TooLong {
            len: bytes.len() as u64,
        });
    }
    if let Some(at) = first_bad_byte(bytes) {
        return Some(NameFault::BadByte { at: at as u64 });
    }
    if bytes == b".".as_slice() || bytes == b"..".as_slice() {
        return Some(NameFault::Dot);
    }
    None
}

// Where the first byte lies that no name has.
fn first_bad_byte(bytes: &[u8]) -> Option<usize>
    ensures { result ≡ position is_bad_byte bytes.now }
{
    bytes.iter().position(|byte| *byte == 0 || *byte == b'/')
}

/// Which of a directory's eight buckets the name lies in, from 0 to 7.
pub fn bucket_of(name: &Name) -> u8
    ensures { result ≡ bucket name.now }
{
    let mut hash = 0u32;
    for byte in &name.bytes {
        hash = hash.wrapping_mul(31).wrapping_add(u32::from(*byte));
    }
    (hash % 8) as u8
}
