ghost use Rattle.std.specs.Prelude.{◌≡◌, ◌<◌, ◌≤◌, List, ℕ, length, take, IfErr, OnOk, OnErr, IsErrOf};
ghost use Rattle.std.specs.Io.KnownBytes.{Consumes, Appends};
ghost use Rattle.sfs_base.specs.Ends.{HasRisen};
ghost use Rattle.sfs_base.specs.Transfer.{ReadsAll};
ghost use Rattle.sfs_base.specs.declared.transfer.ReadAllFault.TheVariants.{NoMemory as WantsMemory};

use crate::{Failed, Sink, Source};
use std::alloc::{AllocError, Global};
use thiserror::Error;

/// How many bytes `read_all` asks for at once.
pub const PIECE: usize = 16_384;

/// Why a source was not read to its end.
#[derive(Debug, PartialEq, Eq, Drop, Error)]
pub enum ReadAllFault {
    #[error("a read failed")]
    ReadFault,
    #[error("there are too many bytes")]
    TooLong,
    #[error("out of memory")]
    NoMemory,
}

impl From<Failed> for ReadAllFault {
    ghost use Rattle.sfs_base.specs.declared.transfer.ReadAllFault.TheVariants.{ReadFault};
    ghost use Rattle.std.specs.Prelude.{◌≡◌};

    ghost from_gives = { λ _ fault. fault ≡ ReadFault };

    fn from(_: Failed) -> Self {
        ReadAllFault::ReadFault
    }
}

impl From<AllocError> for ReadAllFault {
    ghost from_gives = { λ _ fault. fault ≡ WantsMemory };

    fn from(_: AllocError) -> Self {
        ReadAllFault::NoMemory
    }
}

/// A write failed, after the first `taken` bytes were written.
#[derive(Debug, PartialEq, Eq, Drop, Error)]
#[error("a write failed after {taken} bytes")]
pub struct WriteFault {
    pub taken: u64,
}

/// All bytes that the source has left. `TooLong` comes exactly where more than `most` bytes were
/// taken, and then at most one piece more. After a refusal the bytes taken are gone.
pub fn read_all<S: Source>(
    alloc: Global,
    source: &mut S,
    most: u64,
) -> Result<Vec<u8>, ReadAllFault>
    ensures taken { (taken : List ℕ) × Consumes (S.left source.old) (S.left source.new) taken
        × ReadsAll (S.left source.old) taken most result }
    ensures never_falls { S.faults source.old ≤ S.faults source.new }
    ensures cause { IsErrOf result ReadAllFault.ReadFault
        → HasRisen (S.faults source.old) (S.faults source.new) }
{
    let mut bytes = Vec::new(alloc);
    let mut piece = [0u8; PIECE];
    while bytes.len() as u64 <= most {
        let count = source.read(&mut piece)?;
        if count == 0 {
            return Ok(bytes);
        }
        bytes.extend_from_slice(&piece[..count])?;
    }
    Err(ReadAllFault::TooLong)
}

/// Writes all the bytes. After a fault the first `taken` of them are written.
pub fn write_all<K: Sink>(sink: &mut K, bytes: &[u8]) -> Result<(), WriteFault>
    ensures ok { OnOk result (Appends (K.written sink.old) (K.written sink.new) bytes.now) }
    ensures err { IfErr result (λ fault. (fault.taken < length bytes.now)
        × Appends (K.written sink.old) (K.written sink.new) (take fault.taken bytes.now)) }
    ensures never_falls { K.faults sink.old ≤ K.faults sink.new }
    ensures cause { OnErr result (HasRisen (K.faults sink.old) (K.faults sink.new)) }
{
    let mut taken = 0;
    while taken < bytes.len() {
        match sink.write(&bytes[taken..]) {
            Ok(count) => taken += count,
            Err(Failed) => {
                return Err(WriteFault {
                    taken: taken as u64,
                });
            }
        }
    }
    Ok(())
}
