ghost use Rattle.std.specs.Prelude.{◌≡◌, ◌<◌, ◌≤◌, length, IfOk, IfErr};

use crate::NoMemory;
use std::marker::Model;

/// How many bytes one write or read may have.
pub const LONGEST_CHUNK: u64 = 65_536;

/// Why bytes are no chunk.
#[derive(Drop)]
pub enum ChunkFault {
    /// There are more than 65,536 bytes. They come back as they were.
    TooLong { bytes: Vec<u8> },
}

/// The bytes of one write or read: at most 65,536. Contracts see the list of them.
#[derive(Drop)]
pub struct Chunk {
    bytes: Vec<u8>,
}

impl Model for Chunk {
    ghost use Rattle.std.specs.Prelude.{◌≤◌, ℕ, List, length};

    ghost Value = { List ℕ };

    ghost view = { λ chunk. chunk.bytes.items };

    ghost invariant = { λ chunk. length chunk.bytes.items ≤ 65536 };
}

impl Chunk {
    /// The chunk with these bytes.
    pub fn new(bytes: Vec<u8>) -> Result<Chunk, ChunkFault>
        ensures ok { IfOk result (λ chunk. (chunk ≡ bytes.items)
            × (length bytes.items ≤ LONGEST_CHUNK)) }
        ensures err { IfErr result (λ fault. (fault ≡ ChunkFault.TooLong bytes)
            × (LONGEST_CHUNK < length bytes.items)) }
    {
        if bytes.len() as u64 > LONGEST_CHUNK {
            return Err(ChunkFault::TooLong { bytes });
        }
        Ok(Chunk { bytes })
    }

    /// The bytes.
    pub fn bytes(&self) -> &[u8]
        ensures bytes { result.now ≡ self.now }
        ensures length { length self.now ≤ LONGEST_CHUNK }
    {
        &self.bytes
    }

    /// An equal chunk.
    pub fn copy(&self) -> Result<Chunk, NoMemory>
        ensures ok { IfOk result (λ chunk. chunk ≡ self.now) }
    {
        Ok(Chunk {
            bytes: self.bytes.clone()?,
        })
    }
}
