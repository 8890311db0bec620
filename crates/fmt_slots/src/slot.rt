ghost use Rattle.std.specs.Prelude.{◌≡◌, ◌+◌, ◌≤◌, length, None, Some, slice_index, IfOk, IfErr, if◌then◌else◌};
ghost use Rattle.std.specs.Option.{option_copied};
ghost use Rattle.sfs_base.specs.Name.{name_fault};
ghost use Rattle.sfs_image.specs.Bytes.{part};
ghost use Rattle.sfs_image.specs.Slot.{kind_byte as byte_of_kind, kind_of, is_kind, slot_of, slot_fault, row_fault, name_place, slot_bytes, IsSlot};
ghost use Rattle.fmt_slots.specs.declared.slot.SlotFault.TheVariants.{NoMemory as WantsMemory};

use byteorder::{ByteOrder, LittleEndian};
use sfs_base::{Kind, Name, NameFault, NoMemory};
use sfs_image::{clear, first_nonzero};
use std::alloc::{AllocError, AllocFailed, Global};
use std::marker::Model;
use thiserror::Error;

/// How many bytes a slot has.
pub const SLOT_BYTES: usize = 264;

/// Why bytes are no slots.
#[derive(Debug, PartialEq, Eq, Drop, Error)]
pub enum SlotFault {
    #[error("byte {at} is wrong")]
    Bad { at: u32 },
    #[error("out of memory")]
    NoMemory,
}

impl From<AllocError> for SlotFault {
    ghost from_gives = { λ _ fault. fault ≡ WantsMemory };

    fn from(_: AllocError) -> Self {
        SlotFault::NoMemory
    }
}

impl<T: Drop> From<AllocFailed<T>> for SlotFault {
    ghost from_gives = { λ _ fault. fault ≡ WantsMemory };

    fn from(_: AllocFailed<T>) -> Self {
        SlotFault::NoMemory
    }
}

/// What a slot says of one name in a directory: the inode that it names, and of which kind that is.
#[derive(Drop)]
pub struct SlotRow {
    pub inode: u32,
    pub kind: Kind,
    pub name: Name,
}

impl Model for SlotRow {
    ghost use Rattle.std.specs.Prelude.{◌^◌, ◌<◌};
    ghost use Rattle.sfs_image.specs.Slot.{Row};

    ghost Value = { Row };

    ghost view = { λ row. record { inode = row.inode; kind = row.kind; name = row.name } };

    ghost invariant = { λ row. row.inode < 2 ^ 32 };
}

ghost use Rattle.fmt_slots.specs.Fault.{Names};

impl SlotRow {
    /// An equal row.
    pub fn copy(&self) -> Result<SlotRow, NoMemory>
        ensures ok { IfOk result (λ row. row ≡ self.now) }
    {
        Ok(SlotRow {
            inode: self.inode,
            kind: self.kind,
            name: self.name.copy()?,
        })
    }
}

/// The slot in 264 bytes, or none in an empty one, whose bytes are zeros. `Bad` names the first wrong byte.
pub fn decode_slot(alloc: Global, bytes: &[u8]) -> Result<Option<SlotRow>, SlotFault>
    requires { length bytes.now ≡ 264 }
    ensures ok { IfOk result (λ slot. (slot_fault bytes.now ≡ None) × (slot ≡ slot_of bytes.now)) }
    ensures err { IfErr result (λ fault. Names fault (slot_fault bytes.now)) }
{
    if first_nonzero(bytes, 0, SLOT_BYTES).is_none() {
        return Ok(None);
    }
    Ok(Some(decode_row(alloc, bytes)?))
}

// The row in a slot that is not empty.
fn decode_row(alloc: Global, bytes: &[u8]) -> Result<SlotRow, SlotFault>
    requires { length bytes.now ≡ 264 }
    ensures ok { IfOk result (λ row. (row_fault bytes.now ≡ None) × (Some row ≡ slot_of bytes.now)) }
    ensures err { IfErr result (λ fault. Names fault (row_fault bytes.now)) }
{
    let Some(kind) = kind_in(bytes[4]) else {
        return Err(SlotFault::Bad { at: 4 });
    };
    let len = usize::from(bytes[5]);
    if len == 0 {
        return Err(SlotFault::Bad { at: 5 });
    }
    if let Some(at) = first_nonzero(bytes, 6, 8) {
        return Err(SlotFault::Bad { at });
    }
    let name = name_in(alloc, bytes, len)?;
    if let Some(at) = first_nonzero(bytes, 8 + len, SLOT_BYTES) {
        return Err(SlotFault::Bad { at });
    }
    Ok(SlotRow {
        inode: LittleEndian::read_u32(&bytes[..4]),
        kind,
        name,
    })
}

// The kind of a byte.
fn kind_in(byte: u8) -> Option<Kind>
    ensures { result ≡ (if is_kind byte then Some (kind_of byte) else None) }
{
    match byte {
        1 => Some(Kind::File),
        2 => Some(Kind::Directory),
        _ => None,
    }
}

// The name of a slot.
fn name_in(alloc: Global, bytes: &[u8], len: usize) -> Result<Name, SlotFault>
    requires within { 8 + len ≤ length bytes.now }
    requires small { len ≤ 255 }
    ensures ok { IfOk result (λ name. (name_fault (part 8 len bytes.now) ≡ None) × (name ≡ part 8 len bytes.now)) }
    ensures err { IfErr result (λ fault. Names fault (name_place (name_fault (part 8 len bytes.now)))) }
{
    match Name::new(alloc, &bytes[8..8 + len]) {
        Ok(name) => Ok(name),
        Err(fault) => match fault {
            NameFault::NoMemory => Err(SlotFault::NoMemory),
            NameFault::BadByte { at } => Err(SlotFault::Bad { at: 8 + at as u32 }),
            _ => Err(SlotFault::Bad { at: 8 }),
        },
    }
}

/// Writes the 264 bytes of a slot, zeros for an empty one.
pub fn encode_slot(row: Option<&SlotRow>, bytes: &mut [u8])
    requires { length bytes.old ≡ 264 }
    ensures bytes { bytes.new ≡ slot_bytes (option_copied row.entry) }
    ensures fits { IsSlot (option_copied row.entry) }
{
    match row {
        None => clear(bytes),
        Some(row) => encode_row(row, bytes),
    }
}

// Writes the bytes of a row's slot.
fn encode_row(row: &SlotRow, bytes: &mut [u8])
    requires { length bytes.old ≡ 264 }
    ensures bytes { bytes.new ≡ slot_bytes (Some row.now) }
    ensures fits { IsSlot (Some row.now) }
{
    let name = row.name.bytes();
    let end = 8 + name.len();
    LittleEndian::write_u32(&mut bytes[..4], row.inode);
    bytes[4..8].copy_from_slice(&[kind_byte(row.kind), name.len() as u8, 0, 0]);
    bytes[8..end].copy_from_slice(name);
    clear(&mut bytes[end..]);
}

// The byte of a kind.
fn kind_byte(kind: Kind) -> u8
    ensures { result ≡ byte_of_kind kind }
{
    match kind {
        Kind::File => 1,
        Kind::Directory => 2,
    }
}
