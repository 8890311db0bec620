// The bytes of a file.
ghost use Rattle.std.specs.Prelude.{◌≡◌, ◌+◌, ◌-◌, ◌<◌, ◌≤◌, ◌^◌, ◌++◌, length, take, drop, replicate, vec_len, OnOk, OnErr};
ghost use Rattle.sfs_base.specs.Files.{written, resized};

use sfs_base::NoMemory;

/// Puts bytes from byte `at` on. What lies between the old end and these is zero; no bytes change
/// nothing.
pub fn put_bytes(bytes: &mut Vec<u8>, at: usize, from: &[u8]) -> Result<(), NoMemory>
    requires { at + length from.now < 2 ^ 32 }
    ensures ok { OnOk result (bytes.new.items ≡ written at from.now bytes.old.items) }
    ensures err { OnErr result (bytes.new.items ≡ bytes.old.items) }
{
    if from.is_empty() {
        return Ok(());
    }
    make_room(bytes, at + from.len())?;
    overwrite(bytes, at, from);
    Ok(())
}

/// Gives the bytes this size: zeros come behind them, or the last of them go.
pub fn set_size(bytes: &mut Vec<u8>, size: usize) -> Result<(), NoMemory>
    ensures ok { OnOk result (bytes.new.items ≡ resized size bytes.old.items) }
    ensures err { OnErr result (bytes.new.items ≡ bytes.old.items) }
{
    bytes.resize(size, 0)?;
    Ok(())
}

// Puts zeros behind the bytes where there are fewer than `end`.
fn make_room(bytes: &mut Vec<u8>, end: usize) -> Result<(), NoMemory>
    ensures ok { OnOk result (bytes.new.items ≡ bytes.old.items ++ replicate (end - length bytes.old.items) 0) }
    ensures room { OnOk result (end ≤ vec_len bytes.new) }
    ensures err { OnErr result (bytes.new.items ≡ bytes.old.items) }
{
    if bytes.len() < end {
        set_size(bytes, end)?;
    }
    Ok(())
}

// Puts bytes over those that are there.
fn overwrite(bytes: &mut Vec<u8>, at: usize, from: &[u8])
    requires { at + length from.now ≤ vec_len bytes.old }
    ensures { bytes.new.items ≡ take at bytes.old.items ++ from.now ++ drop (at + length from.now) bytes.old.items }
{
    bytes[at..at + from.len()].copy_from_slice(from);
}
