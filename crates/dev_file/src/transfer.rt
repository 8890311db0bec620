// All bytes of a range, by as many calls of the system as it takes.
ghost use Rattle.std.specs.Prelude.{◌≡◌, ◌+◌, ◌*◌, ◌<◌, ◌≤◌, ◌^◌, length, IfSome};

use std::fs::File;
use std::io::{self, ErrorKind};
use std::os::unix::fs::FileExt;

/// How often a call that was interrupted is tried.
const TRIES: u32 = 1024;

/// Reads the bytes from byte `at` of the file on, and zeros from the file's end on. Answers whether
/// that was done.
pub fn read_all_at(file: &File, at: u64, into: &mut [u8]) -> bool
    requires within { at + length into.old < 2 ^ 64 }
{
    let mut got = 0;
    while got < into.len() {
        match read_some(file, at + got as u64, &mut into[got..]) {
            Some(0) => {
                into[got..].fill(0);
                return true;
            }
            Some(count) => got += count,
            None => return false,
        }
    }
    true
}

/// Writes these bytes from byte `at` of the file on. Answers whether that was done.
pub fn write_all_at(file: &File, at: u64, from: &[u8]) -> bool
    requires within { at + length from.now < 2 ^ 64 }
{
    let mut put = 0;
    while put < from.len() {
        match write_some(file, at + put as u64, &from[put..]) {
            Some(0) => return false,
            Some(count) => put += count,
            None => return false,
        }
    }
    true
}

// How many bytes one read moved, 0 at the end of the file. None is a failure.
fn read_some(file: &File, at: u64, into: &mut [u8]) -> Option<usize>
    ensures { IfSome result (λ count. count ≤ length into.old) }
{
    for _ in 0..TRIES {
        match file.read_at(into, at) {
            Ok(count) => return Some(count),
            Err(error) => {
                if !is_interruption(&error) {
                    return None;
                }
            }
        }
    }
    None
}

// How many bytes one write moved. None is a failure.
fn write_some(file: &File, at: u64, from: &[u8]) -> Option<usize>
    ensures { IfSome result (λ count. count ≤ length from.now) }
{
    for _ in 0..TRIES {
        match file.write_at(from, at) {
            Ok(count) => return Some(count),
            Err(error) => {
                if !is_interruption(&error) {
                    return None;
                }
            }
        }
    }
    None
}

// Whether a call was interrupted and may be made again.
fn is_interruption(error: &io::Error) -> bool {
    error.kind() == ErrorKind::Interrupted
}
