ghost use Rattle.std.specs.Prelude.{◌≡◌, map, string_bytes};
ghost use Rattle.std.specs.Option.{option_map};
ghost use Rattle.words.specs.Words.{begins_with_dash};
ghost use Rattle.scalefs_cli.specs.Words.{Parted, parted};

use dev_file::FileDisk;
use scalefs_run::{Status, run};
use sfs_base::{NoGate, Sink, Source};
use std::alloc::Global;
use std::fs::{File, TryLockError};
use std::sync::Wait;
use std::thread::Threads;

/// The words of the command line behind the program's name.
#[derive(Clone, Copy, Drop)]
pub struct Parts<'a> {
    /// The path of the image.
    pub image: &'a String,
    /// What is to be done.
    pub command: &'a [String],
}

/// How the program ends.
pub enum End {
    /// The words were looked at.
    Ended(Status),
    /// The image can't be opened, nor made.
    CannotOpen,
    /// Another process works on the image.
    InUse,
}

/// The image's word and those behind it. A word for the image that is missing or begins with `-` is none.
pub fn parts_of(words: &[String]) -> Option<Parts>
    ensures { option_map (λ parts. record { image = string_bytes parts.image.now; command = map string_bytes parts.command.now }) result ≡ parted (map string_bytes words.now) }
{
    match words {
        [_, image, command @ ..] => {
            if begins_with_dash(image) {
                None
            } else {
                Some(Parts { image, command })
            }
        }
        _ => None,
    }
}

fn begins_with_dash(word: &String) -> bool
    ensures { result ≡ begins_with_dash (string_bytes word.now) }
{
    match word.as_bytes() {
        [first, ..] => *first == b'-',
        [] => false,
    }
}

/// Does what the words say over an open file, which no other process may work on. Where the file's system
/// has no locks, it is gone on with.
pub fn over_file<R: Threads + Wait + Sync, S: Source, K: Sink>(
    rt: &R,
    alloc: Global,
    file: File,
    command: &[String],
    source: &mut S,
    sink: &mut K,
) -> End {
    match file.try_lock() {
        Err(TryLockError::WouldBlock) => End::InUse,
        _ => {
            let disk = FileDisk::new(file);
            End::Ended(run(rt, alloc, command, source, sink, disk, &NoGate).status)
        }
    }
}
