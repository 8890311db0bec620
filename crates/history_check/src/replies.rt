// The reply to an fsync.
ghost use Rattle.std.specs.Prelude.{◌≡◌};
ghost use Rattle.history_check.specs.Reading.{spelled_space, spelled_no_space, flush_reply_in};

use crate::words::Words;
use sfs_base::SpaceKind;
use tree_laws::Reply;

// The reply that the words begin with.
pub fn flush_reply_in(words: &mut Words<'_>) -> Option<Reply>
    ensures { result ≡ flush_reply_in words.old }
{
    let word = words.next();
    if word == b"ok".as_slice() {
        Some(Reply::Ok)
    } else if word == b"failed".as_slice() {
        Some(Reply::DiskFailed)
    } else if word == b"nospace".as_slice() {
        spelled_no_space(words)
    } else if word == b"stopped".as_slice() {
        words.long_number().map(|faults| Reply::Stopped { faults })
    } else if word == b"nomemory".as_slice() {
        Some(Reply::NoMemory)
    } else {
        None
    }
}

// The numbers of a disk that has too little.
fn spelled_no_space(words: &mut Words<'_>) -> Option<Reply>
    ensures { result ≡ spelled_no_space words.old }
{
    let kind = spelled_space(words.next())?;
    let _ = words.next();
    let need = words.short_number()?;
    let _ = words.next();
    let free = words.short_number()?;
    Some(Reply::NoSpace { kind, need, free })
}

// What there is too little of.
fn spelled_space(word: &[u8]) -> Option<SpaceKind>
    ensures { result ≡ spelled_space word.now }
{
    if word == b"inodes".as_slice() {
        Some(SpaceKind::Inodes)
    } else if word == b"blocks".as_slice() {
        Some(SpaceKind::Blocks)
    } else {
        None
    }
}
