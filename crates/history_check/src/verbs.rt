// The word of a call.
ghost use Rattle.std.specs.Prelude.{◌≡◌};
ghost use Rattle.history_check.specs.Reading.{spelled_verb};

use sfs_base::Kind;

/// What a line says that was called.
#[derive(Clone, Copy)]
pub enum Verb {
    Look,
    Make { kind: Kind },
    Link,
    Unlink,
    Rmdir,
    Rename,
    Write,
    Read,
    Trunc,
    Stat,
    List,
    Fsync,
}

// The verb of a word.
pub fn spelled_verb(word: &[u8]) -> Option<Verb>
    ensures { result ≡ spelled_verb word.now }
{
    if word == b"look".as_slice() {
        Some(Verb::Look)
    } else if word == b"create".as_slice() {
        Some(Verb::Make { kind: Kind::File })
    } else if word == b"mkdir".as_slice() {
        Some(Verb::Make {
            kind: Kind::Directory,
        })
    } else if word == b"link".as_slice() {
        Some(Verb::Link)
    } else if word == b"unlink".as_slice() {
        Some(Verb::Unlink)
    } else if word == b"rmdir".as_slice() {
        Some(Verb::Rmdir)
    } else if word == b"rename".as_slice() {
        Some(Verb::Rename)
    } else if word == b"write".as_slice() {
        Some(Verb::Write)
    } else if word == b"read".as_slice() {
        Some(Verb::Read)
    } else if word == b"trunc".as_slice() {
        Some(Verb::Trunc)
    } else if word == b"stat".as_slice() {
        Some(Verb::Stat)
    } else if word == b"list".as_slice() {
        Some(Verb::List)
    } else if word == b"fsync".as_slice() {
        Some(Verb::Fsync)
    } else {
        None
    }
}
