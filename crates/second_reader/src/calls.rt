// The call that a line's words spell, for the second reader.
use hex::FromHexError;
use percent_encoding::percent_decode;
use sfs_base::{Chunk, Kind, Name, NameFault, NoMemory, NodeId, SpaceKind};
use std::alloc::Global;
use tree_laws::{Call, Reply};

/// The number that a word is.
pub fn number(words: &[&str], place: usize) -> Option<u64> {
    words.get(place)?.parse::<u64>().ok()
}

/// A number of 32 bits.
fn short(words: &[&str], place: usize) -> Option<u32> {
    words.get(place)?.parse::<u32>().ok()
}

// The node that a word is.
fn node(words: &[&str], place: usize) -> Option<NodeId> {
    Some(NodeId(short(words, place)?))
}

// The name that a word spells.
fn name(alloc: Global, words: &[&str], place: usize) -> Result<Option<Name>, NoMemory> {
    let Some(word) = words.get(place) else {
        return Ok(None);
    };
    let mut bytes = Vec::new(alloc);
    percent_decode(word.as_bytes()).append_to(&mut bytes)?;
    match Name::new(alloc, &bytes) {
        Ok(name) => Ok(Some(name)),
        Err(fault) => match fault {
            NameFault::NoMemory => Err(NoMemory),
            _ => Ok(None),
        },
    }
}

// The bytes that a word spells.
fn bytes(alloc: Global, words: &[&str], place: usize) -> Result<Option<Chunk>, NoMemory> {
    let Some(word) = words.get(place) else {
        return Ok(None);
    };
    if *word == "-" {
        return Ok(Chunk::new(Vec::new(alloc)).ok());
    }
    match hex::decode(alloc, word.as_bytes()) {
        Ok(bytes) => Ok(Chunk::new(bytes).ok()),
        Err(fault) => match fault {
            FromHexError::OutOfMemory => Err(NoMemory),
            _ => Ok(None),
        },
    }
}

/// The call of a line.
pub fn call(alloc: Global, words: &[&str]) -> Result<Option<Call>, NoMemory> {
    let Some(verb) = words.get(2) else {
        return Ok(None);
    };
    match *verb {
        "link" => link(alloc, words),
        "rename" => rename(alloc, words),
        "write" => write(alloc, words),
        "read" => Ok(read(words)),
        "trunc" => Ok(trunc(words)),
        "stat" | "list" | "fsync" => Ok(of_node(verb, words)),
        _ => of_row(alloc, verb, words),
    }
}

fn of_node(verb: &str, words: &[&str]) -> Option<Call> {
    let node = node(words, 3)?;
    match verb {
        "stat" => Some(Call::Stat { node }),
        "list" => Some(Call::List { dir: node }),
        _ => Some(Call::Fsync { node }),
    }
}

fn of_row(alloc: Global, verb: &str, words: &[&str]) -> Result<Option<Call>, NoMemory> {
    let Some(dir) = node(words, 3) else {
        return Ok(None);
    };
    let Some(name) = name(alloc, words, 4)? else {
        return Ok(None);
    };
    Ok(match verb {
        "look" => Some(Call::Look { dir, name }),
        "create" => Some(Call::Make {
            dir,
            name,
            kind: Kind::File,
        }),
        "mkdir" => Some(Call::Make {
            dir,
            name,
            kind: Kind::Directory,
        }),
        "unlink" => Some(Call::Unlink { dir, name }),
        "rmdir" => Some(Call::Rmdir { dir, name }),
        _ => None,
    })
}

fn link(alloc: Global, words: &[&str]) -> Result<Option<Call>, NoMemory> {
    let Some((file, dir)) = node(words, 3).zip(node(words, 4)) else {
        return Ok(None);
    };
    let Some(name) = name(alloc, words, 5)? else {
        return Ok(None);
    };
    Ok(Some(Call::Link { file, dir, name }))
}

fn rename(alloc: Global, words: &[&str]) -> Result<Option<Call>, NoMemory> {
    let Some((dir, to_dir)) = node(words, 3).zip(node(words, 5)) else {
        return Ok(None);
    };
    let Some(from) = name(alloc, words, 4)? else {
        return Ok(None);
    };
    let Some(to_name) = name(alloc, words, 6)? else {
        return Ok(None);
    };
    Ok(Some(Call::Rename {
        dir,
        name: from,
        to_dir,
        to_name,
    }))
}

fn write(alloc: Global, words: &[&str]) -> Result<Option<Call>, NoMemory> {
    let Some((file, at)) = node(words, 3).zip(number(words, 4)) else {
        return Ok(None);
    };
    let Some(bytes) = bytes(alloc, words, 5)? else {
        return Ok(None);
    };
    Ok(Some(Call::Write { file, at, bytes }))
}

fn read(words: &[&str]) -> Option<Call> {
    Some(Call::Read {
        file: node(words, 3)?,
        at: number(words, 4)?,
        count: short(words, 5)?,
    })
}

fn trunc(words: &[&str]) -> Option<Call> {
    Some(Call::Trunc {
        file: node(words, 3)?,
        size: number(words, 4)?,
    })
}

/// The reply of an fsync's line.
pub fn flush_reply(words: &[&str]) -> Option<Reply> {
    match *words.get(5)? {
        "ok" => Some(Reply::Ok),
        "failed" => Some(Reply::DiskFailed),
        "nomemory" => Some(Reply::NoMemory),
        "stopped" => Some(Reply::Stopped {
            faults: number(words, 6)?,
        }),
        "nospace" => no_space(words),
        _ => None,
    }
}

fn no_space(words: &[&str]) -> Option<Reply> {
    let kind = match *words.get(6)? {
        "inodes" => SpaceKind::Inodes,
        "blocks" => SpaceKind::Blocks,
        _ => return None,
    };
    Some(Reply::NoSpace {
        kind,
        need: short(words, 8)?,
        free: short(words, 10)?,
    })
}
