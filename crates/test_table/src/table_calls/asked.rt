// Calls as the tables of the tests have them.
ghost use Rattle.std.specs.Prelude.{◌≡◌, true, IfSome};
ghost use Rattle.tree_laws.specs.Step.{IsReadable};

use sfs_base::{Chunk, Kind, Name, NodeId};
use std::alloc::Global;
use tree_laws::Call;

// A call.
#[derive(Clone, Copy)]
pub(crate) enum Asked {
    Look(u32, &'static str),
    Unlink(u32, &'static str),
    Write(u32, u64, &'static str),
    Read(u32, u64, u16),
    Trunc(u32, u64),
    Stat(u32),
    Link(u32, u32, &'static str),
    Rmdir(u32, &'static str),
    List(u32),
    Rename(u32, &'static str, u32, &'static str),
    Make(u32, &'static str, Kind),
}

// The call that is asked, where there is memory for it.
pub(crate) fn call_of(alloc: Global, asked: Asked) -> Option<Call>
    ensures { IfSome result (λ call. IsReadable call) }
{
    match asked {
        Asked::Look(dir, name) => Some(Call::Look {
            dir: NodeId(dir),
            name: name_of(alloc, name)?,
        }),
        Asked::Make(dir, name, kind) => Some(Call::Make {
            dir: NodeId(dir),
            name: name_of(alloc, name)?,
            kind,
        }),
        Asked::Link(file, dir, name) => Some(Call::Link {
            file: NodeId(file),
            dir: NodeId(dir),
            name: name_of(alloc, name)?,
        }),
        Asked::Rename(dir, name, to_dir, to_name) => Some(Call::Rename {
            dir: NodeId(dir),
            name: name_of(alloc, name)?,
            to_dir: NodeId(to_dir),
            to_name: name_of(alloc, to_name)?,
        }),
        other => plain_call_of(alloc, other),
    }
}

// The call that is asked, where it is one of the others.
fn plain_call_of(alloc: Global, asked: Asked) -> Option<Call>
    ensures { IfSome result (λ call. IsReadable call) }
{
    match asked {
        Asked::Unlink(dir, name) => Some(Call::Unlink {
            dir: NodeId(dir),
            name: name_of(alloc, name)?,
        }),
        Asked::Rmdir(dir, name) => Some(Call::Rmdir {
            dir: NodeId(dir),
            name: name_of(alloc, name)?,
        }),
        Asked::Write(file, at, bytes) => written(alloc, file, at, bytes),
        Asked::Read(file, at, count) => Some(Call::Read {
            file: NodeId(file),
            at,
            count: u32::from(count),
        }),
        Asked::Trunc(file, size) => Some(Call::Trunc {
            file: NodeId(file),
            size,
        }),
        Asked::Stat(node) => Some(Call::Stat { node: NodeId(node) }),
        Asked::List(dir) => Some(Call::List { dir: NodeId(dir) }),
        _ => None,
    }
}

fn name_of(alloc: Global, name: &str) -> Option<Name> {
    Name::new(alloc, name.as_bytes()).ok()
}

fn written(alloc: Global, file: u32, at: u64, bytes: &str) -> Option<Call>
    ensures { IfSome result (λ call. IsReadable call) }
{
    match Chunk::new(bytes.as_bytes().to_vec(alloc).ok()?) {
        Ok(bytes) => Some(Call::Write {
            file: NodeId(file),
            at,
            bytes,
        }),
        Err(_) => None,
    }
}

// Whether a call is the one that is asked.
pub(crate) fn is_asked(call: &Call, asked: Asked) -> bool
    ensures { result ≡ true → IsReadable call.now }
{
    match (call, asked) {
        (Call::Look { dir, name }, Asked::Look(node, text)) => is_row(*dir, name, node, text),
        (Call::Unlink { dir, name }, Asked::Unlink(node, text)) => is_row(*dir, name, node, text),
        (Call::Rmdir { dir, name }, Asked::Rmdir(node, text)) => is_row(*dir, name, node, text),
        (Call::Make { dir, name, kind }, Asked::Make(node, text, own)) => {
            is_row(*dir, name, node, text) && *kind == own
        }
        (Call::Link { file, dir, name }, Asked::Link(number, node, text)) => {
            file.0 == number && is_row(*dir, name, node, text)
        }
        (
            Call::Rename {
                dir,
                name,
                to_dir,
                to_name,
            },
            Asked::Rename(from, old, to, new),
        ) => is_row(*dir, name, from, old) && is_row(*to_dir, to_name, to, new),
        _ => is_plain_asked(call, asked),
    }
}

// Whether a call is the one that is asked, where it is one of the others.
fn is_plain_asked(call: &Call, asked: Asked) -> bool
    ensures { result ≡ true → IsReadable call.now }
{
    match (call, asked) {
        (Call::Write { file, at, bytes }, Asked::Write(node, place, text)) => {
            file.0 == node && *at == place && bytes.bytes() == text.as_bytes()
        }
        (Call::Read { file, at, count }, Asked::Read(node, place, most)) => {
            file.0 == node && *at == place && *count == u32::from(most)
        }
        (Call::Trunc { file, size }, Asked::Trunc(node, most)) => file.0 == node && *size == most,
        (Call::Stat { node }, Asked::Stat(number)) => node.0 == number,
        (Call::List { dir }, Asked::List(node)) => dir.0 == node,
        _ => false,
    }
}

// Whether a row is the one that is asked for.
fn is_row(dir: NodeId, name: &Name, node: u32, text: &str) -> bool {
    dir.0 == node && name.bytes() == text.as_bytes()
}
