// A history as text.
mod arguments;
mod fixed_words;
pub mod tree;

ghost use Rattle.std.specs.Prelude.{◌≡◌, ◌++◌, IfOk, OnOk, string_bytes};
ghost use Rattle.script.specs.Texts.{call_text, reply_text, entry_text, history_text};

use crate::writing::arguments::{write_bytes, write_node, write_row, write_rows};
use crate::writing::fixed_words::{code_word, kind_word, make_word, space_word};
use sfs_base::NoMemory;
use std::alloc::Global;
use tree_laws::{Call, Entry, History, Reply};

/// The text of a history: for each entry a line `STAMP CORE CALL = REPLY`, in stamp order. It takes
/// time in proportion to the text.
pub fn text(alloc: Global, history: &History) -> Result<Vec<u8>, NoMemory>
    ensures ok { IfOk result (λ text. text.items ≡ history_text history.now) }
{
    let mut text = String::new(alloc);
    let mut cursor = history.first();
    while let Some(entry) = history.next(&mut cursor) {
        write_entry(alloc, &mut text, entry)?;
    }
    Ok(text.into_bytes())
}

fn write_entry(alloc: Global, text: &mut String, entry: &Entry) -> Result<(), NoMemory>
    ensures { OnOk result (string_bytes text.new ≡ string_bytes text.old ++ entry_text entry.now) }
{
    let stamp = entry.stamp.0;
    let core = entry.core.0;
    write!(text, "{stamp} {core} ")?;
    write_call(alloc, text, &entry.call)?;
    write!(text, " = ")?;
    write_reply(alloc, text, &entry.reply)?;
    write!(text, "\n")?;
    Ok(())
}

fn write_call(alloc: Global, text: &mut String, call: &Call) -> Result<(), NoMemory>
    ensures { OnOk result (string_bytes text.new ≡ string_bytes text.old ++ call_text call.now) }
{
    match call {
        Call::Look { dir, name } => write_row(text, "look", *dir, name),
        Call::Make { dir, name, kind } => write_row(text, make_word(*kind), *dir, name),
        Call::Link { file, dir, name } => {
            write_node(text, "link", *file)?;
            write_row(text, "", *dir, name)
        }
        Call::Unlink { dir, name } => write_row(text, "unlink", *dir, name),
        Call::Rmdir { dir, name } => write_row(text, "rmdir", *dir, name),
        Call::Rename {
            dir,
            name,
            to_dir,
            to_name,
        } => {
            write_row(text, "rename", *dir, name)?;
            write_row(text, "", *to_dir, to_name)
        }
        Call::Write { file, at, bytes } => {
            write_node(text, "write", *file)?;
            write!(text, " {at} ")?;
            write_bytes(alloc, text, bytes)
        }
        Call::Read { file, at, count } => {
            write_node(text, "read", *file)?;
            Ok(write!(text, " {at} {count}")?)
        }
        Call::Trunc { file, size } => {
            write_node(text, "trunc", *file)?;
            Ok(write!(text, " {size}")?)
        }
        Call::Stat { node } => write_node(text, "stat", *node),
        Call::List { dir } => write_node(text, "list", *dir),
        Call::Fsync { node } => write_node(text, "fsync", *node),
    }
}

fn write_reply(alloc: Global, text: &mut String, reply: &Reply) -> Result<(), NoMemory>
    ensures { OnOk result (string_bytes text.new ≡ string_bytes text.old ++ reply_text reply.now) }
{
    match reply {
        Reply::Ok => write!(text, "ok")?,
        Reply::Node { node, kind } => {
            let node = node.0;
            let kind = kind_word(*kind);
            write!(text, "node {node} {kind}")?
        }
        Reply::Bytes { bytes } => {
            write!(text, "bytes ")?;
            write_bytes(alloc, text, bytes)?
        }
        Reply::Stat { kind, links, size } => {
            let kind = kind_word(*kind);
            write!(text, "stat {kind} {links} {size}")?
        }
        Reply::Names { rows } => {
            write!(text, "list")?;
            write_rows(text, rows)?
        }
        Reply::Error { code } => {
            let code = code_word(*code);
            write!(text, "error {code}")?
        }
        Reply::DiskFailed => write!(text, "failed")?,
        Reply::NoSpace { kind, need, free } => {
            let kind = space_word(*kind);
            write!(text, "nospace {kind} need {need} free {free}")?
        }
        Reply::Stopped { faults } => write!(text, "stopped {faults}")?,
        Reply::NoMemory => write!(text, "nomemory")?,
    }
    Ok(())
}
