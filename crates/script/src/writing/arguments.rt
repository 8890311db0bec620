// What a line of the text is made of: names, rows and bytes.
ghost use Rattle.std.specs.Prelude.{◌≡◌, ◌++◌, ℕ, map, flat_map, OnOk, string_bytes};
ghost use Rattle.tree_laws.specs.NameKinds.{name_kind};
ghost use Rattle.script.specs.Texts.{name_text, number_text, row_text, bytes_text, listed_text};

use crate::writing::fixed_words::mark_word;
use percent_encoding::{AsciiSet, CONTROLS, ascii_set, percent_encode};
use sfs_base::{Chunk, Name, NoMemory, NodeId};
use std::alloc::Global;
use tree_laws::NameRows;

/// The bytes of a name that are written as `%` and two hex digits, beside those above 127.
const ESCAPED: AsciiSet = ascii_set!(CONTROLS.add(b' ').add(b'%'));

pub fn write_name(text: &mut String, name: &Name) -> Result<(), NoMemory>
    ensures { OnOk result (string_bytes text.new ≡ string_bytes text.old ++ name_text name.now) }
{
    percent_encode(name.bytes(), ESCAPED).append_to(text)?;
    Ok(())
}

// A word, and behind it a directory and a name in it, a space before each.
pub fn write_row(text: &mut String, word: &str, dir: NodeId, name: &Name) -> Result<(), NoMemory>
    ensures { OnOk result (string_bytes text.new
        ≡ string_bytes text.old ++ (word.now ++ row_text dir.0 name.now)) }
{
    let dir = dir.0;
    write!(text, "{word} {dir} ")?;
    write_name(text, name)
}

// A word and a node behind it.
pub fn write_node(text: &mut String, word: &str, node: NodeId) -> Result<(), NoMemory>
    ensures { OnOk result (string_bytes text.new ≡ string_bytes text.old ++ (word.now ++ number_text node.0)) }
{
    let node = node.0;
    write!(text, "{word} {node}")?;
    Ok(())
}

// Bytes in hex, and `-` for none.
pub fn write_bytes(alloc: Global, text: &mut String, bytes: &Chunk) -> Result<(), NoMemory>
    ensures { OnOk result (string_bytes text.new ≡ string_bytes text.old ++ bytes_text bytes.now) }
{
    if bytes.bytes().is_empty() {
        text.push_str("-")?;
        return Ok(());
    }
    let hex = hex::encode(alloc, bytes.bytes())?;
    text.push_str(hex.as_str())?;
    Ok(())
}

// The names of a directory: before each a space, and behind a directory's `/`.
pub fn write_rows(text: &mut String, names: &NameRows) -> Result<(), NoMemory>
    ensures { OnOk result (string_bytes text.new ≡ string_bytes text.old ++ flat_map listed_text names.now) }
{
    let rows = names.rows();
    for row in rows {
        write!(text, " ")?;
        write_name(text, &row.name)?;
        text.push_str(mark_word(row.kind))?;
    }
    Ok(())
}
