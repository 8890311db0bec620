// What the words behind a verb spell, by the kinds of words that they have to be.
ghost use Rattle.std.specs.Prelude.{◌≡◌, ◌∷◌, [], IfOk, IfSome};
ghost use Rattle.script.specs.Lines.{words};
ghost use Rattle.script.specs.Paths.{path_of, name_path_of};
ghost use Rattle.script.specs.Commands.{one, command_of};

use crate::reading::exact_words::{one_word, three_words, two_words};
use crate::reading::literals::{hex_bytes, number_up_to};
use crate::reading::paths::{name_path_of, path_of};
use crate::reading::verbs::Verb;
use crate::{Command, NamePath};
use sfs_base::{NoMemory, Path};
use std::alloc::Global;

// A path.
pub fn path(alloc: Global, arguments: &[u8]) -> Result<Option<Path>, NoMemory>
    ensures { IfOk result (λ read. read ≡ one path_of (words arguments.now)) }
{
    match one_word(arguments) {
        Some(word) => path_of(alloc, word),
        None => Ok(None),
    }
}

// A path with a name.
pub fn place(alloc: Global, arguments: &[u8]) -> Result<Option<NamePath>, NoMemory>
    ensures { IfOk result (λ read. read ≡ one name_path_of (words arguments.now)) }
{
    match one_word(arguments) {
        Some(word) => name_path_of(alloc, word),
        None => Ok(None),
    }
}

// A link's path, and its path with a name.
pub fn link(alloc: Global, arguments: &[u8]) -> Result<Option<Command>, NoMemory>
    ensures { IfOk result (λ read. read ≡ command_of Verb.Link (words arguments.now)) }
{
    let Some((first, second)) = two_words(arguments) else {
        return Ok(None);
    };
    let Some(from) = path_of(alloc, first)? else {
        return Ok(None);
    };
    let Some(to) = name_path_of(alloc, second)? else {
        return Ok(None);
    };
    Ok(Some(Command::Link { from, to }))
}

// A rename's two paths with names.
pub fn rename(alloc: Global, arguments: &[u8]) -> Result<Option<Command>, NoMemory>
    ensures { IfOk result (λ read. read ≡ command_of Verb.Rename (words arguments.now)) }
{
    let Some((first, second)) = two_words(arguments) else {
        return Ok(None);
    };
    let Some(from) = name_path_of(alloc, first)? else {
        return Ok(None);
    };
    let Some(to) = name_path_of(alloc, second)? else {
        return Ok(None);
    };
    Ok(Some(Command::Rename { from, to }))
}

// A truncation's path and size.
pub fn trunc(alloc: Global, arguments: &[u8]) -> Result<Option<Command>, NoMemory>
    ensures { IfOk result (λ read. read ≡ command_of Verb.Trunc (words arguments.now)) }
{
    let Some((first, second)) = two_words(arguments) else {
        return Ok(None);
    };
    let Some(path) = path_of(alloc, first)? else {
        return Ok(None);
    };
    let Some(size) = number_up_to(u64::MAX, second) else {
        return Ok(None);
    };
    Ok(Some(Command::Trunc { path, size }))
}

// A read's path, offset and count.
pub fn read(alloc: Global, arguments: &[u8]) -> Result<Option<Command>, NoMemory>
    ensures { IfOk result (λ read. read ≡ command_of Verb.Read (words arguments.now)) }
{
    let Some((first, second, third)) = three_words(arguments) else {
        return Ok(None);
    };
    let Some(path) = path_of(alloc, first)? else {
        return Ok(None);
    };
    let Some(at) = number_up_to(u64::MAX, second) else {
        return Ok(None);
    };
    let Some(count) = number_up_to(65_536, third) else {
        return Ok(None);
    };
    let count = count as u32;
    Ok(Some(Command::Read { path, at, count }))
}

// A write's path, offset and bytes.
pub fn write(alloc: Global, arguments: &[u8]) -> Result<Option<Command>, NoMemory>
    ensures { IfOk result (λ read. read ≡ command_of Verb.Write (words arguments.now)) }
{
    let Some((first, second, third)) = three_words(arguments) else {
        return Ok(None);
    };
    let Some(path) = path_of(alloc, first)? else {
        return Ok(None);
    };
    let Some(at) = number_up_to(u64::MAX, second) else {
        return Ok(None);
    };
    let Some(bytes) = hex_bytes(alloc, third)? else {
        return Ok(None);
    };
    Ok(Some(Command::Write { path, at, bytes }))
}
