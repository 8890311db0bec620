// The call of a line.
ghost use Rattle.std.specs.Prelude.{◌≡◌, IfOk};
ghost use Rattle.std.specs.Option.{option_zip};
ghost use Rattle.script.specs.Words.{number_up_to};
ghost use Rattle.history_check.specs.Reading.{behind, spelled_call_in, spelled_call};

use crate::verbs::{Verb, spelled_verb};
use crate::words::Words;
use script::number_up_to;
use sfs_base::{LONGEST_CHUNK, NoMemory};
use std::alloc::Global;
use tree_laws::Call;

// The call that the words begin with.
pub fn spelled_call_in(alloc: Global, words: &mut Words<'_>) -> Result<Option<Call>, NoMemory>
    ensures { IfOk result (λ call. call ≡ spelled_call_in words.old) }
{
    match spelled_verb(words.next()) {
        Some(verb) => spelled_call(alloc, verb, words),
        None => Ok(None),
    }
}

// The call of a verb.
fn spelled_call(alloc: Global, verb: Verb, words: &mut Words<'_>) -> Result<Option<Call>, NoMemory>
    ensures { IfOk result (λ call. call ≡ spelled_call verb words.old) }
{
    match verb {
        Verb::Look => Ok(
            words
                .row(alloc)?
                .map(|(dir, name)| Call::Look { dir, name }),
        ),
        Verb::Make { kind } => Ok(
            words
                .row(alloc)?
                .map(|(dir, name)| Call::Make { dir, name, kind }),
        ),
        Verb::Link => link(alloc, words),
        Verb::Unlink => Ok(
            words
                .row(alloc)?
                .map(|(dir, name)| Call::Unlink { dir, name }),
        ),
        Verb::Rmdir => Ok(
            words
                .row(alloc)?
                .map(|(dir, name)| Call::Rmdir { dir, name }),
        ),
        Verb::Rename => rename(alloc, words),
        Verb::Write => write(alloc, words),
        Verb::Read => Ok(read(words)),
        Verb::Trunc => Ok(words.place().map(|(file, size)| Call::Trunc { file, size })),
        Verb::Stat => Ok(words.node().map(|node| Call::Stat { node })),
        Verb::List => Ok(words.node().map(|dir| Call::List { dir })),
        Verb::Fsync => Ok(words.node().map(|node| Call::Fsync { node })),
    }
}

// A link's file and row.
fn link(alloc: Global, words: &mut Words<'_>) -> Result<Option<Call>, NoMemory>
    ensures { IfOk result (λ call. call ≡ spelled_call Verb.Link words.old) }
{
    let Some(file) = words.node() else {
        return Ok(None);
    };
    let Some((dir, name)) = words.row(alloc)? else {
        return Ok(None);
    };
    Ok(Some(Call::Link { file, dir, name }))
}

// A rename's two rows.
fn rename(alloc: Global, words: &mut Words<'_>) -> Result<Option<Call>, NoMemory>
    ensures { IfOk result (λ call. call ≡ spelled_call Verb.Rename words.old) }
{
    let Some((dir, name)) = words.row(alloc)? else {
        return Ok(None);
    };
    let Some((to_dir, to_name)) = words.row(alloc)? else {
        return Ok(None);
    };
    Ok(Some(Call::Rename {
        dir,
        name,
        to_dir,
        to_name,
    }))
}

// A write's place and bytes.
fn write(alloc: Global, words: &mut Words<'_>) -> Result<Option<Call>, NoMemory>
    ensures { IfOk result (λ call. call ≡ spelled_call Verb.Write words.old) }
{
    let Some((file, at)) = words.place() else {
        return Ok(None);
    };
    let Some(bytes) = words.chunk(alloc)? else {
        return Ok(None);
    };
    Ok(Some(Call::Write { file, at, bytes }))
}

// A read's place and count.
fn read(words: &mut Words<'_>) -> Option<Call>
    ensures { result ≡ spelled_call Verb.Read words.old }
{
    let (file, at) = words.place()?;
    let count = number_up_to(LONGEST_CHUNK, words.next())?;
    let count = count as u32;
    Some(Call::Read { file, at, count })
}
