ghost use Rattle.std.specs.Prelude.{◌≡◌, IfOk};
ghost use Rattle.script.specs.Lines.{words};
ghost use Rattle.script.specs.Commands.{command_of, line_in, kind_of_line};

use crate::reading::literals::number_up_to;
use crate::reading::operands::{link, path, place, read, rename, trunc, write};
use crate::reading::split::first_part;
use crate::reading::verbs::{Verb, verb_of};
use crate::{Command, Line};
use sfs_base::{NoMemory, Path};
use std::alloc::Global;

/// What a line is, apart from being outside the grammar.
#[derive(Drop)]
pub enum LineKind {
    /// Empty or a comment.
    Skipped,
    /// The end of a phase.
    Ends,
    /// A worker's command.
    Does { line: Line },
}

// What a line is, where it is in the grammar.
pub fn kind_of_line(alloc: Global, line: &[u8]) -> Result<Option<LineKind>, NoMemory>
    ensures { IfOk result (λ line_kind. line_kind ≡ kind_of_line line.now) }
{
    if line.is_empty() || line[0] == b'#' {
        return Ok(Some(LineKind::Skipped));
    }
    if line == b"---".as_slice() {
        return Ok(Some(LineKind::Ends));
    }
    match line_in(alloc, line)? {
        Some(line) => Ok(Some(LineKind::Does { line })),
        None => Ok(None),
    }
}

// A worker's command.
fn line_in(alloc: Global, line: &[u8]) -> Result<Option<Line>, NoMemory>
    ensures { IfOk result (λ read. read ≡ line_in (words line.now)) }
{
    let (worker, rest) = first_part(line, b' ');
    let Some(rest) = rest else {
        return Ok(None);
    };
    let (verb, arguments) = first_part(rest, b' ');
    let Some(arguments) = arguments else {
        return Ok(None);
    };
    let Some(worker) = number_up_to(65_535, worker) else {
        return Ok(None);
    };
    let Some(verb) = verb_of(verb) else {
        return Ok(None);
    };
    let Some(command) = command_of(alloc, verb, arguments)? else {
        return Ok(None);
    };
    let worker = worker as u16;
    Ok(Some(Line { worker, command }))
}

// The command of a verb and the words behind it.
fn command_of(alloc: Global, verb: Verb, arguments: &[u8]) -> Result<Option<Command>, NoMemory>
    ensures { IfOk result (λ command. command ≡ command_of verb (words arguments.now)) }
{
    match verb {
        Verb::Create => Ok(place(alloc, arguments)?.map(|path| Command::Create { path })),
        Verb::Mkdir => Ok(place(alloc, arguments)?.map(|path| Command::Mkdir { path })),
        Verb::Link => link(alloc, arguments),
        Verb::Unlink => Ok(place(alloc, arguments)?.map(|path| Command::Unlink { path })),
        Verb::Rmdir => Ok(place(alloc, arguments)?.map(|path| Command::Rmdir { path })),
        Verb::Rename => rename(alloc, arguments),
        Verb::Write => write(alloc, arguments),
        Verb::Read => read(alloc, arguments),
        Verb::Trunc => trunc(alloc, arguments),
        Verb::Stat => Ok(path(alloc, arguments)?.map(|path| Command::Stat { path })),
        Verb::List => Ok(path(alloc, arguments)?.map(|path| Command::List { path })),
        Verb::Fsync => Ok(path(alloc, arguments)?.map(|path| Command::Fsync { path })),
    }
}
