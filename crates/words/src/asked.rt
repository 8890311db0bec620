ghost use Rattle.std.specs.Prelude.{◌≡◌, List, false, map, string_bytes, IfOk, IfErr};
ghost use Rattle.std.specs.List.{list_any};
ghost use Rattle.clap.specs.Words.{Text};
ghost use Rattle.words.specs.Read.{IsAnswer, IsRead, IsRefused};
ghost use Rattle.words.specs.Words.{begins_with_dash, command_asked, command_in, IsInRange};

use crate::grammar::{NUMBERS, grammar};
use crate::reading::command_of;
use crate::{Command, WordsFault};
use clap::ArgMatches;
use clap::error::ErrorKind;
use std::alloc::Global;

/// What the words ask for. They are bad at place 0 where one begins with `-` or they are no command with its
/// count of words, and else at the first number, from 1, that is none of its range.
pub fn command_asked(alloc: Global, words: &[String]) -> Result<Command, WordsFault>
    ensures command { IsAnswer (command_asked (map string_bytes words.now)) result }
    ensures ranges { IfOk result IsInRange }
{
    if has_dash(words) {
        return Err(WordsFault::BadWords { place: 0 });
    }
    let matches = read(alloc, words)?;
    match command_read(&matches) {
        Ok(command) => Ok(command),
        Err(place) => Err(WordsFault::BadWords { place }),
    }
}

// Whether a word begins with `-`.
fn has_dash(words: &[String]) -> bool
    ensures { result ≡ list_any begins_with_dash (map string_bytes words.now) }
{
    for word in words {
        if begins_with_dash(word) {
            return true;
        }
    }
    false
}

fn begins_with_dash(word: &String) -> bool
    ensures { result ≡ begins_with_dash (string_bytes word.now) }
{
    match word.as_bytes() {
        [first, ..] => *first == b'-',
        [] => false,
    }
}

// What clap makes of words that don't begin with `-`.
fn read<'a>(alloc: Global, words: &'a [String]) -> Result<ArgMatches<'a>, WordsFault>
    requires plain { list_any begins_with_dash (map string_bytes words.now) ≡ false }
    ensures ok { IfOk result (IsRead (map string_bytes words.now)) }
    ensures err { IfErr result (IsRefused (map string_bytes words.now)) }
{
    let grammar = grammar(alloc)?;
    match grammar.try_get_matches_from(words) {
        Ok(matches) => Ok(matches),
        Err(error) => match error.kind() {
            ErrorKind::OutOfMemory => Err(WordsFault::NoMemory),
            _ => Err(WordsFault::BadWords { place: 0 }),
        },
    }
}

// What words that clap read ask for.
fn command_read(matches: &ArgMatches) -> Result<Command, u32>
    ensures command { (words : List Text) → IsRead words matches.now → result ≡ command_in words }
    ensures ranges { IfOk result IsInRange }
{
    let Some((word, given)) = matches.subcommand() else {
        return Err(0);
    };
    match given.get_strs(NUMBERS) {
        Some(values) => command_of(word, values),
        None => command_of(word, &[]),
    }
}
