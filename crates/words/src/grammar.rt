// What clap is told of the words. The numbers are texts to it, so that the program gives the place of
// one that is bad.
ghost use Rattle.std.specs.Prelude.{◌≡◌, ◌≤◌, false, IfOk};
ghost use Rattle.clap.specs.Words.{app_of};
ghost use Rattle.clap.specs.declared.builder.command.Command.TheViews.{out-Command as fields_of};
ghost use Rattle.words.specs.Grammar.{grammar, numbered};

use clap::{Arg, Command};
use std::alloc::{AllocError, Global};

/// The one argument of a subcommand: all its numbers.
pub const NUMBERS: &str = "numbers";

/// A command with a subcommand for each first word. Only these words are its own: neither `help` nor
/// `--help` is.
pub fn grammar<'a>(alloc: Global) -> Result<Command<'a>, AllocError>
    ensures { IfOk result (λ command. app_of command ≡ grammar) }
{
    let mkfs = numbered(alloc, "mkfs", 3, 4)?;
    let run = numbered(alloc, "run", 0, 1)?;
    let load = numbered(alloc, "load", 3, 3)?;
    let check = numbered(alloc, "check", 0, 1)?;
    let show = Command::new(alloc, "show");
    let verify = Command::new(alloc, "verify");
    Command::new(alloc, "scalefs")
        .no_binary_name(true)
        .disable_help_flag(true)
        .disable_help_subcommand(true)
        .subcommand_required(true)
        .subcommand(mkfs)?
        .subcommand(run)?
        .subcommand(load)?
        .subcommand(check)?
        .subcommand(show)?
        .subcommand(verify)
}

// A subcommand with from so many to so many numbers.
fn numbered<'a>(
    alloc: Global,
    name: &'a str,
    least: usize,
    most: usize,
) -> Result<Command<'a>, AllocError>
    requires { least ≤ most }
    ensures app { IfOk result (λ command. app_of command ≡ numbered name.entry.now least most) }
    ensures local { IfOk result (λ command. (fields_of command).has_globals ≡ false) }
{
    let numbers = Arg::new(alloc, NUMBERS)
        .num_args(least..=most)
        .required(least > 0);
    Command::new(alloc, name).arg(numbers)
}
