// The lines of a script, read as commands.
mod exact_words;
mod line_kind;
pub mod literals;
mod operands;
mod paths;
mod phases_so_far;
mod split;
mod verbs;

ghost use Rattle.std.specs.Prelude.{◌≡◌, ◌<◌, ◌≤◌, length, IfOk, IfErr, OnOk, Ok, Err};
ghost use Rattle.script.specs.Lines.{lines};
ghost use Rattle.script.specs.Phases.{phases_of};
ghost use Rattle.script.specs.Faults.{HasFault, IsShort, MOST_LINES as LINES};

use crate::reading::line_kind::kind_of_line;
use crate::reading::phases_so_far::PhasesSoFar;
use crate::reading::split::first_line;
use crate::{Script, ScriptFault};
use sfs_base::Measure;
use std::alloc::Global;

/// How many bytes a script has at most.
pub const LONGEST_SCRIPT: usize = 16_777_216;

/// How many lines a script has at most.
pub const MOST_LINES: usize = 262_144;

/// The phases of a script. It takes time in proportion to the bytes.
pub fn read(alloc: Global, text: &[u8]) -> Result<Script, ScriptFault>
    ensures ok { IfOk result (λ script. phases_of text.now ≡ Ok script) }
    ensures short { OnOk result (IsShort text.now) }
    ensures err { IfErr result (HasFault text.now) }
{
    if text.len() > LONGEST_SCRIPT {
        return Err(ScriptFault::TooLong {
            measure: Measure::Bytes,
        });
    }
    if line_count(text) > MOST_LINES {
        return Err(ScriptFault::TooLong {
            measure: Measure::Lines,
        });
    }
    read_lines(alloc, text)
}

// How many lines there are.
fn line_count(text: &[u8]) -> usize
    ensures { result ≡ length (lines text.now) }
{
    let mut count = 0;
    let mut left = text;
    while !left.is_empty() {
        let (_, behind) = first_line(left);
        count += 1;
        left = behind;
    }
    count
}

// The phases of a script within the limits, line by line.
fn read_lines(alloc: Global, text: &[u8]) -> Result<Script, ScriptFault>
    requires { IsShort text.now }
    ensures ok { IfOk result (λ script. phases_of text.now ≡ Ok script) }
    ensures err { IfErr result (HasFault text.now) }
{
    let mut so_far = PhasesSoFar::new(alloc);
    let mut rest = text;
    let mut number = 0u32;
    while !rest.is_empty() {
        let (line, behind) = first_line(rest);
        number += 1;
        match kind_of_line(alloc, line)? {
            Some(line_kind) => so_far.add(line_kind)?,
            None => return Err(ScriptFault::BadLine { line: number }),
        }
        rest = behind;
    }
    Ok(so_far.end()?)
}
