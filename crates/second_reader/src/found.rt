// What is found of texts, some of them changed in one byte: what the check and the second reader say of them.
ghost use Rattle.std.specs.Prelude.{◌≤◌};

use crate::dice::Dice;
use crate::reader::{Verdict, read};
use crate::trees::answer;
use history_check::CheckFault;
use sfs_base::NoMemory;
use std::alloc::Global;

/// One text in so many is changed.
pub const CHANGED: u64 = 10;

/// What was found of texts.
#[derive(Clone, Copy)]
pub struct Found {
    /// How many calls they have together, before they are changed.
    pub calls: u64,
    /// How many texts are legal.
    pub legal: u64,
    /// How many were changed in one byte.
    pub changed: u64,
    /// How many of these are wrong.
    pub wrong: u64,
    /// Of how many the check does not say what the second reader says, or what is due of a text that was not changed.
    pub differ: u64,
}

impl Found {
    /// Of no text.
    pub fn nothing() -> Found {
        Found {
            calls: 0,
            legal: 0,
            changed: 0,
            wrong: 0,
            differ: 0,
        }
    }
}

/// A text of a history that begins with the root alone.
#[derive(Clone, Copy)]
pub struct Text<'a> {
    /// How many cores there are.
    pub cores: u8,
    pub bytes: &'a [u8],
    /// How many calls the history has.
    pub calls: u64,
    /// Whether a byte was changed.
    pub changed: bool,
}

/// Checks a text, and has it read.
pub fn compare(alloc: Global, text: Text, found: &mut Found) -> Result<(), NoMemory>
    requires { text.cores ≤ 16 }
{
    let second = read(alloc, text.cores, text.bytes)?;
    let first = match answer(alloc, text.cores, text.bytes) {
        Ok(count) => Verdict::Legal { count },
        Err(fault) => match fault {
            CheckFault::WrongLine { line } => Verdict::WrongLine {
                line: u64::from(line),
            },
            CheckFault::NoMemory => return Err(NoMemory),
        },
    };
    found.calls = found.calls.wrapping_add(text.calls);
    let legal = matches!(first, Verdict::Legal { .. });
    if first != second || (!text.changed && first != (Verdict::Legal { count: text.calls })) {
        found.differ = found.differ.wrapping_add(1);
    }
    if legal {
        found.legal = found.legal.wrapping_add(1);
    }
    if text.changed {
        found.changed = found.changed.wrapping_add(1);
        if !legal {
            found.wrong = found.wrong.wrapping_add(1);
        }
    }
    Ok(())
}

/// Changes one byte of a text. Says whether it is another one.
pub fn change(dice: &mut Dice, bytes: &mut [u8]) -> bool {
    if bytes.is_empty() {
        return false;
    }
    let place = dice.below(bytes.len() as u64) as usize;
    let byte = if dice.below(2) == 0 {
        dice.below(256) as u8
    } else {
        b'0' + dice.below(10) as u8
    };
    let other = bytes[place] != byte;
    bytes[place] = byte;
    other
}
