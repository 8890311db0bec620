// A second reader of texts, by std's own words and numbers.
ghost use Rattle.std.specs.Prelude.{◌≤◌};

use crate::calls::{call, flush_reply, number};
use crate::player::Player;
use script::text;
use sfs_base::{CoreId, NoMemory, Stamp};
use std::alloc::Global;
use std::str;
use tree_laws::{Call, Entry, History, Reply};

/// What a text is found to be.
#[derive(Clone, Copy, PartialEq, Eq)]
pub enum Verdict {
    Legal { count: u64 },
    WrongLine { line: u64 },
}

/// What the second reader says of a text.
pub fn read(alloc: Global, cores: u8, bytes: &[u8]) -> Result<Verdict, NoMemory>
    requires { cores ≤ 16 }
{
    let mut player = Player::new(alloc, cores)?;
    let mut count = 0u64;
    let mut left = bytes;
    for _ in 0..bytes.len() {
        let Some(end) = left.iter().position(|byte| *byte == b'\n') else {
            break;
        };
        if !is_told(alloc, &mut player, count, &left[..=end])? {
            return Ok(Verdict::WrongLine {
                line: count.wrapping_add(1),
            });
        }
        count = count.wrapping_add(1);
        left = &left[end + 1..];
    }
    if left.is_empty() {
        return Ok(Verdict::Legal { count });
    }
    Ok(Verdict::WrongLine {
        line: count.wrapping_add(1),
    })
}

// Whether a line with its end is that of an entry that may stand there.
fn is_told(alloc: Global, player: &mut Player, stamp: u64, line: &[u8]) -> Result<bool, NoMemory> {
    let Ok(shown) = str::from_utf8(line) else {
        return Ok(false);
    };
    let words = shown.trim_end().split(' ').collect::<Vec<&str>>(alloc)?;
    let Some(core) = number(&words, 1) else {
        return Ok(false);
    };
    let Some(call) = call(alloc, &words)? else {
        return Ok(false);
    };
    if core > 255 {
        return Ok(false);
    }
    let Some(mut reply) = player.step(core as u8, &call)? else {
        return Ok(false);
    };
    if matches!(call, Call::Fsync { .. }) && matches!(reply, Reply::Ok) {
        match flush_reply(&words) {
            Some(told) => reply = told,
            None => return Ok(false),
        }
    }
    let entry = Entry {
        stamp: Stamp(stamp),
        core: CoreId(core as u8),
        call,
        reply,
        ack: None,
    };
    let mut entries = Vec::new(alloc);
    entries.push(entry)?;
    let due = text(alloc, &History::from_entries(entries))?;
    Ok(due.as_slice() == line)
}
