// Histories that are drawn on the plain tree: what the check and the second reader say of their texts.
ghost use Rattle.std.specs.Prelude.{◌<◌, ◌≤◌};

use script::text;
use second_reader::{CHANGED, Dice, FIRST, Found, Player, SHARE, Text, change, compare};
use sfs_base::{Chunk, CoreId, Kind, Name, NameFault, NoMemory, NodeId, SpaceKind, Stamp};
use std::alloc::Global;
use tree_laws::{Call, Entry, History, Reply};

/// How many calls a history has.
const CALLS: u64 = 50;

// The names of rows.
static NAMES: [&[u8]; 6] = [b"a", b"b", b"c d", b"%", b"=", b"\xff\x7f"];

/// Draws so many histories of one to four cores.
pub fn drawn(alloc: Global, histories: u64) -> Result<Found, NoMemory> {
    let mut found = Found::nothing();
    for seed in 0..histories {
        let mut dice = Dice::of(seed);
        let cores = dice.below(4) as u8 + 1;
        let mut bytes = history(alloc, &mut dice, cores)?;
        let changed = seed % CHANGED == 0 && change(&mut dice, bytes.as_mut_slice());
        let text = Text {
            cores,
            bytes: bytes.as_slice(),
            calls: CALLS,
            changed,
        };
        compare(alloc, text, &mut found)?;
    }
    Ok(found)
}

// The text of a history that is drawn on the plain tree.
fn history(alloc: Global, dice: &mut Dice, cores: u8) -> Result<Vec<u8>, NoMemory>
    requires few { cores ≤ 16 }
    requires some { 0 < cores }
{
    let mut player = Player::new(alloc, cores)?;
    let mut entries = Vec::new(alloc);
    for stamp in 0..CALLS {
        let core = dice.below(u64::from(cores)) as u8;
        let call = draw_call(alloc, dice)?;
        let Some(mut reply) = player.step(core, &call)? else {
            continue;
        };
        if matches!(call, Call::Fsync { .. }) && matches!(reply, Reply::Ok) {
            reply = draw_flush_reply(dice);
        }
        entries.push(Entry {
            stamp: Stamp(stamp),
            core: CoreId(core),
            call,
            reply,
            ack: None,
        })?;
    }
    text(alloc, &History::from_entries(entries))
}

// A reply to an fsync.
fn draw_flush_reply(dice: &mut Dice) -> Reply {
    match dice.below(8) {
        0 => Reply::DiskFailed,
        1 => Reply::NoMemory,
        2 => Reply::Stopped {
            faults: dice.below(1000),
        },
        3 => Reply::NoSpace {
            kind: SpaceKind::Inodes,
            need: dice.below(100) as u32,
            free: dice.below(100) as u32,
        },
        4 => Reply::NoSpace {
            kind: SpaceKind::Blocks,
            need: dice.below(100) as u32,
            free: dice.below(100) as u32,
        },
        _ => Reply::Ok,
    }
}

// The root, a node that a core may have made, or any number.
fn draw_node(dice: &mut Dice) -> NodeId {
    match dice.below(8) {
        0..=2 => NodeId(0),
        3..=6 => NodeId(FIRST + dice.below(4) as u32 * SHARE + dice.below(3) as u32),
        _ => NodeId(dice.below(1 << 32) as u32),
    }
}

fn draw_name(alloc: Global, dice: &mut Dice) -> Result<Name, NoMemory> {
    match Name::new(alloc, NAMES[dice.below(6) as usize]) {
        Ok(name) => Ok(name),
        Err(fault) => match fault {
            NameFault::NoMemory => Err(NoMemory),
            _ => Err(NoMemory),
        },
    }
}

fn draw_bytes(alloc: Global, dice: &mut Dice) -> Result<Chunk, NoMemory> {
    let mut bytes = Vec::new(alloc);
    for _ in 0..dice.below(6) {
        bytes.push(dice.below(256) as u8)?;
    }
    match Chunk::new(bytes) {
        Ok(chunk) => Ok(chunk),
        Err(_) => Err(NoMemory),
    }
}

// A call of any kind; nodes are made more often than other calls.
fn draw_call(alloc: Global, dice: &mut Dice) -> Result<Call, NoMemory> {
    let node = draw_node(dice);
    match dice.below(16) {
        0 => Ok(Call::Look {
            dir: node,
            name: draw_name(alloc, dice)?,
        }),
        1..=3 => Ok(Call::Make {
            dir: node,
            name: draw_name(alloc, dice)?,
            kind: Kind::File,
        }),
        4 | 5 => Ok(Call::Make {
            dir: node,
            name: draw_name(alloc, dice)?,
            kind: Kind::Directory,
        }),
        6 => Ok(Call::Unlink {
            dir: node,
            name: draw_name(alloc, dice)?,
        }),
        7 => Ok(Call::Rmdir {
            dir: node,
            name: draw_name(alloc, dice)?,
        }),
        8 => draw_link(alloc, dice, node),
        9 => draw_rename(alloc, dice, node),
        _ => draw_file_call(alloc, dice, node),
    }
}

fn draw_link(alloc: Global, dice: &mut Dice, file: NodeId) -> Result<Call, NoMemory> {
    let dir = draw_node(dice);
    let name = draw_name(alloc, dice)?;
    Ok(Call::Link { file, dir, name })
}

fn draw_rename(alloc: Global, dice: &mut Dice, dir: NodeId) -> Result<Call, NoMemory> {
    let to_dir = draw_node(dice);
    let name = draw_name(alloc, dice)?;
    let to_name = draw_name(alloc, dice)?;
    Ok(Call::Rename {
        dir,
        name,
        to_dir,
        to_name,
    })
}

fn draw_file_call(alloc: Global, dice: &mut Dice, node: NodeId) -> Result<Call, NoMemory> {
    let at = dice.below(12);
    match dice.below(6) {
        0 => Ok(Call::Write {
            file: node,
            at,
            bytes: draw_bytes(alloc, dice)?,
        }),
        1 => Ok(Call::Read {
            file: node,
            at,
            count: dice.below(12) as u32,
        }),
        2 => Ok(Call::Trunc {
            file: node,
            size: at,
        }),
        3 => Ok(Call::Stat { node }),
        4 => Ok(Call::List { dir: node }),
        _ => Ok(Call::Fsync { node }),
    }
}
