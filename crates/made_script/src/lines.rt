// The lines of a made script.
ghost use Rattle.std.specs.Prelude.{◌≡◌, ◌++◌, ◌∷◌, [], ◌/◌, ◌%◌, IfOk, OnOk};
ghost use Rattle.std.specs.Int.{to_le_bytes, w32};
ghost use Rattle.made_script.specs.Made.{create_line, flush_line, home_line, item_lines, last_command, line, next_draw, worker_lines, write_line};

use crate::names::{Letter, home, name_path_of, place};
use script::{Command, Line};
use sfs_base::{Chunk, NoMemory};
use std::alloc::Global;

/// Puts the line behind the others that makes a worker's directory.
pub fn push_home(alloc: Global, lines: &mut Vec<Line>, worker: u16) -> Result<(), NoMemory>
    ensures { OnOk result (lines.new.items ≡ lines.old.items ++ home_line worker) }
{
    let path = name_path_of(home(alloc, worker)?);
    push(lines, 0, Command::Mkdir { path })
}

/// Puts the line behind the others that flushes it.
pub fn push_flush(alloc: Global, lines: &mut Vec<Line>, worker: u16) -> Result<(), NoMemory>
    ensures { OnOk result (lines.new.items ≡ lines.old.items ++ flush_line worker) }
{
    let path = home(alloc, worker)?;
    push(lines, worker, Command::Fsync { path })
}

/// Puts a worker's items behind the others.
pub fn push_items(
    alloc: Global,
    lines: &mut Vec<Line>,
    seed: u32,
    count: u32,
    worker: u16,
) -> Result<(), NoMemory>
    ensures { OnOk result (lines.new.items ≡ lines.old.items ++ worker_lines seed count worker) }
{
    let mut draw = seed.wrapping_add(u32::from(worker));
    for item in 0..count {
        draw = next_draw(draw);
        push_item(alloc, lines, worker, item, draw)?;
    }
    Ok(())
}

fn next_draw(draw: u32) -> u32
    ensures { result ≡ next_draw draw }
{
    ((1_664_525 * u64::from(draw) + 1_013_904_223) % 4_294_967_296) as u32
}

fn push_item(
    alloc: Global,
    lines: &mut Vec<Line>,
    worker: u16,
    item: u32,
    draw: u32,
) -> Result<(), NoMemory>
    ensures { OnOk result (lines.new.items ≡ lines.old.items ++ item_lines worker item draw) }
{
    push_create(alloc, lines, worker, item)?;
    push_write(alloc, lines, worker, item, draw)?;
    let command = last_command(alloc, worker, item, draw)?;
    push(lines, worker, command)
}

fn push_create(alloc: Global, lines: &mut Vec<Line>, worker: u16, item: u32) -> Result<(), NoMemory>
    ensures { OnOk result (lines.new.items ≡ lines.old.items ++ create_line worker item ∷ []) }
{
    let path = name_path_of(place(alloc, Letter::File, worker, item)?);
    push(lines, worker, Command::Create { path })
}

fn push_write(
    alloc: Global,
    lines: &mut Vec<Line>,
    worker: u16,
    item: u32,
    draw: u32,
) -> Result<(), NoMemory>
    ensures { OnOk result (lines.new.items ≡ lines.old.items ++ write_line worker item draw ∷ []) }
{
    let path = place(alloc, Letter::File, worker, item)?;
    let bytes = bytes_of(alloc, draw)?;
    let command = Command::Write { path, at: 0, bytes };
    push(lines, worker, command)
}

fn push(lines: &mut Vec<Line>, worker: u16, command: Command) -> Result<(), NoMemory>
    ensures { OnOk result (lines.new.items ≡ lines.old.items ++ line worker command ∷ []) }
{
    lines.push(Line { worker, command })?;
    Ok(())
}

// The bytes of a draw.
fn bytes_of(alloc: Global, draw: u32) -> Result<Chunk, NoMemory>
    ensures { IfOk result (λ bytes. bytes ≡ to_le_bytes w32 draw) }
{
    match Chunk::new(draw.to_le_bytes().to_vec(alloc)?) {
        Ok(bytes) => Ok(bytes),
        Err(_) => unreachable!(),
    }
}

fn last_command(alloc: Global, worker: u16, item: u32, draw: u32) -> Result<Command, NoMemory>
    ensures { IfOk result (λ command. command ≡ last_command (draw / 65536 % 4) worker item) }
{
    let path = place(alloc, Letter::File, worker, item)?;
    match draw / 65_536 % 4 {
        0 => Ok(Command::Fsync { path }),
        1 => Ok(Command::Rename {
            from: name_path_of(path),
            to: name_path_of(place(alloc, Letter::Renamed, worker, item)?),
        }),
        2 => Ok(Command::Unlink {
            path: name_path_of(path),
        }),
        _ => Ok(Command::Link {
            from: path,
            to: name_path_of(place(alloc, Letter::Linked, worker, item)?),
        }),
    }
}
