// The names that a command walks, and its last call.
ghost use Rattle.std.specs.Prelude.{◌≡◌, IfOk};
ghost use Rattle.tree_laws.specs.declared.call.Call.TheVariants as call;
ghost use Rattle.script.specs.Places.{last_name};
ghost use Rattle.script.specs.Walks.{first_walk, second_walk, last_call, node_id};

use crate::{Command, NamePath};
use sfs_base::{Chunk, Kind, Name, NoMemory, NodeId};
use tree_laws::Call;

// The names that a command walks first, from the root on.
pub fn first_walk(command: &Command) -> &[Name]
    ensures { result.now ≡ first_walk command.now }
{
    match command {
        Command::Create { path } | Command::Mkdir { path } => path.parent(),
        Command::Link { from, .. } => from.names(),
        Command::Unlink { path } | Command::Rmdir { path } => path.parent(),
        Command::Rename { from, .. } => from.parent(),
        Command::Write { path, .. } | Command::Read { path, .. } | Command::Trunc { path, .. } => {
            path.names()
        }
        Command::Stat { path } | Command::List { path } | Command::Fsync { path } => path.names(),
    }
}

// The names that a command walks then, from the root on.
pub fn second_walk(command: &Command) -> &[Name]
    ensures { result.now ≡ second_walk command.now }
{
    match command {
        Command::Link { to, .. } => to.parent(),
        Command::Rename { to, .. } => to.parent(),
        _ => &[],
    }
}

// The call that looks up a name.
pub fn look(dir: NodeId, name: &Name) -> Result<Call, NoMemory>
    ensures { IfOk result (λ look. look ≡ call.Look dir name.now) }
{
    let name = name.copy()?;
    Ok(Call::Look { dir, name })
}

// The call that makes a node at a place.
fn make(dir: NodeId, path: &NamePath, kind: Kind) -> Result<Call, NoMemory>
    ensures { IfOk result (λ make. make ≡ call.Make dir (last_name path.now) kind) }
{
    let name = path.name().copy()?;
    Ok(Call::Make { dir, name, kind })
}

// The call that gives a file a second name.
fn link(file: NodeId, dir: NodeId, path: &NamePath) -> Result<Call, NoMemory>
    ensures { IfOk result (λ link. link ≡ call.Link file dir (last_name path.now)) }
{
    let name = path.name().copy()?;
    Ok(Call::Link { file, dir, name })
}

// The call that moves what is at a place to another.
fn rename(dir: NodeId, from: &NamePath, to_dir: NodeId, to: &NamePath) -> Result<Call, NoMemory>
    ensures { IfOk result (λ rename.
        rename ≡ call.Rename dir (last_name from.now) to_dir (last_name to.now)) }
{
    let name = from.name().copy()?;
    let to_name = to.name().copy()?;
    Ok(Call::Rename {
        dir,
        name,
        to_dir,
        to_name,
    })
}

// The call that puts bytes into a file.
fn write(file: NodeId, at: u64, bytes: &Chunk) -> Result<Call, NoMemory>
    ensures { IfOk result (λ write. write ≡ call.Write file at bytes.now) }
{
    let bytes = bytes.copy()?;
    Ok(Call::Write { file, at, bytes })
}

// The last call of a command, by the nodes where its walks ended.
pub fn last_call(command: &Command, first: NodeId, second: NodeId) -> Result<Call, NoMemory>
    ensures { IfOk result (λ last. last ≡ last_call command.now first.0 second.0) }
{
    let (file, dir, node) = (first, first, first);
    match command {
        Command::Create { path } => make(dir, path, Kind::File),
        Command::Mkdir { path } => make(dir, path, Kind::Directory),
        Command::Link { to, .. } => link(file, second, to),
        Command::Unlink { path } => {
            let name = path.name().copy()?;
            Ok(Call::Unlink { dir, name })
        }
        Command::Rmdir { path } => {
            let name = path.name().copy()?;
            Ok(Call::Rmdir { dir, name })
        }
        Command::Rename { from, to } => rename(dir, from, second, to),
        Command::Write { at, bytes, .. } => write(file, *at, bytes),
        Command::Read { at, count, .. } => {
            let (at, count) = (*at, *count);
            Ok(Call::Read { file, at, count })
        }
        Command::Trunc { size, .. } => {
            let size = *size;
            Ok(Call::Trunc { file, size })
        }
        Command::Stat { .. } => Ok(Call::Stat { node }),
        Command::List { .. } => Ok(Call::List { dir }),
        Command::Fsync { .. } => Ok(Call::Fsync { node }),
    }
}
