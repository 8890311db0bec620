// Names of a letter and a number, and the places that they name.
ghost use Rattle.std.specs.Prelude.{◌≡◌, ◌≤◌, [], ◌∷◌, length, string_bytes, IfOk};
ghost use Rattle.sfs_base.specs.Path.{path_length};
ghost use Rattle.made_script.specs.Letters.{letter_byte};
ghost use Rattle.made_script.specs.Made.{home, numbered, place};

use script::NamePath;
use sfs_base::{Name, NameFault, NoMemory, Path};
use std::alloc::Global;

/// What a name is of, by its letter.
#[derive(Clone, Copy)]
pub enum Letter {
    /// A worker's directory, `w`.
    Worker,
    /// A file as it is made, `f`.
    File,
    /// Its name behind a rename, `r`.
    Renamed,
    /// Its second name, `l`.
    Linked,
}

// A letter with a number behind it.
fn numbered(alloc: Global, letter: Letter, number: u32) -> Result<Name, NoMemory>
    ensures name { IfOk result (λ name. name ≡ numbered (letter_byte letter) number) }
    ensures length { IfOk result (λ name. length name ≤ 11) }
{
    let text = text_of(alloc, letter, number)?;
    match Name::new(alloc, text.as_bytes()) {
        Ok(name) => Ok(name),
        Err(fault) => match fault {
            NameFault::NoMemory => Err(NoMemory),
            _ => unreachable!(),
        },
    }
}

fn text_of(alloc: Global, letter: Letter, number: u32) -> Result<String, NoMemory>
    ensures { IfOk result (λ text. string_bytes text ≡ numbered (letter_byte letter) number) }
{
    match letter {
        Letter::Worker => Ok(format!(in alloc; "w{number}")?),
        Letter::File => Ok(format!(in alloc; "f{number}")?),
        Letter::Renamed => Ok(format!(in alloc; "r{number}")?),
        Letter::Linked => Ok(format!(in alloc; "l{number}")?),
    }
}

/// A worker's directory.
pub fn home(alloc: Global, worker: u16) -> Result<Path, NoMemory>
    ensures { IfOk result (λ path. path ≡ home worker) }
{
    let name = numbered(alloc, Letter::Worker, u32::from(worker))?;
    let mut names = Vec::with_capacity(alloc, 1)?;
    names.push(name)?;
    Ok(path_of(names))
}

/// The place of an item in a worker's directory, by its letter.
pub fn place(alloc: Global, letter: Letter, worker: u16, item: u32) -> Result<Path, NoMemory>
    ensures { IfOk result (λ path. path ≡ place (letter_byte letter) worker item) }
{
    let directory = numbered(alloc, Letter::Worker, u32::from(worker))?;
    let name = numbered(alloc, letter, item)?;
    let mut names = Vec::with_capacity(alloc, 2)?;
    names.push(directory)?;
    names.push(name)?;
    Ok(path_of(names))
}

// The path of so few names.
fn path_of(names: Vec<Name>) -> Path
    requires { path_length names.items ≤ 4096 }
    ensures { result ≡ names.items }
{
    match Path::new(names) {
        Ok(path) => path,
        Err(_) => unreachable!(),
    }
}

/// A path with names as a place that is made, renamed or removed.
pub fn name_path_of(path: Path) -> NamePath
    requires { 1 ≤ length path }
    ensures { result ≡ path }
{
    match NamePath::new(path) {
        Some(place) => place,
        None => unreachable!(),
    }
}
