// A sound tree on which calls are tried.
ghost use Rattle.std.specs.Prelude.{◌≡◌, ◌≤◌, true};
ghost use Rattle.tree_laws.specs.Step.{IsReadable};

use crate::trees::root_alone;
use sfs_base::{CoreId, NoMemory};
use sfs_tree::Tree;
use std::alloc::Global;
use std::marker::Model;
use tree_laws::{Call, Reply};

/// A sound tree of so many cores, on which calls are tried. Contracts see the number of its cores.
#[derive(Drop)]
pub struct Player {
    tree: Tree,
    cores: u8,
}

impl Model for Player {
    ghost use Rattle.std.specs.Prelude.{◌≡◌, ℕ, length};

    ghost Value = { ℕ };

    ghost use Rattle.tree_laws.specs.Sound.{IsSound};

    ghost view = { λ player. player.cores };

    ghost invariant = { λ player. IsSound player.tree × (player.cores ≡ length player.tree.made) };
}

impl Player {
    /// The root alone.
    pub fn new(alloc: Global, cores: u8) -> Result<Player, NoMemory>
        requires { cores ≤ 16 }
    {
        let tree = root_alone(alloc, cores)?;
        Ok(Player { tree, cores })
    }

    /// What a call answers. None where there is no such core, or the call asks for too much.
    pub fn step(&mut self, core: u8, call: &Call) -> Result<Option<Reply>, NoMemory> {
        if core >= self.cores || !is_readable(call) {
            return Ok(None);
        }
        Ok(Some(self.tree.step(CoreId(core), call)?))
    }
}

// Whether a call asks for no more bytes than it may.
fn is_readable(call: &Call) -> bool
    ensures { result ≡ true → IsReadable call.now }
{
    match call {
        Call::Read { count, .. } => *count <= 65_536,
        _ => true,
    }
}
