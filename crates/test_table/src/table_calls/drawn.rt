// Calls that are drawn, over few names and nodes.
ghost use Rattle.std.specs.Prelude.{◌≡◌, IfOk, length};

use crate::table_calls::asked::Asked;
use sfs_base::{CoreId, Kind, NoMemory};
use std::alloc::Global;
use tree_laws::Reply;

// Names that calls ask for.
static NAMES: [&str; 5] = ["a", "b", "c", "d", "e"];

// Bytes that are put.
static TEXTS: [&str; 4] = ["x", "some bytes", "", "bytes that lie in two blocks"];

// Places at which calls begin, and sizes: some lie at the ends of blocks, and the last one past the largest file.
static PLACES: [u64; 8] = [0, 1, 9, 300, 4_090, 4_096, 8_190, 67_551_233];

// Nodes that calls ask for besides those that a core was told of: the root, a directory, a file and a directory that no row names, and one
// that is not there.
static NODES: [u32; 5] = [0, 1, 5, 6, 70_000];

// The nodes of a kind that a core was told of last.
#[derive(Drop)]
struct Known {
    nodes: [u32; 8],
    told: usize,
}

impl Known {
    fn new(nodes: [u32; 8]) -> Known {
        Known { nodes, told: 0 }
    }

    // Keeps a node, in place of the one that was kept longest.
    fn keep(&mut self, node: u32) {
        self.nodes[self.told % 8] = node;
        self.told = self.told.wrapping_add(1);
    }
}

// Numbers that look like random ones and are the same each time, what the replies told, and how many calls were drawn.
#[derive(Drop)]
pub(crate) struct Draw {
    state: u64,
    files: Known,
    directories: Known,
    pub(crate) calls: u64,
}

impl Draw {
    // The draws of a core.
    pub(crate) fn of(core: CoreId) -> Draw {
        Draw {
            state: 1 + core.0 as u64,
            files: Known::new([3, 4, 3, 4, 3, 4, 3, 4]),
            directories: Known::new([0, 1, 2, 7, 0, 1, 2, 7]),
            calls: 0,
        }
    }

    // Keeps the node that a reply tells of.
    pub(crate) fn note(&mut self, reply: &Reply) {
        match reply {
            Reply::Node {
                node,
                kind: Kind::File,
            } => self.files.keep(node.0),
            Reply::Node {
                node,
                kind: Kind::Directory,
            } => self.directories.keep(node.0),
            _ => {}
        }
    }

    // A number up to this one.
    fn up_to(&mut self, most: u64) -> u64 {
        self.state = self
            .state
            .wrapping_mul(6_364_136_223_846_793_005)
            .wrapping_add(1_442_695_040_888_963_407);
        (self.state >> 33) % most.saturating_add(1)
    }

    // A node, mostly one that the core was told of: of this kind, or seldom of the other one.
    fn node(&mut self, kind: Kind) -> u32 {
        let place = self.up_to(31) as usize;
        let files = (kind == Kind::File) != (place == 5);
        match NODES.get(place) {
            Some(node) => *node,
            None if files => self.files.nodes[place % 8],
            None => self.directories.nodes[place % 8],
        }
    }

    fn file(&mut self) -> u32 {
        self.node(Kind::File)
    }

    fn dir(&mut self) -> u32 {
        self.node(Kind::Directory)
    }

    fn any(&mut self) -> u32 {
        if self.up_to(1) == 0 {
            self.file()
        } else {
            self.dir()
        }
    }

    fn name(&mut self) -> &'static str {
        let place = self.up_to(4) as usize;
        NAMES.get(place).copied().unwrap_or("a")
    }

    fn text(&mut self) -> &'static str {
        let place = self.up_to(3) as usize;
        TEXTS.get(place).copied().unwrap_or("x")
    }

    fn place(&mut self) -> u64 {
        let place = self.up_to(7) as usize;
        PLACES.get(place).copied().unwrap_or(0)
    }

    // The next call.
    pub(crate) fn asked(&mut self) -> Asked {
        self.calls = self.calls.saturating_add(1);
        match self.up_to(63) {
            0..=9 => Asked::Look(self.dir(), self.name()),
            10..=14 => Asked::Write(self.file(), self.place(), self.text()),
            15..=21 => Asked::Read(self.file(), self.place(), 12),
            22..=25 => Asked::Stat(self.any()),
            26..=27 => Asked::Trunc(self.file(), self.place()),
            28..=30 => Asked::List(self.dir()),
            31..=35 => Asked::Make(self.dir(), self.name(), Kind::File),
            36..=39 => Asked::Make(self.dir(), self.name(), Kind::Directory),
            40..=43 => Asked::Link(self.file(), self.dir(), self.name()),
            44..=49 => Asked::Unlink(self.dir(), self.name()),
            50..=55 => Asked::Rmdir(self.dir(), self.name()),
            _ => Asked::Rename(self.dir(), self.name(), self.dir(), self.name()),
        }
    }
}

// The draws of each of so many cores.
pub(crate) fn draws(alloc: Global, cores: u8) -> Result<Vec<Draw>, NoMemory>
    ensures { IfOk result (λ all. length all.items ≡ cores) }
{
    let mut all = Vec::new(alloc);
    for core in 0..cores {
        all.push(Draw::of(CoreId(core)))?;
    }
    Ok(all)
}
