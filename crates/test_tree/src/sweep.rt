// A sweep over many small histories and cuts: each cut that breaks no rule has rows that are a sound tree.
ghost use Rattle.tree_laws.specs.Step.{IsReadable};

use crate::calls::Asked::{self, Mkdir};
use crate::helpers::{got, holds, holds_at};
use crate::shapes::{Plot, Row, begun};
use flush_core::{Cut, Rule};
use sfs_base::{Kind, Name, NodeId};
use std::alloc::Global;
use std::process::Abort;
use tree_laws::Call;

// How many histories there are, how many calls each has, of which most are refused, and how many cuts of it
// are tried.
const HISTORIES: u64 = 200;

const CALLS: u64 = 16;

const CUTS: u64 = 20;

// Numbers that look like random ones and are the same each time.
#[derive(Drop)]
pub(crate) struct Draw {
    pub(crate) state: u64,
}

impl Draw {
    // A number up to this one.
    pub(crate) fn up_to(&mut self, most: u64) -> u64 {
        self.state = self
            .state
            .wrapping_mul(6_364_136_223_846_793_005)
            .wrapping_add(1_442_695_040_888_963_407);
        (self.state >> 33) % most.saturating_add(1)
    }

    fn name(&mut self) -> u8 {
        if self.up_to(1) == 0 { b'a' } else { b'b' }
    }

    // One of some rows, or none of them: a row that names the root.
    pub(crate) fn row(&mut self, rows: &[Row]) -> Row {
        let place = self.up_to(rows.len() as u64) as usize;
        rows.get(place).copied().unwrap_or(Row {
            directory: 0,
            name: b'a',
            child: 0,
        })
    }

    // A call in a tree with these rows.
    pub(crate) fn call(&mut self, rt: &impl Abort, alloc: Global, rows: &[Row]) -> Call
        ensures { IsReadable result }
    {
        let row = self.row(rows);
        let mut new = self.row(rows);
        new.directory = new.child;
        new.name = self.name();
        match self.up_to(15) {
            0..=1 => made(rt, alloc, new, Kind::Directory),
            2 => made(rt, alloc, new, Kind::File),
            3 => linked(rt, alloc, self.row(rows).child, new),
            4 => unlinked(rt, alloc, row),
            5..=6 => removed(rt, alloc, row),
            _ => renamed(rt, alloc, row, new),
        }
    }

    // A cut of nodes up to this one, with stamps up to the count of calls.
    fn cut(&mut self, rt: &impl Abort, alloc: Global, last: u32) -> Cut {
        let mut cut = Cut::new(alloc);
        for node in 0..last {
            got(rt, cut.raise(node, self.up_to(CALLS)));
        }
        got(rt, cut.raise(last, self.up_to(CALLS)));
        cut
    }
}

// How many cuts were closed, and how many had no sound tree, by the rule that they broke first.
#[derive(Drop)]
struct Met {
    closed: u32,
    renames: u32,
    removals: u32,
    births: u32,
    ancestors: u32,
}

impl Met {
    fn new() -> Met {
        Met {
            closed: 0,
            renames: 0,
            removals: 0,
            births: 0,
            ancestors: 0,
        }
    }

    fn count(&mut self, broken: Option<Rule>) {
        let count = match broken {
            None => &mut self.closed,
            Some(Rule::Renames) => &mut self.renames,
            Some(Rule::Removals) => &mut self.removals,
            Some(Rule::Births) => &mut self.births,
            Some(Rule::Ancestors) => &mut self.ancestors,
        };
        *count = count.saturating_add(1);
    }
}

// The directory and the name of a row.
fn place_of(rt: &impl Abort, alloc: Global, row: Row) -> (NodeId, Name) {
    let name = got(rt, Name::new(alloc, [row.name].as_slice()));
    (NodeId(row.directory), name)
}

fn made(rt: &impl Abort, alloc: Global, row: Row, kind: Kind) -> Call
    ensures { IsReadable result }
{
    let (dir, name) = place_of(rt, alloc, row);
    Call::Make { dir, name, kind }
}

fn linked(rt: &impl Abort, alloc: Global, file: u32, row: Row) -> Call
    ensures { IsReadable result }
{
    let (dir, name) = place_of(rt, alloc, row);
    let file = NodeId(file);
    Call::Link { file, dir, name }
}

fn unlinked(rt: &impl Abort, alloc: Global, row: Row) -> Call
    ensures { IsReadable result }
{
    let (dir, name) = place_of(rt, alloc, row);
    Call::Unlink { dir, name }
}

fn removed(rt: &impl Abort, alloc: Global, row: Row) -> Call
    ensures { IsReadable result }
{
    let (dir, name) = place_of(rt, alloc, row);
    Call::Rmdir { dir, name }
}

fn renamed(rt: &impl Abort, alloc: Global, row: Row, new: Row) -> Call
    ensures { IsReadable result }
{
    let (dir, name) = place_of(rt, alloc, row);
    let (to_dir, to_name) = place_of(rt, alloc, new);
    Call::Rename {
        dir,
        name,
        to_dir,
        to_name,
    }
}

// The calls that make the first trees: none, and directories in one another and beside.
static NONE: [Asked; 0] = [];

static FOUR: [Asked; 4] = [Mkdir(0, "a"), Mkdir(0, "b"), Mkdir(1, "a"), Mkdir(2, "a")];

// A history that is drawn, from one of the first trees.
fn drawn(rt: &impl Abort, alloc: Global, draw: &mut Draw) -> Plot {
    let mut plot = if draw.up_to(1) == 0 {
        begun(rt, alloc, 1, &NONE)
    } else {
        begun(rt, alloc, 1, &FOUR)
    };
    for _ in 0..CALLS {
        let rows = plot.last_rows(rt);
        let call = draw.call(rt, alloc, &rows);
        plot.make(rt, &call);
    }
    plot
}

// Tries cuts of a history. A closed one has a sound tree.
fn try_cuts(rt: &impl Abort, alloc: Global, draw: &mut Draw, plot: &Plot, met: &mut Met) {
    for _ in 0..CUTS {
        let cut = draw.cut(rt, alloc, plot.last_node());
        let broken = plot.broken_rule(rt, &cut);
        let is_sound = plot.fault_of(&plot.rows_at(rt, &cut)).is_none();
        holds_at(
            rt,
            broken.is_some() || is_sound,
            "a closed cut without a sound tree",
        );
        if broken.is_none() || !is_sound {
            met.count(broken);
        }
    }
}

// Tries cuts of histories that are drawn, and counts them.
fn swept(rt: &impl Abort, alloc: Global, histories: u64) -> Met {
    let mut draw = Draw { state: 1 };
    let mut met = Met::new();
    for _ in 0..histories {
        let plot = drawn(rt, alloc, &mut draw);
        try_cuts(rt, alloc, &mut draw, &plot, &mut met);
    }
    met
}

#[test]
fn each_closed_cut_of_a_sweep_has_a_sound_tree_and_others_lack_it(rt: HostRuntime) {
    let met = swept(&rt, rt.alloc(), HISTORIES);
    holds(&rt, met.closed > 0);
    holds(&rt, met.renames > 0);
    holds(&rt, met.removals > 0);
    holds(&rt, met.births > 0);
    holds(&rt, met.ancestors > 0);
}
