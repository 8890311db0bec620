// Histories that are drawn: each fsync has the members that the machine flushes.
use super::{Watched, begun};
use crate::helpers::{got, holds};
use crate::shapes::Row;
use crate::sweep::Draw;
use sfs_base::NodeId;
use std::alloc::Global;
use std::process::Abort;

// How many histories there are, and how many calls each has, of which most are refused.
const HISTORIES: u64 = 60;

const CALLS: u64 = 40;

impl Watched {
    // The rows of all directories, with the first bytes of their names.
    fn rows(&self, rt: &impl Abort) -> Vec<Row> {
        let mut rows = Vec::new(self.alloc);
        for directory in &self.directories {
            let names = got(rt, self.trial.tree.names(NodeId(*directory)));
            for row in names.rows() {
                got(
                    rt,
                    rows.push(Row {
                        directory: *directory,
                        name: row.name.bytes().first().copied().unwrap_or(0),
                        child: row.child.0,
                    }),
                );
            }
        }
        rows
    }

    // Makes a call that is drawn, and at times compares an fsync behind it. It gives how many members that has.
    fn turn(&mut self, rt: &impl Abort, draw: &mut Draw) -> usize {
        let rows = self.rows(rt);
        let call = draw.call(rt, self.alloc, &rows);
        self.make(rt, &call);
        if draw.up_to(3) != 0 {
            return 0;
        }
        let rows = self.rows(rt);
        let node = draw.row(&rows).child;
        self.compare(rt, node).len()
    }

    // Makes calls and compares fsyncs. It gives how many members one had at most.
    fn turns(&mut self, rt: &impl Abort, draw: &mut Draw) -> usize {
        let mut most = 0;
        for _ in 0..CALLS {
            most = most.max(self.turn(rt, draw));
        }
        most
    }
}

// Plays a history. It gives how many members an fsync of it had at most.
fn play(rt: &impl Abort, alloc: Global, draw: &mut Draw) -> usize {
    let mut watched = begun(rt, alloc);
    watched.turns(rt, draw)
}

#[test]
fn the_members_of_drawn_fsyncs_are_those_of_the_machine(rt: HostRuntime) {
    let mut draw = Draw { state: 7 };
    let mut most = 0;
    for _ in 0..HISTORIES {
        most = most.max(play(&rt, rt.alloc(), &mut draw));
    }
    holds(&rt, most >= 4);
}
