// What each of the four rules of a cut is there for: a small history, a cut that breaks this rule alone, with
// rows that are no sound tree, and the least closed cut above it.
ghost use Rattle.std.specs.Prelude.{◌≤◌};

use crate::calls::Asked::{self, Mkdir, Rename, Rmdir};
use crate::helpers::holds_at;
use crate::shapes::{Fault, Plot, Row, begun, cut_at};
use flush_core::Rule;
use std::alloc::Global;
use std::process::Abort;

// Whether these are the rows that are told: their directories, names and children.
fn are_rows(rows: &[Row], due: &[(u32, u8, u32)]) -> bool {
    if rows.len() != due.len() {
        return false;
    }
    for place in 0..rows.len() {
        let row = rows[place];
        let (directory, name, child) = due[place];
        if row.directory != directory || row.name != name || row.child != child {
            return false;
        }
    }
    true
}

// Asserts what a cut with these stamps breaks, the rows at it, and their fault.
fn assert_cut(
    rt: &impl Abort,
    alloc: Global,
    plot: &Plot,
    stamps: &[(u32, u64)],
    due: (Option<Rule>, Option<Fault>),
    rows: &[(u32, u8, u32)],
) {
    let cut = cut_at(rt, alloc, stamps);
    holds_at(rt, plot.broken_rule(rt, &cut) == due.0, "another rule");
    let found = plot.rows_at(rt, &cut);
    holds_at(rt, are_rows(&found, rows), "other rows");
    holds_at(rt, plot.fault_of(&found) == due.1, "another fault");
}

// Asserts that a cut with these stamps breaks no rule, and the rows at it, which have no fault.
fn assert_closed(
    rt: &impl Abort,
    alloc: Global,
    plot: &Plot,
    stamps: &[(u32, u64)],
    rows: &[(u32, u8, u32)],
) {
    assert_cut(rt, alloc, plot, stamps, (None, None), rows);
}

// The story of some calls, from a tree with others made, whose first new node has this number.
fn told(rt: &impl Abort, alloc: Global, first: u32, before: &[Asked], calls: &[Asked]) -> Plot
    requires first { 1 ≤ first }
    requires low { first ≤ 16384 }
{
    let mut plot = begun(rt, alloc, first, before);
    plot.make_all(rt, calls);
    plot
}

// A directory with one in it moves into a third one.
static MOVED: [Asked; 4] = [
    Mkdir(0, "b"),
    Mkdir(3, "b"),
    Mkdir(0, "a"),
    Rename(0, "b", 5, "b"),
];

#[test]
fn without_the_rename_rule_a_directory_stands_in_two_places(rt: HostRuntime) {
    let alloc = rt.alloc();
    let plot = told(&rt, alloc, 3, &[], &MOVED);
    let broken = (Some(Rule::Renames), Some(Fault::NamedTwice(3)));
    let rows = [(0, b'a', 5), (0, b'b', 3), (5, b'b', 3)];
    assert_cut(&rt, alloc, &plot, &[(0, 3), (4, 3), (5, 4)], broken, &rows);
    let rows = [(0, b'a', 5), (5, b'b', 3)];
    assert_closed(&rt, alloc, &plot, &[(0, 4), (4, 3), (5, 4)], &rows);
}

// A directory, in which one stands; both are removed.
static ONE_IN_ONE: [Asked; 2] = [Mkdir(0, "b"), Mkdir(3, "a")];

static REMOVED: [Asked; 2] = [Rmdir(3, "a"), Rmdir(0, "b")];

#[test]
fn without_the_removal_rule_what_went_still_has_rows(rt: HostRuntime) {
    let alloc = rt.alloc();
    let plot = told(&rt, alloc, 3, &ONE_IN_ONE, &REMOVED);
    let broken = (Some(Rule::Removals), Some(Fault::Adrift(3)));
    assert_cut(&rt, alloc, &plot, &[(0, 2)], broken, &[(3, b'a', 4)]);
    assert_closed(&rt, alloc, &plot, &[(0, 2), (3, 1)], &[]);
}

// A directory, and one in it.
static MADE: [Asked; 2] = [Mkdir(0, "b"), Mkdir(3, "b")];

#[test]
fn without_the_birth_rule_what_nothing_names_has_rows(rt: HostRuntime) {
    let alloc = rt.alloc();
    let plot = told(&rt, alloc, 3, &[], &MADE);
    let broken = (Some(Rule::Births), Some(Fault::Adrift(3)));
    assert_cut(&rt, alloc, &plot, &[(3, 2)], broken, &[(3, b'b', 4)]);
    let rows = [(0, b'b', 3), (3, b'b', 4)];
    assert_closed(&rt, alloc, &plot, &[(0, 1), (3, 2)], &rows);
}

// Directories 2 and 3, one in the other. One that is made in 3 moves to the root, and then 3 moves into it.
static CHAIN: [Asked; 2] = [Mkdir(0, "c"), Mkdir(2, "c")];

static TWO_MOVES: [Asked; 3] = [
    Mkdir(3, "a"),
    Rename(3, "a", 0, "a"),
    Rename(2, "c", 4, "a"),
];

#[test]
fn without_the_ancestor_rule_two_moves_close_a_loop(rt: HostRuntime) {
    let alloc = rt.alloc();
    let plot = told(&rt, alloc, 2, &CHAIN, &TWO_MOVES);
    let broken = (Some(Rule::Ancestors), Some(Fault::Lost(4)));
    let rows = [(0, b'c', 2), (3, b'a', 4), (4, b'a', 3)];
    assert_cut(&rt, alloc, &plot, &[(2, 3), (4, 3), (3, 1)], broken, &rows);
    let rows = [(0, b'a', 4), (0, b'c', 2), (4, b'a', 3)];
    assert_closed(&rt, alloc, &plot, &[(0, 2), (2, 3), (3, 2), (4, 3)], &rows);
}
