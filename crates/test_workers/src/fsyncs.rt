// Fsyncs that reach no disk, and scripts whose text of a history is known.
ghost use Rattle.std.specs.Prelude.{◌≤◌};

use crate::helpers::{got, holds, same_list};
use crate::judged::{follows, is_legal};
use crate::played::{first_tree, phases_in, played};
use script::text;
use sfs_base::NoGate;
use std::alloc::Global;
use std::process::Abort;
use std::sync::Wait;
use std::thread::Threads;
use tree_laws::Reply;
use workers::Plainly;

// Asserts that one worker's script has this text of a history.
fn assert_text<R: Threads + Wait + Sync + Abort>(
    rt: &R,
    alloc: Global,
    lines: &str,
    share: u32,
    plainly: Plainly,
    wanted: &str,
)
    requires { share ≤ 1000 }
{
    let script = phases_in(rt, alloc, lines.as_bytes());
    let run = played(rt, alloc, &script, share, 1, plainly, &NoGate);
    holds(rt, run.ended);
    let is = got(rt, text(alloc, &run.history));
    same_list(rt, is.as_slice(), wanted.as_bytes());
}

#[test]
fn an_fsync_is_acknowledged(rt: HostRuntime) {
    let lines = "0 create /a\n0 fsync /a\n0 fsync /\n0 fsync /b\n0 stat /\n";
    let wanted =
        "0 0 create 0 a = node 8 file\n1 0 look 0 a = node 8 file\n2 0 fsync 8 = ok\n3 0 fsync 0 = ok\n4 0 look 0 b = error NoEntry\n5 0 stat 0 = stat dir 2 1\n";
    assert_text(&rt, rt.alloc(), lines, 3, Plainly::Acknowledges, wanted);
}

#[test]
fn an_fsync_that_is_refused_memory_ends_its_command_alone(rt: HostRuntime) {
    let lines = "0 create /a\n0 fsync /a\n0 create /b\n---\n0 fsync /\n";
    let wanted =
        "0 0 create 0 a = node 8 file\n1 0 look 0 a = node 8 file\n2 0 fsync 8 = nomemory\n3 0 create 0 b = node 9 file\n4 0 fsync 0 = nomemory\n";
    assert_text(&rt, rt.alloc(), lines, 3, Plainly::Refuses, wanted);
}

#[test]
fn a_worker_makes_its_share_of_nodes(rt: HostRuntime) {
    let lines = "0 create /a\n0 mkdir /b\n0 create /c\n0 unlink /a\n";
    let wanted =
        "0 0 create 0 a = node 8 file\n1 0 mkdir 0 b = node 9 dir\n2 0 create 0 c = error NoNodes\n3 0 unlink 0 a = ok\n";
    assert_text(&rt, rt.alloc(), lines, 2, Plainly::Acknowledges, wanted);
}

#[test]
fn workers_flush_side_by_side(rt: HostRuntime) {
    let alloc = rt.alloc();
    let lines =
        "0 create /a\n0 fsync /a\n1 mkdir /b\n1 fsync /\n1 create /b/c\n---\n0 fsync /b/c\n1 unlink /b/c\n1 fsync /b\n";
    let script = phases_in(&rt, alloc, lines.as_bytes());
    let run = played(&rt, alloc, &script, 100, 2, Plainly::Acknowledges, &NoGate);
    holds(&rt, run.ended);
    holds(&rt, follows(&rt, alloc, &run.history, &script, 2));
    let tree = first_tree(&rt, alloc, 100, 2);
    holds(&rt, is_legal(&rt, &run.history, tree, 2, &Reply::Ok));
}
