// Scripts that are drawn: their histories are the plain tree's, and follow the script.
ghost use Rattle.std.specs.Prelude.{◌<◌, ◌≤◌};

use crate::helpers::{got, holds};
use crate::judged::{follows, is_legal};
use crate::played::{first_tree, phases_in, played};
use sfs_base::NoGate;
use std::alloc::Global;
use std::process::Abort;
use std::sync::Wait;
use std::thread::Threads;
use tree_laws::Reply;
use workers::Plainly;

// How many scripts are drawn.
const SCRIPTS: u64 = 200;

// The commands that are drawn, each with what follows it: a path, an offset and bytes, an offset and a count, a size.
static VERBS: [(&str, &str); 11] = [
    ("create", "p"),
    ("mkdir", "p"),
    ("link", "pp"),
    ("unlink", "p"),
    ("rmdir", "p"),
    ("rename", "pp"),
    ("write", "pw"),
    ("read", "pr"),
    ("trunc", "ps"),
    ("stat", "p"),
    ("list", "p"),
];

static NAMES: [&str; 4] = ["a", "b", "c", "d"];

// Draws numbers.
#[derive(Drop)]
struct Dice {
    state: u64,
}

impl Dice {
    fn of(seed: u64) -> Dice {
        Dice { state: seed }
    }

    fn below(&mut self, sides: u64) -> u64
        requires { 0 < sides }
        ensures { result < sides }
    {
        self.state = self
            .state
            .wrapping_mul(6_364_136_223_846_793_005)
            .wrapping_add(1_442_695_040_888_963_407);
        (self.state >> 33) % sides
    }
}

// Adds a text.
fn add(rt: &impl Abort, script: &mut Vec<u8>, text: &str) {
    got(rt, script.extend_from_slice(text.as_bytes()));
}

// Adds a path of one or two names.
fn add_path(rt: &impl Abort, script: &mut Vec<u8>, dice: &mut Dice) {
    add(rt, script, " /");
    add(rt, script, NAMES[dice.below(4) as usize]);
    if dice.below(2) == 0 {
        add(rt, script, "/");
        add(rt, script, NAMES[dice.below(4) as usize]);
    }
}

// Adds what follows a command.
fn add_operand(rt: &impl Abort, script: &mut Vec<u8>, dice: &mut Dice, kind: u8) {
    match kind {
        b'p' => add_path(rt, script, dice),
        b'w' => add(
            rt,
            script,
            if dice.below(2) == 0 {
                " 0 616263"
            } else {
                " 4090 00112233445566778899"
            },
        ),
        b'r' => add(
            rt,
            script,
            if dice.below(2) == 0 {
                " 0 100"
            } else {
                " 4000 200"
            },
        ),
        _ => add(rt, script, if dice.below(2) == 0 { " 0" } else { " 4097" }),
    }
}

// Adds a line.
fn add_line(rt: &impl Abort, script: &mut Vec<u8>, dice: &mut Dice, workers: u64)
    requires { (0 < workers) × (workers ≤ 4) }
{
    let worker = match dice.below(workers) {
        0 => "0 ",
        1 => "1 ",
        2 => "2 ",
        _ => "3 ",
    };
    add(rt, script, worker);
    let (verb, operands) = VERBS[dice.below(11) as usize];
    add(rt, script, verb);
    for kind in operands.as_bytes() {
        add_operand(rt, script, dice, *kind);
    }
    add(rt, script, "\n");
}

// A script of so many workers and phases.
fn draw(rt: &impl Abort, alloc: Global, dice: &mut Dice, workers: u64, phases: u64) -> Vec<u8>
    requires { (0 < workers) × (workers ≤ 4) × (phases ≤ 3) }
{
    let mut script = Vec::new(alloc);
    for phase in 0..phases {
        if phase > 0 {
            add(rt, &mut script, "---\n");
        }
        for _ in 0..workers * 24 / phases {
            add_line(rt, &mut script, dice, workers);
        }
    }
    script
}

// Plays a script that is drawn, and judges its history.
fn assert_played<R: Threads + Wait + Sync + Abort>(rt: &R, alloc: Global, seed: u64) {
    let mut dice = Dice::of(seed);
    let workers = 1 + dice.below(4);
    let phases = 1 + dice.below(3);
    let text = draw(rt, alloc, &mut dice, workers, phases);
    let script = phases_in(rt, alloc, text.as_slice());
    let run = played(
        rt,
        alloc,
        &script,
        100,
        workers as u8,
        Plainly::Acknowledges,
        &NoGate,
    );
    holds(rt, run.ended);
    holds(rt, follows(rt, alloc, &run.history, &script, workers as u8));
    let tree = first_tree(rt, alloc, 100, workers as u8);
    holds(
        rt,
        is_legal(rt, &run.history, tree, workers as u8, &Reply::Ok),
    );
}

#[test]
fn drawn_scripts_have_the_replies_of_the_tree(rt: HostRuntime) {
    let alloc = rt.alloc();
    for seed in 0..SCRIPTS {
        assert_played(&rt, alloc, seed);
    }
}
