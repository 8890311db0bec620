// Scripts that are drawn.
ghost use Rattle.std.specs.Prelude.{◌<◌, ◌≤◌};

use crate::helpers::got;
use std::alloc::Global;
use std::process::Abort;

// The commands that are drawn besides fsyncs, each with what follows it: a path, an offset and bytes, an offset and a count, a size.
static VERBS: [(&str, &str); 11] = [
    ("create", "p"),
    ("mkdir", "p"),
    ("link", "pp"),
    ("unlink", "p"),
    ("rmdir", "p"),
    ("rename", "pp"),
    ("write", "pw"),
    ("read", "pr"),
    ("trunc", "ps"),
    ("stat", "p"),
    ("list", "p"),
];

static NAMES: [&str; 3] = ["a", "b", "c"];

/// Draws numbers.
#[derive(Drop)]
pub(crate) struct Dice {
    state: u64,
}

impl Dice {
    pub(crate) fn of(seed: u64) -> Dice {
        Dice { state: seed }
    }

    pub(crate) fn below(&mut self, sides: u64) -> u64
        requires { 0 < sides }
        ensures { result < sides }
    {
        self.state = self
            .state
            .wrapping_mul(6_364_136_223_846_793_005)
            .wrapping_add(1_442_695_040_888_963_407);
        (self.state >> 33) % sides
    }
}

// Adds a text.
fn add(rt: &impl Abort, script: &mut Vec<u8>, text: &str) {
    got(rt, script.extend_from_slice(text.as_bytes()));
}

// Adds a path of one or two names.
fn add_path(rt: &impl Abort, script: &mut Vec<u8>, dice: &mut Dice) {
    add(rt, script, " /");
    add(rt, script, NAMES[dice.below(3) as usize]);
    if dice.below(2) == 0 {
        add(rt, script, "/");
        add(rt, script, NAMES[dice.below(3) as usize]);
    }
}

// Adds what follows a command.
fn add_operand(rt: &impl Abort, script: &mut Vec<u8>, dice: &mut Dice, kind: u8) {
    let even = dice.below(2) == 0;
    match kind {
        b'p' => add_path(rt, script, dice),
        b'w' => add(
            rt,
            script,
            if even {
                " 0 616263"
            } else {
                " 4090 00112233445566778899"
            },
        ),
        b'r' => add(rt, script, if even { " 0 100" } else { " 4000 200" }),
        _ => add(rt, script, if even { " 0" } else { " 4097" }),
    }
}

// Adds an fsync of the root or of a path.
fn add_fsync(rt: &impl Abort, script: &mut Vec<u8>, dice: &mut Dice) {
    add(rt, script, "fsync");
    if dice.below(4) == 0 {
        add(rt, script, " /");
    } else {
        add_path(rt, script, dice);
    }
}

// Adds a line, of which a quarter are fsyncs.
fn add_line(rt: &impl Abort, script: &mut Vec<u8>, dice: &mut Dice, workers: u64)
    requires { (0 < workers) × (workers ≤ 4) }
{
    let worker = match dice.below(workers) {
        0 => "0 ",
        1 => "1 ",
        2 => "2 ",
        _ => "3 ",
    };
    add(rt, script, worker);
    if dice.below(4) == 0 {
        add_fsync(rt, script, dice);
    } else {
        let (verb, operands) = VERBS[dice.below(11) as usize];
        add(rt, script, verb);
        for kind in operands.as_bytes() {
            add_operand(rt, script, dice, *kind);
        }
    }
    add(rt, script, "\n");
}

/// A script of so many workers and phases, of some 40 lines a worker.
pub(crate) fn draw(
    rt: &impl Abort,
    alloc: Global,
    dice: &mut Dice,
    workers: u64,
    phases: u64,
) -> Vec<u8>
    requires { (0 < workers) × (workers ≤ 4) × (phases ≤ 2) }
{
    let mut script = Vec::new(alloc);
    for phase in 0..phases {
        if phase > 0 {
            add(rt, &mut script, "---\n");
        }
        for _ in 0..workers * 40 / phases {
            add_line(rt, &mut script, dice, workers);
        }
    }
    script
}

// How long the paths of `add_flushes` are at most, in names.
const DEEPEST: u32 = 4;

// Adds a path, which this number tells: its digits to the base 3, from the last one on, as many as there are names.
fn add_numbered_path(rt: &impl Abort, script: &mut Vec<u8>, names: u32, number: u32) {
    let mut left = number;
    for _ in 0..names {
        add(rt, script, "/");
        add(rt, script, NAMES[(left % 3) as usize]);
        left /= 3;
    }
}

/// Adds a phase in which worker 0 flushes the root, and what is at each path of at most four names.
pub(crate) fn add_flushes(rt: &impl Abort, script: &mut Vec<u8>) {
    add(rt, script, "---\n0 fsync /\n");
    let mut count = 1u32;
    for names in 1..=DEEPEST {
        count = count.saturating_mul(3);
        for number in 0..count {
            add(rt, script, "0 fsync ");
            add_numbered_path(rt, script, names, number);
            add(rt, script, "\n");
        }
    }
}
