// The text of a tree.
use crate::calls::{Asked, call_of, root_alone};
use crate::helpers::{got, holds_at};
use std::alloc::Global;
use std::process::Abort;

// A worked tree: calls of core 0, which make nodes from 64 on, and the text of the tree after them.
struct Worked {
    calls: &'static [Asked],
    due: &'static str,
}

const TREES: [Worked; 6] = [
    Worked {
        calls: &[],
        due: "dir 2 0 /\n",
    },
    // A directory.
    Worked {
        calls: &[Asked::Mkdir(0, "a")],
        due: "dir 3 1 /\ndir 2 0 /a\n",
    },
    // A file that two directories hold, with bytes.
    Worked {
        calls: &[
            Asked::Mkdir(0, "p"),
            Asked::Mkdir(0, "q"),
            Asked::Create(64, "f"),
            Asked::Link(66, 65, "f"),
            Asked::Write(66, 0, "hi"),
        ],
        due: "dir 4 2 /\ndir 2 1 /p\nfile 2 2 0 /p/f\ndir 2 1 /q\nfile 2 2 0 /q/f\n",
    },
    // One of its names is gone.
    Worked {
        calls: &[
            Asked::Mkdir(0, "p"),
            Asked::Mkdir(0, "q"),
            Asked::Create(64, "f"),
            Asked::Link(66, 65, "f"),
            Asked::Unlink(64, "f"),
        ],
        due: "dir 4 2 /\ndir 2 0 /p\ndir 2 1 /q\nfile 1 0 0 /q/f\n",
    },
    // A directory that was moved to below another, and moved again.
    Worked {
        calls: &[
            Asked::Mkdir(0, "p"),
            Asked::Mkdir(0, "q"),
            Asked::Mkdir(0, "r"),
            Asked::Mkdir(64, "b"),
            Asked::Mkdir(66, "a"),
            Asked::Rename(64, "b", 68, "b"),
            Asked::Rename(68, "b", 65, "b"),
            Asked::Rename(66, "a", 67, "a"),
        ],
        due: "dir 5 3 /\ndir 2 0 /p\ndir 3 1 /q\ndir 3 1 /q/b\ndir 2 0 /q/b/a\ndir 2 0 /r\n",
    },
    // Groups in order of first mention, rows by the bytes of their names, and bytes that are escaped.
    Worked {
        calls: &[
            Asked::Create(0, "b"),
            Asked::Create(0, "a c"),
            Asked::Link(64, 0, "d"),
            Asked::Create(0, "%"),
        ],
        due: "dir 2 4 /\nfile 1 0 0 /%25\nfile 1 0 1 /a%20c\nfile 2 0 2 /b\nfile 2 0 2 /d\n",
    },
];

fn assert_worked(rt: &impl Abort, alloc: Global, worked: &Worked) {
    let mut trial = got(rt, root_alone(alloc, 64));
    for asked in worked.calls {
        let call = call_of(rt, alloc, asked);
        got(rt, trial.step(0, &call));
    }
    let text = trial.tree_text(rt);
    holds_at(rt, text.as_slice() == worked.due.as_bytes(), worked.due);
}

#[test]
fn a_tree_has_its_worked_text(rt: HostRuntime) {
    for worked in TREES.iter() {
        assert_worked(&rt, rt.alloc(), worked);
    }
}
