// The histories of the examples: each is legal.
use crate::helpers::{same, same_at};
use crate::trees::{answer, answer_from, mail};

// The number of the first new node on the image of the examples.
const FIRST: u32 = 1024;

// Each example's name and history, and how many calls that has.
static EXAMPLES: [(&str, &str, u64); 8] = [
    (
        "first",
        "\
0 0 mkdir 0 a = node 1024 dir
1 0 fsync 0 = ok
",
        2,
    ),
    (
        "bytes",
        "\
0 0 create 0 f = node 1024 file
1 0 look 0 f = node 1024 file
2 0 write 1024 3 6869 = ok
3 0 look 0 f = node 1024 file
4 0 read 1024 0 10 = bytes 0000006869
5 0 look 0 f = node 1024 file
6 0 trunc 1024 1 = ok
7 0 look 0 f = node 1024 file
8 0 trunc 1024 3 = ok
9 0 look 0 f = node 1024 file
10 0 read 1024 0 10 = bytes 000000
11 0 look 0 f = node 1024 file
12 0 read 1024 5 1 = bytes -
13 0 look 0 f = node 1024 file
14 0 write 1024 9 - = ok
15 0 look 0 f = node 1024 file
16 0 stat 1024 = stat file 1 3
",
        17,
    ),
    (
        "kept",
        "\
0 0 create 0 a = node 1024 file
1 0 look 0 a = node 1024 file
2 0 link 1024 0 b = ok
3 0 mkdir 0 p = node 1025 dir
4 0 mkdir 0 q = node 1026 dir
5 0 look 0 p = node 1025 dir
6 0 mkdir 1025 d = node 1027 dir
7 0 look 0 p = node 1025 dir
8 0 fsync 1025 = ok
9 0 look 0 p = node 1025 dir
10 0 look 0 q = node 1026 dir
11 0 rename 1025 d 1026 d = ok
12 0 look 0 q = node 1026 dir
13 0 fsync 1026 = ok
14 0 fsync 0 = ok
",
        15,
    ),
    (
        "links",
        "\
0 0 create 0 a = node 1024 file
1 0 look 0 a = node 1024 file
2 0 link 1024 0 b = ok
3 0 rename 0 a 0 b = ok
4 0 list 0 = list a b
5 0 look 0 a = node 1024 file
6 0 stat 1024 = stat file 2 0
",
        7,
    ),
    (
        "mail",
        "\
0 0 mkdir 0 tmp = node 1024 dir
1 0 mkdir 0 new = node 1025 dir
2 0 fsync 0 = ok
3 0 look 0 tmp = node 1024 dir
4 0 create 1024 m = node 1026 file
5 0 look 0 tmp = node 1024 dir
6 0 look 1024 m = node 1026 file
7 0 write 1026 0 68656c6c6f = ok
8 0 look 0 tmp = node 1024 dir
9 0 look 1024 m = node 1026 file
10 0 fsync 1026 = ok
11 0 look 0 tmp = node 1024 dir
12 0 look 0 new = node 1025 dir
13 0 rename 1024 m 1025 m = ok
14 0 look 0 new = node 1025 dir
15 0 fsync 1025 = ok
16 0 look 0 tmp = node 1024 dir
17 0 create 1024 lost = node 1027 file
",
        18,
    ),
    (
        "refusals",
        "\
0 0 create 0 f = node 1024 file
1 0 mkdir 0 d = node 1025 dir
2 0 rmdir 0 f = error NotDir
3 0 unlink 0 d = error NotPermitted
4 0 rename 0 d 0 f = error NotDir
5 0 rename 0 f 0 d = error IsDir
6 0 look 0 d = node 1025 dir
7 0 link 1025 0 e = error NotPermitted
8 0 mkdir 0 d = error Exists
9 0 unlink 0 g = error NoEntry
10 0 look 0 d = node 1025 dir
11 0 read 1025 0 1 = error IsDir
12 0 look 0 f = node 1024 file
13 0 look 1024 x = error NotDir
",
        14,
    ),
    (
        "renames",
        "\
0 0 mkdir 0 a = node 1024 dir
1 0 look 0 a = node 1024 dir
2 0 mkdir 1024 b = node 1025 dir
3 0 look 0 a = node 1024 dir
4 0 look 1024 b = node 1025 dir
5 0 rename 0 a 1025 c = error Invalid
",
        6,
    ),
    (
        "workers",
        "\
0 0 create 0 a = node 1024 file
1 1 create 0 b = node 3072 file
2 0 unlink 0 b = ok
3 1 unlink 0 a = ok
",
        4,
    ),
];

// The history of the second run on the image of the example of a mail.
const NEXT: &str = "\
0 0 look 0 tmp = node 1 dir
1 0 list 1 = list
2 0 look 0 new = node 2 dir
3 0 look 2 m = node 3 file
4 0 read 3 0 100 = bytes 68656c6c6f
5 0 look 0 new = node 2 dir
6 0 unlink 2 m = ok
7 0 look 0 new = node 2 dir
8 0 fsync 2 = ok
";

#[test]
fn examples_are_legal(rt: HostRuntime) {
    for (name, text, count) in &EXAMPLES {
        same_at(
            &rt,
            &answer(&rt, rt.alloc(), FIRST, text),
            &Ok(*count),
            name,
        );
    }
}

#[test]
fn a_second_run_is_legal_from_what_the_first_flushed(rt: HostRuntime) {
    let alloc = rt.alloc();
    let first = mail(&rt, alloc);
    same(&rt, &answer_from(&rt, alloc, first, NEXT), &Ok(9));
}
