// Histories on an image of 64 inodes and two cores that are legal.
use crate::helpers::same_at;
use crate::trees::answer;

// The number of the first new node.
const FIRST: u32 = 64;

// A name of 255 bytes, the longest that there is.
const LONGEST: &str = "\
0 0 look 0 nnnnnnnnnnnnnnnnnnnnnnnnnnnnnnnnnnnnnnnnnnnnnnnnnnnnnnnnnnnnnnnnnnnnnnnnnnnnnnnnnnnnnnnnnnnnnnnnnnnnnnnnnnnnnnnnnnnnnnnnnnnnnnnnnnnnnnnnnnnnnnnnnnnnnnnnnnnnnnnnnnnnnnnnnnnnnnnnnnnnnnnnnnnnnnnnnnnnnnnnnnnnnnnnnnnnnnnnnnnnnnnnnnnnnnnnnnnnnnnnnnnnnnnnnnnnnnn = error NoEntry
";

// A place for the message of a failure, a text, and how many entries it tells of.
static LEGAL: [(&str, &str, u64); 20] = [
    ("nothing", "", 0),
    (
        "the smallest run",
        "\
0 0 mkdir 0 a = node 64 dir
1 0 fsync 0 = ok
",
        2,
    ),
    (
        "a name with a space",
        "\
0 0 mkdir 0 a%20b = node 64 dir
",
        1,
    ),
    (
        "names of signs",
        "\
0 1 create 0 = = node 2112 file
1 0 mkdir 0 %25 = node 64 dir
2 0 mkdir 0 %7F%FF = node 65 dir
3 1 list 0 = list %25/ = %7F%FF/
",
        4,
    ),
    ("the longest name", LONGEST, 1),
    (
        "two links of one file",
        "\
0 0 create 0 a = node 64 file
1 0 look 0 a = node 64 file
2 0 link 64 0 b = ok
3 0 rename 0 a 0 b = ok
4 0 list 0 = list a b
5 0 look 0 a = node 64 file
6 0 stat 64 = stat file 2 0
",
        7,
    ),
    (
        "below itself",
        "\
0 0 mkdir 0 a = node 64 dir
1 0 look 0 a = node 64 dir
2 0 mkdir 64 b = node 65 dir
3 0 look 0 a = node 64 dir
4 0 look 64 b = node 65 dir
5 0 rename 0 a 65 c = error Invalid
",
        6,
    ),
    (
        "directory onto directory",
        "\
0 0 mkdir 0 a = node 64 dir
1 0 mkdir 0 b = node 65 dir
2 0 mkdir 0 c = node 66 dir
3 0 look 0 c = node 66 dir
4 0 mkdir 66 x = node 67 dir
5 0 rename 0 a 0 b = ok
6 0 rename 0 b 0 c = error NotEmpty
",
        7,
    ),
    (
        "two workers",
        "\
0 0 create 0 a = node 64 file
1 1 create 0 b = node 2112 file
",
        2,
    ),
    (
        "two workers, the other way round",
        "\
0 1 create 0 b = node 2112 file
1 0 create 0 a = node 64 file
",
        2,
    ),
    (
        "bytes",
        "\
0 0 create 0 f = node 64 file
1 0 look 0 f = node 64 file
2 0 write 64 3 6869 = ok
3 0 look 0 f = node 64 file
4 0 read 64 0 10 = bytes 0000006869
5 0 look 0 f = node 64 file
6 0 trunc 64 1 = ok
7 0 look 0 f = node 64 file
8 0 trunc 64 3 = ok
9 0 look 0 f = node 64 file
10 0 read 64 0 10 = bytes 000000
11 0 look 0 f = node 64 file
12 0 read 64 5 1 = bytes -
13 0 look 0 f = node 64 file
14 0 write 64 9 - = ok
",
        15,
    ),
    (
        "rows that go",
        "\
0 0 mkdir 0 d = node 64 dir
1 1 create 64 f = node 2112 file
2 0 rmdir 0 d = error NotEmpty
3 1 unlink 64 f = ok
4 0 rmdir 0 d = ok
5 0 look 0 d = error NoEntry
6 0 stat 64 = error NoEntry
7 0 stat 0 = stat dir 2 0
",
        8,
    ),
    (
        "an fsync that the disk failed, and what comes behind it",
        "\
0 0 fsync 0 = failed
1 1 fsync 0 = stopped 18446744073709551615
2 0 fsync 0 = nomemory
",
        3,
    ),
    (
        "too little space",
        "\
0 0 fsync 0 = nospace blocks need 2 free 1
1 0 fsync 0 = nospace inodes need 4294967295 free 0
",
        2,
    ),
    (
        "an fsync of a node that is not there",
        "\
0 0 fsync 99 = error NoEntry
",
        1,
    ),
    (
        "the greatest numbers",
        "\
0 0 read 4294967295 18446744073709551615 65536 = error NoEntry
1 0 trunc 4294967295 18446744073709551615 = error NoEntry
2 0 write 4294967295 18446744073709551615 00ff = error NoEntry
",
        3,
    ),
    (
        "a call of a directory as of a file",
        "\
0 0 trunc 0 1 = error IsDir
1 0 link 0 0 a = error NotPermitted
",
        2,
    ),
    (
        "a file past the largest",
        "\
0 0 create 0 f = node 64 file
1 0 trunc 64 67551233 = error FileTooBig
2 0 write 64 67551232 00 = error FileTooBig
",
        3,
    ),
    (
        "a name with a slash at its end is no name of a row",
        "\
0 0 mkdir 0 a = node 64 dir
1 0 create 0 b = node 65 file
2 0 list 0 = list a/ b
",
        3,
    ),
    (
        "numbers of two digits",
        "\
0 0 stat 0 = stat dir 2 0
1 0 stat 0 = stat dir 2 0
2 0 stat 0 = stat dir 2 0
3 0 stat 0 = stat dir 2 0
4 0 stat 0 = stat dir 2 0
5 0 stat 0 = stat dir 2 0
6 0 stat 0 = stat dir 2 0
7 0 stat 0 = stat dir 2 0
8 0 stat 0 = stat dir 2 0
9 0 stat 0 = stat dir 2 0
10 0 stat 0 = stat dir 2 0
",
        11,
    ),
];

#[test]
fn histories_are_legal(rt: HostRuntime) {
    for (place, text, count) in &LEGAL {
        same_at(
            &rt,
            &answer(&rt, rt.alloc(), FIRST, text),
            &Ok(*count),
            place,
        );
    }
}
