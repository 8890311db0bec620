// Texts that no history has.
use crate::helpers::same_at;
use crate::trees::answer;
use history_check::CheckFault;

// The number of the first new node.
const FIRST: u32 = 64;

// A name of 256 bytes.
const TOO_LONG: &str = "\
0 0 look 0 nnnnnnnnnnnnnnnnnnnnnnnnnnnnnnnnnnnnnnnnnnnnnnnnnnnnnnnnnnnnnnnnnnnnnnnnnnnnnnnnnnnnnnnnnnnnnnnnnnnnnnnnnnnnnnnnnnnnnnnnnnnnnnnnnnnnnnnnnnnnnnnnnnnnnnnnnnnnnnnnnnnnnnnnnnnnnnnnnnnnnnnnnnnnnnnnnnnnnnnnnnnnnnnnnnnnnnnnnnnnnnnnnnnnnnnnnnnnnnnnnnnnnnnnnnnnnnnn = error NoEntry
";

// What is wrong, a text, and its first wrong line.
static WRONG: [(&str, &str, u32); 53] = [
    (
        "a stamp left out",
        "\
0 0 create 0 a = node 64 file
2 0 look 0 a = node 64 file
",
        2,
    ),
    (
        "a stamp twice",
        "\
0 0 create 0 a = node 64 file
0 0 look 0 a = node 64 file
",
        2,
    ),
    ("a first stamp of 1", "1 0 create 0 a = node 64 file\n", 1),
    (
        "a reply that is another's",
        "\
0 0 create 0 a = node 64 file
1 1 create 0 b = node 65 file
",
        2,
    ),
    ("ok in place of an error", "0 0 rmdir 0 a = ok\n", 1),
    (
        "a reply of fsyncs to another call",
        "0 0 look 0 a = failed\n",
        1,
    ),
    (
        "names of a list in another order",
        "\
0 0 create 0 a = node 64 file
1 0 look 0 a = node 64 file
2 0 link 64 0 b = ok
3 0 rename 0 a 0 b = ok
4 0 list 0 = list b a
5 0 look 0 a = node 64 file
6 0 stat 64 = stat file 2 0
",
        5,
    ),
    (
        "a name of a list too few",
        "\
0 0 create 0 a = node 64 file
1 0 list 0 = list
",
        2,
    ),
    (
        "a directory without its mark",
        "\
0 0 mkdir 0 a = node 64 dir
1 0 list 0 = list a
",
        2,
    ),
    (
        "a hex digit of a call in upper case",
        "\
0 0 create 0 f = node 64 file
1 0 write 64 0 6A = ok
",
        2,
    ),
    (
        "a hex digit of a reply in upper case",
        "\
0 0 create 0 f = node 64 file
1 0 write 64 0 6a = ok
2 0 read 64 0 1 = bytes 6A
",
        3,
    ),
    (
        "a line without its last byte",
        "0 0 mkdir 0 a = node 64 dir\n1 0 fsync 0 = ok",
        2,
    ),
    ("a line alone without its last byte", "0 0 fsync 0 = ok", 1),
    (
        "a core at the number of cores",
        "0 2 look 0 a = error NoEntry\n",
        1,
    ),
    ("a core above 255", "0 256 look 0 a = error NoEntry\n", 1),
    (
        "an fsync of a dead node answered ok",
        "0 0 fsync 99 = ok\n",
        1,
    ),
    (
        "an fsync of a live node answered by an error",
        "0 0 fsync 0 = error NoEntry\n",
        1,
    ),
    ("an empty line", "\n", 1),
    (
        "an empty line between lines",
        "0 0 fsync 0 = ok\n\n1 0 fsync 0 = ok\n",
        2,
    ),
    ("an empty line at the end", "0 0 fsync 0 = ok\n\n", 2),
    ("a stamp with a leading zero", "00 0 fsync 0 = ok\n", 1),
    ("a core with a leading zero", "0 00 fsync 0 = ok\n", 1),
    ("a node with a leading zero", "0 0 fsync 00 = ok\n", 1),
    (
        "a count of faults with a leading zero",
        "0 0 fsync 0 = stopped 01\n",
        1,
    ),
    (
        "a need with a leading zero",
        "0 0 fsync 0 = nospace blocks need 02 free 1\n",
        1,
    ),
    (
        "a free number past 32 bits",
        "0 0 fsync 0 = nospace blocks need 2 free 4294967296\n",
        1,
    ),
    (
        "neither inodes nor blocks",
        "0 0 fsync 0 = nospace bytes need 2 free 1\n",
        1,
    ),
    ("a sign before a number", "0 0 fsync +0 = ok\n", 1),
    ("two spaces", "0 0 fsync  0 = ok\n", 1),
    ("a space at the end", "0 0 fsync 0 = ok \n", 1),
    ("a space at the front", " 0 0 fsync 0 = ok\n", 1),
    ("byte 13 before byte 10", "0 0 fsync 0 = ok\r\n", 1),
    ("no equals sign", "0 0 fsync 0 ok\n", 1),
    ("another sign in its place", "0 0 fsync 0 - ok\n", 1),
    ("no reply", "0 0 fsync 0\n", 1),
    ("no call", "0 0\n", 1),
    ("an unknown call", "0 0 make 0 a = node 64 dir\n", 1),
    ("a line of a script", "0 mkdir /a\n", 1),
    (
        "an escape in lower case",
        "0 0 look 0 %7f = error NoEntry\n",
        1,
    ),
    ("a needless escape", "0 0 look 0 %61 = error NoEntry\n", 1),
    ("half an escape", "0 0 look 0 %7 = error NoEntry\n", 1),
    (
        "a byte that wants an escape",
        "0 0 look 0 \u{7f} = error NoEntry\n",
        1,
    ),
    ("a name of two dots", "0 0 look 0 .. = error NoEntry\n", 1),
    ("a name with a slash", "0 0 look 0 a/b = error NoEntry\n", 1),
    (
        "a name with an escaped slash",
        "0 0 look 0 %2F = error NoEntry\n",
        1,
    ),
    ("no name", "0 0 look 0  = error NoEntry\n", 1),
    (
        "a read of more than 65,536 bytes",
        "0 0 read 99 0 65537 = error NoEntry\n",
        1,
    ),
    (
        "a node past 32 bits",
        "0 0 stat 4294967296 = error NoEntry\n",
        1,
    ),
    (
        "an offset past 64 bits",
        "0 0 trunc 99 18446744073709551616 = error NoEntry\n",
        1,
    ),
    ("half a byte", "0 0 write 99 0 616 = error NoEntry\n", 1),
    ("no bytes", "0 0 write 99 0  = error NoEntry\n", 1),
    (
        "two wrong lines",
        "\
0 0 fsync 0 = ok
2 0 fsync 0 = ok
2 0 fsync 1 = ok
",
        2,
    ),
    ("a name of 256 bytes", TOO_LONG, 1),
];

#[test]
fn texts_are_wrong_at_their_first_wrong_line(rt: HostRuntime) {
    for (place, text, line) in &WRONG {
        let due = Err(CheckFault::WrongLine { line: *line });
        same_at(&rt, &answer(&rt, rt.alloc(), FIRST, text), &due, place);
    }
}
