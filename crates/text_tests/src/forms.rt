// Lines of the wrong form: refusal 1.
use crate::altered::{each_told, refused, told};
use std::test::Fail;

// In place of a line of the sample, by its number. The empty text leaves the line out: the next one then stands in its place. '>'
// stands in the column of starts alone, '*' in that of marks. A step line is no state line, and the other way round.
const LINES: [(usize, &[&str]); 7] = [
    (
        1,
        &[
            "",
            "\n",
            "Letters\n",
            "letter\n",
            "letters \n",
            " letters\n",
            "letters\r\n",
            "letters\t\n",
            "letters 2\n",
            "2\n",
            "letters",
        ],
    ),
    (
        2,
        &[
            "",
            "\n",
            "02\n",
            "00\n",
            "100\n",
            "a\n",
            "#\n",
            "2 2\n",
            "2 \n",
            " 2\n",
            "2\r\n",
            "+2\n",
            "-2\n",
            "2a\n",
            "letters\n",
            "2",
        ],
    ),
    (
        3,
        &[
            "",
            "\n",
            "state mark start\n",
            "state start\n",
            "state start mark mark\n",
            "state start Mark\n",
            "states start mark\n",
            "state  start mark\n",
            "state start mark \n",
            " state start mark\n",
            "state\tstart mark\n",
            "from by to\n",
            "state start mark",
        ],
    ),
    (
        4,
        &[
            "\n",
            "0 * >\n",
            "0 * .\n",
            "0 . >\n",
            "0 # *\n",
            "0 a *\n",
            "0 0 *\n",
            "0 >> *\n",
            "a > *\n",
            "> 0 *\n",
            "0 >\n",
            "> *\n",
            "0\n",
            "0 > * .\n",
            "00 > *\n",
            "100 > *\n",
            "-0 > *\n",
            "0  > *\n",
            " 0 > *\n",
            "0 > * \n",
            "0>*\n",
            "0 > *\r\n",
            "0\t> *\n",
            "state start mark\n",
            "0 > *",
        ],
    ),
    (
        6,
        &[
            "",
            "\n",
            "from to by\n",
            "from by\n",
            "from by to to\n",
            "From by to\n",
            "from  by to\n",
            "from by to \n",
            " from by to\n",
            "from by to\r\n",
            "state start mark\n",
            "0 a 1\n",
            "from by to",
        ],
    ),
    (
        7,
        &[
            "\n",
            "0 > 1\n",
            "0 . 1\n",
            "0 A 1\n",
            "0 ab 1\n",
            "0 ## 1\n",
            "0 1 1\n",
            "0 a a\n",
            "a 0 1\n",
            "0 a\n",
            "a 1\n",
            "0\n",
            "0 a 1 1\n",
            "0 { 1\n",
            "0 ` 1\n",
            "00 a 1\n",
            "0 a 01\n",
            "0 a 100\n",
            "0  a 1\n",
            "0 a 1 \n",
            " 0 a 1\n",
            "0a1\n",
            "0 a 1\r\n",
            "0\ta\t1\n",
            "from by to\n",
            "0 > *\n",
            "0 a 1",
        ],
    ),
    (8, &["\n", " ", "1 # 0", "1", "1 # 0 \n"]),
];

#[test]
fn lines(rt: HostRuntime) -> Result<(), Fail> {
    for (number, lines) in LINES {
        refused(&rt, rt.alloc(), number, lines, told(1, number))?;
    }
    Ok(())
}

// Unaltered the sample is accepted, so the altered line is what is refused above; a step may be left out. Behind the last line: a
// blank line, a space, and a step without its line feed.
#[test]
fn last(rt: HostRuntime) -> Result<(), Fail> {
    let heap = rt.alloc();
    refused(&rt, heap, 8, &["1 # 0\n", "0 a 0\n", ""], None)?;
    let behind = ["1 # 0\n\n", "1 # 0\n ", "1 # 0\n\n\n", "1 # 0\n0 a 0"];
    refused(&rt, heap, 8, &behind, told(1, 9))
}

// A text that ends early is refused at the line after its last, or at the piece that no line feed ends.
#[test]
fn ends(rt: HostRuntime) {
    each_told(
        &rt,
        &[
            ("", 1, 1),
            ("\n", 1, 1),
            ("letters", 1, 1),
            ("letters\n", 1, 2),
            ("letters\n\n", 1, 2),
            ("letters\n2", 1, 2),
            ("letters\n2\n", 1, 3),
            ("letters\n2\nstate start mark", 1, 3),
            ("letters\n2\nstate start mark\n", 1, 4),
            ("letters\n2\nstate start mark\n0 > *", 1, 4),
            ("letters\n2\nstate start mark\n0 > *\n", 1, 5),
            ("letters\n2\nstate start mark\n0 > *\nfrom by to", 1, 5),
            ("letters\n2\nstate start mark\n0 > *\nfrom by to\n", 0, 0),
            ("letters\n2\nstate start mark\n0 > *\nfrom by to\n\n", 1, 6),
            (
                "letters\n2\nstate start mark\n0 > *\nfrom by to\n0 a 0",
                1,
                6,
            ),
        ],
    );
}
