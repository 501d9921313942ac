// Lines of the right form that are out of range or out of turn: refusal 2. Then which refusal is told first.
use crate::altered::{each_told, of_states, refusal, refusal_over, refused, told};
use std::test::Fail;

// In place of a line of the sample, by its number. Line 4 has to be state 0 and line 5 state 1; left out, the next one stands in its
// place. There are states 0 and 1 and the letters a and b.
const LINES: [(usize, &[&str]); 4] = [
    (2, &["0\n", "17\n", "20\n", "99\n"]),
    (
        4,
        &["", "1 > *\n", "2 > *\n", "10 > *\n", "31 . .\n", "99 > *\n"],
    ),
    (5, &["0 > *\n", "2 . .\n", "11 . .\n", "99 . .\n"]),
    (
        7,
        &[
            "2 a 0\n",
            "0 a 2\n",
            "2 # 0\n",
            "0 # 2\n",
            "10 a 0\n",
            "0 a 10\n",
            "99 a 0\n",
            "0 a 99\n",
            "0 c 0\n",
            "0 p 0\n",
            "0 q 0\n",
            "0 z 0\n",
            "99 z 99\n",
        ],
    ),
];

#[test]
fn lines(rt: HostRuntime) -> Result<(), Fail> {
    let heap = rt.alloc();
    for (number, lines) in LINES {
        refused(&rt, heap, number, lines, told(2, number))?;
    }
    let later = ["1 . .\n0 > *\n", "1 . .\n1 . .\n", "1 . .\n3 . .\n"];
    refused(&rt, heap, 5, &later, told(2, 6))
}

#[test]
fn in_range(rt: HostRuntime) -> Result<(), Fail> {
    let heap = rt.alloc();
    refused(&rt, heap, 2, &["1\n", "9\n", "10\n", "16\n"], None)?;
    refused(
        &rt,
        heap,
        5,
        &["1 > *\n", "1 > .\n", "1 . *\n", "1 . .\n2 . .\n"],
        None,
    )?;
    refused(&rt, heap, 7, &["1 b 1\n", "1 a 0\n", "0 # 1\n"], None)
}

// Of one letter b is out of range, of 16 p is the last. The steps begin at line 6. There has to be a state.
#[test]
fn letters_and_states(rt: HostRuntime) {
    each_told(
        &rt,
        &[
            (
                "letters\n1\nstate start mark\n0 > *\nfrom by to\n0 a 0\n",
                0,
                0,
            ),
            (
                "letters\n1\nstate start mark\n0 > *\nfrom by to\n0 b 0\n",
                2,
                6,
            ),
            (
                "letters\n15\nstate start mark\n0 > *\nfrom by to\n0 o 0\n",
                0,
                0,
            ),
            (
                "letters\n15\nstate start mark\n0 > *\nfrom by to\n0 p 0\n",
                2,
                6,
            ),
            (
                "letters\n16\nstate start mark\n0 > *\nfrom by to\n0 p 0\n",
                0,
                0,
            ),
            (
                "letters\n16\nstate start mark\n0 > *\nfrom by to\n0 q 0\n",
                2,
                6,
            ),
            ("letters\n2\nstate start mark\nfrom by to\n", 2, 4),
            ("letters\n2\nstate start mark\nfrom by to\n0 > *\n", 2, 4),
        ],
    );
}

// State q stands in line 4 + q: the 33rd, which is 32, in line 36, and so does the heading behind 32 states.
#[test]
fn most_states(rt: HostRuntime) -> Result<(), Fail> {
    let heap = rt.alloc();
    let cases = [
        (32, "from by to\n31 p 31\n", 0, 0),
        (33, "from by to\n", 2, 36),
        (32, "33 . .\n", 2, 36),
        (32, "from by to\n31 a 31\n32 a 0\n", 2, 38),
        (32, "from by to\n0 a 32\n", 2, 37),
    ];
    for (states, rest, number, line) in cases {
        let text = of_states(heap, states, rest)?;
        assert_eq!(rt; refusal(text.as_str()), told(number, line), "{rest}");
    }
    Ok(())
}

// A row for each pair of a state and a letter: 32 states and 16 letters want 512, 2 and 2 want 4. The rows are counted after all
// lines: the last step's refusal is told first.
#[test]
fn rows(rt: HostRuntime) -> Result<(), Fail> {
    let few = told(3, 0);
    let most = of_states(rt.alloc(), 32, "from by to\n")?;
    assert_eq!(rt; refusal_over(most.as_str(), &mut [0; 512]), None);
    assert_eq!(rt; refusal_over(most.as_str(), &mut [0; 511]), few);
    let wrong = of_states(rt.alloc(), 32, "from by to\n0 a 31\n0 a 32\n")?;
    assert_eq!(rt; refusal_over(wrong.as_str(), &mut [0; 511]), told(2, 38));
    let two = "letters\n2\nstate start mark\n0 > *\n1 . .\nfrom by to\n0 a 1\n";
    assert_eq!(rt; refusal_over(two, &mut [0; 4]), None);
    assert_eq!(rt; refusal_over(two, &mut [0; 3]), few);
    assert_eq!(rt; refusal_over(two, &mut []), few);
    assert_eq!(rt; refusal_over("letters\n17\n", &mut []), told(2, 2));
    Ok(())
}

// On one line the form is told before the range.
#[test]
fn form_first(rt: HostRuntime) -> Result<(), Fail> {
    let heap = rt.alloc();
    refused(&rt, heap, 2, &["17 \n", "99 2\n", "017\n"], told(1, 2))?;
    refused(
        &rt,
        heap,
        4,
        &["9 * *\n", "1 A *\n", "99 > #\n", "1 >\n"],
        told(1, 4),
    )?;
    let steps = ["9 A 9\n", "9 a b\n", "9 z 09\n", "9 z\n", "0 z 0 0\n"];
    refused(&rt, heap, 7, &steps, told(1, 7))
}

// The lowest wrong line is told, whichever way it is wrong, and a last piece without its line feed has the wrong form.
#[test]
fn lowest(rt: HostRuntime) {
    each_told(
        &rt,
        &[
            ("Letters\n17\n", 1, 1),
            ("letters\n17\nstate mark start\n", 2, 2),
            ("letters\n02\nstate start mark\n1 > *\n", 1, 2),
            ("letters\n2\nstate start mark\n1 > *\nfrom to by\n", 2, 4),
            (
                "letters\n2\nstate start mark\n0 * *\nfrom by to\n0 c 0\n",
                1,
                4,
            ),
            (
                "letters\n2\nstate start mark\n0 > *\nfrom by to\n0 c 0\n0 A 0\n",
                2,
                6,
            ),
            (
                "letters\n2\nstate start mark\n0 > *\nfrom by to\n0 A 0\n0 c 0\n",
                1,
                6,
            ),
            (
                "letters\n2\nstate start mark\n0 > *\nfrom by to\n0 a 0\n0 a 1\n0 a",
                2,
                7,
            ),
            ("letters\n17\n", 2, 2),
            ("letters\n17", 1, 2),
            ("letters\n2\nstate start mark\n1 > *", 1, 4),
            ("letters\n2\nstate start mark\nfrom by to", 1, 4),
        ],
    );
}
