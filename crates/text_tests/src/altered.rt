// A text to alter, and what it is then refused by.
use fault::{Fault, Refusal};
use std::alloc::{AllocError, Global};
use std::process::Abort;
use std::test::Fail;
use text::load;

// 2 letters and 2 states: lines 4 and 5 are the states, 7 and 8 the steps.
const LINES: [&str; 8] = [
    "letters\n",
    "2\n",
    "state start mark\n",
    "0 > *\n",
    "1 . .\n",
    "from by to\n",
    "0 a 1\n",
    "1 # 0\n",
];

// What loading the text into these rows is refused by, if it is.
pub(crate) fn refusal_over(text: &str, rows: &mut [u32]) -> Option<Refusal> {
    load(text.as_bytes(), rows)
        .err()
        .map(|fault| fault.refusal())
}

// The same with rows enough for every chart.
pub(crate) fn refusal(text: &str) -> Option<Refusal> {
    refusal_over(text, &mut [0; 512])
}

// A refusal by its number, which is 0 where there is none, and the line.
pub(crate) fn told(number: u8, line: usize) -> Option<Refusal> {
    (number > 0).then(|| Refusal::at(number, line))
}

// The lines, with another text for the line of this number.
fn altered(heap: Global, number: usize, line: &str) -> Result<String, AllocError> {
    let mut text = String::new(heap);
    for (i, old) in (1..9usize).zip(LINES) {
        text.push_str(if i == number { line } else { old })?;
    }
    Ok(text)
}

// Each of these in place of the line of this number is refused so.
pub(crate) fn refused(
    rt: &impl Abort,
    heap: Global,
    number: usize,
    lines: &[&str],
    told: Option<Refusal>,
) -> Result<(), Fail> {
    for line in lines {
        let text = altered(heap, number, *line)?;
        assert_eq!(rt; refusal(text.as_str()), told, "{}", *line);
    }
    Ok(())
}

// Each of these texts is refused by the number and at the line beside it.
pub(crate) fn each_told(rt: &impl Abort, texts: &[(&str, u8, usize)]) {
    for (text, number, line) in texts {
        assert_eq!(rt; refusal(*text), told(*number, *line), "{}", *text);
    }
}

// A text of 16 letters and so many states, all of them starts and marks, with this behind them.
pub(crate) fn of_states(heap: Global, states: u8, rest: &str) -> Result<String, AllocError> {
    let mut text = String::from_str(heap, "letters\n16\nstate start mark\n")?;
    for q in 0..states {
        let line = format!(in heap; "{q} > *\n")?;
        text.push_str(line.as_str())?;
    }
    text.push_str(rest)?;
    Ok(text)
}
