// Whether a chart takes no word, as the listing tells it.
use crate::printed::MARKED;
use report::{Listing, list_texts};
use std::alloc::{AllocError, Global};
use std::test::Fail;

// Is the duty told to take no word? None where a text is refused.
fn is_empty(duty: &str) -> Option<bool> {
    let Listing(told) = list_texts(duty.as_bytes(), MARKED.as_bytes());
    told.ok().map(|summaries| summaries.duty.empty)
}

// A marked state that leads to itself is passed again and again, if it is a start or a start leads to it. Where 0 leads to 1,
// which is marked, and 1 to 2, which leads to itself, 1 is passed once; with a step from 2 back to 1 again and again.
#[test]
fn by_hand(rt: HostRuntime) {
    let cases = [
        (
            "letters\n1\nstate start mark\n0 > *\nfrom by to\n0 a 0\n",
            false,
        ),
        (
            "letters\n2\nstate start mark\n0 > .\n1 . *\nfrom by to\n0 b 1\n1 a 1\n",
            false,
        ),
        (
            "letters\n2\nstate start mark\n0 > .\n1 . *\nfrom by to\n0 b 0\n1 a 1\n1 a 0\n",
            true,
        ),
        (
            "letters\n1\nstate start mark\n0 . *\nfrom by to\n0 a 0\n",
            true,
        ),
        (
            "letters\n1\nstate start mark\n0 > .\nfrom by to\n0 a 0\n",
            true,
        ),
        ("letters\n1\nstate start mark\n0 > *\nfrom by to\n", true),
        (
            "letters\n1\nstate start mark\n0 > .\n1 . *\n2 . .\nfrom by to\n0 a 1\n1 a 2\n2 a 2\n",
            true,
        ),
        (
            "letters\n2\nstate start mark\n0 > .\n1 . *\n2 . .\nfrom by to\n0 a 1\n1 a 2\n2 a 2\n2 b 1\n",
            false,
        ),
    ];
    for (duty, empty) in cases {
        assert_eq!(rt; is_empty(duty), Some(empty), "{duty}");
    }
}

// A row of 32 states, of which the last is marked, with one step more. Each of them can be reached.
fn row(heap: Global, step: &str) -> Result<String, AllocError> {
    let mut text = String::from_str(heap, "letters\n16\nstate start mark\n0 > .\n")?;
    for q in 1..31 {
        text.push_str(format!(in heap; "{q} . .\n")?.as_str())?;
    }
    text.push_str("31 . *\nfrom by to\n")?;
    for q in 0..31 {
        text.push_str(format!(in heap; "{q} p {}\n", q + 1)?.as_str())?;
    }
    text.push_str(step)?;
    Ok(text)
}

#[test]
fn largest_chart(rt: HostRuntime) -> Result<(), Fail> {
    let heap = rt.alloc();
    assert_eq!(rt; is_empty(row(heap, "31 p 0\n")?.as_str()), Some(false));
    assert_eq!(rt; is_empty(row(heap, "31 # 31\n")?.as_str()), Some(false));
    assert_eq!(rt; is_empty(row(heap, "30 a 0\n")?.as_str()), Some(true));
    Ok(())
}
