// Texts of charts, and what the three programs print of two.
use report::{counterexample_of_texts, decide_texts, list_texts};
use std::alloc::{AllocError, Global};
use std::process::Abort;
use std::test::Fail;

// One marked state that leads to itself by the one letter: every word is taken.
pub(crate) const MARKED: &str = "letters\n1\nstate start mark\n0 > *\nfrom by to\n0 a 0\n";

// The same unmarked: no word is.
pub(crate) const UNMARKED: &str = "letters\n1\nstate start mark\n0 > .\nfrom by to\n0 a 0\n";

// Every word of two letters is taken.
pub(crate) const TWO_LETTERS: &str = "letters\n2\nstate start mark\n0 > *\nfrom by to\n0 # 0\n";

// 7 states of one letter.
pub(crate) const SEVEN: &str =
    "letters\n1\nstate start mark\n0 > *\n1 . .\n2 . .\n3 . .\n4 . .\n5 . .\n6 . .\nfrom by to\n0 a 0\n";

// Out of range at line 2.
pub(crate) const RANGE: &str = "letters\n17\n";

// Of the wrong form at line 4.
pub(crate) const FORM: &str = "letters\n1\nstate start mark\n0 * >\n";

// These are the bytes that `containment` prints of the two texts.
pub(crate) fn reports(
    rt: &impl Abort,
    heap: Global,
    duty: &str,
    rule: &str,
    printed: &str,
) -> Result<(), Fail> {
    let report = decide_texts(duty.as_bytes(), rule.as_bytes()).to_string(heap)?;
    assert_eq!(rt; report.as_str(), printed);
    Ok(())
}

// These are those that `counterexample` prints.
pub(crate) fn tells(
    rt: &impl Abort,
    heap: Global,
    duty: &str,
    rule: &str,
    printed: &str,
) -> Result<(), Fail> {
    let report = counterexample_of_texts(duty.as_bytes(), rule.as_bytes()).to_string(heap)?;
    assert_eq!(rt; report.as_str(), printed);
    Ok(())
}

// These are those that `overview` prints.
pub(crate) fn lists(
    rt: &impl Abort,
    heap: Global,
    duty: &str,
    rule: &str,
    printed: &str,
) -> Result<(), Fail> {
    let report = list_texts(duty.as_bytes(), rule.as_bytes()).to_string(heap)?;
    assert_eq!(rt; report.as_str(), printed);
    Ok(())
}

// One state that leads to itself by the first of so many letters, told 1,358 times over in lines of 6 bytes. The rest has 43
// bytes and those of the number.
pub(crate) fn long(heap: Global, letters: &str) -> Result<String, AllocError> {
    let mut text = String::from_str(heap, "letters\n")?;
    text.push_str(letters)?;
    text.push_str("\nstate start mark\n0 > *\nfrom by to\n")?;
    for _ in 0..1358 {
        text.push_str("0 a 0\n")?;
    }
    Ok(text)
}
