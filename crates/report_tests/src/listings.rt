// What is listed of two texts, byte for byte.
use crate::printed::{FORM, RANGE, lists};
use std::test::Fail;

// 2 states and 3 letters. The one step leads to the marked state, from which none leads on, so no word is taken.
const DUTY: &str = "letters\n3\nstate start mark\n0 > .\n1 . *\nfrom by to\n0 a 1\n";

// 1 state and 16 letters. Every word is taken.
const RULE: &str = "letters\n16\nstate start mark\n0 > *\nfrom by to\n0 # 0\n";

// Where both are refused the duty is told.
#[test]
fn printed(rt: HostRuntime) -> Result<(), Fail> {
    let heap = rt.alloc();
    let read = "chart states letters empty\nduty 2 3 yes\nrule 1 16 no\n";
    lists(&rt, heap, DUTY, RULE, read)?;
    lists(&rt, heap, RANGE, RULE, "refused at place\n2 duty 2\n")?;
    lists(&rt, heap, DUTY, FORM, "refused at place\n1 rule 4\n")?;
    lists(&rt, heap, FORM, RANGE, "refused at place\n1 duty 4\n")?;
    lists(&rt, heap, DUTY, "", "refused at place\n1 rule 1\n")
}
