// Unions and fitted charts, as the duty and as the rule. The verdicts are by hand, and the counts of nodes come from
// tests/ranked_graph.py.
use crate::small::{breaks, keeps, told};
use chart::Fitted;
use samples::{by_letters, one_of_each};
use std::test::Fail;

#[test]
fn verdicts(rt: HostRuntime) -> Result<(), Fail> {
    let heap = rt.alloc();
    let duty = one_of_each(true, false)?;
    assert_eq!(rt;
        told(heap, duty, one_of_each(false, true)?, 14)?,
        breaks(14)
    );
    let (duty, rule) = (one_of_each(true, false)?, one_of_each(true, false)?);
    assert_eq!(rt; told(heap, duty, rule, 14)?, keeps(10));
    let duty = one_of_each(true, false)?;
    assert_eq!(rt; told(heap, duty, by_letters(0b11)?, 14)?, keeps(8));
    let rule = one_of_each(true, false)?;
    assert_eq!(rt; told(heap, by_letters(0b11)?, rule, 14)?, breaks(14));
    let fitted = Fitted::new(one_of_each(true, true)?);
    assert_eq!(rt;
        told(heap, Fitted::new(by_letters(0b01)?), fitted, 14)?,
        keeps(8)
    );
    Ok(())
}
