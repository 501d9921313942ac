// Examples that were worked out apart from the definitions: verdicts, and what is printed of a verdict.
use crate::small::{breaks, keeps, told};
use bench::{Kind, Verdict};
use samples::{looping, marked, still, unmarked};
use std::test::Fail;

#[test]
fn seven_pairs(rt: HostRuntime) -> Result<(), Fail> {
    let heap = rt.alloc();
    let (marked, unmarked) = (marked()?, unmarked()?);
    let (startless, still) = (looping(false, false)?, still(1)?);
    let cases = [
        ("marked, unmarked", marked, unmarked, breaks(6)),
        ("marked, marked", marked, marked, keeps(3)),
        ("unmarked, unmarked", unmarked, unmarked, keeps(4)),
        ("marked, still", marked, still, breaks(3)),
        ("marked, startless", marked, startless, breaks(2)),
        ("still, unmarked", still, unmarked, keeps(1)),
        ("startless, unmarked", startless, unmarked, keeps(0)),
    ];
    for (name, duty, rule, verdict) in &cases {
        assert_eq!(rt; told(heap, *duty, *rule, 6)?, *verdict, "{}", *name);
    }
    Ok(())
}

#[test]
fn printed(rt: HostRuntime) -> Result<(), Fail> {
    let heap = rt.alloc();
    let six = Verdict {
        kind: Kind::Break,
        nodes: 6,
    };
    assert_eq!(rt; six.to_string(heap)?.as_str(), "verdict nodes\nbreak 6\n");
    let most = Verdict {
        kind: Kind::Keep,
        nodes: 65536,
    };
    assert_eq!(rt;
        most.to_string(heap)?.as_str(),
        "verdict nodes\nkeep 65536\n"
    );
    Ok(())
}
