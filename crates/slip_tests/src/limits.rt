// Slips of every length and loop place.
use fault::{Fault, Refusal};
use lasso::LassoFault;
use slip::{Kind, Record, Slip, SlipFault};
use std::test::Fail;

// At most 131,072 records; a keep slip has loop place 0, and a break slip that of a record. Where neither holds, it is the records
// that are told.
#[test]
fn made(rt: HostRuntime) -> Result<(), Fail> {
    let all = vec![in rt.alloc(); Record::default(); 131074]?;
    let (limits, shape) = (
        Some(SlipFault::Lasso(LassoFault::Limits)),
        Some(SlipFault::Shape),
    );
    let cases = [
        (Kind::Keep, 0, 0, None),
        (Kind::Keep, 1, 0, shape),
        (Kind::Keep, usize::MAX, 3, shape),
        (Kind::Keep, 0, 131072, None),
        (Kind::Keep, 1, 131072, shape),
        (Kind::Keep, 0, 131073, limits),
        (Kind::Keep, 1, 131073, limits),
        (Kind::Break, 0, 0, shape),
        (Kind::Break, 0, 1, None),
        (Kind::Break, 1, 1, shape),
        (Kind::Break, usize::MAX, 3, shape),
        (Kind::Break, 131071, 131072, None),
        (Kind::Break, 131072, 131072, shape),
        (Kind::Break, 0, 131073, limits),
        (Kind::Break, usize::MAX, 131074, limits),
    ];
    for (kind, stem, count, refused) in cases {
        let lent = all.get(..count).unwrap_or_default();
        assert_eq!(rt; lent.len(), count);
        let slip = Slip::new(kind, stem, lent);
        assert_eq!(rt; slip.err(), refused, "{kind} {stem} {count}");
    }
    Ok(())
}

#[test]
fn refusals(rt: HostRuntime) {
    let limits = SlipFault::from(LassoFault::Limits);
    let told = [limits.refusal(), SlipFault::Shape.refusal()];
    assert_eq!(rt; told, [Refusal::plain(8), Refusal::plain(9)]);
}
