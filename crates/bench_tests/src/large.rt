// The largest room.
use crate::small::{AGAIN, END, START, breaks, broken, inspected, keeps, kept, passed};
use bench::{BenchFault, Kind, Record};
use std::test::Fail;

// 131,072 records are put, and one more is not.
#[test]
fn keep(rt: HostRuntime) -> Result<(), Fail> {
    let heap = rt.alloc();
    let mut bench = kept(65536)?;
    let mut given = vec![in heap; END.measured(0); 131073]?;
    for (record, node) in given.iter_mut().zip([START, AGAIN]) {
        *record = node.measured(0);
    }
    let mut table = vec![in heap; Record::default(); 131072]?;
    let said = bench.put(Kind::Keep, 0, given.as_slice(), table.as_mut_slice());
    assert_eq!(rt; said, Err(BenchFault::Shape));
    given.pop();
    let said = inspected(
        &mut bench,
        Kind::Keep,
        0,
        given.as_slice(),
        table.as_mut_slice(),
    );
    assert_eq!(rt; said, Ok(()));
    assert_eq!(rt; bench.state(), passed(Kind::Keep, 131072, 0));
    assert_eq!(rt; bench.release(table.as_slice())?.len(), 131072);
    Ok(())
}

#[test]
fn judged(rt: HostRuntime) -> Result<(), Fail> {
    let heap = rt.alloc();
    let mut table = vec![in heap; Record::default(); 131072]?;
    let mut work = vec![in heap; Record::default(); 65536]?;
    let said = broken(65536)?.judge(table.as_mut_slice(), work.as_mut_slice());
    assert_eq!(rt; said, breaks(6));
    let said = kept(65536)?.judge(table.as_mut_slice(), work.as_mut_slice());
    assert_eq!(rt; said, keeps(3));
    Ok(())
}
