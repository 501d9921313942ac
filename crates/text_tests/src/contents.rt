// What loading leaves in the rows, and the chart that is made from it.
use crate::altered::of_states;
use chart::{Chart, Table};
use fault::{ChartFault, TextFault};
use std::test::Fail;
use text::{Loaded, load};

// 2 states and 3 letters: 0 is the start and 1 is marked. The step from 0 by a to 1 is told twice.
const CHART: &str =
    "letters\n3\nstate start mark\n0 > .\n1 . *\nfrom by to\n0 a 1\n0 # 0\n1 c 1\n0 a 1\n1 b 0\n1 c 0\n";

// The numbers and the two sets: one line in an assertion, where a Loaded takes six.
fn numbers(chart: Loaded) -> [u32; 4] {
    [
        chart.states as u32,
        chart.letters as u32,
        chart.starts,
        chart.marks,
    ]
}

// State 0 leads by a to both, by b and c to itself; state 1 by a nowhere, by b to 0, by c to both. Whatever the rows held is gone,
// the bits beyond the states too, and the words behind the 6 rows stay.
#[test]
fn rows_in_use(rt: HostRuntime) -> Result<(), Fail> {
    let mut rows = [u32::MAX; 9];
    rows[7] = 5;
    let chart = load(CHART.as_bytes(), &mut rows)?;
    assert_eq!(rt; numbers(chart), [2, 3, 0b01, 0b10]);
    assert_eq!(rt;
        rows,
        [0b11, 0b01, 0b01, 0b00, 0b01, 0b11, u32::MAX, 5, u32::MAX]
    );
    Ok(())
}

// The 16 letters in their order: letter i leads from 0 to 1 where i is even.
#[test]
fn letters(rt: HostRuntime) -> Result<(), Fail> {
    let mut rows = [u32::MAX; 32];
    let text =
        b"letters\n16\nstate start mark\n0 . *\n1 > *\nfrom by to\n0 a 1\n0 c 1\n0 e 1\n0 g 1\n0 i 1\n0 k 1\n0 m 1\n0 o 1\n1 p 0\n";
    let chart = load(text, &mut rows)?;
    assert_eq!(rt; numbers(chart), [2, 16, 0b10, 0b11]);
    let first = [
        0b10, 0, 0b10, 0, 0b10, 0, 0b10, 0, 0b10, 0, 0b10, 0, 0b10, 0, 0b10, 0,
    ];
    let second = [0, 0, 0, 0, 0, 0, 0, 0, 0, 0, 0, 0, 0, 0, 0, 0b01];
    assert_eq!(rt; &rows[0..16], first.as_slice());
    assert_eq!(rt; &rows[16..32], second.as_slice());
    Ok(())
}

// All 32 states and 16 letters: state 31 has the rows from 496 on, and steps by every letter to 0, by p to itself too.
#[test]
fn widest(rt: HostRuntime) -> Result<(), Fail> {
    let text = of_states(rt.alloc(), 32, "from by to\n31 p 31\n31 # 0\n")?;
    let mut rows = [u32::MAX; 513];
    let l = load(text.as_bytes(), &mut rows)?;
    assert_eq!(rt; numbers(l), [32, 16, u32::MAX, u32::MAX]);
    assert_eq!(rt;
        [
            rows[0], rows[495], rows[496], rows[510], rows[511], rows[512],
        ],
        [0, 0, 1, 1, 1 << 31 | 1, u32::MAX]
    );
    let t = Table::new(l.states, l.letters, l.starts, l.marks, &rows)?;
    assert!(rt; t.has_step(31, 15, 31) && t.has_step(31, 14, 0));
    assert!(rt; !t.has_step(31, 14, 31) && !t.has_step(30, 15, 31));
    assert!(rt; t.is_start(31) && t.is_marked(31) && !t.is_start(32) && !t.is_marked(32));
    Ok(())
}

// Bytes that are no text are in no line.
#[test]
fn bytes(rt: HostRuntime) {
    let mut rows = [0; 1];
    let fault = ChartFault::Text(TextFault::Form(2));
    assert_eq!(rt; load(b"letters\n\xff\n", &mut rows).err(), Some(fault));
    assert_eq!(rt; load(b"letters\n1\0\n", &mut rows).err(), Some(fault));
}
