// The most states of a duty and of a rule, and the most letters. The verdicts are by hand too; they and the counts come from
// tests/compare_verdicts.py, which finds the verdicts by the effects of words on the charts, and counts the nodes by the
// sets of tests/ranked_graph.py.
ghost use Rattle.std.specs.Prelude.{◌<◌};

use crate::small::{FULL, breaks, keeps, told};
use chart::{Chart, Table};
use samples::{every_second, marked, unmarked};
use std::alloc::Global;
use std::array;
use std::process::Abort;
use std::test::Fail;

// With room for one node less the pair is refused, and with just enough the rule takes all that the duty takes, or not.
fn needs<D: Chart + Copy, R: Chart + Copy>(
    rt: &impl Abort,
    heap: Global,
    duty: &D,
    rule: &R,
    nodes: usize,
    kept: bool,
) -> Result<(), Fail> {
    assert_eq!(rt;
        told(heap, *duty, *rule, nodes.saturating_sub(1))?,
        FULL,
        "{nodes}"
    );
    let said = if kept { keeps(nodes) } else { breaks(nodes) };
    assert_eq!(rt; told(heap, *duty, *rule, nodes)?, said, "{nodes}");
    Ok(())
}

// A duty that is a ring of 32 states, of which the last is marked, and a rule that is a ring of 6, of which the last is marked,
// or none.
#[test]
fn rings(rt: HostRuntime) -> Result<(), Fail> {
    let heap = rt.alloc();
    let rows: [u32; 32] = array::from_fn(|p| if p < 31 { 2 << p } else { 1 });
    let duty = Table::new(32, 1, 0b1, 1 << 31, &rows)?;
    needs(&rt, heap, &duty, &marked()?, 127, true)?;
    needs(&rt, heap, &duty, &unmarked()?, 192, false)?;
    needs(&rt, heap, &duty, &every_second()?, 252, true)?;
    let rows = [0b10, 0b100, 0b1000, 0b10000, 0b100000, 0b1];
    let last = Table::new(6, 1, 0b1, 0b100000, &rows)?;
    needs(&rt, heap, &marked()?, &last, 127, true)?;
    let none = Table::new(6, 1, 0b1, 0b0, &rows)?;
    needs(&rt, heap, &marked()?, &none, 151, false)
}

// Letter a leads on from each state, and from the last to itself, and b leads back to the first. The last is marked.
fn climb(last: usize) -> [u32; 64]
    requires { last < 32 }
{
    array::from_fn(
        |at|
            requires { last < 32 }
        {
            if at % 2 == 1 {
                1
            } else if at / 2 < last {
                2 << (at / 2)
            } else {
                1 << last
            }
        },
    )
}

// A climb of 32 states takes the words that have 31 times a in a row again and again, and one of 6 states those with 5 times.
#[test]
fn climb_of_32(rt: HostRuntime) -> Result<(), Fail> {
    let heap = rt.alloc();
    let rows = climb(31);
    let duty = Table::new(32, 2, 0b1, 1 << 31, &rows)?;
    let again_a = Table::new(2, 2, 0b01, 0b10, &[0b10, 0b01, 0b10, 0b01])?;
    needs(&rt, heap, &duty, &again_a, 197, true)?;
    let again_b = Table::new(2, 2, 0b01, 0b10, &[0b01, 0b10, 0b01, 0b10])?;
    needs(&rt, heap, &duty, &again_b, 317, false)?;
    let six = climb(5);
    let rule = Table::new(6, 2, 0b1, 1 << 5, &six)?;
    needs(&rt, heap, &duty, &rule, 509, true)
}

// Of 16 letters: every word; those with the last letter again and again; those with no other letter from some position on.
#[test]
fn letters_16(rt: HostRuntime) -> Result<(), Fail> {
    let heap = rt.alloc();
    let mut again = [0b01; 32];
    again[15] = 0b10;
    again[31] = 0b10;
    let mut only = [0b00; 32];
    for row in &mut only[0..15] {
        *row = 0b01;
    }
    only[15] = 0b11;
    only[31] = 0b10;
    let every = Table::new(1, 16, 0b1, 0b1, &[0b1; 16])?;
    let again = Table::new(2, 16, 0b01, 0b10, &again)?;
    let only = Table::new(2, 16, 0b01, 0b10, &only)?;
    needs(&rt, heap, &every, &again, 15, false)?;
    needs(&rt, heap, &again, &every, 9, true)?;
    needs(&rt, heap, &again, &again, 17, true)?;
    needs(&rt, heap, &only, &again, 15, true)?;
    needs(&rt, heap, &again, &only, 47, false)
}
