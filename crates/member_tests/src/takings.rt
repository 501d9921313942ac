// Which words are taken, and which charts take none.
ghost use Rattle.std.specs.Prelude.{◌<◌};

use crate::questions::{is_empty, takes};
use chart::{Table, Union};
use std::array;
use std::test::Fail;

// State 0 is a start and leads to 1, and 1 leads back; 1 is marked. No state leads to itself, so a loop of one letter
// is taken in two laps, and not in one.
#[test]
fn second_lap(rt: HostRuntime) -> Result<(), Fail> {
    let rows = [0b10, 0b01];
    let chart = Table::new(2, 1, 0b01, 0b10, &rows)?;
    assert!(rt; takes(&chart, &[0], 0)?);
    assert!(rt; takes(&chart, &[0, 0, 0], 0)?);
    assert!(rt; takes(&chart, &[0, 0], 1)?);
    Ok(())
}

// Letter 0 leads from 0 to 1 and stays there, letter 1 leads back: 1 is marked, so a word is taken if it is at 1 again and
// again, which is after each letter 0.
#[test]
fn letters_of_the_loop(rt: HostRuntime) -> Result<(), Fail> {
    let rows = [0b10, 0b01, 0b10, 0b01];
    let chart = Table::new(2, 2, 0b01, 0b10, &rows)?;
    let cases: [(&[u8], usize, bool); 6] = [
        (&[0], 0, true),
        (&[0, 1], 0, true),
        (&[1, 1, 0], 2, true),
        (&[1], 0, false),
        (&[0, 1], 1, false),
        (&[0, 0, 1, 1], 2, false),
    ];
    for (letters, stem, taken) in cases {
        assert_eq!(rt; takes(&chart, letters, stem)?, taken, "{letters:?} {stem}");
    }
    Ok(())
}

// A run that breaks off is no run: 0 leads to 1 by letter 0, and 1, which is marked, leads to itself by letter 1 alone.
#[test]
fn run_breaks_off(rt: HostRuntime) -> Result<(), Fail> {
    let rows = [0b10, 0, 0, 0b10];
    let chart = Table::new(2, 2, 0b01, 0b10, &rows)?;
    assert!(rt; takes(&chart, &[0, 1], 1)?);
    assert!(rt; !takes(&chart, &[0, 1], 0)?);
    assert!(rt; !takes(&chart, &[1], 0)?);
    Ok(())
}

// State 0 leads to itself and to 1, 1 to 2, 2 to itself, and 3, to which nothing leads, to itself. A mark tells only where a run
// passes it again and again.
#[test]
fn marks(rt: HostRuntime) -> Result<(), Fail> {
    let rows = [0b0011, 0b0100, 0b0100, 0b1000];
    for (marks, taken) in [
        (0b0001, true),
        (0b0010, false),
        (0b0100, true),
        (0b1000, false),
    ] {
        let chart = Table::new(4, 1, 0b0001, marks, &rows)?;
        assert_eq!(rt; takes(&chart, &[0], 0)?, taken, "{marks}");
        assert_eq!(rt; is_empty(&chart)?, !taken, "{marks}");
    }
    let startless = Table::new(4, 1, 0, 0b1111, &rows)?;
    assert!(rt; !takes(&startless, &[0], 0)? && is_empty(&startless)?);
    Ok(())
}

// 32 states in a ring, the last of them marked: it is passed every 32 letters.
#[test]
fn ring_of_32(rt: HostRuntime) -> Result<(), Fail> {
    let rows: [u32; 32] = array::from_fn(|p| if p < 31 { 2 << p } else { 1 });
    let chart = Table::new(32, 1, 1, 1 << 31, &rows)?;
    assert!(rt; !is_empty(&chart)?);
    assert!(rt; takes(&chart, &[0], 0)?);
    assert!(rt; takes(&chart, &[0, 0, 0, 0, 0], 2)?);
    let unmarked = Table::new(32, 1, 1, 0, &rows)?;
    assert!(rt; is_empty(&unmarked)?);
    Ok(())
}

// The first takes the words that end in letter 0 for ever, the second those that end in letter 1 for ever, and their
// union takes both, and nothing else.
#[test]
fn of_a_union(rt: HostRuntime) -> Result<(), Fail> {
    let only_0 = [0b1, 0];
    let only_1 = [0b01, 0b11, 0, 0b10];
    let first = Table::new(1, 2, 0b1, 0b1, &only_0)?;
    let second = Table::new(2, 2, 0b01, 0b10, &only_1)?;
    let union = Union::new(first, second)?;
    assert!(rt; takes(&union, &[0], 0)?);
    assert!(rt; takes(&union, &[0, 1, 1], 1)?);
    assert!(rt; !takes(&union, &[0, 1], 0)?);
    assert!(rt; !takes(&union, &[1, 0], 1)?);
    assert!(rt; !is_empty(&union)?);
    Ok(())
}
