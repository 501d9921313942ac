// Places, the places after them, and the elements at positions.
use lasso::{Lasso, LassoFault};
use std::process::Abort;
use std::test::Fail;

// The positions have these places.
fn stands(
    rt: &impl Abort,
    elements: &[u8],
    stem: usize,
    places: &[(usize, usize)],
) -> Result<(), LassoFault> {
    let word = Lasso { elements, stem };
    for (position, place) in places {
        assert_eq!(rt; word.place(*position)?, *place, "{} from {stem}", *position);
    }
    Ok(())
}

// Up to the last place a position is its own place. Then the loop's come again and again. 2^64 is 1 more than a multiple of 3, and
// 2^64 - 1 a multiple of 5.
#[test]
fn laps(rt: HostRuntime) -> Result<(), Fail> {
    let last = usize::MAX;
    let of_three = [
        (1, 1),
        (4, 4),
        (5, 2),
        (10, 4),
        (3_000_002, 2),
        (last - 1, 2),
        (last, 3),
    ];
    stands(&rt, &[0; 5], 2, &of_three)?;
    stands(
        &rt,
        &[0; 5],
        0,
        &[(4, 4), (5, 0), (5_000_003, 3), (last, 0)],
    )?;
    stands(&rt, &[0; 5], 4, &[(3, 3), (4, 4), (5, 4), (last, 4)])?;
    Ok(())
}

// 2^64 is a multiple of 131,072. And 2^17 is 1 more than a multiple of 131,071, so 2^64, which is 2^13 times the third
// power of 2^17, is 8,192 more than one: position 2^64 - 1 is 8,190 more than one behind place 1.
#[test]
fn most_elements(rt: HostRuntime) -> Result<(), Fail> {
    let letters = vec![in rt.alloc(); 3u8; 131_072]?;
    let word = letters.as_slice();
    let last = usize::MAX;
    stands(
        &rt,
        word,
        0,
        &[(131_071, 131_071), (131_072, 0), (last, 131_071)],
    )?;
    stands(
        &rt,
        word,
        1,
        &[(131_072, 1), (262_142, 131_071), (last, 8191)],
    )?;
    stands(&rt, word, 131_071, &[(131_070, 131_070), (last, 131_071)])?;
    Ok(())
}

// An element that cannot be copied.
#[derive(Drop, PartialEq, Eq, Debug)]
struct Owned {
    state: u32,
}

// The stem is 10, the loop is 11 and 12, and each element is lent as it is. The last place is followed by the loop place, and so is
// a place behind it.
#[test]
fn elements(rt: HostRuntime) -> Result<(), Fail> {
    let owned = [
        Owned { state: 10 },
        Owned { state: 11 },
        Owned { state: 12 },
    ];
    let lasso = Lasso {
        elements: &owned,
        stem: 1,
    };
    let told = [lasso.element(0)?, lasso.element(2)?, lasso.element(3)?];
    assert_eq!(rt; told, [&owned[0], &owned[2], &owned[1]]);
    assert_eq!(rt; lasso.element(usize::MAX)?.state, 11);
    let after = [lasso.after(0)?, lasso.after(2)?, lasso.after(usize::MAX)?];
    assert_eq!(rt; after, [1, 1, 1]);
    assert_eq!(rt; lasso.after(1)?, 2);
    Ok(())
}
