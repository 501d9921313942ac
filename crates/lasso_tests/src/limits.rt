// How many elements a lasso may have, where its loop may begin, and which letters a word may have.
use fault::{Fault, Refusal};
use lasso::{LassoFault, Word};
use std::test::Fail;

const LIMITS: Option<LassoFault> = Some(LassoFault::Limits);

const LETTER: Option<LassoFault> = Some(LassoFault::Letter);

// What the five functions that are handed a lasso are told of a word, by a chart of so many letters.
fn told(word: Word<'_>, letters: u8) -> [Option<LassoFault>; 5] {
    [
        word.check().err(),
        word.place(0).err(),
        word.after(0).err(),
        word.element(0).err(),
        word.check_letters(letters).err(),
    ]
}

// It has 1 to 131,072 elements, and its loop has one of them at least. Every function has the same limits.
#[test]
fn lengths_and_loop_places(rt: HostRuntime) -> Result<(), Fail> {
    let letters = vec![in rt.alloc(); 0u8; 131_073]?;
    let cases = [
        (0, 0, LIMITS),
        (0, usize::MAX, LIMITS),
        (1, 0, None),
        (1, 1, LIMITS),
        (5, 4, None),
        (5, 5, LIMITS),
        (5, usize::MAX, LIMITS),
        (131_072, 0, None),
        (131_072, 131_071, None),
        (131_072, 131_072, LIMITS),
        (131_073, 0, LIMITS),
        (131_073, 131_072, LIMITS),
    ];
    for (count, stem, refused) in cases {
        let elements = letters.get(..count).unwrap_or_default();
        assert_eq!(rt;
            told(Word { elements, stem }, 1),
            [refused; 5],
            "{count} {stem}"
        );
    }
    Ok(())
}

// A letter that is none of the chart's is found in the stem and in the loop, at the first place and at the last. The limits are told
// before it.
#[test]
fn letters(rt: HostRuntime) {
    let cases: [(&[u8], usize, u8, Option<LassoFault>); 10] = [
        (&[0, 2, 1], 0, 3, None),
        (&[0, 1, 0, 2], 0, 2, LETTER),
        (&[0, 1, 0, 2], 3, 2, LETTER),
        (&[2, 1, 0, 1], 2, 2, LETTER),
        (&[15], 0, 16, None),
        (&[16], 0, 16, LETTER),
        (&[254], 0, 255, None),
        (&[255], 0, 255, LETTER),
        (&[0], 0, 0, LETTER),
        (&[9, 9], 2, 3, LIMITS),
    ];
    for (elements, stem, letters, refused) in cases {
        assert_eq!(rt;
            Word { elements, stem }.check_letters(letters).err(),
            refused,
            "{stem} {letters}"
        );
    }
}

#[test]
fn refusals(rt: HostRuntime) {
    let eight = Refusal {
        number: 8,
        place: 0,
        rule: None,
    };
    let told = [LassoFault::Limits.refusal(), LassoFault::Letter.refusal()];
    assert_eq!(rt; told, [eight, eight]);
}
