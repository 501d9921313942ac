// Examples of charts, with answers worked out by hand. They stand in a crate of their own since tests are proved too.
#![tactic(auto)]

#[cfg(test)]
mod tests {
    use chart::{Chart, Fitted, Table, Union};
    use fault::ChartFault;
    use std::process::Abort;
    use std::test::Fail;

    // What a table of n states and k letters is refused by, if it is.
    fn refused(n: u8, k: u8, rows: &[u32]) -> Option<ChartFault> {
        Table::new(n, k, 0, 0, rows).err()
    }

    // What a union of tables of so many states and letters is refused by, if it is.
    fn disunited(n: u8, k: u8, m: u8, l: u8) -> Result<Option<ChartFault>, ChartFault> {
        let rows = [0; 64];
        let first = Table::new(n, k, 0, 0, &rows)?;
        let second = Table::new(m, l, 0, 0, &rows)?;
        Ok(Union::new(first, second).err())
    }

    // The states below 40 of which it holds, as the bits of a number.
    fn set_of<F: Fn(u8) -> bool>(has: F) -> u64
        requires { F.IsAlwaysCallable has }
    {
        let mut set = 0;
        for q in 0..40u8 {
            if has(q) {
                set |= 1 << q;
            }
        }
        set
    }

    // The states that steps lead to.
    fn steps<C: Chart>(c: &C, p: u8, i: u8) -> u64 {
        set_of(|q| c.has_step(p, i, q))
    }

    // These are how many states and letters it has, its starts and its marks.
    fn has<C: Chart>(rt: &impl Abort, c: &C, states: u8, letters: u8, starts: u64, marks: u64) {
        assert_eq!(rt; [c.states(), c.letters()], [states, letters]);
        assert_eq!(rt; set_of(|q| c.is_start(q)), starts);
        assert_eq!(rt; set_of(|q| c.is_marked(q)), marks);
    }

    // 2 states and letters: 0 is the start, 1 is marked; a leads from 0 to 1 and from 1 to both, b from 0 to 0.
    fn small() -> Result<Table<'static>, ChartFault> {
        Table::new(2, 2, 0b01, 0b10, &[0b10, 0b01, 0b11, 0b00])
    }

    // 3 states and 2 letters: 0 and 2 are starts, 1 is marked; a leads from 0 to 0, from 1 to 2 and from 2 to 1 and 2,
    // b from 0 to 1 and from 2 to 0.
    fn large() -> Result<Table<'static>, ChartFault> {
        Table::new(
            3,
            2,
            0b101,
            0b010,
            &[0b001, 0b010, 0b100, 0b000, 0b110, 0b001],
        )
    }

    // 1 to 32 states and 1 to 16 letters, and a row for each pair of them. The limits are told before the rows.
    #[test]
    fn limits(rt: HostRuntime) {
        let rows = [0; 528];
        let (limits, few) = (Some(ChartFault::Limits), Some(ChartFault::FewRows));
        let cases = [
            (1, 1, 1, None),
            (1, 1, 0, few),
            (3, 2, 6, None),
            (3, 2, 5, few),
            (32, 16, 512, None),
            (32, 16, 511, few),
            (0, 1, 528, limits),
            (33, 1, 528, limits),
            (1, 0, 528, limits),
            (1, 17, 528, limits),
            (33, 16, 0, limits),
        ];
        for (states, letters, count, told) in cases {
            let lent = rows.get(..count).unwrap_or_default();
            assert_eq!(rt;
                refused(states, letters, lent),
                told,
                "{states} {letters} {count}"
            );
        }
    }

    // Every bit of every row is set, and there is a row too many: yes within 2 states and 2 letters, and no outside.
    #[test]
    fn further_bits(rt: HostRuntime) -> Result<(), Fail> {
        let t = Table::new(2, 2, u32::MAX, u32::MAX, &[u32::MAX; 5])?;
        has(&rt, &t, 2, 2, 0b11, 0b11);
        assert_eq!(rt;
            [steps(&t, 1, 1), steps(&t, 2, 0), steps(&t, 0, 2)],
            [0b11, 0, 0]
        );
        assert_eq!(rt; steps(&t, 255, 255), 0);
        let outside = [t.is_start(255), t.is_marked(255), t.has_step(0, 0, 255)];
        assert_eq!(rt; outside, [false; 3]);
        Ok(())
    }

    // All 32 states and 16 letters: the highest bit and the last row count.
    #[test]
    fn widest(rt: HostRuntime) -> Result<(), Fail> {
        let mut rows = [0; 512];
        rows[511] = 1 << 31;
        let t = Table::new(32, 16, 1 << 31, 1 << 31, &rows)?;
        has(&rt, &t, 32, 16, 1 << 31, 1 << 31);
        assert_eq!(rt; [steps(&t, 31, 15), steps(&t, 31, 14)], [1 << 31, 0]);
        Ok(())
    }

    // Small, large, large, small: each one's states come after those before it, so its sets are shifted by 2, 5 and 8.
    #[test]
    fn unions(rt: HostRuntime) -> Result<(), Fail> {
        let first = Union::new(small()?, large()?)?;
        let second = Union::new(large()?, small()?)?;
        let u = Union::new(first, second)?;
        has(&rt, &u, 10, 2, 0b01_101_101_01, 0b10_010_010_10);
        let cases = [
            (1, 0, 0b11),
            (1, 1, 0),
            (3, 0, 0b100_00),
            (4, 0, 0b110_00),
            (4, 1, 0b001_00),
            (5, 1, 0b010_00000),
            (7, 0, 0b110_00000),
            (8, 0, 0b10_00000000),
            (9, 0, 0b11_00000000),
            (10, 0, 0),
            (9, 2, 0),
        ];
        for (p, i, next) in cases {
            assert_eq!(rt; steps(&u, p, i), next, "from {p} by {i}");
        }
        Ok(())
    }

    // 32 states together are the most, and the letters have to be as many.
    #[test]
    fn union_refused(rt: HostRuntime) -> Result<(), Fail> {
        let limits = Some(ChartFault::Limits);
        assert_eq!(rt;
            [disunited(16, 2, 16, 2)?, disunited(31, 1, 1, 1)?],
            [None, None]
        );
        assert_eq!(rt;
            [disunited(16, 2, 17, 2)?, disunited(32, 1, 1, 1)?],
            [limits, limits]
        );
        assert_eq!(rt;
            [disunited(2, 1, 2, 2)?, disunited(2, 2, 2, 1)?],
            [limits, limits]
        );
        Ok(())
    }

    // It answers as the chart in it.
    #[test]
    fn fitted(rt: HostRuntime) -> Result<(), Fail> {
        let f = Fitted::new(large()?);
        has(&rt, &f, 3, 2, 0b101, 0b010);
        assert_eq!(rt;
            [steps(&f, 2, 0), steps(&f, 0, 1), steps(&f, 3, 0)],
            [0b110, 0b010, 0]
        );
        Ok(())
    }
}
