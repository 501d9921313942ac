// The most states and letters, with answers by hand, and refusals.
use crate::expected::{begins, leads, map_of, no_nodes};
use chart::Table;
use fault::{ChartFault, Fault, Refusal};
use graph::Map;
use lasso::NO_WORD;
use ranked::{Instance, InstanceFault};
use samples::{Node, node};
use std::test::Fail;

// 32 states, of which 0, 17 and 31 are starts and 31 is marked, and 16 letters. The last leads from 0 to 31, and from 31 to 0
// and 31.
fn rows_of_duty() -> [u32; 512] {
    let mut rows = [0; 512];
    rows[15] = 1 << 31;
    rows[511] = (1 << 31) + 1;
    rows
}

fn duty(rows: &[u32; 512]) -> Result<Table<'_>, ChartFault> {
    Table::new(32, 16, (1 << 31) + (1 << 17) + 1, 1 << 31, rows)
}

// State 5 of the rule is the start, is marked, and leads to itself by the last letter: it has even ranks.
#[test]
fn last_state_of_rule(rt: HostRuntime) -> Result<(), Fail> {
    let rows = rows_of_duty();
    let mut loops = [0; 96];
    loops[95] = 1 << 5;
    let map = map_of(duty(&rows)?, Table::new(6, 16, 1 << 5, 1 << 5, &loops)?)?;
    assert_eq!(rt; map.letters(NO_WORD), 16);
    let last = node!(31: [- - - - -12]);
    begins(
        &rt,
        &map,
        &[node!(0: [- - - - -12]), node!(17: [- - - - -12]), last],
    );
    let by_last = [
        node!(0: [- - - - - 0] owed 0b100000 turn),
        node!(31: [- - - - - 0] owed 0b100000 turn),
        node!(0: [- - - - - 2] owed 0b100000 turn),
        node!(31: [- - - - - 2] owed 0b100000 turn),
        node!(0: [- - - - - 4] owed 0b100000 turn),
        node!(31: [- - - - - 4] owed 0b100000 turn),
        node!(0: [- - - - - 6] owed 0b100000 turn),
        node!(31: [- - - - - 6] owed 0b100000 turn),
        node!(0: [- - - - - 8] owed 0b100000 turn),
        node!(31: [- - - - - 8] owed 0b100000 turn),
        node!(0: [- - - - - 10] owed 0b100000 turn),
        node!(31: [- - - - - 10] owed 0b100000 turn),
        node!(0: [- - - - - 12] owed 0b100000 turn),
        node!(31: [- - - - - 12] owed 0b100000 turn),
    ];
    leads(&rt, &map, last, 15, &by_last);
    for letter in [0, 14, 16, 255] {
        leads(&rt, &map, last, letter, &[]);
    }
    leads(
        &rt,
        &map,
        node!(31: [- - - - - 2] owed 0b100000),
        15,
        &by_last[0..4],
    );
    no_nodes(
        &rt,
        &map,
        &[
            node!(31: [- - - - -1]).number(),
            node!(31: [- - - - -14]).number(),
            last.number() | 1 << 36,
        ],
    );
    Ok(())
}

// Nodes, and beside each the least one that is not below it to which the last letter leads from the duty's state 31 and rank 12
// everywhere.
const LEAST: [(Node, Option<Node>); 8] = [
    // rank 0 everywhere, so all are owed
    (
        node!(1: [0 0 0 0 0 0] owed 0b111111 turn),
        Some(node!(31: [0 0 0 0 0 0] owed 0b111111 turn)),
    ),
    // rank 1 of state 0, which is not owed
    (
        node!(0: [1 0 0 0 0 0]),
        Some(node!(0: [1 0 0 0 0 0] owed 0b111110 turn)),
    ),
    // no greater rank of state 0: the next one of state 1
    (
        node!(0: [13 0 0 0 0 0]),
        Some(node!(0: [0 1 0 0 0 0] owed 0b111101 turn)),
    ),
    (
        node!(31: [12 0 0 0 0 0] owed 0b111111 turn),
        Some(node!(31: [12 0 0 0 0 0] owed 0b111111 turn)),
    ),
    // state 2 has no odd rank
    (
        node!(0: [0 0 1 0 0 0]),
        Some(node!(0: [0 0 2 0 0 0] owed 0b111111 turn)),
    ),
    // rank 12 everywhere
    (
        node!(1: [12 12 12 12 12 12] owed 0b111111 turn),
        Some(node!(31: [12 12 12 12 12 12] owed 0b111111 turn)),
    ),
    (
        node!(31: [12 12 12 12 12 12] owed 0b111111 turn),
        Some(node!(31: [12 12 12 12 12 12] owed 0b111111 turn)),
    ),
    (node!(0: [13 12 12 12 12 12]), None),
];

// All 6 states of the rule are starts, and each leads to all by the last letter. State 2 is marked. There are 13 ranks for each of
// five states and 7 for the sixth, so only some successors are told.
#[test]
fn all_states_of_rule(rt: HostRuntime) -> Result<(), Fail> {
    let rows = rows_of_duty();
    let mut full = [0; 96];
    for p in 0..6usize {
        full[p * 16 + 15] = 0b111111;
    }
    let map = map_of(duty(&rows)?, Table::new(6, 16, 0b111111, 0b100, &full)?)?;
    let still = node!(17: [12 12 12 12 12 12]);
    let last = node!(31: [12 12 12 12 12 12]);
    begins(&rt, &map, &[node!(0: [12 12 12 12 12 12]), still, last]);
    leads(&rt, &map, still, 15, &[]);
    for (from, least) in LEAST {
        let (last, from) = (last.number(), from.number());
        let least = least.map(|node| node.number());
        assert_eq!(rt;
            map.least_next(NO_WORD, last, 15, from),
            least,
            "from {from}"
        );
    }
    let beyond = [
        node!(31: [12 12 13 12 12 12]),
        node!(31: [12 12 12 12 12 13] owed 0b111111 turn),
        node!(31: [12 13 12 12 12 12] owed 0b111111 turn),
    ];
    no_nodes(&rt, &map, &beyond.map(|node| node.number()));
    no_nodes(&rt, &map, &[last.number() | 1 << 36]);
    Ok(())
}

// Why a duty of so many letters does not go with a rule of so many states and letters.
fn refused(letters: u8, states: u8, of_rule: u8) -> Result<Option<InstanceFault>, ChartFault> {
    let rows = [0; 512];
    let duty = Table::new(32, letters, 0, 0, &rows)?;
    let rule = Table::new(states, of_rule, 0, 0, &rows)?;
    Ok(Instance::new(duty, rule).err())
}

// 5 comes before 6.
#[test]
fn refusals(rt: HostRuntime) -> Result<(), Fail> {
    let (letters, states) = (InstanceFault::Letters, InstanceFault::States);
    let cases = [
        (1, 6, 1, None),
        (16, 6, 16, None),
        (2, 7, 2, Some(states)),
        (2, 32, 2, Some(states)),
        (2, 1, 3, Some(letters)),
        (16, 6, 15, Some(letters)),
        (2, 7, 3, Some(letters)),
    ];
    for (of_duty, rule, of_rule, told) in cases {
        assert_eq!(rt;
            refused(of_duty, rule, of_rule)?,
            told,
            "{of_duty} {rule} {of_rule}"
        );
    }
    let told = [letters.refusal(), states.refusal()];
    assert_eq!(rt; told, [Refusal::plain(5), Refusal::plain(6)]);
    Ok(())
}
