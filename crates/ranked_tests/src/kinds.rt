// Tables, unions and fitted charts, as the duty and as the rule: their map answers as that of tables that mean the same. The nodes
// come from tests/ranked_graph.py.
use crate::expected::{Whole, holds, map_of, rows};
use chart::Fitted;
use samples::{by_letters, node, one_of_each};
use std::test::Fail;

// State 0 of the duty is marked, and state 1 of the rule.
const BY_LETTERS: Whole = Whole {
    starts: &[node!(0: [4 4]), node!(1: [4 4])],
    rows: rows![
        (0: [0 -] owed 0b01) => [(0: [0 -] owed 0b01 turn)] [];
        (0: [0 -] owed 0b01 turn) => [(0: [0 -] owed 0b01 turn)] [];
        (0: [1 -]) => [(0: [0 -] owed 0b01 turn), (0: [1 -] turn)] [];
        (0: [1 -] turn) => [(0: [0 -] owed 0b01), (0: [1 -])] [];
        (0: [2 -] owed 0b01) =>
            [(0: [0 -] owed 0b01 turn), (0: [1 -] turn), (0: [2 -] owed 0b01 turn)]
            [];
        (0: [2 -] owed 0b01 turn) =>
            [(0: [0 -] owed 0b01 turn), (0: [1 -] turn), (0: [2 -] owed 0b01 turn)]
            [];
        (0: [3 -]) =>
            [(0: [0 -] owed 0b01 turn), (0: [1 -] turn), (0: [2 -] owed 0b01 turn),
             (0: [3 -] turn)]
            [];
        (0: [3 -] turn) => [(0: [0 -] owed 0b01), (0: [1 -]), (0: [2 -] owed 0b01), (0: [3 -])] [];
        (0: [4 -] owed 0b01 turn) =>
            [(0: [0 -] owed 0b01 turn), (0: [1 -] turn), (0: [2 -] owed 0b01 turn),
             (0: [3 -] turn), (0: [4 -] owed 0b01 turn)]
            [];
        (1: [- 0] owed 0b10) => [] [(1: [- 0] owed 0b10)];
        (1: [- 2] owed 0b10) => [] [(1: [- 0] owed 0b10), (1: [- 2] owed 0b10)];
        (1: [- 4] owed 0b10) =>
            []
            [(1: [- 0] owed 0b10), (1: [- 2] owed 0b10), (1: [- 4] owed 0b10)];
        (0: [4 4]) =>
            [(0: [0 -] owed 0b01 turn), (0: [1 -] turn), (0: [2 -] owed 0b01 turn),
             (0: [3 -] turn), (0: [4 -] owed 0b01 turn)]
            [];
        (1: [4 4]) => [] [(1: [- 0] owed 0b10), (1: [- 2] owed 0b10), (1: [- 4] owed 0b10)];
    ],
    marked: &[node!(0: [1 -] turn), node!(0: [3 -] turn)],
    witnesses: &[node!(0: [1 -] turn), node!(0: [3 -] turn)],
    measures: &[],
};

#[test]
fn tables(rt: HostRuntime) -> Result<(), Fail> {
    holds(
        &rt,
        &map_of(by_letters(0b01)?, by_letters(0b10)?)?,
        &BY_LETTERS,
    )
}

#[test]
fn unions_and_fitted_charts(rt: HostRuntime) -> Result<(), Fail> {
    let (duty, rule) = (one_of_each(true, false)?, one_of_each(false, true)?);
    holds(&rt, &map_of(duty, Fitted::new(rule))?, &BY_LETTERS)
}
