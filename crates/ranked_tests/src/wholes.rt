// Small ranked graphs as wholes, and what a search of them finds, as tests/ranked_graph.py tells it.
use crate::expected::{Whole, begins, holds, map_of, rows};
use chart::Table;
use samples::{Node, every_second, looping, marked, node, still, unmarked};
use std::test::Fail;

const MARKED_AND_UNMARKED: Whole = Whole {
    starts: &[node!(0: [2])],
    rows: rows![
        (0: [0] owed 0b1) => [(0: [0] owed 0b1 turn)];
        (0: [0] owed 0b1 turn) => [(0: [0] owed 0b1 turn)];
        (0: [1]) => [(0: [0] owed 0b1 turn), (0: [1] turn)];
        (0: [1] turn) => [(0: [0] owed 0b1), (0: [1])];
        (0: [2]) => [(0: [0] owed 0b1 turn), (0: [1] turn), (0: [2] owed 0b1 turn)];
        (0: [2] owed 0b1 turn) => [(0: [0] owed 0b1 turn), (0: [1] turn), (0: [2] owed 0b1 turn)];
    ],
    marked: &[node!(0: [1] turn)],
    witnesses: &[node!(0: [1] turn)],
    measures: &[],
};

#[test]
fn marked_and_unmarked(rt: HostRuntime) -> Result<(), Fail> {
    holds(&rt, &map_of(marked()?, unmarked()?)?, &MARKED_AND_UNMARKED)
}

const EVERY_SECOND: Whole = Whole {
    starts: &[node!(0: [4 -])],
    rows: rows![
        (0: [0 -] owed 0b01 turn) => [(0: [- 0] owed 0b10 turn)];
        (0: [1 -] turn) => [(0: [- 0] owed 0b10)];
        (0: [2 -] owed 0b01 turn) => [(0: [- 0] owed 0b10 turn), (0: [- 2] owed 0b10 turn)];
        (0: [3 -] turn) => [(0: [- 0] owed 0b10), (0: [- 2] owed 0b10)];
        (0: [4 -]) =>
            [(0: [- 0] owed 0b10 turn), (0: [- 2] owed 0b10 turn), (0: [- 4] owed 0b10 turn)];
        (0: [4 -] owed 0b01 turn) =>
            [(0: [- 0] owed 0b10 turn), (0: [- 2] owed 0b10 turn), (0: [- 4] owed 0b10 turn)];
        (0: [- 0] owed 0b10) => [(0: [0 -] owed 0b01 turn)];
        (0: [- 0] owed 0b10 turn) => [(0: [0 -] owed 0b01 turn)];
        (0: [- 2] owed 0b10) =>
            [(0: [0 -] owed 0b01 turn), (0: [1 -] turn), (0: [2 -] owed 0b01 turn)];
        (0: [- 2] owed 0b10 turn) =>
            [(0: [0 -] owed 0b01 turn), (0: [1 -] turn), (0: [2 -] owed 0b01 turn)];
        (0: [- 4] owed 0b10 turn) =>
            [(0: [0 -] owed 0b01 turn), (0: [1 -] turn), (0: [2 -] owed 0b01 turn),
             (0: [3 -] turn), (0: [4 -] owed 0b01 turn)];
    ],
    marked: &[node!(0: [1 -] turn), node!(0: [3 -] turn)],
    witnesses: &[],
    measures: &[0, 1, 1, 2, 2, 2, 0, 0, 1, 1, 2],
};

// A rule of two states in turn, of which the second is marked: marked nodes that lie on no cycle.
#[test]
fn marked_loop_and_every_second(rt: HostRuntime) -> Result<(), Fail> {
    holds(&rt, &map_of(marked()?, every_second()?)?, &EVERY_SECOND)
}

const CHOICES: Whole = Whole {
    starts: &[node!(0: [4 -])],
    rows: rows![
        (1: [- -]) => [] [(1: [- -] turn)];
        (1: [- -] turn) => [] [(1: [- -])];
        (0: [4 -]) =>
            [(1: [- -])]
            [(0: [- 0] owed 0b10), (1: [- 0] owed 0b10), (0: [- 2] owed 0b10),
             (1: [- 2] owed 0b10), (0: [- 4] owed 0b10), (1: [- 4] owed 0b10)];
        (0: [- 0] owed 0b10) => [(1: [0 0] owed 0b11)] [(0: [- 0] owed 0b10), (1: [- 0] owed 0b10)];
        (1: [- 0] owed 0b10) => [] [(1: [- 0] owed 0b10 turn)];
        (1: [- 0] owed 0b10 turn) => [] [(1: [- 0] owed 0b10 turn)];
        (1: [0 0] owed 0b11) => [] [(1: [- 0] owed 0b10 turn)];
        (1: [1 0] owed 0b10) => [] [(1: [- 0] owed 0b10 turn)];
        (1: [2 0] owed 0b11) => [] [(1: [- 0] owed 0b10 turn)];
        (1: [3 0] owed 0b10) => [] [(1: [- 0] owed 0b10 turn)];
        (1: [4 0] owed 0b11) => [] [(1: [- 0] owed 0b10 turn)];
        (0: [- 2] owed 0b10) =>
            [(1: [0 0] owed 0b11), (1: [1 0] owed 0b10), (1: [2 0] owed 0b11),
             (1: [0 2] owed 0b11), (1: [1 2] owed 0b10), (1: [2 2] owed 0b11)]
            [(0: [- 0] owed 0b10), (1: [- 0] owed 0b10), (0: [- 2] owed 0b10),
             (1: [- 2] owed 0b10)];
        (1: [- 2] owed 0b10) => [] [(1: [- 0] owed 0b10 turn), (1: [- 2] owed 0b10 turn)];
        (1: [- 2] owed 0b10 turn) => [] [(1: [- 0] owed 0b10 turn), (1: [- 2] owed 0b10 turn)];
        (1: [0 2] owed 0b11) => [] [(1: [- 0] owed 0b10 turn)];
        (1: [1 2] owed 0b10) => [] [(1: [- 0] owed 0b10 turn)];
        (1: [2 2] owed 0b11) => [] [(1: [- 0] owed 0b10 turn), (1: [- 2] owed 0b10 turn)];
        (1: [3 2] owed 0b10) => [] [(1: [- 0] owed 0b10 turn), (1: [- 2] owed 0b10 turn)];
        (1: [4 2] owed 0b11) => [] [(1: [- 0] owed 0b10 turn), (1: [- 2] owed 0b10 turn)];
        (0: [- 4] owed 0b10) =>
            [(1: [0 0] owed 0b11), (1: [1 0] owed 0b10), (1: [2 0] owed 0b11),
             (1: [3 0] owed 0b10), (1: [4 0] owed 0b11), (1: [0 2] owed 0b11),
             (1: [1 2] owed 0b10), (1: [2 2] owed 0b11), (1: [3 2] owed 0b10),
             (1: [4 2] owed 0b11), (1: [0 4] owed 0b11), (1: [1 4] owed 0b10),
             (1: [2 4] owed 0b11), (1: [3 4] owed 0b10), (1: [4 4] owed 0b11)]
            [(0: [- 0] owed 0b10), (1: [- 0] owed 0b10), (0: [- 2] owed 0b10),
             (1: [- 2] owed 0b10), (0: [- 4] owed 0b10), (1: [- 4] owed 0b10)];
        (1: [- 4] owed 0b10) =>
            []
            [(1: [- 0] owed 0b10 turn), (1: [- 2] owed 0b10 turn), (1: [- 4] owed 0b10 turn)];
        (1: [- 4] owed 0b10 turn) =>
            []
            [(1: [- 0] owed 0b10 turn), (1: [- 2] owed 0b10 turn), (1: [- 4] owed 0b10 turn)];
        (1: [0 4] owed 0b11) => [] [(1: [- 0] owed 0b10 turn)];
        (1: [1 4] owed 0b10) => [] [(1: [- 0] owed 0b10 turn)];
        (1: [2 4] owed 0b11) => [] [(1: [- 0] owed 0b10 turn), (1: [- 2] owed 0b10 turn)];
        (1: [3 4] owed 0b10) => [] [(1: [- 0] owed 0b10 turn), (1: [- 2] owed 0b10 turn)];
        (1: [4 4] owed 0b11) =>
            []
            [(1: [- 0] owed 0b10 turn), (1: [- 2] owed 0b10 turn), (1: [- 4] owed 0b10 turn)];
    ],
    marked: &[node!(1: [- -] turn)],
    witnesses: &[node!(1: [- -] turn)],
    measures: &[],
};

// Letter a leads from 0 to 1 and b to both; b leads from 1 to 1. 0 is the start, and 1 is marked.
const DUTY: [u32; 4] = [0b10, 0b11, 0b00, 0b10];

// Letter b leads from 0 and 1 to 1, and a from 1 to both. 0 is the start, and 1 is marked.
const RULE: [u32; 4] = [0b00, 0b10, 0b11, 0b10];

// A duty and a rule of 2 states, each with a choice.
#[test]
fn choices(rt: HostRuntime) -> Result<(), Fail> {
    let duty = Table::new(2, 2, 0b01, 0b10, &DUTY)?;
    let rule = Table::new(2, 2, 0b01, 0b10, &RULE)?;
    holds(&rt, &map_of(duty, rule)?, &CHOICES)
}

const STILL_RULE: Whole = Whole {
    starts: &[node!(0: [2])],
    rows: rows![
        (0: [-]) => [(0: [-] turn)];
        (0: [-] turn) => [(0: [-])];
        (0: [2]) => [(0: [-] turn)];
    ],
    marked: &[node!(0: [-] turn)],
    witnesses: &[node!(0: [-] turn)],
    measures: &[],
};

const STARTLESS_RULE: Whole = Whole {
    starts: &[node!(0: [-])],
    rows: rows![
        (0: [-]) => [(0: [-] turn)];
        (0: [-] turn) => [(0: [-])];
    ],
    marked: &[node!(0: [-] turn)],
    witnesses: &[node!(0: [-] turn)],
    measures: &[],
};

const STILL_DUTY: Whole = Whole {
    starts: &[node!(0: [2])],
    rows: rows![
        (0: [2]) => [];
    ],
    marked: &[],
    witnesses: &[],
    measures: &[0],
};

const STARTLESS_DUTY: Whole = Whole {
    starts: &[],
    rows: &[],
    marked: &[],
    witnesses: &[],
    measures: &[],
};

// The duty or the rule has no step or no start.
#[test]
fn something_missing(rt: HostRuntime) -> Result<(), Fail> {
    let startless = looping(false, false)?;
    holds(&rt, &map_of(marked()?, still(1)?)?, &STILL_RULE)?;
    holds(&rt, &map_of(marked()?, startless)?, &STARTLESS_RULE)?;
    holds(&rt, &map_of(still(1)?, unmarked()?)?, &STILL_DUTY)?;
    holds(&rt, &map_of(startless, unmarked()?)?, &STARTLESS_DUTY)
}

// The start with such a rule of one state, two and six: its first state has the greatest rank, and no other has one.
const STARTS: [(u8, Node); 3] = [
    (1, node!(0: [2])),
    (2, node!(0: [4 -])),
    (6, node!(0: [12 - - - - -])),
];

#[test]
fn starts(rt: HostRuntime) -> Result<(), Fail> {
    for (states, start) in STARTS {
        begins(&rt, &map_of(marked()?, still(states)?)?, &[start]);
    }
    Ok(())
}
