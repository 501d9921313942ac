// Pairs of charts with as many edges as were found for about 512 and 1,024 nodes, by one letter (`wide`) and by 16 (`dense`). In each
// the duty steps from every state to every state by every letter; the rules came from random changes for the most edges, and were
// then made plain. Bits beyond a chart's states say nothing.
use crate::charts::{Pair, TableData};

// Every state is stepped to from every state, by every letter.
const ALL: [u32; 512] = [0xffff_ffff; 512];

// State 0 steps to itself by each letter.
const LOOP: [u32; 96] = [
    1, 1, 1, 1, 1, 1, 1, 1, 1, 1, 1, 1, 1, 1, 1, 1, 0, 0, 0, 0, 0, 0, 0, 0, 0, 0, 0, 0, 0, 0, 0, 0,
    0, 0, 0, 0, 0, 0, 0, 0, 0, 0, 0, 0, 0, 0, 0, 0, 0, 0, 0, 0, 0, 0, 0, 0, 0, 0, 0, 0, 0, 0, 0, 0,
    0, 0, 0, 0, 0, 0, 0, 0, 0, 0, 0, 0, 0, 0, 0, 0, 0, 0, 0, 0, 0, 0, 0, 0, 0, 0, 0, 0, 0, 0, 0, 0,
];

// State 0 steps to itself and to state 1, by the one letter.
const FORK_BY_ONE: [u32; 6] = [3, 0, 0, 0, 0, 0];

// State 0 steps to itself and to state 1 by each letter.
const FORK: [u32; 96] = [
    3, 3, 3, 3, 3, 3, 3, 3, 3, 3, 3, 3, 3, 3, 3, 3, 0, 0, 0, 0, 0, 0, 0, 0, 0, 0, 0, 0, 0, 0, 0, 0,
    0, 0, 0, 0, 0, 0, 0, 0, 0, 0, 0, 0, 0, 0, 0, 0, 0, 0, 0, 0, 0, 0, 0, 0, 0, 0, 0, 0, 0, 0, 0, 0,
    0, 0, 0, 0, 0, 0, 0, 0, 0, 0, 0, 0, 0, 0, 0, 0, 0, 0, 0, 0, 0, 0, 0, 0, 0, 0, 0, 0, 0, 0, 0, 0,
];

// The same, but by the last letter it is state 1 that steps to both.
const SWITCH: [u32; 96] = [
    3, 3, 3, 3, 3, 3, 3, 3, 3, 3, 3, 3, 3, 3, 3, 0, 0, 0, 0, 0, 0, 0, 0, 0, 0, 0, 0, 0, 0, 0, 0, 3,
    0, 0, 0, 0, 0, 0, 0, 0, 0, 0, 0, 0, 0, 0, 0, 0, 0, 0, 0, 0, 0, 0, 0, 0, 0, 0, 0, 0, 0, 0, 0, 0,
    0, 0, 0, 0, 0, 0, 0, 0, 0, 0, 0, 0, 0, 0, 0, 0, 0, 0, 0, 0, 0, 0, 0, 0, 0, 0, 0, 0, 0, 0, 0, 0,
];

pub const DENSE: [Pair; 8] = [
    Pair {
        name: "wide-2-512-keep",
        duty: TableData {
            states: 32,
            letters: 1,
            starts: 0xffff_ffff,
            marks: 0,
            rows: &ALL,
        },
        rule: TableData {
            states: 2,
            letters: 1,
            starts: 0b1,
            marks: 0b1,
            rows: &FORK_BY_ONE,
        },
    },
    Pair {
        name: "wide-5-1024-keep",
        duty: TableData {
            states: 28,
            letters: 1,
            starts: 0xffff,
            marks: 0,
            rows: &ALL,
        },
        rule: TableData {
            states: 5,
            letters: 1,
            starts: 0b1,
            marks: 0b11,
            rows: &FORK_BY_ONE,
        },
    },
    Pair {
        name: "dense-2-512-keep",
        duty: TableData {
            states: 32,
            letters: 16,
            starts: 0xffff_ffff,
            marks: 0,
            rows: &ALL,
        },
        rule: TableData {
            states: 2,
            letters: 16,
            starts: 0b1,
            marks: 0b1,
            rows: &FORK,
        },
    },
    Pair {
        name: "dense-6-448-keep",
        duty: TableData {
            states: 32,
            letters: 16,
            starts: 0xffff_ffff,
            marks: 0,
            rows: &ALL,
        },
        rule: TableData {
            states: 6,
            letters: 16,
            starts: 0b1,
            marks: 0,
            rows: &LOOP,
        },
    },
    Pair {
        name: "dense-3-512-break",
        duty: TableData {
            states: 27,
            letters: 16,
            starts: 0x03ff_ffff,
            marks: 0xffff_ffff,
            rows: &ALL,
        },
        rule: TableData {
            states: 3,
            letters: 16,
            starts: 0b1,
            marks: 0b11,
            rows: &SWITCH,
        },
    },
    Pair {
        name: "dense-5-1024-keep",
        duty: TableData {
            states: 28,
            letters: 16,
            starts: 0xffff,
            marks: 0,
            rows: &ALL,
        },
        rule: TableData {
            states: 5,
            letters: 16,
            starts: 0b1,
            marks: 0b11,
            rows: &FORK,
        },
    },
    Pair {
        name: "dense-6-1000-keep",
        duty: TableData {
            states: 20,
            letters: 16,
            starts: 0x000f_ffff,
            marks: 0,
            rows: &ALL,
        },
        rule: TableData {
            states: 6,
            letters: 16,
            starts: 0b1,
            marks: 0b11,
            rows: &FORK,
        },
    },
    Pair {
        name: "dense-5-1014-break",
        duty: TableData {
            states: 26,
            letters: 16,
            starts: 0x03ff_ffff,
            marks: 0xffff_ffff,
            rows: &ALL,
        },
        rule: TableData {
            states: 5,
            letters: 16,
            starts: 0b1,
            marks: 0b11,
            rows: &SWITCH,
        },
    },
];
