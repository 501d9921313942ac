// Slips over a map with the greatest node that there can be, and over one with the most letters; and the greatest measures.
use graph::Map;
use lasso::NO_WORD;
use samples::{BitGraph, Ends};
use slip::{Breach, BreakRule, KeepRule, Kind, Record, Rule, Slip};
use std::process::Abort;

const LAST: u64 = u64::MAX;

// A record's node, letter and measure.
type Part = (u64, u8, u32);

// The first breach of a slip of these records, which are 4 at most.
fn says<M: Map>(
    rt: &impl Abort,
    map: &M,
    kind: Kind,
    stem: usize,
    parts: &[Part],
    rule: Option<(Rule, usize)>,
) {
    let mut records = [Record::default(); 4];
    for (record, (node, letter, measure)) in records.iter_mut().zip(parts) {
        *record = Record {
            node: *node,
            letter: *letter,
            measure: *measure,
        };
    }
    let lent = records.get(..parts.len()).unwrap_or_default();
    let slip = Slip::new(kind, stem, lent).expect(rt, "no slip");
    let breach = rule.map(|(rule, place)| Breach { rule, place });
    assert_eq!(rt; slip.first_breach(map, NO_WORD), breach);
}

// A keep slip of these records breaks this rule first, at this place, or none.
fn keeps<M: Map>(rt: &impl Abort, map: &M, parts: &[Part], broken: Option<(KeepRule, usize)>) {
    let rule = broken.map(|(rule, place)| (Rule::Keep(rule), place));
    says(rt, map, Kind::Keep, 0, parts, rule);
}

// The same of a break slip.
fn breaks<M: Map>(
    rt: &impl Abort,
    map: &M,
    stem: usize,
    parts: &[Part],
    broken: Option<(BreakRule, usize)>,
) {
    let rule = broken.map(|(rule, place)| (Rule::Break(rule), place));
    says(rt, map, Kind::Break, stem, parts, rule);
}

// 0 and the greatest node are the starts; 0 leads to the other one, which leads nowhere, or to itself.
#[test]
fn greatest_node(rt: HostRuntime) {
    let unmarked = Ends {
        loops: false,
        marked: false,
    };
    keeps(&rt, &unmarked, &[(LAST, 0, 7), (0, 0, 7)], None);
    keeps(&rt, &unmarked, &[(0, 0, 0)], Some((KeepRule::Next, 0)));
    keeps(&rt, &unmarked, &[(LAST, 0, 0)], Some((KeepRule::Starts, 1)));
    let other = [(LAST, 0, 0), (LAST - 1, 0, 0)];
    keeps(&rt, &unmarked, &other, Some((KeepRule::Node, 1)));
    let round = Ends {
        loops: true,
        marked: true,
    };
    let falling = [(0, 0, 1), (LAST, 0, 0)];
    keeps(&rt, &round, &falling, Some((KeepRule::Next, 1)));
    breaks(&rt, &round, 1, &[(0, 1, 0), (LAST, 0, 0)], None);
    breaks(
        &rt,
        &round,
        0,
        &[(0, 1, 0), (LAST, 0, 0)],
        Some((BreakRule::Next, 1)),
    );
    let still = Ends {
        loops: false,
        marked: true,
    };
    keeps(&rt, &still, &falling, None);
    breaks(&rt, &still, 0, &[(LAST, 1, 0)], Some((BreakRule::Next, 0)));
}

// Node 0 leads to itself by the last of 255 letters, and is marked.
#[test]
fn letters(rt: HostRuntime) {
    let mut rows = [0; 255];
    rows[254] = 0b1;
    let map = BitGraph {
        letters: 255,
        starts: 0b1,
        marks: 0b1,
        rows: &rows,
    };
    breaks(&rt, &map, 0, &[(0, 254, 0)], None);
    breaks(&rt, &map, 0, &[(0, 253, 0)], Some((BreakRule::Next, 0)));
    breaks(&rt, &map, 0, &[(0, 255, 0)], Some((BreakRule::Node, 0)));
    keeps(&rt, &map, &[(0, 0, 1)], Some((KeepRule::Next, 0)));
}

// 0 leads to 1, which leads nowhere.
#[test]
fn greatest_measures(rt: HostRuntime) {
    let unmarked = BitGraph {
        letters: 1,
        starts: 0b1,
        marks: 0b0,
        rows: &[0b10],
    };
    let marked = BitGraph {
        marks: 0b11,
        ..unmarked
    };
    let most = u32::MAX;
    let next = Some((KeepRule::Next, 0));
    keeps(&rt, &unmarked, &[(0, 0, most), (1, 0, most)], None);
    keeps(&rt, &marked, &[(0, 0, most), (1, 0, most)], next);
    keeps(&rt, &marked, &[(0, 0, most), (1, 0, most - 1)], None);
    keeps(&rt, &unmarked, &[(0, 0, most - 1), (1, 0, most)], next);
    keeps(&rt, &marked, &[(0, 0, 0), (1, 0, 0)], next);
}
