// Benches with small charts, their nodes, and what is said of them.
use bench::{
    Bench, BenchFault, Breach, BreakRule, Form, KeepRule, Kind, Record, Rule, State, Verdict,
};
use chart::{Chart, Table};
use records::SearchFault;
use samples::{Node, every_second, marked, node, records, unmarked};
use std::alloc::{AllocError, Global};
use verdict::decide;

pub(crate) type Small = Bench<Table<'static>, Table<'static>>;

pub(crate) type Answer = Result<(), BenchFault>;

// A marked state with a loop, and the same unmarked: a break with 6 nodes.
pub(crate) fn broken(room: usize) -> Result<Small, BenchFault> {
    Bench::new(marked()?, unmarked()?, room)
}

// The start. It leads to END, MARK and AGAIN.
pub(crate) const START: Node = node!(0: [2]);

// It leads to the same.
pub(crate) const AGAIN: Node = node!(0: [2] owed 0b1 turn);

// The only marked one. It leads to BACK and to ASIDE.
pub(crate) const MARK: Node = node!(0: [1] turn);

// It leads to MARK and to END.
pub(crate) const BACK: Node = node!(0: [1]);

// It leads to itself.
pub(crate) const END: Node = node!(0: [0] owed 0b1 turn);

// It leads to END.
pub(crate) const ASIDE: Node = node!(0: [0] owed 0b1);

// A break slip over these, with loop place 1.
pub(crate) fn lasso() -> [Record; 3] {
    records([START, MARK, BACK])
}

// A marked state with a loop, twice: a keep with 3 nodes. START leads to END and AGAIN, and so does AGAIN; END leads to itself.
// None is marked, and BACK is no node.
pub(crate) fn kept(room: usize) -> Result<Small, BenchFault> {
    Bench::new(marked()?, marked()?, room)
}

// A marked state with a loop, and two states in turn of which the second is marked: a keep with 11 nodes.
pub(crate) fn falling(room: usize) -> Result<Small, BenchFault> {
    Bench::new(marked()?, every_second()?, room)
}

// Its nodes, each with the greatest number of marked nodes on a walk from it. Marked are those of rank 1 and 3 of state 0 with the
// turn, at places 5 and 7, which lie on no cycle.
pub(crate) const FALLING: [(Node, u32); 11] = [
    (node!(0: [4 -]), 2),
    (node!(0: [- 0] owed 0b10 turn), 0),
    (node!(0: [- 2] owed 0b10 turn), 1),
    (node!(0: [- 4] owed 0b10 turn), 2),
    (node!(0: [0 -] owed 0b01 turn), 0),
    (node!(0: [1 -] turn), 1),
    (node!(0: [2 -] owed 0b01 turn), 1),
    (node!(0: [3 -] turn), 2),
    (node!(0: [4 -] owed 0b01 turn), 2),
    (node!(0: [- 0] owed 0b10), 0),
    (node!(0: [- 2] owed 0b10), 1),
];

pub(crate) fn measured<const N: usize>(nodes: [(Node, u32); N]) -> [Record; N] {
    let mut records = [Record::default(); N];
    for (record, (node, measure)) in records.iter_mut().zip(&nodes) {
        *record = node.measured(*measure);
    }
    records
}

pub(crate) fn form(kind: Kind, count: usize, stem: usize) -> Form {
    Form { kind, count, stem }
}

pub(crate) fn drafted(kind: Kind, count: usize, stem: usize) -> State {
    State::Drafted(form(kind, count, stem))
}

pub(crate) fn passed(kind: Kind, count: usize, stem: usize) -> State {
    State::Passed(form(kind, count, stem))
}

pub(crate) type Told = Result<Verdict, BenchFault>;

pub(crate) const FULL: Told = Err(BenchFault::Search(SearchFault::Full));

pub(crate) fn keeps(nodes: usize) -> Told {
    Ok(Verdict {
        kind: Kind::Keep,
        nodes,
    })
}

pub(crate) fn breaks(nodes: usize) -> Told {
    Ok(Verdict {
        kind: Kind::Break,
        nodes,
    })
}

// What is decided with this room.
pub(crate) fn told<D: Chart + Drop, R: Chart + Drop>(
    heap: Global,
    duty: D,
    rule: R,
    room: usize,
) -> Result<Told, AllocError> {
    let mut table = vec![in heap; Record::default(); room.saturating_mul(2)]?;
    let mut work = vec![in heap; Record::default(); room]?;
    let told = decide(duty, rule, room, table.as_mut_slice(), work.as_mut_slice());
    Ok(told.map(|certified| certified.verdict))
}

pub(crate) fn breaks_keep(rule: KeepRule, place: usize) -> BenchFault {
    let rule = Rule::Keep(rule);
    BenchFault::Broken(Breach { rule, place })
}

pub(crate) fn breaks_break(rule: BreakRule, place: usize) -> BenchFault {
    let rule = Rule::Break(rule);
    BenchFault::Broken(Breach { rule, place })
}

// What inspection says of a slip that is put, in this table.
pub(crate) fn inspected(
    bench: &mut Small,
    kind: Kind,
    stem: usize,
    records: &[Record],
    table: &mut [Record],
) -> Answer {
    bench.clear();
    bench.put(kind, stem, records, table)?;
    bench.inspect(table)
}
