// Tells how long searches, judging and inspecting take. Run it as `out/timing figures` in this crate's folder, once `rt run` has made it. Without
// that word it prints nothing, since figures differ from run to run.
#![tactic(auto)]

mod bands;
mod charts;
mod dense;
mod pairs;
mod walks;

use anyhow::anyhow;
use bands::Band;
use bench::Kind;
use lasso::NO_WORD;
use records::Record;
use search::survey;
use slip::Slip;
use std::time::Instant;
use std::{env, io};

// The inspection of a slip that has each of the nodes with its measure.
fn time_inspection(
    rt: &HostRuntime,
    name: &str,
    map: &Band,
    nodes: &mut [Record],
) -> anyhow::Result<()> {
    for node in nodes.iter_mut() {
        node.letter = 0;
    }
    let count = nodes.len();
    let slip = Slip::new(Kind::Keep, 0, nodes).map_err(|_| anyhow!("there is no such slip"))?;
    let begun = Instant::now(rt)?;
    let breach = slip.first_breach(map, NO_WORD);
    let spent = begun.elapsed(rt)?.as_micros();
    let passes = if breach.is_none() { "passes" } else { "breaks" };
    println!(rt; "{name}-slip {count} {passes} {spent}")?;
    Ok(())
}

// One search, in a table of 65,536 records, and the inspection of the slip where there is no marked cycle.
fn time(rt: &HostRuntime, name: &str, map: Band) -> anyhow::Result<()> {
    let mut work = vec![in rt.alloc(); Record::default(); 65_536]?;
    let begun = Instant::now(rt)?;
    let result = survey(&map, NO_WORD, work.as_mut_slice());
    let spent = begun.elapsed(rt)?.as_micros();
    let found = result.map_err(|_| anyhow!("the search is refused"))?;
    let count = found.count;
    let witness = if found.witness.is_some() { "yes" } else { "no" };
    println!(rt; "{name} {count} {witness} {spent}")?;
    if found.witness.is_some() {
        return Ok(());
    }
    work.truncate(count);
    time_inspection(rt, name, &map, work.as_mut_slice())
}

// Four searches of so many nodes with up to 80 successors each: two with no cycle, of which the second has to look for each
// successor at the far end of the table; and two with one component, unmarked and marked. Then one where each node leads to each.
fn time_all(rt: &HostRuntime, nodes: u32) -> anyhow::Result<()> {
    let row = Band {
        nodes,
        reach: 80,
        tail: 0,
        wraps: false,
        marked: true,
    };
    time(rt, "row", row)?;
    let far = Band {
        reach: 1,
        tail: 79,
        ..row
    };
    time(rt, "far-row", far)?;
    let ring = Band { wraps: true, ..row };
    let unmarked = Band {
        marked: false,
        ..ring
    };
    time(rt, "ring", unmarked)?;
    time(rt, "marked-ring", ring)?;
    let full = Band {
        reach: nodes,
        ..unmarked
    };
    time(rt, "full", full)
}

fn figures(rt: &HostRuntime) -> anyhow::Result<()> {
    println!(rt; "graph nodes marked-cycle microseconds, and of slips whether they pass")?;
    for nodes in [128, 256, 512, 1024] {
        time_all(rt, nodes)?;
    }
    let chain = Band {
        nodes: 65_000,
        reach: 1,
        tail: 0,
        wraps: false,
        marked: true,
    };
    time(rt, "chain", chain)
}

// Was the word given?
fn is_asked(rt: &HostRuntime) -> io::Result<bool> {
    Ok(env::args(rt)?.any(|word| word.as_str() == "figures"))
}

fn run(rt: &HostRuntime) -> anyhow::Result<()> {
    if is_asked(rt)? {
        figures(rt)?;
        pairs::figures(rt)?;
    }
    Ok(())
}

fn main(rt: HostRuntime) -> anyhow::Result<()> {
    run(&rt)
}
