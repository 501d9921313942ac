// Tells how long the ranked graphs of the pairs take: to make the map, to search it, to ask it for each edge, and, on a bench, to
// judge the pair and to inspect the slip.
use crate::charts::{PAIRS, Pair, TableData};
use crate::dense::DENSE;
use crate::walks::count_edges;
use anyhow::anyhow;
use bench::Bench;
use chart::Table;
use lasso::NO_WORD;
use ranked::{Instance, RankedMap};
use records::Record;
use search::{Findings, survey};
use std::time::Instant;

fn table(chart: &TableData) -> anyhow::Result<Table<'static>> {
    Table::new(
        chart.states,
        chart.letters,
        chart.starts,
        chart.marks,
        chart.rows,
    )
    .map_err(|_| anyhow!("the chart is refused"))
}

// The map, and the microseconds that it took to make.
fn make(rt: &HostRuntime, pair: &Pair) -> anyhow::Result<(RankedMap, u128)> {
    let instance = Instance::new(table(&pair.duty)?, table(&pair.rule)?).map_err(|_| anyhow!(
        "the pair is refused"
    ))?;
    let begun = Instant::now(rt)?;
    let map = RankedMap::new(&instance);
    let spent = begun.elapsed(rt)?.as_micros();
    Ok((map, spent))
}

// What one search finds, and the microseconds that it took.
fn search_once(
    rt: &HostRuntime,
    map: &RankedMap,
    work: &mut [Record],
) -> anyhow::Result<(Findings, u128)> {
    let begun = Instant::now(rt)?;
    let found = survey(map, NO_WORD, work);
    let spent = begun.elapsed(rt)?.as_micros();
    Ok((found.map_err(|_| anyhow!("the search is refused"))?, spent))
}

// The same for the median of five searches, if the first takes less than a tenth of a second.
fn search(
    rt: &HostRuntime,
    map: &RankedMap,
    work: &mut [Record],
) -> anyhow::Result<(Findings, u128)> {
    let (found, first) = search_once(rt, map, work)?;
    let mut times = [first; 5];
    if first < 100_000 {
        for time in times.iter_mut().skip(1) {
            *time = search_once(rt, map, work)?.1;
        }
        times.sort_unstable();
    }
    Ok((found, times[2]))
}

// The number of edges that leave the nodes, and the microseconds that it took to ask for each.
fn walk(rt: &HostRuntime, map: &RankedMap, nodes: &[Record]) -> anyhow::Result<(u64, u128)> {
    let begun = Instant::now(rt)?;
    let edges = count_edges(map, nodes);
    let spent = begun.elapsed(rt)?.as_micros();
    Ok((edges, spent))
}

// The records of the judged slip, and the microseconds that it took to judge the pair and to inspect the slip, on a bench with just
// as much room as the nodes need.
fn judge(rt: &HostRuntime, pair: &Pair, nodes: usize) -> anyhow::Result<(usize, u128, u128)> {
    let heap = rt.alloc();
    let mut bench = Bench::new(table(&pair.duty)?, table(&pair.rule)?, nodes).map_err(|_| anyhow!(
        "the pair is refused"
    ))?;
    let mut slip = vec![in heap; Record::default(); 2 * nodes]?;
    let mut work = vec![in heap; Record::default(); nodes]?;
    let begun = Instant::now(rt)?;
    let judged = bench.judge(slip.as_mut_slice(), work.as_mut_slice());
    let judging = begun.elapsed(rt)?.as_micros();
    judged.map_err(|_| anyhow!("the pair is not judged"))?;
    let begun = Instant::now(rt)?;
    let inspected = bench.inspect(slip.as_slice());
    let inspecting = begun.elapsed(rt)?.as_micros();
    inspected.map_err(|_| anyhow!("the slip does not pass"))?;
    let count = bench.state().form().map_or(0, |form| form.count);
    Ok((count, judging, inspecting))
}

// A pair's line. The search has a table of 65,536 records.
fn time(rt: &HostRuntime, pair: &Pair) -> anyhow::Result<()> {
    let (map, making) = make(rt, pair)?;
    let mut work = vec![in rt.alloc(); Record::default(); 65_536]?;
    let (found, searching) = search(rt, &map, work.as_mut_slice())?;
    let nodes = work.get(..found.count).unwrap_or_default();
    let (edges, walking) = walk(rt, &map, nodes)?;
    let (records, judging, inspecting) = judge(rt, pair, found.count)?;
    let name = pair.name;
    let count = found.count;
    let marked = if found.witness.is_some() { "yes" } else { "no" };
    println!(rt;
        "{name} {count} {edges} {marked} {making} {searching} {walking} {judging} {records} {inspecting}"
    )?;
    Ok(())
}

pub(crate) fn figures(rt: &HostRuntime) -> anyhow::Result<()> {
    println!(rt;
        "graph nodes edges marked-cycle map-us search-us walk-us judge-us records inspect-us"
    )?;
    for pair in &DENSE {
        time(rt, pair)?;
    }
    for pair in &PAIRS {
        time(rt, pair)?;
    }
    Ok(())
}
