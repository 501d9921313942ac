// Makes benches and calls them as it is told on standard input, and prints what each call answers and leaves.
//
// A case is some lines, and ends at an empty line or where the input does:
//
//     duty STATES LETTERS STARTS MARKS ROW..      a table chart, whose sets are numbers by their bits
//     rule STATES LETTERS STARTS MARKS ROW..
//     room NODES
//
// and then a line for each call. Each is answered by a line, and so is `room`, which makes the bench:
//
//     judge
//     put KIND STEM NODE LETTER MEASURE ..        0 for keep and 1 for break, and the records
//     inspect
//     release                                     the records follow, as in a line of put
//     clear
//     lend SLIPS WORK                             the calls are lent so many records from here on
//     set PLACE NODE LETTER MEASURE               the record at this place of the slip table is changed
//     table                                       the records of the slip table, and one past it
#![tactic(auto)]

mod cases;
mod figures;
mod sessions;

use std::io::{self, BufRead, BufReader, BufWriter, Write};

fn main(rt: HostRuntime) -> anyhow::Result<()> {
    let heap = rt.alloc();
    let lines: Vec<String> = BufReader::new(heap, rt.reader())?
        .lines(heap)
        .try_collect(heap)?;
    let mut out = BufWriter::new(heap, io::writer(&rt))?;
    for case in lines.as_slice().split(|line| line.is_empty()) {
        cases::try_case(heap, case, &mut out)?;
    }
    out.flush()?;
    Ok(())
}
