// A bench and its tables, and the calls on it.
use crate::figures::read_records;
use anyhow::{Context, bail};
use bench::{Bench, BenchFault, Form, Kind, Record, State};
use chart::Table;
use fault::{Fault, RuleNumber};
use std::alloc::Global;
use std::io::{self, Write};

#[derive(Drop)]
pub(crate) struct Session<'a> {
    bench: Bench<Table<'a>, Table<'a>>,
    table: Vec<Record>,
    work: Vec<Record>,
    // how many records of each the calls are lent
    slips: usize,
    nodes: usize,
}

// So many records, each another one.
fn used(heap: Global, count: usize) -> anyhow::Result<Vec<Record>> {
    let mut records = Vec::new(heap);
    for node in 0..count as u64 {
        records.push(Record {
            node,
            letter: 200,
            measure: 77,
        })?;
    }
    Ok(records)
}

pub(crate) fn write_refusal<W: Write>(out: &mut W, fault: BenchFault) -> io::Result<()> {
    let told = fault.refusal();
    write!(out, "refused {} {}", told.number, told.place)?;
    match told.rule {
        Some(RuleNumber::Keep(number)) => write!(out, " {} {number}", Kind::Keep),
        Some(RuleNumber::Break(number)) => write!(out, " {} {number}", Kind::Break),
        None => Ok(()),
    }
}

fn write_records<W: Write>(out: &mut W, records: &[Record]) -> io::Result<()> {
    for record in records {
        write!(out, " {} {} {}", record.node, record.letter, record.measure)?;
    }
    Ok(())
}

fn write_done<W: Write>(out: &mut W, said: Result<(), BenchFault>) -> io::Result<()> {
    match said {
        Ok(()) => write!(out, "done"),
        Err(fault) => write_refusal(out, fault),
    }
}

fn write_form<W: Write>(out: &mut W, name: &str, form: Form) -> io::Result<()> {
    writeln!(out, "; {name} {} {} {}", form.kind, form.count, form.stem)
}

fn write_state<W: Write>(out: &mut W, state: State) -> io::Result<()> {
    match state {
        State::Empty => writeln!(out, "; empty"),
        State::Drafted(form) => write_form(out, "drafted", form),
        State::Passed(form) => write_form(out, "passed", form),
    }
}

impl<'a> Session<'a> {
    // The calls are lent as many records as the room asks for; there is one more of each.
    pub(crate) fn new(
        heap: Global,
        bench: Bench<Table<'a>, Table<'a>>,
        room: usize,
    ) -> anyhow::Result<Session<'a>> {
        let slips = room.saturating_mul(2);
        Ok(Session {
            bench,
            table: used(heap, slips.saturating_add(1))?,
            work: used(heap, room.saturating_add(1))?,
            slips,
            nodes: room,
        })
    }

    // Does what the line says, and prints what is answered and the state that is left.
    pub(crate) fn call<W: Write>(
        &mut self,
        heap: Global,
        name: &str,
        numbers: &[u64],
        out: &mut W,
    ) -> anyhow::Result<()> {
        match name {
            "judge" => self.judge(out)?,
            "put" => self.put(heap, numbers, out)?,
            "inspect" => {
                let said = self.bench.inspect(lent(self.table.as_slice(), self.slips));
                write_done(out, said)?;
            }
            "release" => match self.bench.release(lent(self.table.as_slice(), self.slips)) {
                Ok(records) => {
                    write!(out, "done")?;
                    write_records(out, records)?;
                }
                Err(fault) => write_refusal(out, fault)?,
            },
            "clear" => {
                self.bench.clear();
                write!(out, "done")?;
            }
            "lend" => self.lend(numbers, out)?,
            "set" => self.set(heap, numbers, out)?,
            "table" => {
                write!(out, "done")?;
                write_records(out, self.table.as_slice())?;
            }
            _ => bail!("no such call"),
        }
        write_state(out, self.bench.state())?;
        Ok(())
    }

    fn judge<W: Write>(&mut self, out: &mut W) -> io::Result<()> {
        let table = lent_mut(self.table.as_mut_slice(), self.slips);
        let work = lent_mut(self.work.as_mut_slice(), self.nodes);
        match self.bench.judge(table, work) {
            Ok(verdict) => write!(out, "{} {}", verdict.kind, verdict.nodes),
            Err(fault) => write_refusal(out, fault),
        }
    }

    fn put<W: Write>(&mut self, heap: Global, numbers: &[u64], out: &mut W) -> anyhow::Result<()> {
        let ([kind, stem], rest) = numbers
            .split_first_chunk::<2>()
            .context("a slip has a kind and a loop place")?;
        let kind = match *kind {
            0 => Kind::Keep,
            _ => Kind::Break,
        };
        let records = read_records(heap, rest)?;
        let table = lent_mut(self.table.as_mut_slice(), self.slips);
        let said = self
            .bench
            .put(kind, usize::try_from(*stem)?, records.as_slice(), table);
        write_done(out, said)?;
        Ok(())
    }

    fn lend<W: Write>(&mut self, numbers: &[u64], out: &mut W) -> anyhow::Result<()> {
        let [slips, nodes] = numbers else {
            bail!("two numbers are lent");
        };
        self.slips = usize::try_from(*slips)?;
        self.nodes = usize::try_from(*nodes)?;
        write!(out, "done")?;
        Ok(())
    }

    fn set<W: Write>(&mut self, heap: Global, numbers: &[u64], out: &mut W) -> anyhow::Result<()> {
        let (place, rest) = numbers.split_first().context("a record has a place")?;
        let records = read_records(heap, rest)?;
        let place = usize::try_from(*place)?;
        let record = self.table.get_mut(place).context("no such place")?;
        *record = *records.first().context("a record is set")?;
        write!(out, "done")?;
        Ok(())
    }
}

// The first records, as many as are asked for or as there are.
fn lent(records: &[Record], count: usize) -> &[Record] {
    &records[..count.min(records.len())]
}

fn lent_mut(records: &mut [Record], count: usize) -> &mut [Record] {
    let most = count.min(records.len());
    &mut records[..most]
}
