// Numbers in decimal, with spaces between them.
use anyhow::Context;
use bench::Record;
use chart::Table;
use fault::ChartFault;
use std::alloc::Global;

pub(crate) fn read_numbers(heap: Global, text: &str) -> anyhow::Result<Vec<u64>> {
    let mut numbers = Vec::new(heap);
    for word in text.split_whitespace() {
        numbers.push(word.parse::<u64>()?)?;
    }
    Ok(numbers)
}

// Three numbers for each record.
pub(crate) fn read_records(heap: Global, numbers: &[u64]) -> anyhow::Result<Vec<Record>> {
    let mut records = Vec::new(heap);
    for part in numbers.chunks(3) {
        let [node, letter, measure] = part else {
            anyhow::bail!("a record has three numbers");
        };
        records.push(Record {
            node: *node,
            letter: u8::try_from(*letter)?,
            measure: u32::try_from(*measure)?,
        })?;
    }
    Ok(records)
}

// A table chart with its rows.
#[derive(Drop)]
pub(crate) struct OwnedTable {
    states: u8,
    letters: u8,
    starts: u32,
    marks: u32,
    rows: Vec<u32>,
}

impl OwnedTable {
    pub(crate) fn read(heap: Global, text: &str) -> anyhow::Result<OwnedTable> {
        let numbers = read_numbers(heap, text)?;
        let (head, tail) = numbers
            .as_slice()
            .split_first_chunk::<4>()
            .context("a chart has four numbers and its rows")?;
        let mut rows = Vec::new(heap);
        for row in tail {
            rows.push(u32::try_from(*row)?)?;
        }
        let [states, letters, starts, marks] = *head;
        Ok(OwnedTable {
            states: u8::try_from(states)?,
            letters: u8::try_from(letters)?,
            starts: u32::try_from(starts)?,
            marks: u32::try_from(marks)?,
            rows,
        })
    }

    pub(crate) fn table(&self) -> Result<Table<'_>, ChartFault> {
        Table::new(
            self.states,
            self.letters,
            self.starts,
            self.marks,
            self.rows.as_slice(),
        )
    }
}
