// The files that the programs read.
#![tactic(auto)]

use report::LIMIT;
use std::alloc::Global;
use std::fs::Files;
use std::io::{ErrorKind, Read};
use std::{fs, io};

// One byte more than a text may have, so that a longer file is seen to be longer.
const MOST: u64 = LIMIT as u64 + 1;

// The texts of two charts.
#[derive(Drop)]
pub struct Texts {
    // what the machine may do
    pub duty: Vec<u8>,
    // what it is to keep to
    pub rule: Vec<u8>,
}

impl Texts {
    // Reads duty.chart and rule.chart in the folder that the program is run in, of each the first 8,193 bytes at most. A missing file is an
    // empty text. An error where a file is there and cannot be read, or memory is short.
    pub fn read(files: &impl Files, heap: Global) -> io::Result<Texts> {
        Ok(Texts {
            duty: read_file(files, heap, "duty.chart")?,
            rule: read_file(files, heap, "rule.chart")?,
        })
    }
}

// The first bytes of a file; a missing file is an empty text.
fn read_file(files: &impl Files, heap: Global, path: &str) -> io::Result<Vec<u8>> {
    let mut bytes = Vec::new(heap);
    let file = match fs::open(files, path) {
        Ok(file) => file,
        Err(e) if e.kind() == ErrorKind::NotFound => return Ok(bytes),
        Err(e) => return Err(e),
    };
    file.take(MOST).read_to_end(&mut bytes)?;
    Ok(bytes)
}
