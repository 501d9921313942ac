// The lines of a case.
use crate::figures::{OwnedTable, read_numbers};
use crate::sessions::{Session, write_refusal};
use anyhow::Context;
use bench::Bench;
use std::alloc::Global;
use std::io::Write;

// What follows this word on the line that begins with it.
fn after<'a>(line: Option<&'a String>, name: &str) -> anyhow::Result<&'a str> {
    line.and_then(|text| text.as_str().strip_prefix(name))
        .context("a line is missing")
}

// Makes a bench, and does what the other lines say.
pub(crate) fn try_case<W: Write>(heap: Global, case: &[String], out: &mut W) -> anyhow::Result<()> {
    if case.is_empty() {
        return Ok(());
    }
    let mut lines = case.iter();
    let duty = OwnedTable::read(heap, after(lines.next(), "duty ")?)?;
    let rule = OwnedTable::read(heap, after(lines.next(), "rule ")?)?;
    let room = after(lines.next(), "room ")?.parse::<usize>()?;
    let made = match (duty.table(), rule.table()) {
        (Ok(duty), Ok(rule)) => Bench::new(duty, rule, room),
        (Err(fault), _) | (_, Err(fault)) => Err(fault.into()),
    };
    match made {
        Ok(bench) => {
            writeln!(out, "made")?;
            let mut session = Session::new(heap, bench, room)?;
            for line in lines {
                try_line(heap, &mut session, line.as_str(), out)?;
            }
        }
        Err(fault) => {
            write_refusal(out, fault)?;
            writeln!(out, "")?;
        }
    }
    Ok(())
}

fn try_line<W: Write>(
    heap: Global,
    session: &mut Session<'_>,
    line: &str,
    out: &mut W,
) -> anyhow::Result<()> {
    let (name, rest) = line.split_once(' ').unwrap_or((line, ""));
    let numbers = read_numbers(heap, rest)?;
    session.call(heap, name, numbers.as_slice(), out)
}
