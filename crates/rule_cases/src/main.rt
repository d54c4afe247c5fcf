// Reads cases.txt, a rule file to a line: a name, a tab, and the file's bytes as escaped text; behind another tab may stand
// how many rows are lent. Prints a line for each: the name, and what the file has, or the number and the place of its first
// fault. Then reads listings.txt, a place to a line: a name, a rule file and a sheet, and perhaps a condition, 1 or 0 for at
// line start or not, and how many bytes of the sheet come before. Prints a line for each: the name, and what is listed there.
// Last it reads books.txt, a book to a line, and prints the name, the answers and what is left.
#![tactic(auto)]

use anyhow::Context;
use bits::{Bits, PositionSet};

mod books;
mod escaped;

use books::show_book;
use escaped::decode;
use grammar::Fault;
use loader::{Counts, MOST_ROWS, WORK_SETS, load, read_rules};
use scan::{RuleHeads, Start, Trace, Trails};
use source::Sheet;
use std::fs;
use std::str::Split;
use table::{Loaded, Row, take_up};

// How much a rule file has, and how many rows. Loading alone does not tell its positions.
fn sizes(
    file: &[u8],
    rows: &mut [Row],
    work: &mut [PositionSet],
) -> Result<(Counts, usize), Fault> {
    let mut loaded = Loaded::zeros();
    let sizes = load(file, &mut loaded, rows, work)?;
    Ok((read_rules(file, &mut loaded, work)?, sizes.rows))
}

// One rule file, and what came out.
fn show(
    rt: &HostRuntime,
    line: &str,
    rows: &mut [Row],
    work: &mut [PositionSet],
) -> anyhow::Result<()> {
    let mut fields = line.split('\t');
    let name = fields.next().context("a case has no name")?;
    let text = fields.next().context("a case has no rule file")?;
    let file = decode(rt.alloc(), text.as_bytes())?;
    let given = match fields.next() {
        Some(word) => word.parse::<usize>()?.min(rows.len()),
        None => MOST_ROWS.min(rows.len()),
    };
    match sizes(file.as_slice(), &mut rows[..given], work) {
        Ok((counts, rows)) => println!(rt; "{name}: {counts}, {rows} rows")?,
        Err(fault) => println!(rt; "{name}: load {fault}")?,
    }
    Ok(())
}

// A number in the next field, or another one where there is no field.
fn number(field: Option<&str>, other: usize) -> anyhow::Result<usize> {
    match field {
        Some(word) => Ok(word.parse()?),
        None => Ok(other),
    }
}

// One place, and what is listed there.
fn show_listing(
    rt: &HostRuntime,
    line: &str,
    rows: &mut [Row],
    work: &mut [PositionSet],
) -> anyhow::Result<()> {
    let mut fields = line.split('\t');
    let name = fields.next().context("a place has no name")?;
    let text = fields.next().context("a place has no rule file")?;
    let sheet = fields.next().context("a place has no sheet")?;
    let start = Start {
        condition: number(fields.next(), 0)?,
        at_line_start: number(fields.next(), 1)? != 0,
    };
    let offset = number(fields.next(), 0)?;
    let file = decode(rt.alloc(), text.as_bytes())?;
    let sheet = decode(rt.alloc(), sheet.as_bytes())?;
    let lent = MOST_ROWS.min(rows.len());
    let rows = &mut rows[..lent];
    let mut loaded = Loaded::zeros();
    print!(rt; "{name}:")?;
    if let Err(fault) = load(file.as_slice(), &mut loaded, rows, work) {
        print!(rt; " load {fault}")?;
    }
    let table = take_up(&loaded, rows);
    let text = Sheet::new(sheet.as_slice(), offset);
    let mut met = [0; 1024];
    let mut heads: Vec<RuleHeads> = vec![in rt.alloc(); RuleHeads::new(); 64]?;
    let mut trails = Trails::new();
    let trace = Trace::follow(&table, start, &text, &mut met);
    for reading in trace.readings(heads.as_mut_slice(), &mut trails) {
        print!(rt; " {reading}")?;
    }
    println!(rt)?;
    Ok(())
}

fn main(rt: HostRuntime) -> anyhow::Result<()> {
    // One row more than can be lent, to see it refused.
    let mut rows: Vec<Row> = vec![in rt.alloc(); Row::zeros(); MOST_ROWS + 1]?;
    let mut work: Vec<PositionSet> = vec![in rt.alloc(); Bits::empty(); WORK_SETS]?;
    for line in fs::read_to_string(&rt, "cases.txt")?.lines() {
        show(&rt, line, rows.as_mut_slice(), work.as_mut_slice())?;
    }
    for line in fs::read_to_string(&rt, "listings.txt")?.lines() {
        show_listing(&rt, line, rows.as_mut_slice(), work.as_mut_slice())?;
    }
    for line in fs::read_to_string(&rt, "books.txt")?.lines() {
        show_book(&rt, line, rows.as_mut_slice(), work.as_mut_slice())?;
    }
    Ok(())
}
