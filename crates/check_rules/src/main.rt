// Reads rules.l in the folder it is run in, and lends it 1,024 rows, or as many as its one argument says. Of a right file it
// prints how much it has. Of a wrong one it prints the number and the place of the first fault, then its line and column with
// the reason in words, that line, and a caret under the place.
#![tactic(auto)]

use anyhow::{Context, bail};
use bits::{Bits, PositionSet};
use grammar::Fault;
use loader::{Counts, MOST_ROWS, WORK_SETS, load, read_rules};
use report::{Caret, ShownLine, locate};
use std::io::ErrorKind;
use std::{env, fs};
use table::{Loaded, Row};

// The bytes of rules.l; a file that is not there counts as empty.
fn rules_file(rt: &HostRuntime) -> anyhow::Result<Vec<u8>> {
    match fs::read(rt, "rules.l") {
        Ok(file) => Ok(file),
        Err(e) if matches!(e.kind(), ErrorKind::NotFound) => Ok(Vec::new(rt.alloc())),
        Err(e) => Err(e.into()),
    }
}

// How many rows are lent: the argument, or as many as there can be.
fn rows_given(rt: &HostRuntime) -> anyhow::Result<usize> {
    let mut words = env::args(rt)?.skip(1);
    let Some(word) = words.next() else {
        return Ok(MOST_ROWS);
    };
    if words.next().is_some() {
        bail!("there is more than one argument");
    }
    word.parse().context("the argument is no number of rows")
}

// How much the file has, and how many rows. Loading alone does not tell its positions.
fn sizes(
    file: &[u8],
    rows: &mut [Row],
    work: &mut [PositionSet],
) -> Result<(Counts, usize), Fault> {
    let mut loaded = Loaded::zeros();
    let sizes = load(file, &mut loaded, rows, work)?;
    Ok((read_rules(file, &mut loaded, work)?, sizes.rows))
}

fn explain(rt: &HostRuntime, file: &[u8], fault: Fault) -> anyhow::Result<()> {
    println!(rt; "load {fault}")?;
    let location = locate(file, fault.place);
    println!(rt; "rules.l:{location}: {}", fault.refusal)?;
    println!(rt; "{}", ShownLine(&file[location.start..location.end]))?;
    println!(rt; "{}", Caret(location.column))?;
    Ok(())
}

fn main(rt: HostRuntime) -> anyhow::Result<()> {
    // One row too many is refused as any larger number is.
    let given = rows_given(&rt)?.min(MOST_ROWS + 1);
    let file = rules_file(&rt)?;
    let mut rows: Vec<Row> = vec![in rt.alloc(); Row::zeros(); given]?;
    let mut work: Vec<PositionSet> = vec![in rt.alloc(); Bits::empty(); WORK_SETS]?;
    match sizes(file.as_slice(), rows.as_mut_slice(), work.as_mut_slice()) {
        Ok((counts, rows)) => println!(&rt; "{counts}, {rows} rows")?,
        Err(fault) => {
            explain(&rt, file.as_slice(), fault)?;
            bail!("rules.l is refused");
        }
    }
    Ok(())
}
