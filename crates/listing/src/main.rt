// Lists what rules.l finds at a place of sheet.txt, both in the folder it is run in: a line for each reading, with its rule,
// total and head. The place is the start of the sheet, in condition 0 at line start, or what three arguments say: the
// condition, 1 or 0 for at line start or not, and how many bytes of the sheet come before. Of a wrong rule file it prints the
// number and the place of the first fault.
#![tactic(auto)]

use anyhow::{Context, bail};
use bits::{Bits, PositionSet};
use loader::{MOST_ROWS, WORK_SETS, load};
use scan::{RuleHeads, Start, Trace, Trails};
use source::Sheet;
use std::io::ErrorKind;
use std::{env, fs};
use table::{Loaded, Row, take_up};

// Where the listing is asked for.
#[derive(Clone, Copy)]
struct Place {
    start: Start,
    offset: usize,
}

// The bytes of a file; one that is not there counts as empty.
fn bytes_of(rt: &HostRuntime, name: &str) -> anyhow::Result<Vec<u8>> {
    match fs::read(rt, name) {
        Ok(file) => Ok(file),
        Err(e) if matches!(e.kind(), ErrorKind::NotFound) => Ok(Vec::new(rt.alloc())),
        Err(e) => Err(e.into()),
    }
}

fn number(word: Option<String>) -> anyhow::Result<usize> {
    word.context("three numbers are needed")?
        .parse()
        .context("an argument is no number")
}

fn at_line_start(word: Option<String>) -> anyhow::Result<bool> {
    match number(word)? {
        0 => Ok(false),
        1 => Ok(true),
        _ => bail!("at line start or not is told by 1 or 0"),
    }
}

// The place that the arguments say.
fn place_given(rt: &HostRuntime) -> anyhow::Result<Place> {
    let mut words = env::args(rt)?.skip(1).peekable();
    if words.peek().is_none() {
        return Ok(Place {
            start: Start {
                condition: 0,
                at_line_start: true,
            },
            offset: 0,
        });
    }
    let start = Start {
        condition: number(words.next())?,
        at_line_start: at_line_start(words.next())?,
    };
    let offset = number(words.next())?;
    if words.next().is_some() {
        bail!("there are more than three arguments");
    }
    Ok(Place { start, offset })
}

fn main(rt: HostRuntime) -> anyhow::Result<()> {
    let place = place_given(&rt)?;
    let file = bytes_of(&rt, "rules.l")?;
    let sheet = bytes_of(&rt, "sheet.txt")?;
    let mut loaded = Loaded::zeros();
    let mut rows: Vec<Row> = vec![in rt.alloc(); Row::zeros(); MOST_ROWS]?;
    let mut work: Vec<PositionSet> = vec![in rt.alloc(); Bits::empty(); WORK_SETS]?;
    if let Err(fault) = load(
        file.as_slice(),
        &mut loaded,
        rows.as_mut_slice(),
        work.as_mut_slice(),
    ) {
        println!(&rt; "load {fault}")?;
        bail!("rules.l is refused");
    }
    let table = take_up(&loaded, rows.as_slice());
    let text = Sheet::new(sheet.as_slice(), place.offset);
    let mut met = [0; 1024];
    let mut heads: Vec<RuleHeads> = vec![in rt.alloc(); RuleHeads::new(); 64]?;
    let mut trails = Trails::new();
    let trace = Trace::follow(&table, place.start, &text, &mut met);
    for reading in trace.readings(heads.as_mut_slice(), &mut trails) {
        println!(&rt; "{reading}")?;
    }
    Ok(())
}
