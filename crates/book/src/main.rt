// Keeps a book by rules.l over sheet.txt, both in the folder it is run in. lines.txt has what the reader is told, a line each:
// `next`, `reject`, `accept`, `keep N`, `extend`, `begin N` or `putback N`. The one argument is how many pushback layers stand
// over the sheet, 0 to 3; without it there is one. Prints for each line `NUMBER RULE TOTAL HEAD YYLENG TAKEN`, and last `rest`
// with what is left, in hexadecimal. Of a wrong rule file it prints the number and the place of the first fault.
#![tactic(auto)]

use anyhow::{Context, bail};
use bits::{Bits, PositionSet};
use loader::{MOST_ROWS, WORK_SETS};
use plain::{Answer, Line};
use reader::STRIP_BYTES;
use rule_book::{RuleBookFault, book_of_rules};
use source::{Pushback, Sheet, Source};
use std::io::ErrorKind;
use std::{env, fs};
use table::{Loaded, Row};

const NOTHING: Answer = Answer {
    number: 0,
    rule: 0,
    total: 0,
    head: 0,
    yyleng: 0,
    taken: 0,
};

// The bytes of a file; one that is not there counts as empty.
fn bytes_of(rt: &HostRuntime, name: &str) -> anyhow::Result<Vec<u8>> {
    match fs::read(rt, name) {
        Ok(file) => Ok(file),
        Err(e) if matches!(e.kind(), ErrorKind::NotFound) => Ok(Vec::new(rt.alloc())),
        Err(e) => Err(e.into()),
    }
}

// How many layers of pushback there are: the argument, or one.
fn layers_given(rt: &HostRuntime) -> anyhow::Result<usize> {
    let mut words = env::args(rt)?.skip(1);
    let Some(word) = words.next() else {
        return Ok(1);
    };
    if words.next().is_some() {
        bail!("there is more than one argument");
    }
    match word.parse() {
        Ok(layers) if layers <= 3 => Ok(layers),
        _ => bail!("the argument is no number of layers from 0 to 3"),
    }
}

// What the reader is told by this text, if it is a line of a book.
fn line_of(text: &str) -> Option<Line> {
    let mut words = text.split(' ');
    let word = words.next()?;
    let number = words.next();
    if words.next().is_some() {
        return None;
    }
    match (word, number) {
        ("next", None) => Some(Line::Next),
        ("reject", None) => Some(Line::Reject),
        ("accept", None) => Some(Line::Accept),
        ("extend", None) => Some(Line::Extend),
        ("keep", Some(number)) => Some(Line::Keep(number.parse().ok()?)),
        ("begin", Some(number)) => Some(Line::Begin(number.parse().ok()?)),
        ("putback", Some(number)) => Some(Line::PutBack(number.parse().ok()?)),
        _ => None,
    }
}

// The lines of lines.txt; one that is none is named by its number.
fn lines_given(rt: &HostRuntime) -> anyhow::Result<Vec<Line>> {
    let file = bytes_of(rt, "lines.txt")?;
    let text = String::from_utf8(file)
        .ok()
        .context("lines.txt is no text")?;
    let mut lines = Vec::new(rt.alloc());
    let mut number: u64 = 1;
    for line in text.lines() {
        let Some(line) = line_of(line) else {
            bail!("line {number} of lines.txt is none of a book");
        };
        lines.push(line)?;
        number = number.wrapping_add(1);
    }
    Ok(lines)
}

// The answers, and what is left of the source.
fn show<S: Source>(rt: &HostRuntime, answers: &[Answer], source: &S) -> anyhow::Result<()> {
    for answer in answers {
        let Answer {
            number,
            rule,
            total,
            head,
            yyleng,
            taken,
        } = *answer;
        println!(rt; "{number} {rule} {total} {head} {yyleng} {taken}")?;
    }
    print!(rt; "rest ")?;
    for k in 0..source.left() {
        if let Some(byte) = source.look(k) {
            print!(rt; "{byte:02x}")?;
        }
    }
    println!(rt)?;
    Ok(())
}

fn keep<S: Source + Drop>(
    rt: &HostRuntime,
    file: &[u8],
    lines: &[Line],
    mut source: S,
) -> anyhow::Result<()> {
    let mut loaded = Loaded::zeros();
    let mut rows: Vec<Row> = vec![in rt.alloc(); Row::zeros(); MOST_ROWS]?;
    let mut work: Vec<PositionSet> = vec![in rt.alloc(); Bits::empty(); WORK_SETS]?;
    let mut answers: Vec<Answer> = vec![in rt.alloc(); NOTHING; lines.len()]?;
    let mut strip: Vec<u8> = vec![in rt.alloc(); 0; STRIP_BYTES]?;
    let kept = book_of_rules(
        file,
        &mut loaded,
        rows.as_mut_slice(),
        work.as_mut_slice(),
        &mut source,
        lines,
        answers.as_mut_slice(),
        strip.as_mut_slice(),
    );
    match kept {
        Ok(()) => show(rt, answers.as_slice(), &source),
        Err(RuleBookFault::Load(fault)) => {
            println!(rt; "load {fault}")?;
            bail!("rules.l is refused");
        }
        Err(RuleBookFault::Book(fault)) => {
            println!(rt; "book {}", u8::from(fault))?;
            bail!("the book is refused");
        }
    }
}

fn main(rt: HostRuntime) -> anyhow::Result<()> {
    let layers = layers_given(&rt)?;
    let file = bytes_of(&rt, "rules.l")?;
    let sheet = bytes_of(&rt, "sheet.txt")?;
    let lines = lines_given(&rt)?;
    let file = file.as_slice();
    let lines = lines.as_slice();
    let sheet = Sheet::new(sheet.as_slice(), 0);
    match layers {
        0 => keep(&rt, file, lines, sheet),
        1 => keep(&rt, file, lines, Pushback::new(sheet)),
        2 => keep(&rt, file, lines, Pushback::new(Pushback::new(sheet))),
        _ => keep(
            &rt,
            file,
            lines,
            Pushback::new(Pushback::new(Pushback::new(sheet))),
        ),
    }
}
