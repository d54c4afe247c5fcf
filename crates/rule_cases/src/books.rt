// Books, a line each: a name, a rule file and a sheet, how many pushback layers stand over the sheet, and what the reader is told,
// divided by commas.
use crate::escaped::decode;
use anyhow::{Context, bail};
use bits::PositionSet;
use loader::{MOST_ROWS, load};
use plain::{Answer, Line};
use reader::{STRIP_BYTES, book};
use source::{Pushback, Sheet, Source};
use table::{Loaded, Row, Table, take_up};

// What the answers hold before they are written.
const UNWRITTEN: Answer = Answer {
    number: 99,
    rule: 99,
    total: 99,
    head: 99,
    yyleng: 99,
    taken: 99,
};

fn line_of(text: &str) -> anyhow::Result<Line> {
    let mut words = text.split(' ');
    let word = words.next().context("a line is empty")?;
    let number = words.next();
    match (word, number) {
        ("next", None) => Ok(Line::Next),
        ("reject", None) => Ok(Line::Reject),
        ("accept", None) => Ok(Line::Accept),
        ("extend", None) => Ok(Line::Extend),
        ("keep", Some(number)) => Ok(Line::Keep(number.parse()?)),
        ("begin", Some(number)) => Ok(Line::Begin(number.parse()?)),
        ("putback", Some(number)) => Ok(Line::PutBack(number.parse()?)),
        _ => bail!("no line of a book: {text}"),
    }
}

fn lines_of(rt: &HostRuntime, text: &str) -> anyhow::Result<Vec<Line>> {
    let mut lines = Vec::new(rt.alloc());
    if !text.is_empty() {
        for line in text.split(',') {
            lines.push(line_of(line)?)?;
        }
    }
    Ok(lines)
}

// Keeps the book, and shows the answers and what is left.
fn keep<S: Source + Drop>(
    rt: &HostRuntime,
    table: &Table,
    lines: &[Line],
    mut source: S,
) -> anyhow::Result<()> {
    let mut answers: Vec<Answer> = vec![in rt.alloc(); UNWRITTEN; lines.len()]?;
    let mut strip: Vec<u8> = vec![in rt.alloc(); 0; STRIP_BYTES]?;
    let kept = book(
        table,
        &mut source,
        lines,
        answers.as_mut_slice(),
        strip.as_mut_slice(),
    );
    if let Err(fault) = kept {
        bail!("the book is refused: {}", u8::from(fault));
    }
    for a in answers.iter() {
        print!(rt;
            " {}/{}/{}/{}/{}/{}",
            a.number, a.rule, a.total, a.head, a.yyleng, a.taken
        )?;
    }
    show_rest(rt, &source)
}

// What is left, in hexadecimal; `-` if nothing is.
fn show_rest<S: Source>(rt: &HostRuntime, source: &S) -> anyhow::Result<()> {
    print!(rt; " rest ")?;
    if source.left() == 0 {
        print!(rt; "-")?;
    }
    for k in 0..source.left() {
        if let Some(byte) = source.look(k) {
            print!(rt; "{byte:02x}")?;
        }
    }
    println!(rt)?;
    Ok(())
}

// One book.
pub(crate) fn show_book(
    rt: &HostRuntime,
    line: &str,
    rows: &mut [Row],
    work: &mut [PositionSet],
) -> anyhow::Result<()> {
    let mut fields = line.split('\t');
    let name = fields.next().context("a book has no name")?;
    let text = fields.next().context("a book has no rule file")?;
    let sheet = fields.next().context("a book has no sheet")?;
    let layers = fields.next().context("a book has no layers")?;
    let told = fields.next().context("a book has no lines")?;
    let file = decode(rt.alloc(), text.as_bytes())?;
    let sheet = decode(rt.alloc(), sheet.as_bytes())?;
    let lines = lines_of(rt, told)?;
    let lent = MOST_ROWS.min(rows.len());
    let rows = &mut rows[..lent];
    let mut loaded = Loaded::zeros();
    if load(file.as_slice(), &mut loaded, rows, work).is_err() {
        bail!("the rules of {name} are refused");
    }
    let table = take_up(&loaded, rows);
    let sheet = Sheet::new(sheet.as_slice(), 0);
    print!(rt; "{name}:")?;
    match layers {
        "0" => keep(rt, &table, lines.as_slice(), sheet),
        "1" => keep(rt, &table, lines.as_slice(), Pushback::new(sheet)),
        "2" => keep(
            rt,
            &table,
            lines.as_slice(),
            Pushback::new(Pushback::new(sheet)),
        ),
        _ => keep(
            rt,
            &table,
            lines.as_slice(),
            Pushback::new(Pushback::new(Pushback::new(sheet))),
        ),
    }
}
