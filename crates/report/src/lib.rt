// How a fault of a rule file is shown: its line and column, the line's bytes, and the reason in words.
#![tactic(auto)]

ghost use Rattle.std.specs.Prelude.{◌≡◌, ◌≤◌, ◌∷◌, ◌++◌, Some, map, length};
ghost use Rattle.std.specs.Fmt.{decimal};
ghost use Rattle.report.specs.Lines.{clipped, before_newline, line_number, line_start, line_end, column_of};
ghost use Rattle.report.specs.Words.{shown_as, caret_in};

use std::fmt;

// A place of a file: its line and its column there, both counted from 1, and where that line starts and ends.
#[derive(Clone, Copy, PartialEq, Eq)]
pub struct Location {
    pub line: usize,
    pub column: usize,
    pub start: usize,
    pub end: usize,
}

// The line and the column, as `LINE:COLUMN`.
impl fmt::Display for Location {
    ghost output = { λ place. Some (decimal place.line ++ (58 ∷ decimal place.column)) };

    fn fmt<W: fmt::Write>(&self, f: &mut fmt::Formatter<W>) -> fmt::Result {
        write!(f, "{}:{}", self.line, self.column)
    }
}

// How many bytes stand before the first newline.
fn before_newline(bytes: &[u8]) -> usize
    ensures number { result ≡ before_newline bytes.now }
    ensures within { result ≤ length bytes.now }
{
    bytes.iter().take_while(|b| **b != b'\n').count()
}

// Where the last line starts.
fn last_start(bytes: &[u8]) -> usize
    ensures start { result ≡ line_start bytes.now (length bytes.now) }
    ensures within { result ≤ length bytes.now }
{
    match bytes.iter().rposition(|b| *b == b'\n') {
        Some(n) => n + 1,
        None => 0,
    }
}

// Where a place stands; one behind the file's end counts as the end.
pub fn locate(file: &[u8], place: usize) -> Location
    ensures line { result.line ≡ line_number file.now (clipped file.now place) }
    ensures start { result.start ≡ line_start file.now (clipped file.now place) }
    ensures end { result.end ≡ line_end file.now (clipped file.now place) }
    ensures within { (result.start ≤ result.end) × (result.end ≤ length file.now) }
    ensures column { result.column ≡ column_of file.now (clipped file.now place) }
{
    let at = place.min(file.len());
    let (before, behind) = file.split_at(at);
    let start = last_start(before);
    // No newline stands between the line's start and the place: a long line is gone over once.
    let lines = before[..start].iter().filter(|b| **b == b'\n').count();
    Location {
        line: 1 + lines,
        column: at - start + 1,
        start,
        end: at + before_newline(behind),
    }
}

// A byte of a file as it is shown: itself if it can be printed, or a dot.
pub fn shown(b: u8) -> u8
    ensures { result ≡ shown_as b }
{
    if matches!(b, b' '..=b'~') { b } else { b'.' }
}

// A line of a file as it is shown.
#[derive(Clone, Copy)]
pub struct ShownLine<'a>(pub &'a [u8]);

impl fmt::Display for ShownLine<'_> {
    ghost output = { λ line. Some (map shown_as line.0.now) };

    fn fmt<W: fmt::Write>(&self, f: &mut fmt::Formatter<W>) -> fmt::Result {
        for b in self.0 {
            f.write_char(char::from(shown(*b)))?;
        }
        Ok(())
    }
}

// A caret in this column, counted from 1, with spaces before it.
#[derive(Clone, Copy, PartialEq, Eq)]
pub struct Caret(pub usize);

impl fmt::Display for Caret {
    ghost output = { λ column. Some (caret_in column.0) };

    fn fmt<W: fmt::Write>(&self, f: &mut fmt::Formatter<W>) -> fmt::Result {
        // As often as there are columns before it; no index.
        for _ in 1..self.0 {
            f.write_char(' ')?;
        }
        f.write_char('^')
    }
}
