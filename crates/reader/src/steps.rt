// A line of a book at a time.
ghost use Rattle.std.specs.Prelude.{◌≡◌, ℕ, ◌≤◌, List, length};
ghost use Rattle.table.specs.declared.held.Table.{Table};
ghost use Rattle.plain.specs.declared.Line.TheVariants.{Next, Reject, Accept, Keep, Extend, Begin, PutBack};
ghost use Rattle.plain.specs.Book.{answer};
ghost use Rattle.plain.specs.Theorems.{PutsBytes};
ghost use Rattle.reader.specs.declared.reader.Reader.TheVariants.{Waiting, InHand};
ghost use Rattle.reader.specs.Follows.{world_of, Around, around, Follows, offering};

use crate::reader::Reader;
use crate::state::{Holding, Idle, Refused};
use plain::{Answer, Line, LineFault};
use source::Source;
use table::Table;

// An answer with no reading.
fn plain(number: usize, taken: usize) -> Answer
    ensures { result ≡ answer number taken }
{
    Answer {
        number,
        rule: 0,
        total: 0,
        head: 0,
        yyleng: 0,
        taken,
    }
}

// The reading in hand is offered.
fn offers(holding: &Holding) -> Answer
    ensures { result ≡ offering holding.now }
{
    let reading = holding.reading();
    Answer {
        number: 0,
        rule: reading.rule,
        total: reading.total,
        head: reading.head,
        yyleng: holding.yyleng(),
        taken: 0,
    }
}

fn next<S: Source>(idle: Idle, table: &Table, source: &S, strip: &mut [u8]) -> (Reader, Answer)
    requires { 4096 ≤ length strip.old }
    ensures { let world = world_of table.now S.CAPACITY in
        let old = around (S.rest source.now) (S.slack source.now) strip.old in
        let new = around (S.rest source.now) (S.slack source.now) strip.new in
        Follows world Next old (Waiting idle) new result }
{
    match idle.next(table, source, strip) {
        Ok(holding) => {
            let answer = offers(&holding);
            (Reader::InHand(holding), answer)
        }
        Err(Refused { state, fault }) => (Reader::Waiting(state), plain(fault.number(), 0)),
    }
}

fn begin(idle: Idle, condition: usize, table: &Table) -> (Reader, Answer)
    ensures { (capacity : ℕ) (here : Around) →
        Follows (world_of table.now capacity) (Begin condition) here (Waiting idle) here result }
{
    match idle.begin(table, condition) {
        Ok(idle) => (Reader::Waiting(idle), plain(0, 0)),
        Err(Refused { state, fault }) => (Reader::Waiting(state), plain(fault.number(), 0)),
    }
}

fn put_back<S: Source>(idle: Idle, b: u8, source: &mut S) -> (Reader, Answer)
    ensures { (table : Table) (strip : List ℕ) →
        let old = around (S.rest source.old) (S.slack source.old) strip in
        let new = around (S.rest source.new) (S.slack source.new) strip in
        Follows (world_of table S.CAPACITY) (PutBack b) old (Waiting idle) new result }
{
    match idle.put_back(source, b) {
        Ok(idle) => (Reader::Waiting(idle), plain(0, 0)),
        Err(Refused { state, fault }) => (Reader::Waiting(state), plain(fault.number(), 0)),
    }
}

fn reject<S: Source>(
    holding: Holding,
    table: &Table,
    source: &S,
    strip: &mut [u8],
) -> (Reader, Answer)
    requires { 4096 ≤ length strip.old }
    ensures { let world = world_of table.now S.CAPACITY in
        let old = around (S.rest source.now) (S.slack source.now) strip.old in
        let new = around (S.rest source.now) (S.slack source.now) strip.new in
        Follows world Reject old (InHand holding) new result }
{
    match holding.reject(table, source, strip) {
        Ok(holding) => {
            let answer = offers(&holding);
            (Reader::InHand(holding), answer)
        }
        Err(Refused { state, fault }) => (Reader::InHand(state), plain(fault.number(), 0)),
    }
}

fn accept<S: Source>(holding: Holding, source: &mut S) -> (Reader, Answer)
    ensures { (table : Table) (strip : List ℕ) →
        let old = around (S.rest source.old) (S.slack source.old) strip in
        let new = around (S.rest source.new) (S.slack source.new) strip in
        Follows (world_of table S.CAPACITY) Accept old (InHand holding) new result }
{
    let taken = holding.reading().head;
    match holding.accept(source) {
        Ok(idle) => (Reader::Waiting(idle), plain(0, taken)),
        Err(Refused { state, fault }) => (Reader::InHand(state), plain(fault.number(), 0)),
    }
}

fn keep<S: Source>(holding: Holding, n: usize, source: &mut S) -> (Reader, Answer)
    ensures { (table : Table) (strip : List ℕ) →
        let old = around (S.rest source.old) (S.slack source.old) strip in
        let new = around (S.rest source.new) (S.slack source.new) strip in
        Follows (world_of table S.CAPACITY) (Keep n) old (InHand holding) new result }
{
    let taken = n.saturating_sub(holding.kept());
    match holding.keep(source, n) {
        Ok(idle) => (Reader::Waiting(idle), plain(0, taken)),
        Err(Refused { state, fault }) => (Reader::InHand(state), plain(fault.number(), 0)),
    }
}

fn extend<S: Source>(holding: Holding, source: &mut S) -> (Reader, Answer)
    ensures { (table : Table) (strip : List ℕ) →
        let old = around (S.rest source.old) (S.slack source.old) strip in
        let new = around (S.rest source.new) (S.slack source.new) strip in
        Follows (world_of table S.CAPACITY) Extend old (InHand holding) new result }
{
    let taken = holding.reading().head;
    match holding.extend(source) {
        Ok(idle) => (Reader::Waiting(idle), plain(0, taken)),
        Err(Refused { state, fault }) => (Reader::InHand(state), plain(fault.number(), 0)),
    }
}

// The state together with the line: a line that is not of the state is denied.
pub(crate) fn step<S: Source>(
    reader: Reader,
    line: Line,
    table: &Table,
    source: &mut S,
    strip: &mut [u8],
) -> (Reader, Answer)
    requires { 4096 ≤ length strip.old }
    ensures follows { let world = world_of table.now S.CAPACITY in
        let old = around (S.rest source.old) (S.slack source.old) strip.old in
        let new = around (S.rest source.new) (S.slack source.new) strip.new in
        Follows world line old reader new result }
    ensures byte { PutsBytes line }
{
    match (reader, line) {
        (Reader::Waiting(idle), Line::Next) => next(idle, table, source, strip),
        (Reader::Waiting(idle), Line::Begin(c)) => begin(idle, c, table),
        (Reader::Waiting(idle), Line::PutBack(b)) => put_back(idle, b, source),
        (Reader::Waiting(idle), Line::Reject | Line::Accept | Line::Keep(_) | Line::Extend) => {
            (
                Reader::Waiting(idle),
                plain(LineFault::NothingInHand as usize, 0),
            )
        }
        (Reader::InHand(holding), Line::Reject) => reject(holding, table, source, strip),
        (Reader::InHand(holding), Line::Accept) => accept(holding, source),
        (Reader::InHand(holding), Line::Keep(n)) => keep(holding, n, source),
        (Reader::InHand(holding), Line::Extend) => extend(holding, source),
        (Reader::InHand(holding), Line::Next | Line::Begin(_) | Line::PutBack(_)) => {
            (
                Reader::InHand(holding),
                plain(LineFault::ReadingInHand as usize, 0),
            )
        }
    }
}
