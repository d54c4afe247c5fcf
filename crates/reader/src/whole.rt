// A whole book.
ghost use Rattle.std.specs.Prelude.{◌≡◌, All, None, Some, IfOk, MatchResult};
ghost use Rattle.table.specs.Held.{memory_of};
ghost use Rattle.scan.specs.Listing.{table_listing};
ghost use Rattle.plain.specs.Lawful.{Lawful};
ghost use Rattle.plain.specs.Theorems.{PutsBytes};
ghost use Rattle.reader.specs.Follows.{world_of, around};
ghost use Rattle.reader.specs.Kept.{number_of_book, book_refusal, entries_of, IsKept, IsTold};

use crate::reader::Reader;
use crate::state::Idle;
use crate::steps::step;
use crate::strip::STRIP_BYTES;
use plain::{Answer, Line};
use source::Source;
use table::Table;

/// Why a book is not kept; each reason has its number.
#[derive(Clone, Copy, PartialEq, Eq, Debug)]
pub enum BookFault {
    /// 20: the strip is shorter than 4,096 bytes.
    ShortStrip = 20,
    /// 30: there are fewer answers than lines.
    FewAnswers = 30,
}

/// The number that the reason is reported by.
impl From<BookFault> for u8 {
    ghost from_gives = { λ fault number. number ≡ number_of_book fault };

    fn from(fault: BookFault) -> u8 {
        fault as u8
    }
}

/// Keeps a book: a new reader is told the lines, and each has its answer written. Further answers
/// stay as they are. It refuses before it does anything.
pub fn book<S: Source>(
    table: &Table,
    source: &mut S,
    lines: &[Line],
    answers: &mut [Answer],
    strip: &mut [u8],
) -> Result<(), BookFault>
    ensures refusal { let why = book_refusal strip.old answers.old lines.now in
        MatchResult result
        (λ _. why ≡ None)
        (λ fault. (why ≡ Some fault) × (source.new ≡ source.old) × (answers.new ≡ answers.old)
        × (strip.new ≡ strip.old)) }
    // The answers, the source and the strip are as the plain book leaves them.
    ensures kept { let world = world_of table.now S.CAPACITY in
        let old = around (S.rest source.old) (S.slack source.old) strip.old in
        let new = around (S.rest source.new) (S.slack source.new) strip.new in
        IfOk result (λ _. IsKept world lines.now old answers.old new answers.new) }
    // The laws, of what then stands in the caller's memory.
    ensures laws { let listing = table_listing (memory_of table.now) in
        IfOk result (λ _. Lawful (λ place listed. listed ≡ listing place) (S.rest source.old)
        (entries_of lines.now answers.new)) }
    // Lines and answers alone tell what is left of the source, and what stands in the strip.
    ensures told { let old = around (S.rest source.old) (S.slack source.old) strip.old in
        let new = around (S.rest source.new) (S.slack source.new) strip.new in
        IfOk result (λ _. IsTold S.CAPACITY old new (entries_of lines.now answers.new)) }
    // A line puts back a byte, as its type says.
    ensures bytes { IfOk result (λ _. All PutsBytes lines.now) }
{
    if strip.len() < STRIP_BYTES {
        return Err(BookFault::ShortStrip);
    }
    if answers.len() < lines.len() {
        return Err(BookFault::FewAnswers);
    }
    let mut reader = Reader::Waiting(Idle::open());
    // By number, since a reader is moved through each step.
    for k in 0..lines.len() {
        let (next, answer) = step(reader, lines[k], table, source, strip);
        reader = next;
        answers[k] = answer;
    }
    reader.close();
    Ok(())
}

#[cfg(test)]
mod tests {
    use super::*;
    use source::{Pushback, Sheet};
    use std::test::Fail;
    use table::{Loaded, take_up};

    const NONE: Answer = Answer {
        number: 9,
        rule: 9,
        total: 9,
        head: 9,
        yyleng: 9,
        taken: 9,
    };

    // Without rules each byte is read by itself.
    #[test]
    fn bytes_by_themselves(rt: HostRuntime) -> Result<(), Fail> {
        let loaded = Loaded::zeros();
        let table = take_up(&loaded, &[]);
        let lines = [
            Line::Reject,
            Line::Next,
            Line::Next,
            Line::Reject,
            Line::Extend,
            Line::Begin(1),
            Line::Next,
            Line::Keep(1),
            Line::Keep(2),
            Line::Next,
            Line::PutBack(b'c'),
            Line::Next,
        ];
        let mut answers = [NONE; 13];
        let mut strip = [b'-'; STRIP_BYTES];
        let mut source = Pushback::new(Sheet::new(b"ab", 0));
        assert!(rt; book(&table, &mut source, &lines, &mut answers, &mut strip).is_ok());
        let numbers = [31, 0, 32, 22, 0, 25, 0, 23, 0, 21, 0, 0, 9];
        for (answer, number) in answers.iter().zip(numbers.iter()) {
            assert_eq!(rt; answer.number, *number);
        }
        assert_eq!(rt; answers[6].yyleng, 2);
        assert_eq!(rt; answers[8].taken, 1);
        assert_eq!(rt; strip[0], b'c');
        assert_eq!(rt; strip[1], b'b');
        assert_eq!(rt; strip[2], b'-');
        assert_eq!(rt; source.left(), 1);
        Ok(())
    }

    #[test]
    fn refused_before_anything(rt: HostRuntime) -> Result<(), Fail> {
        let loaded = Loaded::zeros();
        let table = take_up(&loaded, &[]);
        let mut source = Sheet::new(b"a", 0);
        let mut strip = [0; STRIP_BYTES];
        let short = book(&table, &mut source, &[], &mut [], &mut strip[1..]);
        assert_eq!(rt; short.map_err(u8::from), Err(20));
        let few = book(&table, &mut source, &[Line::Next], &mut [], &mut strip);
        assert_eq!(rt; few.map_err(u8::from), Err(30));
        Ok(())
    }
}
