// The whole of it: the file is loaded, the table is taken up, and the book is kept.
ghost use Rattle.std.specs.Prelude.{◌≡◌, length, None, Some, IfOk, MatchResult};
ghost use Rattle.table.specs.Memory.{memory};
ghost use Rattle.loader.specs.Load.{Loads, outcome};
ghost use Rattle.reader.specs.Follows.{around};
ghost use Rattle.reader.specs.Kept.{book_refusal};
ghost use Rattle.rule_book.specs.Kept.{rules_refusal, IsKeptByRules};

use crate::fault::RuleBookFault;
use bits::PositionSet;
use loader::load;
use plain::{Answer, Line};
use reader::book;
use source::Source;
use table::{Loaded, Row, take_up};

/// Keeps a book by the rules of a file. A file that is not loaded, and a book that is not kept,
/// leave the source, the answers and the strip as they were.
pub fn book_of_rules<S: Source>(
    file: &[u8],
    loaded: &mut Loaded,
    rows: &mut [Row],
    work: &mut [PositionSet],
    source: &mut S,
    lines: &[Line],
    answers: &mut [Answer],
    strip: &mut [u8],
) -> Result<(), RuleBookFault>
    // Whatever comes of the book, the memory is as loading leaves it.
    ensures loads { let old = memory loaded.old rows.old in
        let new = memory loaded.new rows.new in
        let loading = outcome file.now (length rows.old) (length work.old) in
        Loads file.now old new work.old work.new loading }
    ensures refusal { let loading = outcome file.now (length rows.old) (length work.old) in
        let keeping = book_refusal strip.old answers.old lines.now in
        let why = rules_refusal loading keeping in
        MatchResult result
        (λ _. why ≡ None)
        (λ fault. (why ≡ Some fault) × (source.new ≡ source.old) × (answers.new ≡ answers.old)
        × (strip.new ≡ strip.old)) }
    ensures kept { let old = around (S.rest source.old) (S.slack source.old) strip.old in
        let new = around (S.rest source.new) (S.slack source.new) strip.new in
        IfOk result
        (λ _. IsKeptByRules file.now S.CAPACITY lines.now old answers.old new answers.new) }
{
    load(file, loaded, rows, work)?;
    let table = take_up(loaded, rows);
    book(&table, source, lines, answers, strip)?;
    Ok(())
}

#[cfg(test)]
mod tests {
    use super::*;
    use bits::Bits;
    use grammar::Refusal;
    use loader::WORK_SETS;
    use reader::STRIP_BYTES;
    use source::{Pushback, Sheet};
    use std::test::Fail;

    const NONE: Answer = Answer {
        number: 0,
        rule: 0,
        total: 0,
        head: 0,
        yyleng: 0,
        taken: 0,
    };

    #[test]
    fn a_book_of_two_rules(rt: HostRuntime) -> Result<(), Fail> {
        let mut loaded = Loaded::zeros();
        let mut rows: Vec<Row> = vec![in rt.alloc(); Row::zeros(); 8]?;
        let mut work: Vec<PositionSet> = vec![in rt.alloc(); Bits::empty(); WORK_SETS]?;
        let mut source = Pushback::new(Sheet::new(b"aab", 0));
        let lines = [Line::Next, Line::Reject, Line::Accept, Line::Next];
        let mut answers = [NONE; 4];
        let mut strip = [0; STRIP_BYTES];
        let kept = book_of_rules(
            b"%%\na+ ECHO;\naa REJECT;\n",
            &mut loaded,
            rows.as_mut_slice(),
            work.as_mut_slice(),
            &mut source,
            &lines,
            &mut answers,
            &mut strip,
        );
        assert!(rt; kept.is_ok());
        assert_eq!(rt; answers[0].rule, 1);
        assert_eq!(rt; answers[0].total, 2);
        assert_eq!(rt; answers[1].rule, 2);
        assert_eq!(rt; answers[2].taken, 2);
        assert_eq!(rt; answers[3].rule, 0);
        assert_eq!(rt; strip[0], b'b');
        Ok(())
    }

    #[test]
    fn no_rule_file(rt: HostRuntime) -> Result<(), Fail> {
        let mut loaded = Loaded::zeros();
        let mut source = Sheet::new(b"", 0);
        let kept = book_of_rules(
            b"",
            &mut loaded,
            &mut [],
            &mut [],
            &mut source,
            &[],
            &mut [],
            &mut [],
        );
        match kept {
            Err(RuleBookFault::Load(fault)) => assert!(rt; fault.refusal == Refusal::Memory),
            _ => assert!(rt; false),
        }
        Ok(())
    }
}
