// The plain book: what a reader answers to each line of a list, and the laws of lines and answers.
#![tactic(auto)]

ghost use Rattle.plain.specs.Theorems.{BookIsTold, StripIsTold, BookIsLawful, RulesBookIsLawful, NeverPastEnd, OneBook, RulesListRight};

/// What a book is told: to offer the first reading or the following one; to take the head of the one
/// in hand, to take as much of it as makes so many bytes with those kept, or to take and keep it; to
/// go to a condition; to put a byte back.
#[derive(Clone, Copy, PartialEq, Eq)]
pub enum Line {
    Next,
    Reject,
    Accept,
    Keep(usize),
    Extend,
    Begin(usize),
    PutBack(u8),
}

/// The number is 0 if the line is granted, and else that of the refusal. Next and reject give the
/// reading, and yyleng: how many bytes are kept, with its head. `taken` is how many bytes the line
/// took. What a line does not give is 0.
#[derive(Clone, Copy, PartialEq, Eq)]
pub struct Answer {
    pub number: usize,
    pub rule: usize,
    pub total: usize,
    pub head: usize,
    pub yyleng: usize,
    pub taken: usize,
}

/// Why a line is refused before its call is looked at.
#[derive(Clone, Copy, PartialEq, Eq)]
pub enum LineFault {
    /// 31: the line needs a reading in hand, and there is none.
    NothingInHand = 31,
    /// 32: the line needs nothing in hand, and there is a reading.
    ReadingInHand = 32,
}

/// Theorem: lines and answers tell all that the plain book knows.
pub fn book_is_told()
    ensures { BookIsTold }
{}

/// Theorem: lines and answers tell what stands in the strip.
pub fn strip_is_told()
    ensures { StripIsTold }
{}

/// Theorem: after any list of lines the lines and answers keep the laws, by what the book lists at
/// each place.
pub fn book_is_lawful()
    ensures { BookIsLawful }
{}

/// Theorem: they keep the laws by the listing of the rules of a file, if the book lists by these
/// rules.
pub fn rules_book_is_lawful()
    ensures { RulesBookIsLawful }
{}

/// Theorem: the head in hand is there to be taken, and the strip has room for it.
pub fn never_past_end()
    ensures { NeverPastEnd }
{}

/// Theorem: two books that list by the same rules answer the same.
pub fn one_book()
    ensures { OneBook }
{}

/// Theorem: what the rules of a file list is listed right.
pub fn rules_list_right()
    ensures { RulesListRight }
{}
