// Why a book of rules is not kept.
ghost use Rattle.std.specs.Prelude.{◌≡◌};
ghost use Rattle.rule_book.specs.declared.fault.RuleBookFault.TheVariants.{Load as OfLoad, Book as OfBook};

use grammar::Fault;
use reader::BookFault;

/// The file is not loaded, or the book is not kept.
#[derive(Clone, Copy, PartialEq, Eq)]
pub enum RuleBookFault {
    Load(Fault),
    Book(BookFault),
}

impl From<Fault> for RuleBookFault {
    ghost from_gives = { λ fault given. given ≡ OfLoad fault };

    fn from(fault: Fault) -> RuleBookFault {
        RuleBookFault::Load(fault)
    }
}

impl From<BookFault> for RuleBookFault {
    ghost from_gives = { λ fault given. given ≡ OfBook fault };

    fn from(fault: BookFault) -> RuleBookFault {
        RuleBookFault::Book(fault)
    }
}
