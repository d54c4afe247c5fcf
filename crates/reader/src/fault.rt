// Why a reader refuses.
ghost use Rattle.std.specs.Prelude.{◌≡◌};
ghost use Rattle.reader.specs.declared.fault.ScanFault.TheVariants.{Source as OfSource};
ghost use Rattle.reader.specs.Numbers.{number_of};

use source::SourceFault;

/// Why a call is refused; each reason has its number.
#[derive(Clone, Copy, PartialEq, Eq, Debug)]
pub enum ScanFault {
    /// 20: the strip is shorter than 4,096 bytes.
    ShortStrip,
    /// 21: nothing is left to be read.
    NothingLeft,
    /// 22: no reading follows the one in hand.
    NoneFollows,
    /// 23: so many bytes are not more than those kept, or more than those kept and in hand.
    NotBetween,
    /// 24: the text is too long to be kept.
    TooLong,
    /// 25: the table has no such condition.
    NoCondition,
    /// The source refuses.
    Source(SourceFault),
}

impl From<SourceFault> for ScanFault {
    ghost from_gives = { λ fault given. given ≡ OfSource fault };

    fn from(fault: SourceFault) -> ScanFault {
        ScanFault::Source(fault)
    }
}

impl ScanFault {
    /// The number that the reason is reported by; the source's reasons keep theirs.
    pub fn number(self) -> usize
        ensures { result ≡ number_of self }
    {
        match self {
            ScanFault::ShortStrip => 20,
            ScanFault::NothingLeft => 21,
            ScanFault::NoneFollows => 22,
            ScanFault::NotBetween => 23,
            ScanFault::TooLong => 24,
            ScanFault::NoCondition => 25,
            ScanFault::Source(fault) => u8::from(fault) as usize,
        }
    }
}
