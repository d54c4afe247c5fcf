// The two states of a reader. Each call takes one and gives one: neither is Copy, Clone or Drop,
// so that none is used again and none is forgotten.
ghost use Rattle.std.specs.Prelude.{◌≤◌};

use crate::fault::ScanFault;
use places::Reading;

/// A reader with nothing in hand.
pub struct Idle {
    pub(crate) condition: usize,
    pub(crate) at_line_start: bool,
    pub(crate) kept: usize,
    ghost few: { kept ≤ 3072 },
}

/// A reader with a reading in hand, which it offers.
pub struct Holding {
    pub(crate) condition: usize,
    pub(crate) at_line_start: bool,
    pub(crate) kept: usize,
    pub(crate) reading: Reading,
    ghost few: { kept ≤ 3072 },
    ghost some: { 1 ≤ reading.head },
    ghost most: { reading.head ≤ 1024 },
}

/// The state that a call was refused in, and why.
pub struct Refused<T> {
    pub state: T,
    pub fault: ScanFault,
}
