// Sources: what bytes are left to be read; they go by bytes, and take some back.
#![tactic(auto)]

mod pushback;
mod sheet;

ghost use Rattle.std.specs.Prelude.{◌≡◌, ℕ, ◌-◌, ◌<◌, ◌≤◌, List, All, length};
ghost use Rattle.source.specs.Reach.{seen_of, byte_at};
ghost use Rattle.source.specs.Moves.{number_of, GoesBy, PutsBack};

pub use pushback::Pushback;
pub use sheet::{Bytes, Lent, Placed, Sheet};

/// No source is seen further than this.
pub const REACH: usize = 16_777_216;

/// Why a source refuses; each reason has its number.
#[derive(Clone, Copy, PartialEq, Eq, Debug)]
pub enum SourceFault {
    /// 11: it is to go by more bytes than are left.
    PastEnd = 11,
    /// 12: no more bytes can be put back.
    NoSlack = 12,
}

/// The number that the reason is reported by.
impl From<SourceFault> for u8 {
    ghost from_gives = { λ fault number. number ≡ number_of fault };

    fn from(fault: SourceFault) -> u8 {
        fault as u8
    }
}

/// What is read: it means its rest, the bytes that are still to be read.
pub trait Source {
    /// How many bytes can be put back at most.
    const CAPACITY: usize;

    ghost CAPACITY: { ℕ };

    ghost rest: { Self → List ℕ };

    // The slack: how many more bytes it can take back now.
    ghost slack: { Self → ℕ };

    /// How many bytes are left, at most the reach.
    fn left(&self) -> usize
        ensures { result ≡ seen_of (Self.rest self.now) };

    /// Byte k of the rest, from 0; nothing from `left` on.
    fn look(&self, k: usize) -> Option<u8>
        ensures { result ≡ byte_at (Self.rest self.now) k };

    /// Goes by the next n bytes: as many more can be put back, up to the capacity. Past the end it
    /// refuses, and stays as it was.
    fn go_by(&mut self, n: usize) -> Result<(), SourceFault>
        ensures { GoesBy Self.rest slack CAPACITY n self.old self.new result };

    /// Puts a byte in front of the rest. With no slack it refuses, and stays as it was.
    fn put_back(&mut self, b: u8) -> Result<(), SourceFault>
        ensures { PutsBack Self.rest slack b self.old self.new result };

    // Laws. The rest is made of bytes.
    ghost small: { (s : Self) → All (λ b. b < 256) (rest s) };

    // The capacity fits 16 bits, and no slack passes it.
    ghost fits: { CAPACITY ≤ 65535 };

    ghost within: { (s : Self) → slack s ≤ CAPACITY };

    // The rest has as many bytes as are put back.
    ghost supplied: { (s : Self) → CAPACITY - slack s ≤ length (rest s) };
}

#[cfg(test)]
mod tests {
    use super::*;
    use std::test::Fail;

    // The next byte, which is gone by.
    fn taken<S: Source>(source: &mut S) -> Option<u8> {
        let next = source.look(0);
        source.go_by(1).ok().and(next)
    }

    fn capacity_of<S: Source>(_source: &S) -> usize {
        S::CAPACITY
    }

    #[test]
    fn what_is_put_back_is_read_first(rt: HostRuntime) -> Result<(), Fail> {
        let mut below = Pushback::new(Sheet::new(b"-de", 1));
        assert_eq!(rt; below.put_back(b'c'), Ok(()));
        let mut source = Pushback::new(below);
        assert_eq!(rt; source.put_back(b'b'), Ok(()));
        assert_eq!(rt; source.put_back(b'a'), Ok(()));
        assert_eq!(rt; source.go_by(6), Err(SourceFault::PastEnd));
        assert_eq!(rt; source.left(), 5);
        assert_eq!(rt; source.look(4), Some(b'e'));
        assert_eq!(rt; source.look(5), None);
        assert_eq!(rt; source.go_by(1), Ok(()));
        for want in [Some(b'b'), Some(b'c'), Some(b'd'), Some(b'e'), None] {
            assert_eq!(rt; taken(&mut source), want);
        }
        Ok(())
    }

    #[test]
    fn no_more_is_put_back_than_there_is_room_for(rt: HostRuntime) -> Result<(), Fail> {
        let mut source = Pushback::new(Pushback::new(Sheet::new(b"", 0)));
        assert_eq!(rt; capacity_of(&source), 256);
        for b in 0..=255 {
            assert_eq!(rt; source.put_back(b), Ok(()));
        }
        assert_eq!(rt; source.put_back(0), Err(SourceFault::NoSlack));
        assert_eq!(rt; taken(&mut source), Some(255));
        let mut sheet = Sheet::new(b"", 0);
        assert_eq!(rt; capacity_of(&sheet), 0);
        assert_eq!(rt; sheet.put_back(0), Err(SourceFault::NoSlack));
        assert_eq!(rt; u8::from(SourceFault::PastEnd), 11);
        assert_eq!(rt; u8::from(SourceFault::NoSlack), 12);
        Ok(())
    }
}
