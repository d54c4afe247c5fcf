// The caller's bytes, from a place on; nothing can be put back.
ghost use Rattle.std.specs.Prelude.{◌≡◌, ℕ, ◌<◌, List, drop, All};
ghost use Rattle.std.proofs.Common.{arith};
ghost use Rattle.source.specs.Bytes.{all_dropped};

use crate::{REACH, Source, SourceFault};

/// What holds bytes. A source that holds a slice is generic over this, since an impl whose head has
/// a lifetime cannot have a constant that clauses cite.
pub trait Bytes {
    ghost held: { Self → List ℕ };

    fn bytes(&self) -> &[u8]
        ensures { result.now ≡ held self.now };

    ghost small: { (s : Self) → All (λ b. b < 256) (held s) };
}

/// Bytes of the caller.
#[derive(Clone, Copy)]
pub struct Lent<'a> {
    bytes: &'a [u8],
    ghost small: { All (λ b. b < 256) bytes.now },
}

impl Bytes for Lent<'_> {
    ghost held = { λ s. s.bytes.now };

    fn bytes(&self) -> &[u8] {
        self.bytes
    }

    ghost small = { λ s. s.small };
}

/// Bytes from a place on.
#[derive(Clone, Copy)]
pub struct Placed<B> {
    bytes: B,
    at: usize,
}

/// The sheet: bytes of the caller that are left.
pub type Sheet<'a> = Placed<Lent<'a>>;

impl<'a> Placed<Lent<'a>> {
    /// The bytes from `at` on; none where there are fewer.
    pub fn new(bytes: &'a [u8], at: usize) -> Placed<Lent<'a>>
        ensures { (result.bytes.bytes.now ≡ bytes.now) × (result.at ≡ at) }
    {
        Placed {
            bytes: Lent { bytes },
            at,
        }
    }
}

impl<B: Bytes> Placed<B> {
    fn rest(&self) -> &[u8]
        ensures { result.now ≡ drop self.now.at (B.held self.now.bytes) }
    {
        let held = self.bytes.bytes();
        held.get(self.at..).unwrap_or(&[])
    }
}

impl<B: Bytes> Source for Placed<B> {
    const CAPACITY: usize = 0;

    ghost CAPACITY = { 0 };

    ghost rest = { λ s. drop s.at (B.held s.bytes) };

    ghost slack = { λ _. 0 };

    fn left(&self) -> usize {
        self.rest().len().min(REACH)
    }

    fn look(&self, k: usize) -> Option<u8> {
        self.rest()[..self.left()].get(k).copied()
    }

    fn go_by(&mut self, n: usize) -> Result<(), SourceFault> {
        if n > self.left() {
            return Err(SourceFault::PastEnd);
        }
        // No further than the end, since a sheet may begin behind it.
        self.at = self.at.saturating_add(n).min(self.bytes.bytes().len());
        Ok(())
    }

    fn put_back(&mut self, _b: u8) -> Result<(), SourceFault> {
        Err(SourceFault::NoSlack)
    }

    ghost small = { λ s. all_dropped s.at (B.held s.bytes) (B.small s.bytes) };

    ghost fits = { Prim.omega arith };

    ghost within = { λ s. Prim.omega arith };

    ghost supplied = { λ s. Prim.omega arith };
}
