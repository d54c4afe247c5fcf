// Any source, and up to 256 bytes that were put back in front of it.
ghost use Rattle.std.specs.Prelude.{◌≡◌, ◌<◌, ◌≤◌, All, length};
ghost use Rattle.std.proofs.Common.{arith};

mod reading;

const MOST: usize = 256;

// The returned bytes, the latest first, are the last `count` of the row: so a byte that is put back
// moves none.
#[derive(Drop)]
struct Returned {
    bytes: [u8; MOST],
    count: usize,
    ghost within: { count ≤ 256 },
    ghost whole: { length bytes ≡ 256 },
    ghost small: { All (λ b. b < 256) bytes },
}

/// A source that takes back up to 256 bytes, in front of the source below it.
#[derive(Drop)]
pub struct Pushback<S> {
    below: S,
    returned: Returned,
}
