// The strip: memory of the caller, in which the text stands that is kept and in hand.
ghost use Rattle.std.specs.Prelude.{◌≡◌, ◌+◌, ◌≤◌, length};
ghost use lib.Seq.{paste};
ghost use Rattle.source.specs.Reach.{seen_of};

use source::Source;

/// A strip has room for every text that a reader keeps and offers.
pub const STRIP_BYTES: usize = 4096;

// Writes the first n bytes of what is left into the strip from `at` on, and no other byte.
pub(crate) fn copy_front<S: Source>(source: &S, n: usize, strip: &mut [u8], at: usize)
    requires seen { n ≤ seen_of (S.rest source.now) }
    requires room { at + n ≤ length strip.old }
    ensures { strip.new ≡ paste strip.old at (S.rest source.now) n }
{
    // By number, since a source is looked at by number.
    for k in 0..n {
        strip[at + k] = source.look(k).unwrap_or(0);
    }
}
