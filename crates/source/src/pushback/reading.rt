// How the bytes are read and put back: apart from the struct, since specs/ names it.
ghost use Rattle.std.specs.Prelude.{◌≡◌, ℕ};
ghost use Rattle.std.proofs.Common.{arith};
ghost use Rattle.source.specs.Pushback.{rest_with, slack_of};
ghost use Rattle.source.specs.Pushback.{slack_within, slack_supplied, small_with};

use crate::pushback::{MOST, Pushback, Returned};
use crate::{REACH, Source, SourceFault};

impl<S: Source> Pushback<S> {
    /// The source, with nothing put back.
    pub fn new(below: S) -> Pushback<S>
        ensures rest { rest_with S.rest result ≡ S.rest below }
        ensures slack { slack_of result ≡ 256 }
        ensures below { result.below ≡ below }
    {
        Pushback {
            below,
            returned: Returned {
                bytes: [0; MOST],
                count: 0,
            },
        }
    }
}

impl<S: Source> Source for Pushback<S> {
    const CAPACITY: usize = MOST;

    ghost CAPACITY = { 256 };

    ghost rest = { rest_with S.rest };

    ghost slack = { slack_of };

    fn left(&self) -> usize {
        (self.returned.count + self.below.left()).min(REACH)
    }

    fn look(&self, k: usize) -> Option<u8> {
        let count = self.returned.count;
        if k >= self.left() {
            None
        } else if k < count {
            Some(self.returned.bytes[MOST - count + k])
        } else {
            self.below.look(k - count)
        }
    }

    fn go_by(&mut self, n: usize) -> Result<(), SourceFault> {
        // Before anything is dropped: a source that refuses stays as it was.
        if n > self.left() {
            return Err(SourceFault::PastEnd);
        }
        let count = self.returned.count;
        if n <= count {
            self.returned.count = count - n;
        } else {
            self.below.go_by(n - count)?;
            self.returned.count = 0;
        }
        Ok(())
    }

    fn put_back(&mut self, b: u8) -> Result<(), SourceFault> {
        let count = self.returned.count;
        if count == MOST {
            return Err(SourceFault::NoSlack);
        }
        self.returned.bytes[MOST - 1 - count] = b;
        self.returned.count = count + 1;
        Ok(())
    }

    ghost small = { small_with S.rest S.small };

    ghost fits = { Prim.omega arith };

    ghost within = { slack_within };

    ghost supplied = { slack_supplied S.rest };
}
