// Guesses where a set stands among those that are met.
ghost use Rattle.std.specs.Prelude.{◌<◌};
ghost use Rattle.loader.specs.Building.{Guessed};

use bits::PositionSet;

// Twice as many as there are rows, so that most searches end at once.
const SLOTS: usize = 2048;

// The numbers of sets, counted from 0. A set is noted in the slot that its digest names, or in the first one behind it that
// is free. Each guess is tested before it is used, so that nothing but time depends on what stands here.
#[derive(Drop)]
pub(crate) struct Guesses {
    slots: [Option<u16>; SLOTS],
}

// A number by which sets are told apart quickly: other words mostly have another one, which nothing promises.
fn digest(set: &PositionSet) -> u64 {
    let mut digest: u64 = 0;
    for word in set.words() {
        digest = (digest.rotate_left(5) ^ *word).wrapping_mul(0x9e37_79b9_7f4a_7c15);
    }
    digest
}

// The slot where the search for a set begins: eleven bits name one of them.
fn slot_of(set: &PositionSet) -> usize
    ensures { result < 2048 }
{
    (digest(set) >> 53) as usize
}

impl Guesses {
    pub(crate) fn none() -> Guesses {
        Guesses {
            slots: [None; SLOTS],
        }
    }

    // A number of one of the sets that is the same, if it is noted.
    pub(crate) fn find(&self, sets: &[PositionSet], set: &PositionSet) -> Option<usize>
        ensures { Guessed sets.now set.now result }
    {
        let first = slot_of(set);
        for i in 0..SLOTS {
            let k = self.slots[(first + i) % SLOTS]? as usize;
            if k < sets.len() && sets[k].same(set) {
                return Some(k);
            }
        }
        None
    }

    // Notes that the set has number k.
    pub(crate) fn note(&mut self, set: &PositionSet, k: u16) {
        let first = slot_of(set);
        for i in 0..SLOTS {
            let slot = (first + i) % SLOTS;
            if self.slots[slot].is_none() {
                self.slots[slot] = Some(k);
                return;
            }
        }
    }
}
