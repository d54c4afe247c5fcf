// Things that are equal by their meaning: found in a list of them, or added.
#![tactic(auto)]

ghost use Rattle.std.specs.Prelude.{◌≡◌, ℕ, min, List, length, Decides};
ghost use Rattle.finder.specs.Placed.{Located, Placed};

pub mod name;

use bits::Bits;
pub use name::Name;

// A trait of our own, since what is found is promised by a meaning, which `PartialEq` hasn't.
pub trait Same {
    ghost meaning: { Self → List ℕ };

    fn same(&self, other: &Self) -> bool
        ensures { Decides result (Self.meaning self.now ≡ Self.meaning other.now) };
}

// Where an item is: at a place where it was already, or at one where it was added.
#[derive(Clone, Copy, PartialEq, Eq)]
pub enum Found {
    Old(usize),
    New(usize),
}

// There is no room for an item.
#[derive(Clone, Copy, PartialEq, Eq)]
pub struct Full;

// The place of the first of the items that means the same.
pub fn find<T: Same>(items: &[T], item: &T) -> Option<usize>
    ensures { Located T.meaning items.now item.now result }
{
    items.iter().position(|x| x.same(item))
}

// Finds an item among those in use, or else adds it behind them if there is room. In use are the first `count`, or all if they are fewer.
pub fn find_or_add<T: Same + Copy>(items: &mut [T], count: usize, item: &T) -> Result<Found, Full>
    ensures { Placed T.meaning items.old items.new (min count (length items.old)) item.now result }
{
    let used = count.min(items.len());
    if let Some(k) = find(&items[0..used], item) {
        return Ok(Found::Old(k));
    }
    if used == items.len() {
        return Err(Full);
    }
    items[used] = *item;
    Ok(Found::New(used))
}

impl<const W: usize> Same for Bits<W> {
    ghost meaning = { λ s. s.words };

    fn same(&self, other: &Bits<W>) -> bool {
        Bits::same(self, other)
    }
}
