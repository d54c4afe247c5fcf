// Positions in the lent work memory: which bytes each takes, and which may follow it.
#![tactic(auto)]

ghost use Rattle.std.specs.Prelude.{◌≡◌, ℕ, ◌+◌, ◌-◌, ◌≤◌, ◌&&◌, ◌||◌, length, if◌then◌else◌, nat_le, nat_lt};
ghost use Rattle.bits.specs.Set.{has};
ghost use Rattle.positions.specs.Memory.{Leaf, Linked, Sequence, Choice, Repeats, Copied, member, roomy, between, copiable, empties, goes_round};

use bits::{Bits, ByteSet, PositionSet};

// How many positions a rule file may have, marks among them. Positions are numbers, and what follows position p is set
// POSITIONS + p of the work memory: that is lent and fixed, as the library has no heap.
pub const POSITIONS: usize = 512;

// A part of a pattern by its positions: whether it can be empty, and where its strings begin and end.
#[derive(Clone, Copy)]
pub struct Fragment {
    pub nullable: bool,
    pub first: PositionSet,
    pub last: PositionSet,
}

// What `*`, `+` and `?` stand for.
#[derive(Clone, Copy, PartialEq, Eq)]
pub enum Repeat {
    Many,
    Some,
    Maybe,
}

impl Repeat {
    // Whether what has the mark may be left out.
    fn may_lack(self) -> bool
        ensures { result ≡ empties self }
    {
        self != Repeat::Some
    }

    // Whether what has the mark may come again straight after itself.
    fn goes_round(self) -> bool
        ensures { result ≡ goes_round self }
    {
        self != Repeat::Maybe
    }
}

// Whether there are sets for every position: one for its bytes, and one for what follows it.
fn is_roomy(work: &[PositionSet]) -> bool
    ensures { result ≡ roomy work.now }
{
    work.len() >= 2 * POSITIONS
}

// The position p, which takes these bytes and which nothing follows yet.
pub fn leaf(work: &mut [PositionSet], p: usize, bytes: &ByteSet) -> Fragment
    ensures { Leaf work.old work.new p bytes.now.words result }
{
    let only = Bits::only(p);
    if is_roomy(work) && p < POSITIONS {
        work[p] = bytes.resized();
        work[POSITIONS + p] = Bits::empty();
    }
    Fragment {
        nullable: false,
        first: only,
        last: only,
    }
}

// Lets each of `starts` follow each of `ends`.
pub fn link(work: &mut [PositionSet], ends: &PositionSet, starts: &PositionSet)
    ensures { Linked work.old work.new ends.now.words starts.now.words }
{
    if !is_roomy(work) {
        return;
    }
    for (p, next) in work[POSITIONS..2 * POSITIONS].iter_mut().enumerate() {
        if ends.has(p) {
            next.add_all(starts);
        }
    }
}

// x, and then y.
pub fn sequence(work: &mut [PositionSet], x: &Fragment, y: &Fragment) -> Fragment
    ensures { Sequence work.old work.new x.now y.now result }
{
    link(work, &x.last, &y.first);
    // What can be empty lets its neighbour begin or end the whole.
    let first = if x.nullable {
        x.first.either(&y.first)
    } else {
        x.first
    };
    let last = if y.nullable {
        x.last.either(&y.last)
    } else {
        y.last
    };
    Fragment {
        nullable: x.nullable && y.nullable,
        first,
        last,
    }
}

// x or y.
pub fn choice(x: &Fragment, y: &Fragment) -> Fragment
    ensures { Choice x.now y.now result }
{
    Fragment {
        nullable: x.nullable || y.nullable,
        first: x.first.either(&y.first),
        last: x.last.either(&y.last),
    }
}

// x with a repeat mark.
pub fn repeats(work: &mut [PositionSet], mark: Repeat, x: &Fragment) -> Fragment
    ensures { Repeats mark work.old work.new x.now result }
{
    if mark.goes_round() {
        link(work, &x.last, &x.first);
    }
    Fragment {
        nullable: mark.may_lack() || x.nullable,
        first: x.first,
        last: x.last,
    }
}

// Whether there is room, and the copies lie past the originals and below POSITIONS. Differences are compared, since a sum could pass what a usize holds.
fn is_copiable(work: &[PositionSet], from: usize, count: usize, by: usize) -> bool
    ensures { result ≡ copiable work.now from count by }
{
    is_roomy(work)
        && count <= by
        && by <= POSITIONS
        && from <= POSITIONS - by
        && count <= POSITIONS - by - from
}

// Copies `count` sets from `from` on to `by` further up. The three stay three numbers: what holds of them is said of the
// work memory too, which no struct of the three has.
fn copy_sets(work: &mut [PositionSet], from: usize, count: usize, by: usize)
    requires { (count ≤ by) × (from + count + by ≤ length work.old) }
    ensures { (k q : ℕ) → member work.new k q ≡ (if between (from + by) (from + count + by) k then
        member work.old (k - by) q else member work.old k q) }
{
    work.copy_within(from..from + count, from + by);
}

// As `copy_sets`, with each member of the copies moved up as well.
fn move_sets(work: &mut [PositionSet], from: usize, count: usize, by: usize)
    requires { (count ≤ by) × (from + count + by ≤ length work.old) }
    ensures { (k q : ℕ) → member work.new k q ≡ (if between (from + by) (from + count + by) k then
        nat_lt q 512 && (nat_le by q && member work.old (k - by) (q - by)) else member work.old k q) }
{
    // Copied and moved up in one go, so that each set is gone over once.
    let (front, back) = work.split_at_mut(from + by);
    for (i, set) in back[..count].iter_mut().enumerate() {
        *set = front[from + i].shifted(by);
    }
}

// A copy of the `count` positions from `from` on, and of x, which is made of them, `by` further up.
pub fn copied(
    work: &mut [PositionSet],
    from: usize,
    count: usize,
    by: usize,
    x: &Fragment,
) -> Fragment
    ensures { Copied work.old work.new from count by x.now result }
{
    if is_copiable(work, from, count, by) {
        copy_sets(work, from, count, by);
        move_sets(work, POSITIONS + from, count, by);
    }
    Fragment {
        nullable: x.nullable,
        first: x.first.shifted(by),
        last: x.last.shifted(by),
    }
}
