// Expressions: alternation, branch, piece and atom read each other in a cycle, and lay down positions in the work memory as they go.
#![tactic(auto)]

ghost use Rattle.std.specs.Prelude.{◌≡◌, ℕ, suc, ◌+◌, ◌-◌, ◌*◌, ◌^◌, ◌<◌, ◌≤◌, true, length, Ok, MatchOption, ◌==◌};
ghost use Rattle.bits.specs.Set.{has};
ghost use Rattle.brackets.specs.Sets.{set, chosen as chosen_as};
ghost use Rattle.grammar.specs.Bytes.{passes};
ghost use Rattle.grammar.specs.Outcome.{seen, Moves as ReadMoves};
ghost use Rattle.grammar.specs.Expressions.{extra as extra_of, starts_atom, any_but_newline, bytes_at, only_byte, one_of, one_at, quoted_byte, quoted_more, quote_at, inside, group_by, atom_by, piece_by, branch_more, branch_by, alternation_more, alternation_by};
ghost use Rattle.expressions.specs.Frames.{Plain, Marked, Forms, Copies};
ghost use Rattle.expressions.specs.Lays.{Lays, Gives, Steps, Moves};
ghost use Rattle.expressions.specs.Reads.{Repeating, Counted, JoinsOn, MarksOn, goes_on, interval_over, Expressed};

mod intervals;

use bits::{Bits, ByteSet, PositionSet};
use brackets::{bracket, element, escape};
use grammar::{Fault, Interval, Read, Refusal, misfit, refused};
use intervals::bounds;
use positions::{Fragment, POSITIONS, Repeat, choice, copied, leaf, repeats, sequence};
use tokens::stands;

// A part of a pattern: its positions, the place behind its text, and how many positions are used then.
#[derive(Clone, Copy)]
pub struct Parsed {
    pub part: Fragment,
    pub at: usize,
    pub used: usize,
}

impl Parsed {
    // One byte further.
    fn past(self) -> Self
        requires { self.at < 2 ^ 64 - 1 }
        ensures { result ≡ record { part = self.part; at = self.at + 1; used = self.used } }
    {
        Parsed {
            at: self.at + 1,
            ..self
        }
    }

    // This, and then `next`.
    fn then(self, next: Self, work: &mut Work) -> Self
        ensures { JoinsOn work.old work.new self next result }
    {
        Parsed {
            part: sequence(work, &self.part, &next.part),
            ..next
        }
    }

    // This with one more repeat mark.
    fn marked(self, mark: Repeat, work: &mut Work) -> Self
        requires { self.at < 2 ^ 64 - 1 }
        ensures { MarksOn mark work.old work.new self result }
    {
        Parsed {
            part: repeats(work, mark, &self.part),
            ..self.past()
        }
    }
}

// A set for the bytes of each position, and one for what follows it.
const SETS: usize = 2 * POSITIONS;

type Work = [PositionSet; SETS];

// How many parentheses may be open at a time.
const DEPTH: usize = 16;

// How many copies an interval asks for beyond the first.
fn extra(interval: Interval) -> usize
    ensures { result ≡ extra_of interval }
{
    match interval {
        Interval::Between(_, n) => n.saturating_sub(1),
        Interval::AtLeast(m) => m,
    }
}

// What marks copy k of an interval: nothing for the first ones, `?` or `*` for those that may be left out.
fn form(interval: Interval, k: usize) -> Option<Repeat>
    ensures { MatchOption result (Plain interval k) (Marked interval k) }
{
    match interval {
        Interval::Between(m, _) if k >= m => Some(Repeat::Maybe),
        Interval::AtLeast(m) if k >= m => Some(Repeat::Many),
        _ => None,
    }
}

// Copy k, which x is, as the interval wants it.
fn formed(work: &mut Work, interval: Interval, k: usize, x: &Fragment) -> Fragment
    ensures { Forms interval k work.old work.new x.now result }
{
    match form(interval, k) {
        Some(mark) => repeats(work, mark, x),
        None => *x,
    }
}

// The copies of x, whose `size` positions begin at `base`, side by side. From the last to the first, so that the
// original is copied before anything is joined to it; k is the number of a copy, and indexes nothing.
fn copies(work: &mut Work, base: usize, size: usize, interval: Interval, x: &Fragment) -> Fragment
    requires { base + suc (extra_of interval) * size ≤ 512 }
    ensures { Copies interval base size work.old work.new x.now result }
{
    let last = extra(interval);
    let copy = copied(work, base, size, last * size, x);
    let mut all = formed(work, interval, last, &copy);
    for k in (0..last).rev() {
        let copy = copied(work, base, size, k * size, x);
        let next = formed(work, interval, k, &copy);
        all = sequence(work, &next, &all);
    }
    all
}

// The interval at the end of `all`, over everything to its left in the branch, which begins with position `base`.
fn repeated(s: &[u8], all: Parsed, base: usize, work: &mut Work) -> Result<Parsed, Fault>
    requires { (Counted base all) × (all.at < length s.now) }
    ensures gives { Steps (interval_over s.now) base work.old work.new all result }
    ensures moves { Moves result all.at (length s.now) }
{
    let bounds = bounds(s, all.at + 1)?;
    let size = all.used - base;
    let more = extra(bounds.value) * size;
    if all.used + more > POSITIONS {
        return Err(refused(Refusal::LimitPassed, all.at));
    }
    Ok(Parsed {
        part: copies(work, base, size, bounds.value, &all.part),
        at: bounds.next,
        used: all.used + more,
    })
}

// What `.` takes.
fn any_but_newline() -> ByteSet
    ensures { (q : ℕ) → has result.words q ≡ any_but_newline q }
{
    Bits::only(b'\n' as usize).complement()
}

// Whether an atom can begin with b.
pub fn starts_atom(b: u8) -> bool
    ensures { result ≡ starts_atom b }
{
    match b {
        b'$' | b')' | b'*' | b'+' | b'/' | b'<' | b'>' | b'?' | b']' | b'^' | b'{' | b'|' | b'}' =>
            false,
        _ => b > 32,
    }
}

// Whether an atom can begin at n.
fn atom_ahead(s: &[u8], n: usize) -> bool
    ensures { result ≡ passes starts_atom s.now n }
{
    s.get(n).is_some_and(|b| starts_atom(*b))
}

// That one byte.
fn only_byte(e: Read<u8>) -> Read<ByteSet>
    ensures { Ok (seen set result) ≡ only_byte e }
{
    Read {
        value: Bits::only(e.value as usize),
        next: e.next,
    }
}

// The bytes that the atom at n takes, where it is no quote and no group.
fn bytes_at(s: &[u8], n: usize) -> Result<Read<ByteSet>, Fault>
    requires { n < length s.now }
    ensures is { chosen_as result ≡ bytes_at s.now n }
    ensures moves { ReadMoves result n (length s.now) }
{
    match s[n] {
        b'[' => bracket(s, n + 1),
        b'\\' => Ok(only_byte(escape(s, n + 1)?)),
        b'.' => Ok(Read {
            value: any_but_newline(),
            next: n + 1,
        }),
        b => Ok(only_byte(Read {
            value: b,
            next: n + 1,
        })),
    }
}

// One position of these bytes.
fn position(chosen: Read<ByteSet>, used: usize, work: &mut Work) -> Parsed
    requires { used < 512 }
    ensures gives { Lays (one_of used (seen set chosen)) used work.old work.new result }
    ensures moves { result.at ≡ chosen.next }
{
    Parsed {
        part: leaf(work, used, &chosen.value),
        at: chosen.next,
        used: used + 1,
    }
}

// An atom that is one position.
fn one(s: &[u8], at: usize, used: usize, work: &mut Work) -> Result<Parsed, Fault>
    ensures gives { Gives (one_at s.now at used) used work.old work.new result }
    ensures moves { Moves result at (length s.now) }
{
    if !atom_ahead(s, at) {
        return Err(misfit(at));
    }
    if used >= POSITIONS {
        return Err(refused(Refusal::LimitPassed, at));
    }
    let chosen = bytes_at(s, at)?;
    Ok(position(chosen, used, work))
}

// A byte or an escape between quotes.
fn quoted(s: &[u8], at: usize, used: usize, work: &mut Work) -> Result<Parsed, Fault>
    ensures gives { Gives (quoted_byte s.now at used) used work.old work.new result }
    ensures moves { Moves result at (length s.now) }
{
    if at >= s.len() {
        return Err(misfit(at));
    }
    if used >= POSITIONS {
        return Err(refused(Refusal::LimitPassed, at));
    }
    let e = element(s, at)?;
    Ok(position(only_byte(e), used, work))
}

// One more byte or escape of a quote.
fn quoted_more(s: &[u8], all: Parsed, base: usize, work: &mut Work) -> Result<Parsed, Fault>
    ensures gives { Steps (quoted_more s.now) base work.old work.new all result }
    ensures moves { Moves result all.at (length s.now) }
{
    let more = quoted(s, all.at, all.used, work)?;
    Ok(all.then(more, work))
}

// What stands between quotes, the first of which is before `at`.
fn quote(s: &[u8], at: usize, used: usize, work: &mut Work) -> Result<Parsed, Fault>
    ensures gives { Gives (quote_at s.now at used) used work.old work.new result }
    ensures moves { Moves result at (length s.now) }
{
    if stands(s, at, b'"') {
        return Err(misfit(at));
    }
    let mut all = quoted(s, at, used, work)?;
    // A `while`, as in the loops below: each turn reads where the one before ended, and may refuse.
    while !stands(s, all.at, b'"') {
        all = quoted_more(s, all, used, work)?;
    }
    Ok(all.past())
}

// The text, the depth and the work memory go through the cycle as parameters: a parser's contracts would each have to say
// that its text is unchanged, which `&[u8]` says by its type. `all` and `base` stay two, as each turn gives a new `all`
// over the same `base`. `branch` and `alternation` stay two functions: in a cycle no closure can lend the work memory.
#[cycle(alternation_alternative_atom_branch_extended_group_piece)]
fn group(s: &[u8], at: usize, used: usize, depth: usize, work: &mut Work) -> Result<Parsed, Fault>
    requires { at < length s.now }
    ensures gives { Gives (group_by (inside depth s.now) s.now at used) used work.old work.new
        result }
    ensures moves { Moves result at (length s.now) }
{
    if depth == 0 {
        return Err(refused(Refusal::LimitPassed, at));
    }
    let inner = alternation(s, at + 1, used, depth - 1, work)?;
    if !stands(s, inner.at, b')') {
        return Err(misfit(inner.at));
    }
    Ok(inner.past())
}

#[cycle(alternation_alternative_atom_branch_extended_group_piece)]
fn atom(s: &[u8], at: usize, used: usize, depth: usize, work: &mut Work) -> Result<Parsed, Fault>
    ensures gives { Gives (atom_by (inside depth s.now) s.now at used) used work.old work.new result }
    ensures moves { Moves result at (length s.now) }
{
    if stands(s, at, b'"') {
        return quote(s, at + 1, used, work);
    }
    if stands(s, at, b'(') {
        return group(s, at, used, depth, work);
    }
    one(s, at, used, work)
}

// What `*`, `+` or `?` at n stands for.
fn repeat_mark(s: &[u8], n: usize) -> Option<Repeat>
    ensures { Repeating s.now n result }
{
    match s.get(n)? {
        b'*' => Some(Repeat::Many),
        b'+' => Some(Repeat::Some),
        b'?' => Some(Repeat::Maybe),
        _ => None,
    }
}

#[cycle(alternation_alternative_atom_branch_extended_group_piece)]
fn piece(s: &[u8], at: usize, used: usize, depth: usize, work: &mut Work) -> Result<Parsed, Fault>
    ensures gives { Gives (piece_by (inside depth s.now) s.now at used) used work.old work.new
        result }
    ensures moves { Moves result at (length s.now) }
{
    let mut all = atom(s, at, used, depth, work)?;
    // A `while`, as in `quote`.
    while let Some(mark) = repeat_mark(s, all.at) {
        all = all.marked(mark, work);
    }
    Ok(all)
}

// Whether a branch goes on at n, with a piece or an interval.
fn goes_on(s: &[u8], n: usize) -> bool
    ensures { result ≡ goes_on s.now n }
{
    stands(s, n, b'{') || atom_ahead(s, n)
}

// The branch `all`, which begins with position `base`, and one more piece, or an interval over all of it.
#[cycle(alternation_alternative_atom_branch_extended_group_piece)]
fn extended(
    s: &[u8],
    all: Parsed,
    base: usize,
    depth: usize,
    work: &mut Work,
) -> Result<Parsed, Fault>
    requires { Counted base all }
    ensures gives { Steps (branch_more (inside depth s.now) s.now) base work.old work.new all result }
    ensures moves { Moves result all.at (length s.now) }
{
    if stands(s, all.at, b'{') {
        return repeated(s, all, base, work);
    }
    let more = piece(s, all.at, all.used, depth, work)?;
    Ok(all.then(more, work))
}

#[cycle(alternation_alternative_atom_branch_extended_group_piece)]
fn branch(s: &[u8], at: usize, used: usize, depth: usize, work: &mut Work) -> Result<Parsed, Fault>
    ensures gives { Gives (branch_by (inside depth s.now) s.now at used) used work.old work.new
        result }
    ensures moves { Moves result at (length s.now) }
{
    let mut all = piece(s, at, used, depth, work)?;
    // A `while`, as in `quote`.
    while goes_on(s, all.at) {
        all = extended(s, all, used, depth, work)?;
    }
    Ok(all)
}

// `all`, or the branch behind the `|` that stands there.
#[cycle(alternation_alternative_atom_branch_extended_group_piece)]
fn alternative(
    s: &[u8],
    all: Parsed,
    base: usize,
    depth: usize,
    work: &mut Work,
) -> Result<Parsed, Fault>
    requires { all.at < length s.now }
    ensures gives { Steps (alternation_more (inside depth s.now) s.now) base work.old work.new all
        result }
    ensures moves { Moves result all.at (length s.now) }
{
    let more = branch(s, all.at + 1, all.used, depth, work)?;
    Ok(Parsed {
        part: choice(&all.part, &more.part),
        ..more
    })
}

// Its last clause is for `expression`, which borrows the array out of a slice.
#[cycle(alternation_alternative_atom_branch_extended_group_piece)]
fn alternation(
    s: &[u8],
    at: usize,
    used: usize,
    depth: usize,
    work: &mut Work,
) -> Result<Parsed, Fault>
    ensures gives { Gives (alternation_by (inside depth s.now) s.now at used) used work.old work.new
        result }
    ensures moves { Moves result at (length s.now) }
    ensures whole { length work.new ≡ 1024 }
{
    let mut all = branch(s, at, used, depth, work)?;
    // A `while`, as in `quote`.
    while stands(s, all.at, b'|') {
        all = alternative(s, all, used, depth, work)?;
    }
    Ok(all)
}

// The alternation at `at`, with `used` positions used before it. Too little work memory is refused, and left as it is.
pub fn expression(
    s: &[u8],
    at: usize,
    used: usize,
    work: &mut [PositionSet],
) -> Result<Parsed, Fault>
    ensures gives { Expressed s.now at used work.old work.new result }
    ensures moves { Moves result at (length s.now) }
{
    let Some(work) = work.first_chunk_mut() else {
        return Err(refused(Refusal::Memory, 0));
    };
    alternation(s, at, used, DEPTH, work)
}
