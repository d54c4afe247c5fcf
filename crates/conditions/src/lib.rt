// Start conditions: how they are declared, and how they are named.
#![tactic(auto)]

ghost use Rattle.std.specs.Prelude.{◌≡◌, ℕ, ◌<◌, ◌≤◌, ◌&&◌, ◌||◌, length, IfOk, MatchResult, ◌==◌};
ghost use Rattle.bits.specs.Set.{has};
ghost use Rattle.conditions.specs.Spelt.{NameAt, NoName};

use bits::{Bits, ConditionSet};
use finder::{Found, Full, Name};
use grammar::{Fault, Read, Refusal, misfit, refused};
use tokens::{Token, behind_blanks, name_at, stands};

// How many conditions a file may have, INITIAL among them.
pub const CONDITIONS: usize = 8;

// The declared conditions in the order of their numbers; INITIAL is 0. No Vec: the library has no heap.
#[derive(Clone, Copy)]
pub struct Conditions {
    names: [Name; CONDITIONS],
    count: usize,
    inclusive: ConditionSet,
    ghost few: { count ≤ 8 },
}

// The name at n.
fn spelt_at(s: &[u8], n: usize) -> Result<Read<Name>, Fault>
    ensures { MatchResult result (NameAt s.now n) (NoName s.now n) }
{
    let Some(Token::Name(text)) = name_at(s, n) else {
        return Err(misfit(n));
    };
    Ok(Read {
        value: Name::of(text),
        next: n + text.len(),
    })
}

// The conditions of the set, and k if it is inclusive.
fn included(set: ConditionSet, k: usize, inclusive: bool) -> ConditionSet
    requires { k < 64 }
    ensures { (j : ℕ) → has result.words j ≡ (has set.words j || (inclusive && j == k)) }
{
    let mut more = set;
    if inclusive {
        more.insert(k);
    }
    more
}

impl Conditions {
    ghost use Rattle.grammar.specs.Outcome.{Moves};
    ghost use Rattle.grammar.specs.Conditions.{only_initial, condition_at, picked_at, active_at, declare_at, declare_more, declared as declared_at, declaration as declaration_at};
    ghost use Rattle.conditions.specs.Known.{known, picks, declares, declared_from, reads};

    // INITIAL alone, which is inclusive.
    pub fn initial() -> Conditions
        ensures { known result ≡ only_initial }
    {
        let mut names = [Name::blank(); CONDITIONS];
        names[0] = Name::of(b"INITIAL");
        Conditions {
            names,
            count: 1,
            inclusive: Bits::only(0),
        }
    }

    // How many there are.
    pub fn number(&self) -> usize
        ensures { result ≡ length (known self.now).names }
    {
        self.count
    }

    // The condition that is named at n.
    pub fn named(&self, s: &[u8], n: usize) -> Result<Read<u8>, Fault>
        ensures is { result ≡ condition_at s.now (known self.now) n }
        ensures small { IfOk result (λ k. k.value < 8) }
        ensures moves { Moves result n (length s.now) }
    {
        let spelt = spelt_at(s, n)?;
        match finder::find(&self.names[0..self.count], &spelt.value) {
            Some(k) => Ok(Read {
                value: k as u8,
                next: spelt.next,
            }),
            None => Err(refused(Refusal::UnknownName, n)),
        }
    }

    // The conditions that are named from n on, divided by commas, up to a `>`.
    fn list(&self, s: &[u8], n: usize) -> Result<Read<ConditionSet>, Fault>
        ensures is { picks result ≡ picked_at s.now (known self.now) n }
        ensures moves { Moves result n (length s.now) }
    {
        let first = self.named(s, n)?;
        let mut picked = Read {
            value: Bits::only(first.value as usize),
            next: first.next,
        };
        // A `while`: each turn reads where the one before ended, and may refuse.
        while stands(s, picked.next, b',') {
            let more = self.named(s, picked.next + 1)?;
            picked.value.insert(more.value as usize);
            picked.next = more.next;
        }
        if !stands(s, picked.next, b'>') {
            return Err(misfit(picked.next));
        }
        // Past the `>`; nothing is counted.
        picked.next += 1;
        Ok(picked)
    }

    // Where a rule line that starts at n is active: in the conditions that it names in `< >`, or else in all that are inclusive.
    pub fn active(&self, s: &[u8], n: usize) -> Result<Read<ConditionSet>, Fault>
        ensures is { picks result ≡ active_at s.now (known self.now) n }
        ensures moves { IfOk result (λ p. (n ≤ p.next)
            × (n ≤ length s.now → p.next ≤ length s.now)) }
    {
        if stands(s, n, b'<') {
            return self.list(s, n + 1);
        }
        Ok(Read {
            value: self.inclusive,
            next: n,
        })
    }

    // With the name at n, which no condition has yet. `inclusive` says whether it is, as in the grammar.
    fn declare(self, s: &[u8], n: usize, inclusive: bool) -> Result<Read<Conditions>, Fault>
        ensures is { reads result ≡ declare_at s.now inclusive (known self) n }
        ensures moves { Moves result n (length s.now) }
    {
        let spelt = spelt_at(s, n)?;
        let mut names = self.names;
        match finder::find_or_add(&mut names, self.count, &spelt.value) {
            Ok(Found::Old(_)) => Err(refused(Refusal::DeclaredAgain, n)),
            Ok(Found::New(k)) => Ok(Read {
                value: Conditions {
                    names,
                    count: k + 1,
                    inclusive: included(self.inclusive, k, inclusive),
                },
                next: spelt.next,
            }),
            Err(Full) => Err(refused(Refusal::LimitPassed, n)),
        }
    }

    // With the name behind the blanks at n, of which there is at least one.
    fn declare_behind(self, s: &[u8], n: usize, inclusive: bool) -> Result<Read<Conditions>, Fault>
        ensures is { reads result ≡ declare_more s.now inclusive (declared_from self n) }
        ensures moves { Moves result n (length s.now) }
    {
        self.declare(s, behind_blanks(s, n)?, inclusive)
    }

    // With the names from n on, one or more, up to the line's end.
    fn declared(self, s: &[u8], n: usize, inclusive: bool) -> Result<Conditions, Fault>
        ensures { declares result ≡ declared_at s.now inclusive (declared_from self n) }
    {
        let mut read = self.declare_behind(s, n, inclusive)?;
        // A `while`, as in `list`.
        while read.next < s.len() {
            read = read.value.declare_behind(s, read.next, inclusive)?;
        }
        Ok(read.value)
    }

    // With the names that the declaration at n has: `%s` or `%x` and one or more names.
    pub fn declaration(self, s: &[u8], n: usize) -> Result<Conditions, Fault>
        ensures { declares result ≡ declaration_at s.now n (known self) }
    {
        if !stands(s, n, b'%') {
            return Err(misfit(n));
        }
        match s.get(n + 1) {
            Some(b's') => self.declared(s, n + 2, true),
            Some(b'x') => self.declared(s, n + 2, false),
            Some(b'%') => Err(misfit(n + 2)),
            _ => Err(misfit(n + 1)),
        }
    }
}
