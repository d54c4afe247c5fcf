// Escapes, and the byte sets in brackets.
#![tactic(auto)]

ghost use Rattle.std.specs.Prelude.{◌≡◌, ℕ, ◌+◌, ◌<◌, ◌≤◌, false, length};
ghost use Rattle.bits.specs.Set.{has};
ghost use Rattle.classes.specs.Posix.{members as class_members};
ghost use Rattle.grammar.specs.Bytes.{within};
ghost use Rattle.grammar.specs.Brackets.{control as control_of, escapable as is_escapable, escape_at, element_at, reserved as reserved_at, range_ahead, range_end, from_element, class_at, dash as dash_at, member_at, members_at, bracket_at};
ghost use Rattle.grammar.specs.Outcome.{Moves};
ghost use Rattle.brackets.specs.Sets.{chosen, Closes};

use bits::{Bits, ByteSet};
use classes::Class;
use grammar::{Fault, Read, Refusal, misfit, refused};
use tokens::{Token, literal, name_at, stands};

// What an escaped byte stands for.
fn control(b: u8) -> u8
    ensures { result ≡ control_of b }
{
    match b {
        b'a' => 7,
        b'b' => 8,
        b'f' => 12,
        b'n' => 10,
        b'r' => 13,
        b't' => 9,
        b'v' => 11,
        _ => b,
    }
}

// Whether a byte can be escaped: octal and hexadecimal escapes are not in the grammar.
fn escapable(b: u8) -> bool
    ensures { result ≡ is_escapable b }
{
    !(b.is_ascii_digit() || b == b'x')
}

// The byte at n, which stands behind a `\`.
pub fn escape(s: &[u8], n: usize) -> Result<Read<u8>, Fault>
    ensures { result ≡ escape_at s.now n }
{
    match s.get(n) {
        Some(b) if escapable(*b) => Ok(Read {
            value: control(*b),
            next: n + 1,
        }),
        _ => Err(misfit(n)),
    }
}

// A byte or an escape at n.
pub fn element(s: &[u8], n: usize) -> Result<Read<u8>, Fault>
    ensures { result ≡ element_at s.now n }
{
    match s.get(n) {
        Some(b'\\') => escape(s, n + 1),
        Some(b) => Ok(Read {
            value: *b,
            next: n + 1,
        }),
        None => Err(misfit(n)),
    }
}

// Whether `[.`, `[=` or `[:` stands at n.
fn reserved(s: &[u8], n: usize) -> bool
    ensures { result ≡ reserved_at s.now n }
{
    stands(s, n, b'[')
        && (stands(s, n + 1, b'.') || stands(s, n + 1, b'=') || stands(s, n + 1, b':'))
}

// Whether a `-` stands at n that makes a range.
fn range_ahead(s: &[u8], n: usize) -> bool
    ensures { result ≡ range_ahead s.now n }
{
    stands(s, n, b'-') && !stands(s, n + 1, b']')
}

// The last byte of a range.
fn range_end(s: &[u8], n: usize) -> Result<Read<u8>, Fault>
    ensures { result ≡ range_end s.now n }
{
    if reserved(s, n) {
        return Err(misfit(n));
    }
    element(s, n)
}

// The bytes that pass a test. It stays within this crate: it asks that the test can be called, and no public function
// asks anything.
fn bytes_where<F: Fn(u8) -> bool>(test: F) -> ByteSet
    requires { F.IsAlwaysCallable test }
    ensures tested { (b : ℕ) → b < 256 → F.post test b (has result.words b) }
    ensures within { (b : ℕ) → 256 ≤ b → has result.words b ≡ false }
{
    let mut set = Bits::empty();
    // Over the bytes themselves; no index.
    for b in 0..256 {
        if test(b as u8) {
            set.insert(b);
        }
    }
    set
}

// The bytes from `low` to `high`. It goes over these alone, and not over all bytes as `bytes_where` does: a bracket may have
// hundreds of short ranges.
fn range(low: u8, high: u8) -> ByteSet
    ensures { (b : ℕ) → has result.words b ≡ within low high b }
{
    let mut set = Bits::empty();
    for b in low..=high {
        set.insert(b as usize);
    }
    set
}

// The bytes of a class.
fn of_class(class: Class) -> ByteSet
    ensures { (b : ℕ) → has result.words b ≡ class_members class b }
{
    bytes_where(|b| classes::holds(class, b))
}

// The element e, read at n, alone or as the begin of a range.
fn from_element(s: &[u8], n: usize, e: Read<u8>) -> Result<Read<ByteSet>, Fault>
    ensures { chosen result ≡ from_element s.now n e }
{
    if !range_ahead(s, e.next) {
        return Ok(Read {
            value: Bits::only(e.value as usize),
            next: e.next,
        });
    }
    let high = range_end(s, e.next + 1)?;
    if high.value < e.value {
        return Err(refused(Refusal::OutOfBounds, n));
    }
    Ok(Read {
        value: range(e.value, high.value),
        next: high.next,
    })
}

// A class whose name begins at n.
fn class_at(s: &[u8], n: usize) -> Result<Read<ByteSet>, Fault>
    ensures { chosen result ≡ class_at s.now n }
{
    let Some(Token::Name(name)) = name_at(s, n) else {
        return Err(misfit(n));
    };
    let Some(class) = classes::class_named(name) else {
        return Err(refused(Refusal::UnknownName, n));
    };
    Ok(Read {
        value: of_class(class),
        next: literal(s, n + name.len(), b":]")?,
    })
}

// A plain `-` at n: first in its bracket, or else last.
fn dash(s: &[u8], first: bool, n: usize) -> Result<Read<ByteSet>, Fault>
    requires { n < length s.now }
    ensures { chosen result ≡ dash_at s.now first n }
{
    if first || stands(s, n + 1, b']') {
        return Ok(Read {
            value: Bits::only(b'-' as usize),
            next: n + 1,
        });
    }
    Err(misfit(n + 1))
}

// A member at n. Here and in `members` it is required that n lies in the text: a place is a plain number, as `tokens` says.
fn member(s: &[u8], first: bool, n: usize) -> Result<Read<ByteSet>, Fault>
    requires { n ≤ length s.now }
    ensures is { chosen result ≡ member_at s.now first n }
    ensures moves { Moves result n (length s.now) }
{
    if stands(s, n, b'-') {
        return dash(s, first, n);
    }
    if !reserved(s, n) {
        let e = element(s, n)?;
        return from_element(s, n, e);
    }
    if stands(s, n + 1, b':') {
        return class_at(s, n + 2);
    }
    Err(misfit(n))
}

// Members from n on, up to the `]`.
fn members(s: &[u8], n: usize) -> Result<Read<ByteSet>, Fault>
    requires { n ≤ length s.now }
    ensures is { chosen result ≡ members_at s.now n }
    ensures closes { Closes result n (length s.now) }
{
    let mut all = member(s, true, n)?;
    // A `while`: each turn reads where the one before ended, and may refuse.
    while !stands(s, all.next, b']') {
        let more = member(s, false, all.next)?;
        all.value.add_all(&more.value);
        all.next = more.next;
    }
    Ok(all)
}

// The bracket whose `[` stands before n.
pub fn bracket(s: &[u8], n: usize) -> Result<Read<ByteSet>, Fault>
    ensures is { chosen result ≡ bracket_at s.now n }
    ensures moves { Moves result n (length s.now) }
{
    if n > s.len() {
        return Err(misfit(n));
    }
    if stands(s, n, b'^') {
        let inner = members(s, n + 1)?;
        return Ok(Read {
            value: inner.value.complement(),
            next: inner.next + 1,
        });
    }
    let inner = members(s, n)?;
    Ok(Read {
        value: inner.value,
        next: inner.next + 1,
    })
}
